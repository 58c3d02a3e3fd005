//! The reference switch, the reference beside the switch of pl_tables, which the program runs: what PortLand's
//! software does at an edge, an aggregation or a core switch (SIGCOMM 2009), and nothing besides.
//!
//! `ReferenceSwitch` is a `SwitchLogic` under the exact rule of a switch (pl_switch_rule, `specs/SwitchRule.antt`):
//! of what comes and of what it knows, all that it does and will know follows. What it keeps, and what it
//! does with control frames, stands in pl_switch_state, and the rows for data frames in pl_data_rows; the ports by
//! which a unicast frame may leave it finds by a look at each port.
#![tactic(auto)]

pub use reference_switch::ReferenceSwitch;

mod records;
mod reference_switch;
mod switch_logic;
