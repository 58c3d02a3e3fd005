//! The switch that the program runs (pl_switch has the reference): it keeps prefix tables, of its usable
//! ports those up, of these the ones that an address is not to take, and those down by position or by pod.
//!
//! `TableSwitch` is a `SwitchLogic` under the exact rule of a switch, as the reference switch is: the tables follow
//! from what a switch knows, and say of a unicast frame what its rule says. A frame costs a look-up by
//! halving. What comes changes the rows that it touches: each port's lead is kept, which is what its
//! neighbour is to the switch, and a port whose lead is what it was is passed over.
//!
//! The rows for data frames stand in pl_data_rows, and what is known of ports, addresses and trees in
//! pl_switch_state.
#![tactic(auto)]

pub use port_rows::{PortRow, PortRows};
pub use prefix_tables::PrefixTables;
pub use table_switch::TableSwitch;

mod asked;
mod filling;
mod following;
mod hosts;
mod keeping;
mod lead;
mod lists;
mod port_rows;
mod prefix_tables;
mod records;
mod switch_logic;
mod table_switch;
