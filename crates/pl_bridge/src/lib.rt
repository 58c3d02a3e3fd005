//! A learning bridge, and a fabric manager that says nothing.
//!
//! `BridgeSwitch` is a `SwitchLogic` under the rule of a bridge (pl_bridge_rule, `specs/BridgeRule.antt`),
//! and `QuietManager` a `ManagerLogic` that answers as one that was never told anything.
#![tactic(auto)]

pub use bridge_switch::BridgeSwitch;
pub use bridge_table::BridgeTable;
pub use quiet_manager::QuietManager;
pub use table_laws::what_is_learnt_is_found;

mod bridge_switch;
mod bridge_table;
mod flooding;
mod quiet_manager;
mod receiving;
mod table_laws;
