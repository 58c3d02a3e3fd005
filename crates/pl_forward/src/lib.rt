//! By which ports a switch passes a frame on. Of a unicast frame these are the candidates, of which the
//! flow names one; of a frame to a group they are the ports to which a copy goes, by the switch's part of
//! the group's tree. A switch answers for its candidates itself (`UnicastFacts`): by what it keeps, or by
//! `candidates`, which looks at each port once, as all else here does over `SwitchFacts`. Memory is taken
//! only for the acts in which a frame is passed on.
#![tactic(auto)]

pub use choice::{choose, choose_by_flow};
pub use group_acts::forward_to_group;
pub use group_facts::GroupFacts;
pub use group_hosts::{host_ports, is_local};
pub use group_tree::{cause_of_no_way, group_port_up, group_ports, group_ports_down};
pub use leading::candidates;
pub use unicast::{came_by, forward, next_port};
pub use unicast_facts::UnicastFacts;

mod choice;
mod group_acts;
mod group_facts;
mod group_hosts;
mod group_tree;
mod leading;
mod port_test;
mod unicast;
mod unicast_facts;
