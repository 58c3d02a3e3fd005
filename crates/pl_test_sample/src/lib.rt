//! The smallest software that a world can run: a switch that passes frames on by the next port, a
//! manager that says nothing, and a host that sends one frame.
//!
//! They are samples, for tests of the world and for who writes a switch, a manager or a host: each
//! shows all that its trait asks for, with a rule of a few lines (`specs/Passing.antt`,
//! `specs/Silence.antt`, `specs/Sending.antt`; a switch and a manager that speak to each other:
//! `specs/Asking.antt`, `specs/Giving.antt`). They do not make a fabric: nothing here finds its
//! place, learns an address or avoids a failed link.
#![tactic(auto)]

pub use next_port::NextPort;
pub use one_frame::OneFrame;
pub use pod_asker::PodAsker;
pub use pod_giver::PodGiver;
pub use silent::Silent;
pub use two_ports::TwoPorts;

mod next_port;
mod one_frame;
mod pod_asker;
mod pod_giver;
mod silent;
mod two_ports;
