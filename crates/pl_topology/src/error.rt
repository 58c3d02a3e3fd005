ghost use Rattle.std.specs.Prelude.{◌≡◌, Some};
ghost use Rattle.pl_topology.specs.Errors.{error_text};
ghost use Rattle.pl_topology.specs.declared.error.TopologyError.TheVariants.{Memory};

use crate::Key;
use pl_frame::SwitchId;
use pl_wiring::{Label, Name};
use std::alloc::{AllocError, AllocFailed};
use std::error::Error;
use std::fmt;

/// Why a topology file is refused. The whole file is tried for the first kind, then for the second
/// and so on; within a kind the order is the `switch` tables, the `link` tables and the `host`
/// tables, each as the file has them, and within a table the order of its keys.
#[derive(Debug, Drop)]
pub enum TopologyError {
    /// The bytes are no TOML document.
    NotToml,
    /// `k` is absent, no integer, odd, or not 4 to 24.
    BadK,
    /// A table lacks a key that is not optional.
    Missing(Key),
    /// The value of a key has another type or form than the key wants.
    BadValue(Key),
    /// Two switches have this id.
    DoubleId(SwitchId),
    /// Two hosts have this name.
    DoubleHost(Name),
    /// This host has the MAC or IPv4 address of an earlier one.
    DoubleAddress(Name),
    /// The switch has no such port, or two links, two hosts or a link and a host are at it.
    BadPort(Label, i64),
    /// A link table joins two switches that a fat tree does not join.
    NotFatTree(Label, Label),
    Memory,
}

/// The variant's name and its fields, a space before each.
impl fmt::Display for TopologyError {
    ghost output = { λ e. Some (error_text e) };

    fn fmt<W: fmt::Write>(&self, f: &mut fmt::Formatter<W>) -> fmt::Result {
        match self {
            TopologyError::NotToml => write!(f, "NotToml"),
            TopologyError::BadK => write!(f, "BadK"),
            TopologyError::Missing(key) => write!(f, "Missing {key}"),
            TopologyError::BadValue(key) => write!(f, "BadValue {key}"),
            TopologyError::DoubleId(SwitchId(id)) => write!(f, "DoubleId {id}"),
            TopologyError::DoubleHost(name) => write!(f, "DoubleHost {name}"),
            TopologyError::DoubleAddress(name) => write!(f, "DoubleAddress {name}"),
            TopologyError::BadPort(label, port) => write!(f, "BadPort {label} {port}"),
            TopologyError::NotFatTree(a, b) => write!(f, "NotFatTree {a} {b}"),
            TopologyError::Memory => write!(f, "Memory"),
        }
    }
}

impl Error for TopologyError {}

impl From<AllocError> for TopologyError {
    ghost from_gives = { λ _ e. e ≡ Memory };

    fn from(_e: AllocError) -> TopologyError {
        TopologyError::Memory
    }
}

impl<T: Drop> From<AllocFailed<T>> for TopologyError {
    ghost from_gives = { λ _ e. e ≡ Memory };

    fn from(_e: AllocFailed<T>) -> TopologyError {
        TopologyError::Memory
    }
}
