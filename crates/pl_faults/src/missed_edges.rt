use crate::edges::Edge;
use pl_node::AvoidRow;
use std::marker::Model;

/// Placed edge switches, by rising id, and a row with the bits of their pods and positions. Contracts see the
/// list of them.
#[derive(Debug, Drop)]
pub(crate) struct Missed {
    pub(crate) edges: Vec<Edge>,
    pub(crate) bits: AvoidRow,
    pub(crate) is_all: bool,
}

impl Model for Missed {
    ghost use Rattle.std.specs.Prelude.{List};
    ghost use Rattle.pl_faults.specs.declared.edges.Edge.{Edge};
    ghost use Rattle.pl_faults.specs.Numbered.{AreNumbered};

    ghost Value = { List Edge };

    ghost view = { λ missed. missed.edges.items };

    ghost invariant = { λ missed. AreNumbered missed.edges.items missed.bits.words missed.is_all };
}
