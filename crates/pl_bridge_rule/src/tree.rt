ghost use Rattle.std.specs.Prelude.{◌≡◌};
ghost use Rattle.pl_bridge_rule.specs.Tree.{is_tree_link, rises};

use pl_wiring::Label;

/// Whether a link between these switches is one of the tree.
pub fn is_tree_link(a: Label, b: Label) -> bool
    ensures { result ≡ is_tree_link a b }
{
    rises(a, b) || rises(b, a)
}

// Whether a link of the tree leads up from the first to the second.
fn rises(a: Label, b: Label) -> bool
    ensures { result ≡ rises a b }
{
    match (a, b) {
        (Label::Edge(p, _), Label::Aggregation(q, j)) => p == q && j == 0,
        (Label::Aggregation(_, j), Label::Core(g, m)) => j == 0 && (g == 0 && m == 0),
        _ => false,
    }
}
