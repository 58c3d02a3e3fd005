ghost use Rattle.std.specs.Prelude.{◌≡◌};
ghost use Rattle.pl_layouts.specs.Placement.{same_number, same_place};

use pl_layouts::Place;

/// Whether two places are the same, also in what is unknown of them.
pub fn is_same_place(a: Place, b: Place) -> bool
    ensures { result ≡ same_place a b }
{
    is_same_number(a.level, b.level)
        && is_same_number(a.position, b.position)
        && is_same_pod(a.pod, b.pod)
}

fn is_same_number(a: Option<u8>, b: Option<u8>) -> bool
    ensures { result ≡ same_number a b }
{
    match (a, b) {
        (Some(a), Some(b)) => a == b,
        (None, None) => true,
        _ => false,
    }
}

fn is_same_pod(a: Option<u16>, b: Option<u16>) -> bool
    ensures { result ≡ same_number a b }
{
    match (a, b) {
        (Some(a), Some(b)) => a == b,
        (None, None) => true,
        _ => false,
    }
}
