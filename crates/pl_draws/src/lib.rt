//! Numbers that are drawn one after the other, each from the one before: the MMIX generator of
//! Knuth. `next_number` gives the next number, `upper_half` the half of it that is used.
#![tactic(auto)]

ghost use Rattle.std.specs.Prelude.{◌≡◌};
ghost use Rattle.pl_draws.specs.Draws.{next_number, upper_half};

const FACTOR: u64 = 6_364_136_223_846_793_005;

const SUMMAND: u64 = 1_442_695_040_888_963_407;

/// The number that is drawn after `x`.
pub fn next_number(x: u64) -> u64
    ensures { result ≡ next_number x }
{
    x.wrapping_mul(FACTOR).wrapping_add(SUMMAND)
}

/// The upper 32 bits of a number.
pub fn upper_half(x: u64) -> u32
    ensures { result ≡ upper_half x }
{
    (x >> 32) as u32
}
