ghost use Rattle.std.specs.Prelude.{◌≡◌, Some, IfOk, length, string_bytes};
ghost use Rattle.pl_output.specs.WiringText.{levels_text, wiring_line};

use pl_frame::Memory;
use pl_wiring::{Wiring, edges, half};
use std::alloc::Global;
use std::fmt;

/// What the command `check` prints of a wiring, a newline at its end: its k, how many edge, aggregation and
/// core switches it has, how many links between them, and how many hosts.
pub fn wiring_line(alloc: Global, wiring: &Wiring) -> Result<String, Memory>
    ensures { IfOk result (λ text. string_bytes text ≡ wiring_line wiring.now) }
{
    let line = WiringLine(wiring);
    let text = format!(in alloc; "{line}")?;
    Ok(text)
}

#[derive(Clone, Copy)]
struct WiringLine<'a>(&'a Wiring);

impl fmt::Display for WiringLine<'_> {
    ghost output = { λ line. Some (wiring_line line.0.now) };

    #[tactic(auto, unfolding(crate::specs::WiringText::wiring_line))]
    fn fmt<W: fmt::Write>(&self, f: &mut fmt::Formatter<W>) -> fmt::Result {
        let k = self.0.k();
        let levels = Levels(self.0);
        let links = link_count(self.0);
        let hosts = self.0.host_count();
        write!(f, "k {k} {levels} links {links} hosts {hosts}\n")
    }
}

/// How many switches of each level there are.
#[derive(Clone, Copy)]
struct Levels<'a>(&'a Wiring);

impl fmt::Display for Levels<'_> {
    ghost output = { λ levels. Some (levels_text levels.0.now.k) };

    #[tactic(auto, unfolding(crate::specs::WiringText::levels_text))]
    fn fmt<W: fmt::Write>(&self, f: &mut fmt::Formatter<W>) -> fmt::Result {
        let k = self.0.k();
        let edge = edges(k);
        let aggregation = edges(k);
        let core = half(k) * half(k);
        write!(f, "edge {edge} aggregation {aggregation} core {core}")
    }
}

/// Each switch but the core switches has k / 2 links to those above.
pub(crate) fn link_count(wiring: &Wiring) -> u32
    ensures { result ≡ length wiring.now.links }
{
    let k = u32::from(wiring.k());
    (k * (k / 2) + k * (k / 2)) * (k / 2)
}
