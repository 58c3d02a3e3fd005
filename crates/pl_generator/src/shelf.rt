ghost use Rattle.std.specs.Prelude.{◌≡◌, ◌≤◌, IfOk, OnOk};
ghost use Rattle.pl_shelf.specs.Held.{Changes, holds};
ghost use Rattle.pl_shelf.specs.MemoryShelf.{held_in};
ghost use Rattle.pl_wiring.specs.Labels.{IsArity};
ghost use Rattle.pl_generator.specs.Generated.{AreGenerated, AreHeld, IsNewShelf, capture_name};

use crate::captures::{Capture, record_frames};
use crate::drawing::draw_frames;
use crate::hosts::host_count;
use crate::script::script_text;
use crate::topology::topology_text;
use pl_shelf::{Memory, MemoryShelf};
use std::alloc::Global;

/// How many bytes a write to the shelf takes at most.
const PIECE: usize = 65_536;

/// Generates so many frames between hosts of a fat tree of switches with `k` ports, drawn from
/// `number` on, and puts what plays them on a shelf: the topology under `topology.toml`, the script
/// under `script`, and the capture of host n under `captures/h<n>.pcap`. It takes time by the number
/// of hosts and of frames together.
pub fn generate(alloc: Global, k: u8, number: u64, frames: u32) -> Result<MemoryShelf, Memory>
    requires arity { IsArity k }
    requires some { 1 ≤ frames }
    requires most { frames ≤ 100000 }
    ensures generated { IfOk result (λ shelf. AreGenerated (held_in shelf.places) k number frames) }
    ensures untouched { IfOk result IsNewShelf }
{
    let hosts = host_count(k);
    let drawing = draw_frames(alloc, hosts, number, frames)?;
    let topology = topology_text(alloc, k)?;
    let script = script_text(alloc, &drawing.frames, drawing.last, 10 * frames)?;
    let captures = record_frames(alloc, hosts, &drawing.frames)?;
    let mut shelf = MemoryShelf::new(alloc, PIECE);
    shelf.hold("topology.toml", topology.as_bytes())?;
    shelf.hold("script", script.as_bytes())?;
    hold_captures(alloc, &mut shelf, &captures)?;
    Ok(shelf)
}

// The shelf then holds the captures, each under the name of its host.
fn hold_captures(alloc: Global, shelf: &mut MemoryShelf, captures: &[Capture]) -> Result<(), Memory>
    ensures held { OnOk result (AreHeld (held_in shelf.old.places) (held_in shelf.new.places) captures.now) }
    ensures untouched { OnOk result (IsNewShelf shelf.old → IsNewShelf shelf.new) }
{
    for (host, capture) in captures.iter().enumerate() {
        hold_capture(alloc, shelf, host, capture)?;
    }
    Ok(())
}

#[tactic(auto, unfolding(crate::specs::Generated::capture_name))]
fn hold_capture(
    alloc: Global,
    shelf: &mut MemoryShelf,
    host: usize,
    capture: &Capture,
) -> Result<(), Memory>
    ensures held { OnOk result (Changes (held_in shelf.old.places) (held_in shelf.new.places)
        (capture_name host) (holds capture.now)) }
    ensures untouched { OnOk result (IsNewShelf shelf.old → IsNewShelf shelf.new) }
{
    let name = format!(in alloc; "captures/h{host}.pcap")?;
    shelf.hold(&name, capture.bytes())
}
