ghost use Rattle.std.specs.Prelude.{◌≡◌, ◌≢◌, ◌<◌, ◌≤◌, IfOk};
ghost use Rattle.pl_draws.specs.Draws.{next_number};
ghost use Rattle.pl_generator.specs.Drawing.{destination_by, frame_behind, frames_of, last_number, source_by};

use pl_draws::{next_number, upper_half};
use pl_shelf::Memory;
use std::alloc::Global;

/// A frame that one host sends to another.
#[derive(Clone, Copy, Debug)]
pub struct DrawnFrame {
    pub source: u16,
    pub destination: u16,
    /// Its place among the frames, from 0.
    pub number: u32,
}

/// The frames in order, and the number that was drawn last.
#[derive(Debug, Drop)]
pub(crate) struct Drawing {
    pub frames: Vec<DrawnFrame>,
    pub last: u64,
}

/// Draws so many frames, from a number on.
pub(crate) fn draw_frames(
    alloc: Global,
    hosts: u16,
    number: u64,
    many: u32,
) -> Result<Drawing, Memory>
    requires { 2 ≤ hosts }
    ensures frames { IfOk result (λ drawing. drawing.frames.items ≡ frames_of hosts number many) }
    ensures last { IfOk result (λ drawing. drawing.last ≡ last_number number many) }
{
    let mut frames = Vec::new(alloc);
    let mut last = number;
    for f in 0..many {
        frames.push(draw_frame(&mut last, hosts, f))?;
    }
    Ok(Drawing { frames, last })
}

// The source is any host, and the destination any other.
fn draw_frame(x: &mut u64, hosts: u16, number: u32) -> DrawnFrame
    requires { 2 ≤ hosts }
    ensures frame { result ≡ frame_behind hosts x.old number }
    ensures drawn { x.new ≡ next_number (next_number x.old) }
    ensures source { result.source < hosts }
    ensures another { result.destination ≢ result.source }
{
    *x = next_number(*x);
    let source = host_by(*x, hosts);
    *x = next_number(*x);
    let destination = other_host_by(*x, hosts, source);
    DrawnFrame {
        source,
        destination,
        number,
    }
}

fn host_by(x: u64, hosts: u16) -> u16
    requires { 0 < hosts }
    ensures host { result ≡ source_by hosts x }
    ensures in_range { result < hosts }
{
    (upper_half(x) % u32::from(hosts)) as u16
}

fn other_host_by(x: u64, hosts: u16, source: u16) -> u16
    requires some { 2 ≤ hosts }
    requires in_range { source < hosts }
    ensures host { result ≡ destination_by hosts source x }
    ensures another { result ≢ source }
{
    let hosts = u32::from(hosts);
    let further = upper_half(x) % (hosts - 1);
    ((u32::from(source) + 1 + further) % hosts) as u16
}
