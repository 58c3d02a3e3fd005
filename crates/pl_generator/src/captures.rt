ghost use Rattle.std.specs.Prelude.{◌≡◌, ◌++◌, IfOk, OnOk, replicate};
ghost use Rattle.pl_capture.specs.declared.endianness.Endianness.TheVariants.{Little};
ghost use Rattle.pl_capture.specs.Spelling.{packet_bytes, saved_header};
ghost use Rattle.pl_generator.specs.Captures.{AreDrawnCaptures, frame_bytes, packet_of, with_packet};

use crate::drawing::DrawnFrame;
use crate::hosts::mac_of;
use byteorder::{BigEndian, ByteOrder};
use pl_capture::{write_header, write_record_head};
use pl_shelf::Memory;
use std::alloc::Global;
use std::marker::Model;

/// A type for local experiments.
const FRAME_TYPE: u16 = 0x88b6;

const FRAME_LENGTH: usize = 60;

/// A capture that is written. Contracts see its bytes.
#[derive(Debug, Drop)]
pub(crate) struct Capture {
    bytes: Vec<u8>,
}

impl Model for Capture {
    ghost use Rattle.std.specs.Prelude.{ℕ, List};

    ghost Value = { List ℕ };

    ghost view = { λ capture. capture.bytes.items };
}

impl Capture {
    /// With no record yet.
    fn new(alloc: Global) -> Result<Capture, Memory>
        ensures { IfOk result (λ capture. capture ≡ saved_header) }
    {
        let mut bytes = Vec::new(alloc);
        bytes.extend_from_slice(&write_header())?;
        Ok(Capture { bytes })
    }

    /// A record of a frame is put behind the last one.
    fn add(&mut self, frame: &DrawnFrame) -> Result<(), Memory>
        ensures { OnOk result (self.new ≡ self.old ++ packet_bytes Little (packet_of frame.now)) }
    {
        let head = write_record_head(frame.number, 0, FRAME_LENGTH as u32);
        self.bytes.extend_from_slice(&head)?;
        self.bytes.extend_from_slice(&frame_bytes(frame))
    }

    pub(crate) fn bytes(&self) -> &[u8]
        ensures { result.now ≡ self.now }
    {
        self.bytes.as_slice()
    }
}

/// The captures of so many hosts, in which each frame stands at its source.
pub(crate) fn record_frames(
    alloc: Global,
    hosts: u16,
    frames: &[DrawnFrame],
) -> Result<Vec<Capture>, Memory>
    ensures { IfOk result (λ captures. AreDrawnCaptures hosts frames.now captures.items) }
{
    let mut captures = empty_captures(alloc, hosts)?;
    for frame in frames {
        add_to_source(&mut captures, frame)?;
    }
    Ok(captures)
}

fn empty_captures(alloc: Global, hosts: u16) -> Result<Vec<Capture>, Memory>
    ensures { IfOk result (λ captures. captures.items ≡ replicate hosts saved_header) }
{
    let mut captures = Vec::new(alloc);
    for _ in 0..hosts {
        captures.push(Capture::new(alloc)?)?;
    }
    Ok(captures)
}

fn add_to_source(captures: &mut Vec<Capture>, frame: &DrawnFrame) -> Result<(), Memory>
    ensures { OnOk result (captures.new.items ≡ with_packet captures.old.items frame.now) }
{
    if let Some(capture) = captures.get_mut(frame.source as usize) {
        capture.add(frame)?;
    }
    Ok(())
}

/// The bytes of a frame: destination, source and type, its number, and zeros.
#[tactic(auto, unfolding(crate::specs::Captures::frame_bytes))]
fn frame_bytes(frame: &DrawnFrame) -> [u8; FRAME_LENGTH]
    ensures { result ≡ frame_bytes frame.now }
{
    let mut bytes = [0; FRAME_LENGTH];
    bytes[..6].copy_from_slice(&mac_of(frame.destination).0);
    bytes[6..12].copy_from_slice(&mac_of(frame.source).0);
    BigEndian::write_u16(&mut bytes[12..], FRAME_TYPE);
    BigEndian::write_u32(&mut bytes[14..], frame.number);
    bytes
}
