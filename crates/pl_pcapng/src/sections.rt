ghost use Rattle.std.specs.Prelude.{◌≡◌, ℕ, ◌+◌, ◌<◌, ◌≤◌, ◌⊎◌, List, [], ◌∷◌, ◌++◌, length, slice_get, IsTrue, IfOk, IfErr, IfSome, IfNone, OnOk, Ok, Err};
ghost use Rattle.pl_capture.specs.declared.records.Captured.{Captured};
ghost use Rattle.pl_pcapng.specs.declared.error.BlockError.TheVariants.{Memory as memory};
ghost use Rattle.pl_pcapng.specs.Cursor.{position_of, sought, tail_of, HasReadBlocks, IsBlockCursorIn, IsNextRecord, IsSought};
ghost use Rattle.pl_pcapng.specs.Kind.{least_length};
ghost use Rattle.pl_pcapng.specs.Layout.{end_at, is_pcapng};
ghost use Rattle.pl_pcapng.specs.Position.{behind, record_of};
ghost use Rattle.pl_pcapng.specs.Reading.{block_in, content_in, head_in, packet_in};
ghost use Rattle.pl_pcapng.specs.Sections.{reading_of};

use crate::block::{Block, Content, Interface};
use crate::error::BlockError;
use crate::kind::{BlockKind, SECTION_HEADER};
use crate::packets::{cut, packet};
use pl_capture::{Captured, Endianness};
use std::alloc::{AllocError, Global};

/// Want of memory.
pub type Memory = AllocError;

const BYTE_ORDER_MAGIC: u32 = 0x1a2b_3c4d;

/// Whether the file begins as a file in the pcapng format does, with the type of a section header.
pub fn is_pcapng(file: &[u8]) -> bool
    ensures { result ≡ is_pcapng file.now }
{
    file.len() >= 4 && Endianness::Little.read_u32(file) == SECTION_HEADER
}

/// A reading cursor in a file. The file itself is handed in at each call, and has to be one that
/// the cursor stands in: that which [`Sections::begin`] was given.
#[derive(Debug, Drop)]
pub struct Sections {
    at: usize,
    endianness: Endianness,
    interfaces: Vec<Interface>,
}

impl Sections {
    /// The cursor before the first block.
    pub fn begin(alloc: Global, file: &[u8]) -> Result<Sections, Memory>
        requires { IsTrue (is_pcapng file.now) }
        ensures { IfOk result (λ cursor. HasReadBlocks file.now [] cursor) }
    {
        prove!(is_pcapng(file));
        Ok(Sections {
            at: 0,
            endianness: Endianness::Little,
            interfaces: Vec::new(alloc),
        })
    }

    /// Reads the next record of an Ethernet frame and moves behind its block. None is answered
    /// exactly where no whole block with a record follows, and a refusal exactly where a block is
    /// refused before one; the cursor then stands behind the last whole block, so the next call
    /// answers the same again. After want of memory the next call goes on where this one ended.
    pub fn next(&mut self, file: &[u8]) -> Result<Option<Captured>, BlockError>
        requires { IsBlockCursorIn file.now self.old }
        ensures exact { IsSought file.now (position_of self.old) result (position_of self.new) }
        ensures same_file { IsBlockCursorIn file.now self.new }

        // The records that were read so far, and this one, are the first of the file.
        ensures found { (records : List Captured) → HasReadBlocks file.now records self.old →
            IfOk result (λ found.
            IfSome found (λ c. HasReadBlocks file.now (records ++ c ∷ []) self.new)) }

        // At the end they are all of it, and the bytes behind the last whole block are its tail.
        ensures ended { (records : List Captured) → HasReadBlocks file.now records self.old →
            IfOk result (λ found.
            IfNone found (reading_of file.now ≡ Ok (records, tail_of file.now self.new))) }
        ensures refused { (records : List Captured) → HasReadBlocks file.now records self.old →
            IfErr result (λ e. (e ≡ memory) ⊎ (reading_of file.now ≡ Err e)) }

        // Where no record is given the next call seeks what this one sought.
        ensures again_ended { IfOk result (λ found.
            IfNone found (sought file.now (position_of self.new) ≡ sought file.now (position_of self.old))) }
        ensures again_refused { IfErr result (λ _.
            sought file.now (position_of self.new) ≡ sought file.now (position_of self.old)) }

        // A walk ends: each record leaves fewer bytes.
        ensures nearer { IfOk result (λ found.
            IfSome found (λ _. tail_of file.now self.new < tail_of file.now self.old)) }
    {
        self.advance(file)
    }

    /// The number of bytes behind the last whole block that was passed.
    pub fn tail(&self, file: &[u8]) -> u64
        requires { IsBlockCursorIn file.now self.now }
        ensures { result ≡ tail_of file.now self.now }
    {
        self.room(file) as u64
    }

    fn advance(&mut self, file: &[u8]) -> Result<Option<Captured>, BlockError>
        requires { IsBlockCursorIn file.now self.old }
        ensures { IsNextRecord file.now (position_of self.old) result (position_of self.new) }
    {
        while let Some(block) = self.block(file)? {
            if let Some(captured) = self.pass(block)? {
                return Ok(Some(captured));
            }
        }
        Ok(None)
    }

    fn room(&self, file: &[u8]) -> usize
        requires { self.now.at ≤ length file.now }
        ensures { result + self.now.at ≡ length file.now }
    {
        file.len() - self.at
    }

    // Goes behind a block, and gives its record.
    fn pass(&mut self, block: Block) -> Result<Option<Captured>, BlockError>
        ensures passed { OnOk result (position_of self.new ≡ behind (position_of self.old) block) }
        ensures record { IfOk result (λ found. found ≡ record_of block.content) }
        ensures stays { IfErr result (λ e. (e ≡ memory) × (position_of self.new ≡ position_of self.old)) }
    {
        let mut found = None;
        match block.content {
            Content::BeginsSection(endianness) => {
                self.endianness = endianness;
                self.interfaces.clear();
            }
            Content::AddsInterface(interface) => self.interfaces.push(interface)?,
            Content::HasRecord(captured) => found = Some(captured),
            Content::PassedOver => {}
        }
        self.at = block.end;
        Ok(found)
    }

    // The block at the cursor.
    #[tactic(auto, unfolding(crate::specs::Reading::block_in, crate::specs::Reading::block_of))]
    fn block(&self, file: &[u8]) -> Result<Option<Block>, BlockError>
        requires { self.now.at ≤ length file.now }
        ensures { result ≡ block_in file.now (position_of self.now) }
    {
        let Some(order) = self.head(file)? else {
            return Ok(None);
        };
        let kind = BlockKind::of(order.read_u32(&file[self.at..]));
        let total = order.read_u32(&file[self.at + 4..]);
        if !kind.may_have(total) {
            return Err(BlockError::BadBlock(self.at as u64));
        }
        if self.room(file) < total as usize {
            return Ok(None);
        }
        let end = self.at + total as usize;
        if order.read_u32(&file[end - 4..]) != total {
            return Err(BlockError::BadTrailer(self.at as u64));
        }
        let content = self.content(file, order, kind, end)?;
        Ok(Some(Block { content, end }))
    }

    // The byte order of the block at the cursor, None where too few bytes stand there to tell its length.
    #[tactic(auto, unfolding(crate::specs::Reading::head_in))]
    fn head(&self, file: &[u8]) -> Result<Option<Endianness>, BlockError>
        requires { self.now.at ≤ length file.now }
        ensures exact { result ≡ head_in file.now (position_of self.now) }
        ensures room { IfOk result (λ head. IfSome head (λ _. self.now.at + 8 ≤ length file.now)) }
    {
        let room = self.room(file);
        if room < 8 {
            return Ok(None);
        }
        if Endianness::Little.read_u32(&file[self.at..]) != SECTION_HEADER {
            return Ok(Some(self.endianness));
        }
        if room < 12 {
            return Ok(None);
        }
        if Endianness::Little.read_u32(&file[self.at + 8..]) == BYTE_ORDER_MAGIC {
            return Ok(Some(Endianness::Little));
        }
        if Endianness::Big.read_u32(&file[self.at + 8..]) == BYTE_ORDER_MAGIC {
            return Ok(Some(Endianness::Big));
        }
        Err(BlockError::BadMagic(self.at as u64))
    }

    // What the whole block at the cursor says, which is of this kind and ends there.
    fn content(
        &self,
        file: &[u8],
        order: Endianness,
        kind: BlockKind,
        end: usize,
    ) -> Result<Content, BlockError>
        requires whole { end ≡ end_at file.now order self.now.at }
        requires within { end ≤ length file.now }
        requires least { self.now.at + least_length kind ≤ end }
        ensures { result ≡ content_in file.now (position_of self.now) order kind }
    {
        match kind {
            BlockKind::SectionHeader => self.section(file, order),
            BlockKind::InterfaceDescription => Ok(Content::AddsInterface(Interface {
                link: order.read_u16(&file[self.at + 8..]),
                snapshot: order.read_u32(&file[self.at + 12..]),
            })),
            BlockKind::EnhancedPacket => self.enhanced_packet(file, order, end),
            BlockKind::SimplePacket => self.simple_packet(file, order, end),
            BlockKind::Other => Ok(Content::PassedOver),
        }
    }

    fn section(&self, file: &[u8], order: Endianness) -> Result<Content, BlockError>
        requires { self.now.at + 28 ≤ length file.now }
        ensures { result ≡ content_in file.now (position_of self.now) order BlockKind.SectionHeader }
    {
        if order.read_u16(&file[self.at + 12..]) == 1 {
            return Ok(Content::BeginsSection(order));
        }
        Err(BlockError::BadVersion(self.at as u64))
    }

    fn enhanced_packet(
        &self,
        file: &[u8],
        order: Endianness,
        end: usize,
    ) -> Result<Content, BlockError>
        requires whole { end ≡ end_at file.now order self.now.at }
        requires within { end ≤ length file.now }
        requires least { self.now.at + 32 ≤ end }
        ensures { result ≡ content_in file.now (position_of self.now) order BlockKind.EnhancedPacket }
    {
        let number = order.read_u32(&file[self.at + 8..]);
        let Some(interface) = self.interface(number) else {
            return Err(BlockError::BadInterface(self.at as u64));
        };
        let captured = Captured {
            at: self.at as u64,
            start: self.at + 28,
            len: order.read_u32(&file[self.at + 20..]),
            original: order.read_u32(&file[self.at + 24..]),
        };
        packet(interface, captured, end)
    }

    fn simple_packet(
        &self,
        file: &[u8],
        order: Endianness,
        end: usize,
    ) -> Result<Content, BlockError>
        requires whole { end ≡ end_at file.now order self.now.at }
        requires within { end ≤ length file.now }
        requires least { self.now.at + 16 ≤ end }
        ensures { result ≡ content_in file.now (position_of self.now) order BlockKind.SimplePacket }
    {
        let Some(interface) = self.interface(0) else {
            return Err(BlockError::BadInterface(self.at as u64));
        };
        let original = order.read_u32(&file[self.at + 8..]);
        let captured = Captured {
            at: self.at as u64,
            start: self.at + 12,
            len: cut(interface, original),
            original,
        };
        packet(interface, captured, end)
    }

    fn interface(&self, number: u32) -> Option<Interface>
        ensures { result ≡ slice_get self.now.interfaces.items number }
    {
        self.interfaces.get(number as usize).copied()
    }
}
