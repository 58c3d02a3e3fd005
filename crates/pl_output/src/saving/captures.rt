ghost use Rattle.std.specs.Prelude.{◌≡◌, ◌^◌, ◌<◌, ◌≤◌, ◌⊎◌, All, IfErr, OnOk, OnErr, length, map};
ghost use Rattle.std.specs.List.{flat_map};
ghost use Rattle.pl_capture.specs.declared.endianness.Endianness.TheVariants.{Little};
ghost use Rattle.pl_capture.specs.Spelling.{packet_bytes, saved_bytes, saved_packet};
ghost use Rattle.pl_shelf.specs.Capacity.{FitsBehind, IsFull};
ghost use Rattle.pl_shelf.specs.Faults.{CountsWrites};
ghost use Rattle.pl_shelf.specs.Held.{Changes, IsCutOff, Same, created, with_end};
ghost use Rattle.pl_output.specs.InTurn.{BreaksInTurn, BreaksOne, SavedInTurn, SavesOne};
ghost use Rattle.pl_output.specs.Mail.{frame_at, packets_at, record_of};
ghost use Rattle.pl_output.specs.Printed.{BreaksOff, IsPrinted};
ghost use Rattle.pl_output.specs.Receipts.{capture_in};
ghost use Rattle.pl_output.specs.Room.{HasRoom, HaveRoomInTurn};
ghost use Rattle.pl_journal.specs.Savable.{IsCarried};

use crate::printing::Piece;
use crate::saving::inbox::Inbox;
use crate::saving::receipt::Receipt;
use pl_capture::{write_header, write_record_head};
use pl_journal::{Entry, Journal};
use pl_shelf::{SaveError, Shelf};
use pl_wiring::Name;

/// Saves the captures of inboxes, one after the other, and takes no memory. Answers the name at which
/// a write failed.
pub(crate) fn save_captures<S: Shelf>(
    shelf: &mut S,
    journal: &Journal,
    inboxes: Vec<Inbox>,
    piece: &mut Piece,
) -> Result<(), Name>
    requires { All IsCarried journal.now }
    ensures ok { OnOk result (SavedInTurn (S.moment shelf.old).held
        (map (capture_in journal.now) inboxes.items) (S.moment shelf.new).held) }
    ensures err { IfErr result (λ name.
        BreaksInTurn (S.moment shelf.old).held (map (capture_in journal.now) inboxes.items) name
        (S.moment shelf.new).held) }
    ensures faults { CountsWrites result (S.moment shelf.old) (S.moment shelf.new) }
    ensures capacity { S.capacity shelf.new ≡ S.capacity shelf.old }
    ensures unfit { OnErr result (HaveRoomInTurn (S.capacity shelf.old) (S.moment shelf.old).held
        (map (capture_in journal.now) inboxes.items) → ⊥) }
{
    for inbox in inboxes {
        save_inbox(shelf, journal, inbox, piece)?;
    }
    Ok(())
}

fn save_inbox<S: Shelf>(
    shelf: &mut S,
    journal: &Journal,
    inbox: Inbox,
    piece: &mut Piece,
) -> Result<(), Name>
    requires { All IsCarried journal.now }
    ensures ok { OnOk result (SavesOne (S.moment shelf.old).held (S.moment shelf.new).held
        (capture_in journal.now inbox)) }
    ensures named { IfErr result (λ name. inbox.name ≡ name) }
    ensures err { OnErr result (BreaksOne (S.moment shelf.old).held (S.moment shelf.new).held
        (capture_in journal.now inbox)) }
    ensures faults { CountsWrites result (S.moment shelf.old) (S.moment shelf.new) }
    ensures capacity { S.capacity shelf.new ≡ S.capacity shelf.old }
    ensures unfit { OnErr result (HasRoom (S.capacity shelf.old) (S.moment shelf.old).held
        (capture_in journal.now inbox) → ⊥) }
{
    match save_capture(shelf, inbox.name(), journal, inbox.receipts(), piece) {
        Ok(()) => Ok(()),
        Err(_) => Err(inbox.into_name()),
    }
}

/// Saves the capture of what the receipts name, and takes no memory: it goes out by way of the piece, whose
/// content is forgotten. After a fault the name is as it was, or holds a proper front of the capture.
pub(crate) fn save_capture<S: Shelf>(
    shelf: &mut S,
    name: &str,
    journal: &Journal,
    receipts: &[Receipt],
    piece: &mut Piece,
) -> Result<(), SaveError>
    requires { All IsCarried journal.now }
    ensures ok { OnOk result (Changes (S.moment shelf.old).held (S.moment shelf.new).held name.now
        (with_end (created name.now ((S.moment shelf.old).held name.now))
        (saved_bytes (packets_at journal.now receipts.now)))) }
    ensures err { OnErr result (Same (S.moment shelf.old).held (S.moment shelf.new).held
        ⊎ IsCutOff (S.moment shelf.old).held (S.moment shelf.new).held name.now
        (created name.now ((S.moment shelf.old).held name.now))
        (saved_bytes (packets_at journal.now receipts.now))) }
    ensures faults { CountsWrites result (S.moment shelf.old) (S.moment shelf.new) }
    ensures capacity { S.capacity shelf.new ≡ S.capacity shelf.old }
    ensures unfit { OnErr result (FitsBehind (S.capacity shelf.old name.now)
        (created name.now ((S.moment shelf.old).held name.now)) (saved_bytes (packets_at journal.now receipts.now)) → ⊥) }
{
    shelf.create(name)?;
    append_capture(shelf, name, journal, receipts, piece)
}

// Adds the capture at the end of what the name holds.
fn append_capture<S: Shelf>(
    shelf: &mut S,
    name: &str,
    journal: &Journal,
    receipts: &[Receipt],
    piece: &mut Piece,
) -> Result<(), SaveError>
    requires { All IsCarried journal.now }
    ensures ok { OnOk result (Changes (S.moment shelf.old).held (S.moment shelf.new).held name.now
        (with_end ((S.moment shelf.old).held name.now) (saved_bytes (packets_at journal.now receipts.now)))) }
    ensures err { OnErr result (IsCutOff (S.moment shelf.old).held (S.moment shelf.new).held name.now
        ((S.moment shelf.old).held name.now) (saved_bytes (packets_at journal.now receipts.now))) }
    ensures faults { CountsWrites result (S.moment shelf.old) (S.moment shelf.new) }
    ensures capacity { S.capacity shelf.new ≡ S.capacity shelf.old }
    ensures full { OnErr result (IsFull (S.capacity shelf.new name.now) ((S.moment shelf.new).held name.now)) }
{
    piece.clear();
    print_capture(shelf, name, journal, receipts, piece)?;
    piece.send(shelf, name)
}

// The header, and a record for each receipt.
fn print_capture<S: Shelf>(
    shelf: &mut S,
    name: &str,
    journal: &Journal,
    receipts: &[Receipt],
    piece: &mut Piece,
) -> Result<(), SaveError>
    requires { All IsCarried journal.now }
    ensures ok { OnOk result (IsPrinted (S.moment shelf.old).held (S.moment shelf.new).held name.now
        piece.old piece.new (saved_bytes (packets_at journal.now receipts.now))) }
    ensures err { OnErr result (BreaksOff (S.moment shelf.old).held (S.moment shelf.new).held name.now
        piece.old (saved_bytes (packets_at journal.now receipts.now))) }
    ensures faults { CountsWrites result (S.moment shelf.old) (S.moment shelf.new) }
    ensures capacity { S.capacity shelf.new ≡ S.capacity shelf.old }
    ensures full { OnErr result (IsFull (S.capacity shelf.new name.now) ((S.moment shelf.new).held name.now)) }
{
    piece.print(shelf, name, &write_header())?;
    print_packets(shelf, name, journal, receipts, piece)
}

fn print_packets<S: Shelf>(
    shelf: &mut S,
    name: &str,
    journal: &Journal,
    receipts: &[Receipt],
    piece: &mut Piece,
) -> Result<(), SaveError>
    requires { All IsCarried journal.now }
    ensures ok { OnOk result (IsPrinted (S.moment shelf.old).held (S.moment shelf.new).held name.now
        piece.old piece.new (flat_map (record_of journal.now) receipts.now)) }
    ensures err { OnErr result (BreaksOff (S.moment shelf.old).held (S.moment shelf.new).held name.now
        piece.old (flat_map (record_of journal.now) receipts.now)) }
    ensures faults { CountsWrites result (S.moment shelf.old) (S.moment shelf.new) }
    ensures capacity { S.capacity shelf.new ≡ S.capacity shelf.old }
    ensures full { OnErr result (IsFull (S.capacity shelf.new name.now) ((S.moment shelf.new).held name.now)) }
{
    for receipt in receipts {
        print_packet(
            shelf,
            name,
            *receipt,
            frame_at(journal, receipt.entry),
            piece,
        )?;
    }
    Ok(())
}

// A record: its head, and its frame.
fn print_packet<S: Shelf>(
    shelf: &mut S,
    name: &str,
    receipt: Receipt,
    frame: &[u8],
    piece: &mut Piece,
) -> Result<(), SaveError>
    requires { length frame.now < 2 ^ 32 }
    ensures ok { OnOk result (IsPrinted (S.moment shelf.old).held (S.moment shelf.new).held name.now
        piece.old piece.new (packet_bytes Little (saved_packet receipt.seconds receipt.micros frame.now))) }
    ensures err { OnErr result (BreaksOff (S.moment shelf.old).held (S.moment shelf.new).held name.now
        piece.old (packet_bytes Little (saved_packet receipt.seconds receipt.micros frame.now))) }
    ensures faults { CountsWrites result (S.moment shelf.old) (S.moment shelf.new) }
    ensures capacity { S.capacity shelf.new ≡ S.capacity shelf.old }
    ensures full { OnErr result (IsFull (S.capacity shelf.new name.now) ((S.moment shelf.new).held name.now)) }
{
    let len = frame.len() as u32;
    let head = write_record_head(receipt.seconds, receipt.micros, len);
    piece.print(shelf, name, &head)?;
    piece.print(shelf, name, frame)
}

/// The frame that the entry at an index brings to a host.
fn frame_at(journal: &Journal, index: usize) -> &[u8]
    ensures frame { result.now ≡ frame_at journal.now index }
    ensures carried { All IsCarried journal.now → length result.now ≤ 65553 }
{
    match journal.get(index) {
        Some(Entry::Arrived(_, _, frame)) => frame.bytes(),
        _ => &[],
    }
}
