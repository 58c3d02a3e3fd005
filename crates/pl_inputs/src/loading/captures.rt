ghost use Rattle.std.specs.Prelude.{◌≡◌, ◌≤◌, IfOk, IfErr, length};
ghost use Rattle.std.specs.Option.{option_copied};
ghost use Rattle.pl_shelf.specs.Held.{Same};
ghost use Rattle.pl_inputs.specs.Gathered.{IsUngathered, IsUntaken, IsRefusedBy};
ghost use Rattle.pl_inputs.specs.Inputs.{AreCaptures, IsCaptureAt, all_bytes, captures_limit};
ghost use Rattle.pl_inputs.specs.Loaded.{files_of};
ghost use Rattle.pl_inputs.specs.Loads.{IsUnpromised, Reads};

use crate::capture::Capture;
use crate::fault::CaptureFault;
use crate::folders::in_folder;
use crate::loading::named::load_named;
use crate::loading::walk::{Walk, WalkError, read_records};
use crate::status::Status;
use pl_shelf::Shelf;
use pl_wiring::{Host, HostNo, Name, Wiring};
use std::alloc::Global;

/// The most bytes that all captures have together.
const CAPTURES_LIMIT: u64 = 64 << 20;

/// The captures of the hosts, in their order.
pub(crate) fn load_captures<S: Shelf>(
    alloc: Global,
    shelf: &mut S,
    folder: &str,
    wiring: &Wiring,
) -> Result<Vec<Capture>, Status>
    ensures ok { IfOk result (λ captures. AreCaptures (S.moment shelf.old).held folder.now wiring.now.hosts (files_of captures.items)) }
    ensures limit { IfOk result (λ captures. all_bytes (files_of captures.items) ≤ captures_limit) }
    ensures err { IfErr result (λ e. IsUngathered (S.moment shelf.old).held folder.now wiring.now.hosts e) }
    ensures same { Same (S.moment shelf.old).held (S.moment shelf.new).held }
    ensures reads { Reads result (S.moment shelf.old).read_faults (S.moment shelf.new).read_faults }
    ensures writes { (S.moment shelf.new).write_faults ≡ (S.moment shelf.old).write_faults }
    ensures capacity { S.capacity shelf.new ≡ S.capacity shelf.old }
    ensures unpromised { IfErr result (λ e. IsUnpromised (S.capacity shelf.new) (S.moment shelf.new).held e) }
{
    let mut captures = Vec::new(alloc);
    let mut left = CAPTURES_LIMIT;
    for (n, host) in wiring.hosts().iter().enumerate() {
        let number = HostNo(n as u32);
        let capture = load_capture(alloc, shelf, folder, number, host, left)?;
        left -= capture.bytes.len() as u64;
        captures.push(capture)?;
    }
    Ok(captures)
}

fn load_capture<S: Shelf>(
    alloc: Global,
    shelf: &mut S,
    folder: &str,
    number: HostNo,
    host: &Host,
    left: u64,
) -> Result<Capture, Status>
    ensures ok { IfOk result (λ c. IsCaptureAt (S.moment shelf.old).held folder.now host.now.capture c.bytes.items) }
    ensures limit { IfOk result (λ c. length c.bytes.items ≤ left) }
    ensures err { IfErr result (λ e. IsUntaken (S.moment shelf.old).held folder.now host.now.capture number.0 left e) }
    ensures same { Same (S.moment shelf.old).held (S.moment shelf.new).held }
    ensures reads { Reads result (S.moment shelf.old).read_faults (S.moment shelf.new).read_faults }
    ensures writes { (S.moment shelf.new).write_faults ≡ (S.moment shelf.old).write_faults }
    ensures capacity { S.capacity shelf.new ≡ S.capacity shelf.old }
    ensures unpromised { IfErr result (λ e. IsUnpromised (S.capacity shelf.new) (S.moment shelf.new).held e) }
{
    match &host.capture {
        None => Ok(Capture::none(alloc)),
        Some(file) => {
            let name = in_folder(alloc, folder, file.text())?;
            let bytes = load_named(alloc, shelf, name, left)?;
            read_capture(alloc, number, bytes.into_vec())
        }
    }
}

/// The records of a capture's file, by the grammar of its kind.
#[tactic(auto, using(crate::proofs::Within::all_within))]
fn read_capture(alloc: Global, number: HostNo, bytes: Vec<u8>) -> Result<Capture, Status>
    ensures ok { IfOk result (λ c. c.bytes.items ≡ bytes.items) }
    ensures err { IfErr result (λ e. IsRefusedBy number.0 bytes.items e) }
{
    match read_records(alloc, &bytes) {
        Ok(Walk { records, tail }) => Ok(Capture {
            bytes,
            records,
            tail,
        }),
        Err(WalkError::Refused(CaptureFault::OfRecords(e))) => {
            Err(Status::BadCapture(number, e, e.offset()))
        }
        Err(WalkError::Refused(CaptureFault::OfSections(e))) => Err(Status::BadSection(number, e)),
        Err(WalkError::Memory) => Err(Status::OutOfMemory),
    }
}
