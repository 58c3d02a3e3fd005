ghost use Rattle.std.specs.Prelude.{◌≡◌, ◌-◌, ◌^◌, ◌<◌, IfOk, OnOk, All, map};
ghost use Rattle.std.specs.Option.{option_map};
ghost use Rattle.pl_output.specs.Mail.{IsEmpty, arrives_at, capture_name, delivered, empty_mail, line_after, name_of};
ghost use Rattle.pl_inputs.specs.Numbered.{number_of};
ghost use Rattle.pl_output.specs.Receipts.{AreReceived, capture_in, captures_from};

use crate::saving::inbox::Inbox;
use crate::saving::receipt::LastLine;
use pl_frame::Memory;
use pl_inputs::in_folder;
use pl_journal::{Entry, Journal};
use pl_wiring::{Host, HostNo, Name};
use std::alloc::Global;

/// The hosts' inboxes, in order, with all that the hosts receive in a journal.
pub(crate) fn receive(
    alloc: Global,
    out: &str,
    hosts: &[Host],
    journal: &Journal,
) -> Result<Vec<Inbox>, Memory>
    ensures received { IfOk result (λ inboxes. AreReceived journal.now inboxes.items) }
    ensures captures { IfOk result (λ inboxes. map (capture_in journal.now) inboxes.items
        ≡ captures_from 0 out.now journal.now hosts.now) }
{
    let mut inboxes = empty_inboxes(alloc, out, hosts)?;
    sort(&mut inboxes, journal.as_slice())?;
    Ok(inboxes)
}

fn empty_inboxes(alloc: Global, out: &str, hosts: &[Host]) -> Result<Vec<Inbox>, Memory>
    ensures { IfOk result (λ inboxes. inboxes.items ≡ map (empty_mail out.now) hosts.now) }
{
    let mut inboxes = Vec::new(alloc);
    for host in hosts {
        inboxes.push(Inbox::new(alloc, capture_name(alloc, out, host)?))?;
    }
    Ok(inboxes)
}

fn capture_name(alloc: Global, out: &str, host: &Host) -> Result<Name, Memory>
    ensures { IfOk result (λ name. name ≡ capture_name out.now host.now) }
{
    let name = &host.name;
    let file = format!(in alloc; "{name}.pcap")?;
    in_folder(alloc, out, file.as_str())
}

/// Goes over a journal once, and puts a receipt of each arrival into the inbox of its host.
fn sort(inboxes: &mut Vec<Inbox>, entries: &[Entry]) -> Result<(), Memory>
    requires { All IsEmpty inboxes.old.items }
    ensures names { OnOk result (map name_of inboxes.new.items ≡ map name_of inboxes.old.items) }
    ensures received { OnOk result (AreReceived entries.now inboxes.new.items) }
{
    let mut line = LastLine {
        number: 0,
        behind: 0,
    };
    for (index, entry) in entries.iter().enumerate() {
        deliver(inboxes, host_of(entry), line, index)?;
        line = line_behind(entry, index, line);
    }
    Ok(())
}

fn deliver(
    inboxes: &mut Vec<Inbox>,
    host: Option<HostNo>,
    line: LastLine,
    index: usize,
) -> Result<(), Memory>
    ensures { OnOk result (inboxes.new.items
        ≡ delivered inboxes.old.items (option_map number_of host) line index) }
{
    let Some(number) = host else {
        return Ok(());
    };
    if let Some(inbox) = inboxes.get_mut(number.0 as usize) {
        inbox.receive(line, index)?;
    }
    Ok(())
}

/// The last line behind an entry.
fn line_behind(entry: &Entry, index: usize, line: LastLine) -> LastLine
    requires { index < 2 ^ 64 - 1 }
    ensures { result ≡ line_after entry.now index line }
{
    match entry {
        Entry::Line(number) => LastLine {
            number: *number,
            behind: index + 1,
        },
        _ => line,
    }
}

/// The host at which an entry says that a frame arrived.
fn host_of(entry: &Entry) -> Option<HostNo>
    ensures { option_map number_of result ≡ arrives_at entry.now }
{
    match entry {
        Entry::Arrived(_, host, _) => Some(*host),
        _ => None,
    }
}
