ghost use Rattle.std.specs.Prelude.{◌≡◌, ◌^◌, [], ◌∷◌, ◌++◌, OnOk, OnErr, codes, decimal, string_bytes};
ghost use Rattle.hex.specs.Hex.{IsBytes, encode_lower};
ghost use Rattle.pl_pmac.specs.Pmac.{PmacFits};
ghost use Rattle.pl_journal.specs.Ranges.{Fits, IsPart};
ghost use Rattle.pl_journal.specs.Text.{IsHost, IsNamed, IsSwitch, address_text, field_text, host_text, line_of, part_text, place_texts, switch_text, texts, words_of};

use crate::{Entry, Field, Memory, Words};
use pl_frame::Frame;
use pl_layouts::Place;
use pl_pmac::{Pmac, pack};
use pl_wiring::{HostNo, SwitchNo, Wiring};

impl Entry {
    /// The words of the entry's line, with hosts by their names and switches by their labels.
    pub fn words<'a>(&'a self, wiring: &'a Wiring) -> Words<'a>
        requires { IsNamed wiring.now self.now }
        ensures words { texts result ≡ words_of wiring.now self.now }
        ensures fits { Fits self.now }
    {
        match self {
            Entry::Line(n) => one("line", count(*n)),
            Entry::Sent(id, host, frame) => carried("sent", *id, name(wiring, *host), frame),
            Entry::Skipped(host, skip) => two("skipped", name(wiring, *host), text(skip.name())),
            Entry::Made(id, switch, frame) => carried("made", *id, label(wiring, *switch), frame),
            Entry::Crossed(id, switch) => two("crossed", number(*id), label(wiring, *switch)),
            Entry::Redirected(id, old, new) => redirected(*id, *old, *new),
            Entry::Copied(id, copy) => two("copied", number(*id), number(*copy)),
            Entry::Arrived(id, host, frame) => carried("arrived", *id, name(wiring, *host), frame),
            Entry::Taken(id, switch) => two("taken", number(*id), label(wiring, *switch)),
            Entry::Dropped(id, cause) => two("dropped", number(*id), text(cause.name())),
            Entry::Granted(pmac, host, edge, port) => granted(wiring, *pmac, *host, *edge, *port),
            Entry::Registered(pmac, n) => two("registered", address(*pmac), number(*n)),
            Entry::Freed(pmac) => one("freed", address(*pmac)),
            Entry::Placed(switch, place) => placed(label(wiring, *switch), *place),
            Entry::LinkDown(a, b) => two("linkdown", label(wiring, *a), label(wiring, *b)),
            Entry::LinkUp(a, b) => two("linkup", label(wiring, *a), label(wiring, *b)),
            Entry::Moved(host, edge, port) => moved(wiring, *host, *edge, *port),
            Entry::Restarted(n) => one("restarted", count(*n)),
            Entry::Settled(rounds) => one("settled", count(*rounds)),
            Entry::Unsettled(pending) => one("unsettled", number(*pending)),
        }
    }
}

/// Writes the entry's line at the end of the text, with its newline. An `Err` leaves the text as it
/// was.
pub fn write_line(out: &mut String, wiring: &Wiring, entry: &Entry) -> Result<(), Memory>
    requires { IsNamed wiring.now entry.now }
    ensures ok { OnOk result (
        string_bytes out.new ≡ string_bytes out.old ++ line_of wiring.now entry.now) }
    ensures err { OnErr result (string_bytes out.new ≡ string_bytes out.old) }
{
    let words = entry.words(wiring);
    let alloc = *out.allocator();
    let line = format!(in alloc; "{words}\n")?;
    out.push_str(&line)
}

fn carried<'a>(word: &'static str, id: u64, by: Field<'a>, frame: &'a Frame) -> Words<'a>
    ensures words { texts result ≡
        word.now ∷ decimal id ∷ field_text by.entry ∷ encode_lower frame.now ∷ [] }
    ensures fits { IsBytes frame.now }
{
    three(word, number(id), by, bytes(frame.bytes()))
}

fn redirected(id: u64, old: Pmac, new: Pmac) -> Words<'static>
    ensures words { texts result ≡
        codes "redirected" ∷ decimal id ∷ address_text old ∷ address_text new ∷ [] }
    ensures fits { PmacFits old × PmacFits new }
{
    three("redirected", number(id), address(old), address(new))
}

fn granted<'a>(wiring: &'a Wiring, pmac: Pmac, host: HostNo, edge: SwitchNo, port: u8) -> Words<'a>
    requires host { IsHost wiring.now host.0 }
    requires edge { IsSwitch wiring.now edge.0 }
    ensures words { texts result ≡ words_of wiring.now (Entry.Granted pmac host edge port) }
    ensures fits { PmacFits pmac }
{
    let port = count(u32::from(port));
    four(
        "granted",
        address(pmac),
        name(wiring, host),
        label(wiring, edge),
        port,
    )
}

fn moved<'a>(wiring: &'a Wiring, host: HostNo, edge: SwitchNo, port: u8) -> Words<'a>
    requires host { IsHost wiring.now host.0 }
    requires edge { IsSwitch wiring.now edge.0 }
    ensures { texts result ≡ words_of wiring.now (Entry.Moved host edge port) }
{
    let port = count(u32::from(port));
    three("moved", name(wiring, host), label(wiring, edge), port)
}

fn placed<'a>(switch: Field<'a>, place: Place) -> Words<'a>
    ensures words { texts result ≡ codes "placed" ∷ field_text switch.entry ∷ place_texts place }
    ensures fits { IsPart (2 ^ 8) place.level × (IsPart (2 ^ 8) place.position × IsPart (2 ^ 16) place.pod) }
{
    let level = part(place.level.map(u16::from));
    let position = part(place.position.map(u16::from));
    four("placed", switch, level, position, part(place.pod))
}

fn one<'a>(word: &'static str, a: Field<'a>) -> Words<'a>
    ensures { texts result ≡ word.now ∷ field_text a.entry ∷ [] }
{
    let fields = [Some(a), None, None, None];
    Words { word, fields }
}

fn two<'a>(word: &'static str, a: Field<'a>, b: Field<'a>) -> Words<'a>
    ensures { texts result ≡ word.now ∷ field_text a.entry ∷ field_text b.entry ∷ [] }
{
    let fields = [Some(a), Some(b), None, None];
    Words { word, fields }
}

fn three<'a>(word: &'static str, a: Field<'a>, b: Field<'a>, c: Field<'a>) -> Words<'a>
    ensures { texts result ≡
        word.now ∷ field_text a.entry ∷ field_text b.entry ∷ field_text c.entry ∷ [] }
{
    let fields = [Some(a), Some(b), Some(c), None];
    Words { word, fields }
}

fn four<'a>(word: &'static str, a: Field<'a>, b: Field<'a>, c: Field<'a>, d: Field<'a>) -> Words<'a>
    ensures { texts result ≡ word.now ∷ field_text a.entry ∷ field_text b.entry
        ∷ field_text c.entry ∷ field_text d.entry ∷ [] }
{
    let fields = [Some(a), Some(b), Some(c), Some(d)];
    Words { word, fields }
}

fn number(n: u64) -> Field<'static>
    ensures { field_text result ≡ decimal n }
{
    Field::Number(n)
}

fn count(n: u32) -> Field<'static>
    ensures { field_text result ≡ decimal n }
{
    Field::Number(u64::from(n))
}

fn part(part: Option<u16>) -> Field<'static>
    ensures { field_text result ≡ part_text part }
{
    match part {
        None => Field::Unknown,
        Some(n) => count(u32::from(n)),
    }
}

fn address(pmac: Pmac) -> Field<'static>
    ensures text { field_text result ≡ address_text pmac }
    ensures fits { PmacFits pmac }
{
    Field::Address(pack(pmac))
}

fn bytes(bytes: &[u8]) -> Field<'_>
    ensures text { field_text result ≡ encode_lower bytes.now }
    ensures fits { IsBytes bytes.now }
{
    Field::Bytes(bytes)
}

fn label(wiring: &Wiring, switch: SwitchNo) -> Field<'static>
    requires { IsSwitch wiring.now switch.0 }
    ensures { field_text result ≡ switch_text wiring.now switch.0 }
{
    Field::Switch(wiring.label(switch))
}

fn name<'a>(wiring: &'a Wiring, host: HostNo) -> Field<'a>
    requires { IsHost wiring.now host.0 }
    ensures { field_text result ≡ host_text wiring.now host.0 }
{
    Field::Text(wiring.host(host).name.text())
}

fn text(text: &'static str) -> Field<'static>
    ensures { field_text result ≡ text.now }
{
    Field::Text(text)
}
