ghost use Rattle.std.specs.Prelude.{◌≡◌, ◌≤◌, ℕ, List, [], length, is_some, IfSome, MatchOption};
ghost use Rattle.std.specs.Option.{option_copied, option_to_list};
ghost use Rattle.pl_frame.specs.Ethernet.{fields, fields_of};
ghost use Rattle.pl_layouts.specs.Memberships.{membership_in, message_changes, changes_in};
ghost use Rattle.pl_multicast.specs.Messages.{message_of};
ghost use Rattle.pl_multicast.specs.Changes.{changes_left};

use crate::Change;
use crate::record::{change_if_routed, record_change, record_end};
use byteorder::{BigEndian, ByteOrder};
use pl_frame::{FrameView, Ip4, TYPE_IPV4};

/// The protocol number of IGMP in an IPv4 header.
pub(crate) const IGMP: u8 = 2;

/// The type of a version 2 membership report (RFC 2236, section 2.1).
pub(crate) const REPORT: u8 = 0x16;

/// The type of a leave group message (RFC 2236, section 2.1).
pub(crate) const LEAVE: u8 = 0x17;

// The type of a version 3 membership report (RFC 3376, section 4.2).
const REPORT_3: u8 = 0x22;

// The bytes of an IPv4 header without options.
const SHORTEST_HEADER: usize = 20;

// The bytes of a version 2 message, and of a version 3 report before its records.
const MESSAGE: usize = 8;

/// The changes that a frame tells and that are still to be given, in order. They are read from the
/// frame's bytes as they are asked for, up to the first group record that is not whole.
#[derive(Debug, Drop)]
pub struct Changes<'a> {
    // the change of a version 2 message
    only: Option<Change>,
    // how many records of a version 3 report are left, and the bytes from there on
    count: u16,
    records: &'a [u8],
}

#[tactic(auto, unfolding(crate::specs::Changes::changes_left))]
impl<'a> Iterator for Changes<'a> {
    ghost use Rattle.std.specs.Iterator.{YieldsFirst, item_count};
    ghost use Rattle.pl_multicast.specs.Changes.{changes_left};

    type Item = Change;

    ghost next_gives = { YieldsFirst changes_left };

    ghost remaining = { item_count changes_left };

    fn next(&mut self) -> Option<Change> {
        if let Some(change) = self.only.take() {
            return Some(change);
        }
        while self.count > 0 {
            let end = record_end(self.records)?;
            let change = record_change(self.records);
            self.count -= 1;
            self.records = self.records.split_at(end).1;
            if change.is_some() {
                return change;
            }
        }
        None
    }
}

/// What a frame says of its sender's memberships, or None where it carries no membership message:
/// IPv4 of protocol 2 with at least 8 bytes behind its header, the first of them 0x16, 0x17 or 0x22.
/// No checksum is checked.
pub fn read_igmp<'a>(view: &FrameView<'a>) -> Option<Changes<'a>>
    ensures read { (frame : List ℕ) → fields view.now ≡ fields_of frame →
        is_some result ≡ is_some (membership_in frame) }
    ensures changes { (frame : List ℕ) → fields view.now ≡ fields_of frame →
        MatchOption result (changes_in frame ≡ []) (λ changes. changes_left changes ≡ changes_in frame) }
{
    let message = message_in(view.kind, view.payload)?;
    Some(changes_of(message))
}

// The membership message in a payload of this type.
fn message_in(kind: u16, payload: &[u8]) -> Option<&[u8]>
    ensures message { option_copied result ≡ message_of kind payload.now }
    ensures long { IfSome result (λ message. 8 ≤ length message.now) }
{
    if kind != TYPE_IPV4 || payload.len() < SHORTEST_HEADER {
        return None;
    }
    let header = 4 * usize::from(payload[0] % 16);
    if payload[0] / 16 != 4 || header < SHORTEST_HEADER || payload.len() < header {
        return None;
    }
    let (_, message) = payload.split_at(header);
    if payload[9] != IGMP || message.len() < MESSAGE {
        return None;
    }
    matches!(message[0], REPORT | LEAVE | REPORT_3).then_some(message)
}

// What a membership message says.
#[tactic(auto, unfolding(crate::specs::Changes::changes_left))]
fn changes_of(message: &[u8]) -> Changes<'_>
    requires { 8 ≤ length message.now }
    ensures { changes_left result ≡ message_changes message.now }
{
    let group = Ip4(BigEndian::read_u32(&message[4..]));
    match message[0] {
        REPORT => one_at_most(change_if_routed(group, true)),
        LEAVE => one_at_most(change_if_routed(group, false)),
        _ => Changes {
            only: None,
            count: BigEndian::read_u16(&message[6..]),
            records: message.split_at(MESSAGE).1,
        },
    }
}

// The changes of a version 2 message.
#[tactic(auto, unfolding(crate::specs::Changes::changes_left, pl_layouts::specs::Memberships::records_changes))]
fn one_at_most<'a>(only: Option<Change>) -> Changes<'a>
    ensures { changes_left result ≡ option_to_list only }
{
    Changes {
        only,
        count: 0,
        records: &[],
    }
}
