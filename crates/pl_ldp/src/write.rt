ghost use Rattle.std.specs.Prelude.{◌≡◌, ◌≤◌, ◌<◌, ◌^◌, ◌∷◌, ◌++◌, length, take, drop};
ghost use Rattle.byteorder.specs.Endian.{big_bytes};
ghost use Rattle.pl_layouts.specs.Control.{level_code, pod_code, id_code, ldm_bytes, proposal_bytes, vote_bytes, control_bytes, sender_of, control_frame};
ghost use Rattle.pl_ldp.specs.Writable.{IsWritableControl, FitsLdm, FitsVote, IsWritableId};

use crate::{
    KIND_LDM, KIND_PROPOSAL, KIND_VOTE, LDM_LENGTH, PROPOSAL_LENGTH, VERSION, VOTE_LENGTH,
};
use byteorder::{BigEndian, ByteOrder};
use pl_frame::{SHORTEST, SwitchId, TYPE_CONTROL};
use pl_layouts::{Control, Ldm, Proposal, Vote};

// The group that every switch is in: 03:50:4c:00:00:01.
const GROUP: [u8; 6] = [0x03, 0x50, 0x4c, 0, 0, 1];

/// Writes a whole control frame to the front, and returns its length: 33 bytes for a location
/// discovery message, 27 for a proposal, 35 for a vote. The bytes behind it stay as they were.
///
/// Behind the destination 03:50:4c:00:00:01, the six bytes of the sender's id as the source, and the
/// type 0x88b5 stand version 1, the kind, the sender's id in 6 bytes, and then
/// - kind 1, a location discovery message: level 1, position 1, pod 2, direction 1, echo 6;
/// - kind 2, a proposal: attempt 4, position 1;
/// - kind 3, a vote: attempt 4, position 1, granted 1, holder 6, fixed 1.
///
/// Numbers have their most significant byte first. A level, position or pod that is not known has all
/// its bits set, and an id that is not there is 0.
#[tactic(auto, unfolding(pl_layouts::specs::Control::control_frame))]
pub fn write_control(control: &Control, to: &mut [u8; 35]) -> usize
    requires { IsWritableControl control.now }
    ensures length { result ≡ length (control_frame control.now) }
    ensures within { (SHORTEST ≤ result) × (result ≤ 35) }
    ensures frame { take result to.new ≡ control_frame control.now }
    ensures behind { drop result to.new ≡ drop result to.old }
{
    let (head, payload) = to.split_at_mut(SHORTEST);
    write_head(sender_of(control), head);
    SHORTEST + write_payload(control, payload)
}

fn sender_of(control: &Control) -> SwitchId
    ensures { result ≡ sender_of control.now }
{
    match control {
        Control::Ldm(id, _) | Control::Proposal(id, _) | Control::Vote(id, _) => *id,
    }
}

// Destination, source and type.
fn write_head(id: SwitchId, to: &mut [u8])
    requires room { length to.old ≡ 14 }
    requires id { IsWritableId id }
    ensures { to.new ≡ 3 ∷ 0x50 ∷ 0x4c ∷ 0 ∷ 0 ∷ 1 ∷ (big_bytes 6 id.0 ++ big_bytes 2 0x88b5) }
{
    let (dst, rest) = to.split_at_mut(6);
    let (src, kind) = rest.split_at_mut(6);
    dst.copy_from_slice(&GROUP);
    BigEndian::write_u48(src, id.0);
    BigEndian::write_u16(kind, TYPE_CONTROL);
}

#[tactic(auto, unfolding(pl_layouts::specs::Control::control_bytes))]
fn write_payload(control: &Control, to: &mut [u8]) -> usize
    requires room { 21 ≤ length to.old }
    requires writable { IsWritableControl control.now }
    ensures length { result ≡ length (control_bytes control.now) }
    ensures within { result ≤ 21 }
    ensures bytes { to.new ≡ control_bytes control.now ++ drop result to.old }
{
    match control {
        Control::Ldm(id, ldm) => write_ldm(*id, ldm, to),
        Control::Proposal(id, proposal) => write_proposal(*id, proposal, to),
        Control::Vote(id, vote) => write_vote(*id, vote, to),
    }
}

fn write_ldm(id: SwitchId, ldm: &Ldm, to: &mut [u8]) -> usize
    requires room { 19 ≤ length to.old }
    requires id { IsWritableId id }
    requires fits { FitsLdm ldm.now }
    ensures length { result ≡ 19 }
    ensures bytes { to.new ≡ ldm_bytes id ldm.now ++ drop 19 to.old }
{
    let (start, rest) = to.split_at_mut(8);
    let (level, rest) = rest.split_at_mut(2);
    let (pod, rest) = rest.split_at_mut(2);
    let (direction, echo) = rest.split_at_mut(1);
    write_start(KIND_LDM, id, start);
    level.copy_from_slice(&[code(ldm.place.level), code(ldm.place.position)]);
    BigEndian::write_u16(pod, ldm.place.pod.unwrap_or(u16::MAX));
    direction[0] = ldm.direction;
    BigEndian::write_u48(echo, id_code(ldm.echo));
    LDM_LENGTH
}

fn write_proposal(id: SwitchId, proposal: &Proposal, to: &mut [u8]) -> usize
    requires room { 13 ≤ length to.old }
    requires id { IsWritableId id }
    ensures length { result ≡ 13 }
    ensures bytes { to.new ≡ proposal_bytes id proposal.now ++ drop 13 to.old }
{
    let (start, rest) = to.split_at_mut(8);
    let (attempt, position) = rest.split_at_mut(4);
    write_start(KIND_PROPOSAL, id, start);
    BigEndian::write_u32(attempt, proposal.attempt);
    position[0] = proposal.position;
    PROPOSAL_LENGTH
}

fn write_vote(id: SwitchId, vote: &Vote, to: &mut [u8]) -> usize
    requires room { 21 ≤ length to.old }
    requires id { IsWritableId id }
    requires fits { FitsVote vote.now }
    ensures length { result ≡ 21 }
    ensures bytes { to.new ≡ vote_bytes id vote.now ++ drop 21 to.old }
{
    let (start, rest) = to.split_at_mut(8);
    let (attempt, rest) = rest.split_at_mut(4);
    let (position, rest) = rest.split_at_mut(2);
    let (holder, fixed) = rest.split_at_mut(6);
    write_start(KIND_VOTE, id, start);
    BigEndian::write_u32(attempt, vote.attempt);
    position.copy_from_slice(&[vote.position, u8::from(vote.granted)]);
    BigEndian::write_u48(holder, id_code(vote.holder));
    fixed[0] = u8::from(vote.fixed);
    VOTE_LENGTH
}

// Version, kind and the sender's id.
fn write_start(kind: u8, id: SwitchId, to: &mut [u8])
    requires room { length to.old ≡ 8 }
    requires id { IsWritableId id }
    ensures { to.new ≡ 1 ∷ kind ∷ big_bytes 6 id.0 }
{
    let (version, sender) = to.split_at_mut(2);
    version.copy_from_slice(&[VERSION, kind]);
    BigEndian::write_u48(sender, id.0);
}

// A level or a position.
fn code(known: Option<u8>) -> u8
    ensures { result ≡ level_code known }
{
    known.unwrap_or(u8::MAX)
}

fn id_code(id: Option<SwitchId>) -> u64
    ensures { result ≡ id_code id }
{
    match id {
        Some(id) => id.0,
        None => 0,
    }
}
