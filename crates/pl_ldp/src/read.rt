ghost use Rattle.std.specs.Prelude.{◌≡◌, ◌≤◌, ◌↔◌, ◌&&◌, Bool, true, length, nat_lt, slice_index, if◌then◌else◌, IfOk, Ok, Err};
ghost use Rattle.pl_layouts.specs.Control.{known_unless, id_of_code, sender_at, ldm_at, proposal_at, vote_at, is_sound, is_sound_ldm, is_sound_vote, is_bit, sound_or_refused, control_in};
ghost use Rattle.pl_ldp.specs.Writable.{IsWritableControl};
ghost use Rattle.pl_ldp.specs.Refusals.{IsCut, IsOtherVersion, IsOtherKind, HasBadField};

use crate::{
    KIND_LDM, KIND_PROPOSAL, KIND_VOTE, LDM_LENGTH, PROPOSAL_LENGTH, VERSION, VOTE_LENGTH,
};
use byteorder::{BigEndian, ByteOrder};
use pl_frame::SwitchId;
use pl_layouts::{Control, ControlError, Ldm, Place, Proposal, Vote};

/// What a control frame's payload says, or the first thing that is wrong with it: fewer bytes than
/// version and kind take, then the version, the kind, fewer bytes than the kind takes, and a field.
/// Bytes after the message are accepted, since short frames may be padded.
#[tactic(auto, unfolding(pl_layouts::specs::Control::control_in))]
pub fn read_control(payload: &[u8]) -> Result<Control, ControlError>
    ensures exact { result ≡ control_in payload.now }
    ensures writable { IfOk result IsWritableControl }
    ensures cut { (result ≡ Err ControlError.Cut) ↔ IsCut payload.now }
    ensures bad_version { (result ≡ Err ControlError.BadVersion) ↔ IsOtherVersion payload.now }
    ensures bad_kind { (result ≡ Err ControlError.BadKind) ↔ IsOtherKind payload.now }
    ensures bad_field { (result ≡ Err ControlError.BadField) ↔ HasBadField payload.now }
{
    if payload.len() < 2 {
        return Err(ControlError::Cut);
    }
    if payload[0] != VERSION {
        return Err(ControlError::BadVersion);
    }
    match payload[1] {
        KIND_LDM => read_ldm(payload),
        KIND_PROPOSAL => read_proposal(payload),
        KIND_VOTE => read_vote(payload),
        _ => Err(ControlError::BadKind),
    }
}

fn read_ldm(payload: &[u8]) -> Result<Control, ControlError>
    ensures { result ≡ (if nat_lt (length payload.now) 19 then Err ControlError.Cut
        else sound_or_refused true (Control.Ldm (sender_at payload.now) (ldm_at payload.now))) }
{
    if payload.len() < LDM_LENGTH {
        return Err(ControlError::Cut);
    }
    sound_or_refused(Control::Ldm(sender(payload), ldm(payload)))
}

fn read_proposal(payload: &[u8]) -> Result<Control, ControlError>
    ensures { result ≡ (if nat_lt (length payload.now) 13 then Err ControlError.Cut
        else sound_or_refused true (Control.Proposal (sender_at payload.now) (proposal_at payload.now))) }
{
    if payload.len() < PROPOSAL_LENGTH {
        return Err(ControlError::Cut);
    }
    sound_or_refused(Control::Proposal(sender(payload), proposal(payload)))
}

fn read_vote(payload: &[u8]) -> Result<Control, ControlError>
    ensures { result ≡ (if nat_lt (length payload.now) 21 then Err ControlError.Cut
        else sound_or_refused (is_bit (slice_index payload.now 13) && is_bit (slice_index payload.now 20))
        (Control.Vote (sender_at payload.now) (vote_at payload.now))) }
{
    if payload.len() < VOTE_LENGTH {
        return Err(ControlError::Cut);
    }
    if payload[13] > 1 || payload[20] > 1 {
        return Err(ControlError::BadField);
    }
    sound_or_refused(Control::Vote(sender(payload), vote(payload)))
}

fn sender(payload: &[u8]) -> SwitchId
    requires { 8 ≤ length payload.now }
    ensures { result ≡ sender_at payload.now }
{
    SwitchId(BigEndian::read_u48(&payload[2..]))
}

fn ldm(payload: &[u8]) -> Ldm
    requires { 19 ≤ length payload.now }
    ensures { result ≡ ldm_at payload.now }
{
    Ldm {
        place: Place {
            level: known(payload[8]),
            position: known(payload[9]),
            pod: known_pod(BigEndian::read_u16(&payload[10..])),
        },
        direction: payload[12],
        echo: known_id(BigEndian::read_u48(&payload[13..])),
    }
}

fn proposal(payload: &[u8]) -> Proposal
    requires { 13 ≤ length payload.now }
    ensures { result ≡ proposal_at payload.now }
{
    Proposal {
        attempt: BigEndian::read_u32(&payload[8..]),
        position: payload[12],
    }
}

fn vote(payload: &[u8]) -> Vote
    requires { 21 ≤ length payload.now }
    ensures { result ≡ vote_at payload.now }
{
    Vote {
        attempt: BigEndian::read_u32(&payload[8..]),
        position: payload[12],
        granted: payload[13] == 1,
        holder: known_id(BigEndian::read_u48(&payload[14..])),
        fixed: payload[20] == 1,
    }
}

// A level or position, unless its byte says that it is unknown.
fn known(code: u8) -> Option<u8>
    ensures { result ≡ known_unless 255 code }
{
    if code == u8::MAX { None } else { Some(code) }
}

fn known_pod(code: u16) -> Option<u16>
    ensures { result ≡ known_unless 65535 code }
{
    if code == u16::MAX { None } else { Some(code) }
}

fn known_id(code: u64) -> Option<SwitchId>
    ensures { result ≡ id_of_code code }
{
    if code == 0 {
        None
    } else {
        Some(SwitchId(code))
    }
}

fn sound_or_refused(control: Control) -> Result<Control, ControlError>
    ensures { result ≡ sound_or_refused true control }
{
    if is_sound(&control) {
        Ok(control)
    } else {
        Err(ControlError::BadField)
    }
}

fn is_sound(control: &Control) -> bool
    ensures { result ≡ is_sound control.now }
{
    match control {
        Control::Ldm(id, ldm) => id.0 != 0 && is_sound_ldm(ldm),
        Control::Proposal(id, proposal) => id.0 != 0 && proposal.attempt != 0,
        Control::Vote(id, vote) => id.0 != 0 && is_sound_vote(vote),
    }
}

fn is_sound_ldm(ldm: &Ldm) -> bool
    ensures { result ≡ is_sound_ldm ldm.now }
{
    let Place {
        level,
        position,
        pod,
    } = ldm.place;
    matches!(level, None | Some(0..=2))
        && ldm.direction <= 2
        && (position.is_none() || matches!(level, Some(0)))
        && (pod.is_none() || matches!(level, Some(0 | 1)))
}

fn is_sound_vote(vote: &Vote) -> bool
    ensures { result ≡ is_sound_vote vote.now }
{
    let agrees = match vote.holder {
        Some(_) => !vote.granted,
        None => vote.granted && !vote.fixed,
    };
    vote.attempt != 0 && agrees
}
