ghost use Rattle.std.specs.Prelude.{◌≡◌, ◌<◌, length, map, slice_get, vec_len, IfOk, OnOk, Some};
ghost use Rattle.pl_node.specs.Accounting.{CanCome};
ghost use Rattle.pl_node.specs.Gains.{Gains};
ghost use Rattle.pl_node.specs.HostInputs.HostAnswer.{Nothing, Played, Received};
ghost use Rattle.pl_node.specs.HostInputs.HostInput.{Receives};
ghost use Rattle.pl_node.specs.SwitchViews.{SwitchView};
ghost use Rattle.pl_world_parts.specs.OneStep.{HostSteps, IsOneChanged, SwitchSteps, input_from, input_of, sizes};
ghost use Rattle.pl_world.specs.WorldRule.{played_as};

use crate::host_call::HostCall;
use crate::incoming::Incoming;
use pl_frame::Memory;
use pl_journal::Skip;
use pl_layouts::Place;
use pl_node::{HostLogic, HostOutbox, Outbox, Reception, SwitchLogic};

fn hear<S: SwitchLogic>(switch: &mut S, incoming: Incoming, out: &mut Outbox) -> Result<(), Memory>
    requires { CanCome (S.view switch.old) (input_from incoming) }
    ensures step { OnOk result (Gains out.old out.new (S.rule (S.view switch.old) (input_from incoming.entry) (S.view switch.new))) }
    ensures k { (S.view switch.new).k ≡ (S.view switch.old).k }
{
    match incoming {
        Incoming::Frame(port, frame) => switch.receive(port, frame, out),
        Incoming::Tick => switch.tick(out),
        Incoming::Message(says) => switch.manager_says(says, out),
    }
}

/// Something comes at one of some switches. The answer is its place before and after.
pub fn hear_at<S: SwitchLogic>(
    switches: &mut Vec<S>,
    s: usize,
    incoming: Incoming,
    out: &mut Outbox,
) -> Result<(Place, Place), Memory>
    requires within { s < vec_len switches.old }
    requires coming { (v : SwitchView) → slice_get (map S.view switches.old.items) s ≡ Some v → CanCome v (input_from incoming) }
    ensures step { IfOk result (λ places. Gains out.old out.new
        (SwitchSteps S.rule (map S.view switches.old.items) s (input_from incoming.entry) (map S.view switches.new.items) places.0 places.1)) }
    ensures kept { sizes (map S.view switches.new.items) ≡ sizes (map S.view switches.old.items) }
    ensures others { IsOneChanged (map S.view switches.old.items) s (map S.view switches.new.items) }
{
    let old = switches[s].place();
    hear(&mut switches[s], incoming, out)?;
    Ok((old, switches[s].place()))
}

fn host_call<H: HostLogic>(
    host: &mut H,
    host_call: HostCall,
    out: &mut HostOutbox,
) -> Result<(), Memory>
    ensures { OnOk result (Gains out.old out.new (λ acts. H.rule (H.view host.old) (input_of host_call) (H.view host.new) acts Nothing)) }
{
    match host_call {
        HostCall::Start => host.start(out),
        HostCall::Retry => host.retry(out),
        HostCall::Moved => host.moved(out),
        HostCall::Join(group) => host.join(group, out),
        HostCall::Leave(group) => host.leave(group, out),
    }
}

fn play<H: HostLogic>(
    host: &mut H,
    frame: &[u8],
    original: u32,
    raw: bool,
    out: &mut HostOutbox,
) -> Result<Option<Skip>, Memory>
    ensures { IfOk result (λ skip. Gains out.old out.new
        (λ acts. H.rule (H.view host.old) (played_as raw frame.now original) (H.view host.new) acts (Played skip))) }
{
    if raw {
        host.raw(frame, original, out)
    } else {
        host.play(frame, original, out)
    }
}

/// One of some hosts does something of itself.
pub fn host_call_at<H: HostLogic>(
    hosts: &mut Vec<H>,
    h: usize,
    to: HostCall,
    out: &mut HostOutbox,
) -> Result<(), Memory>
    requires { h < vec_len hosts.old }
    ensures step { OnOk result (Gains out.old out.new
        (HostSteps H.rule (map H.view hosts.old.items) h (input_of to) Nothing (map H.view hosts.new.items))) }
    ensures many { vec_len hosts.new ≡ vec_len hosts.old }
{
    host_call(&mut hosts[h], to, out)?;
    Ok(())
}

/// It plays a recorded frame, raw or not.
pub fn play_at<H: HostLogic>(
    hosts: &mut Vec<H>,
    h: usize,
    frame: &[u8],
    original: u32,
    raw: bool,
    out: &mut HostOutbox,
) -> Result<Option<Skip>, Memory>
    requires { h < vec_len hosts.old }
    ensures step { IfOk result (λ skip. Gains out.old out.new
        (HostSteps H.rule (map H.view hosts.old.items) h (played_as raw frame.now original) (Played skip) (map H.view hosts.new.items))) }
    ensures many { vec_len hosts.new ≡ vec_len hosts.old }
{
    let skip = play(&mut hosts[h], frame, original, raw, out)?;
    Ok(skip)
}

/// A frame arrives at it.
pub fn arrive_at<H: HostLogic>(
    hosts: &mut Vec<H>,
    h: usize,
    frame: &[u8],
    out: &mut HostOutbox,
) -> Result<Reception, Memory>
    requires { h < vec_len hosts.old }
    ensures step { IfOk result (λ reception. Gains out.old out.new
        (HostSteps H.rule (map H.view hosts.old.items) h (Receives frame.now) (Received reception) (map H.view hosts.new.items))) }
    ensures many { vec_len hosts.new ≡ vec_len hosts.old }
{
    let reception = hosts[h].receive(frame, out)?;
    Ok(reception)
}
