ghost use Rattle.std.specs.Prelude.{◌≡◌, ◌≤◌, length, OnOk};
ghost use Rattle.pl_node.specs.declared.messages.ToSwitch.TheVariants.{Answer, Flood};
ghost use Rattle.pl_steps.specs.Taken.{IsTaken};
ghost use Rattle.pl_switch_rule.specs.Granting.{held_here};
ghost use Rattle.pl_switch_rule.specs.Messages.{floods, hears_manager, invalidates};
ghost use Rattle.pl_switch_rule.specs.SwitchRule.{by_flow};

use crate::KeepsRecords;
use crate::home::makes;
use pl_forward::forward_to_group;
use pl_frame::{Frame, Ip4};
use pl_node::{Act, Memory, Outbox, ToSwitch, Trap};
use pl_pmac::Pmac;
use pl_switch_rule::Came;

/// A message of the fabric manager is heard. One about an address that was never granted here changes
/// nothing.
pub fn hear_manager<S: KeepsRecords>(
    switch: &mut S,
    says: &ToSwitch,
    out: &mut Outbox,
) -> Result<(), Memory>
    ensures taken { OnOk result (IsTaken (hears_manager by_flow (S.view switch.old) says.now) (S.view switch.new) out.old out.new) }
    ensures id { (S.view switch.new).id ≡ (S.view switch.old).id }
    ensures k { (S.view switch.new).k ≡ (S.view switch.old).k }
{
    match says {
        ToSwitch::Pod(pod) => switch.hear_pod(*pod, out),
        ToSwitch::Avoid(list) => switch.hear_avoid_list(list),
        ToSwitch::Tree { group, part } => switch.hear_tree_part(*group, part),
        ToSwitch::Answer {
            asker,
            asker_ip,
            ip,
            pmac,
        } => answer(switch, *asker, *asker_ip, *ip, *pmac, out),
        ToSwitch::Flood {
            asker,
            asker_ip,
            ip,
        } => flood(switch, *asker, *asker_ip, *ip, out),
        ToSwitch::Invalidate {
            old,
            new,
            number,
            ip,
        } => {
            let to = Trap {
                new: *new,
                number: *number,
                ip: *ip,
            };
            invalidate(switch, *old, to, out)
        }
        ToSwitch::Release(pmac) => switch.release(*pmac, out),
        ToSwitch::Hello(epoch) => switch.hear_hello(*epoch, out),
    }
}

// The asker is told which pseudo address has the IPv4 address.
fn answer<S: KeepsRecords>(
    switch: &S,
    asker: Pmac,
    asker_ip: Ip4,
    ip: Ip4,
    pmac: Pmac,
    out: &mut Outbox,
) -> Result<(), Memory>
    ensures { OnOk result (IsTaken (hears_manager by_flow (S.view switch.now) (Answer asker asker_ip ip pmac)) (S.view switch.now) out.old out.new) }
{
    if !switch.is_granted(asker) {
        return Ok(());
    }
    let frame = pl_delivery::answer(switch.alloc(), asker, asker_ip, ip, pmac)?;
    makes(switch, frame, out)?;
    Ok(())
}

// All hosts are asked, in the name of the asker.
fn flood<S: KeepsRecords>(
    switch: &S,
    asker: Pmac,
    asker_ip: Ip4,
    ip: Ip4,
    out: &mut Outbox,
) -> Result<(), Memory>
    ensures { OnOk result (IsTaken (hears_manager by_flow (S.view switch.now) (Flood asker asker_ip ip)) (S.view switch.now) out.old out.new) }
{
    if !switch.is_granted(asker) {
        return Ok(());
    }
    let frame = pl_delivery::flood(switch.alloc(), asker, asker_ip, ip)?;
    send_to_all(switch, &frame, out)?;
    Ok(())
}

// A frame that this switch makes goes up to all hosts.
fn send_to_all<S: KeepsRecords>(switch: &S, frame: &Frame, out: &mut Outbox) -> Result<(), Memory>
    requires { 14 ≤ length frame.now }
    ensures { OnOk result (IsTaken (floods (S.view switch.now) frame.now) (S.view switch.now) out.old out.new) }
{
    let made = Frame::copy(switch.alloc(), frame.bytes())?;
    out.push(Act::Make(made))?;
    let from_host = Some(Came::FromHost);
    forward_to_group(switch, switch.alloc(), from_host, frame.bytes(), out)?;
    Ok(())
}

// A host has a newer address than one that was granted here.
fn invalidate<S: KeepsRecords>(
    switch: &mut S,
    old: Pmac,
    to: Trap,
    out: &mut Outbox,
) -> Result<(), Memory>
    ensures taken { OnOk result (IsTaken (invalidates (S.view switch.old) old to (held_here (S.view switch.old) old)) (S.view switch.new) out.old out.new) }
    ensures id { (S.view switch.new).id ≡ (S.view switch.old).id }
    ensures k { (S.view switch.new).k ≡ (S.view switch.old).k }
{
    if !switch.is_granted(old) {
        return Ok(());
    }
    switch.invalidate(old, to, out)
}
