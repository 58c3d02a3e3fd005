ghost use Rattle.std.specs.Prelude.{◌≡◌, ◌<◌, ◌+◌, ◌++◌, ◌∷◌, [], if◌then◌else◌, OnOk, Some, length, unwrap_or};
ghost use Rattle.pl_node.specs.declared.acts.ManagerAct.TheVariants.{Say};
ghost use Rattle.pl_node.specs.declared.messages.ToSwitch.TheVariants.{Pod};
ghost use Rattle.pl_node.specs.ManagerViews.{lookup, pod_given, switches};
ghost use Rattle.pl_manager_rule.specs.ManagerRule.{answer_to, learning, with_asker, with_learnt};
ghost use Rattle.pl_manager_rule.specs.Reports.{counts_as, known_at};
ghost use Rattle.pl_registry.specs.Askers.{pod_holders};
ghost use Rattle.pl_registry.specs.Learning.{acts_of_learning, acts_of_release, noted_aged};

use crate::giving::pod_for;
use crate::telling::say;
use pl_frame::{Ip4, Mac, SwitchId};
use pl_node::{ManagerAct, ManagerOutbox, Memory, ToSwitch};
use pl_pmac::Pmac;
use pl_registry::{Askers, Learning, Registry, Release};
use pl_reports::Reports;

/// A switch that asks for the number of its pod is told it.
pub(crate) fn give_pod(
    askers: &mut Askers,
    reports: &Reports,
    switch: SwitchId,
    out: &mut ManagerOutbox,
) -> Result<(), Memory>
    requires { length (switches reports.now) + length (pod_holders askers.old) < 65535 }
    ensures askers { OnOk result (askers.new ≡ with_asker reports.now askers.old switch) }
    ensures acts { OnOk result (out.new ≡ out.old ++ Say switch (Pod (unwrap_or (pod_given askers.new switch) 0)) ∷ []) }
{
    let pod = pod_for(askers, reports, switch)?;
    say(switch, ToSwitch::Pod(pod), out)?;
    Ok(())
}

/// A switch tells a pseudo address, or the IPv4 address of one. An address that was not known is numbered,
/// and the switch that told the one before it is told.
pub(crate) fn learn(
    registry: &mut Registry,
    switch: SwitchId,
    pmac: Pmac,
    amac: Mac,
    ip: Option<Ip4>,
    out: &mut ManagerOutbox,
) -> Result<(), Memory>
    ensures learnt { OnOk result (registry.new ≡ with_learnt registry.old (record { switch = switch; pmac = pmac; amac = amac; ip = ip })) }
    ensures acts { OnOk result (out.new ≡ out.old ++ learning registry.old registry.new pmac amac) }
{
    match registry.learn(switch, pmac, amac, ip)? {
        Some(new) => tell_learning(pmac, new, out),
        None => Ok(()),
    }
}

// The number of a new address, and then the address that it replaces.
fn tell_learning(pmac: Pmac, new: Learning, out: &mut ManagerOutbox) -> Result<(), Memory>
    ensures { OnOk result (out.new ≡ out.old ++ acts_of_learning pmac (Some new)) }
{
    out.push(ManagerAct::Number(pmac, new.number))?;
    match new.replaced {
        Some(old) => say(
            old.switch,
            ToSwitch::Invalidate {
                old: old.pmac,
                new: pmac,
                number: new.number,
                ip: old.ip,
            },
            out,
        ),
        None => Ok(()),
    }
}

/// A switch tells, to a manager of this epoch, that an address has aged there. Where that counts it is noted.
pub(crate) fn note_aged(
    registry: &mut Registry,
    switch: SwitchId,
    pmac: Pmac,
    number: u64,
    epoch: u32,
    aged: &mut Vec<Pmac>,
) -> Result<(), Memory>
    ensures learnt { OnOk result (registry.new ≡ noted_aged epoch registry.old switch pmac number (known_at registry.old pmac)) }
    ensures aged { OnOk result (aged.new.items
        ≡ (if counts_as epoch number (known_at registry.old pmac) then aged.old.items ++ pmac ∷ [] else aged.old.items)) }
{
    if registry.note_aged(switch, pmac, number, epoch)? {
        aged.push(pmac)?;
    }
    Ok(())
}

/// The switch that told an address which is released is told so.
pub(crate) fn tell_release(release: Option<Release>, out: &mut ManagerOutbox) -> Result<(), Memory>
    ensures { OnOk result (out.new ≡ out.old ++ acts_of_release release) }
{
    match release {
        Some(release) => say(release.switch, ToSwitch::Release(release.pmac), out),
        None => Ok(()),
    }
}

/// A question for an IPv4 address is answered with the address that it finds; where it finds none, all
/// hosts are to be asked.
pub(crate) fn answer(
    registry: &Registry,
    switch: SwitchId,
    asker: Pmac,
    asker_ip: Ip4,
    ip: Ip4,
    out: &mut ManagerOutbox,
) -> Result<(), Memory>
    ensures { OnOk result (out.new ≡ out.old ++ Say switch (answer_to asker asker_ip ip (lookup registry.now ip)) ∷ []) }
{
    let answer = answer_with(asker, asker_ip, ip, registry.lookup(ip));
    say(switch, answer, out)
}

fn answer_with(asker: Pmac, asker_ip: Ip4, ip: Ip4, found: Option<Pmac>) -> ToSwitch
    ensures { result ≡ answer_to asker asker_ip ip found }
{
    match found {
        Some(pmac) => ToSwitch::Answer {
            asker,
            asker_ip,
            ip,
            pmac,
        },
        None => ToSwitch::Flood {
            asker,
            asker_ip,
            ip,
        },
    }
}
