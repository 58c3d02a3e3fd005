//! Which pod a switch is given that asks for one.
ghost use Rattle.std.specs.Prelude.{◌≡◌, ◌<◌, ◌+◌, IfOk, OnOk, length, unwrap_or};
ghost use Rattle.pl_node.specs.ManagerViews.{first_free, is_taken, pod_given, switches};
ghost use Rattle.pl_manager_rule.specs.ManagerRule.{with_asker};
ghost use Rattle.pl_registry.specs.Askers.{pod_holders};

use pl_frame::SwitchId;
use pl_node::Memory;
use pl_registry::Askers;
use pl_reports::Reports;

/// The number of the pod of a switch, which is the smallest free one where it asks for the first time. Memory is
/// wanted for such a switch alone.
pub(crate) fn pod_for(
    askers: &mut Askers,
    reports: &Reports,
    switch: SwitchId,
) -> Result<u16, Memory>
    requires { length (switches reports.now) + length (pod_holders askers.old) < 65535 }
    ensures asked { OnOk result (askers.new ≡ with_asker reports.now askers.old switch) }
    ensures pod { IfOk result (λ pod. pod ≡ unwrap_or (pod_given askers.new switch) 0) }
{
    match askers.pod_of(switch) {
        Some(pod) => Ok(pod),
        None => {
            let pod = free_pod(askers, reports);
            askers.give(switch, pod)?;
            Ok(pod)
        }
    }
}

// The smallest number that stands in no place told and was given to no switch.
fn free_pod(askers: &Askers, reports: &Reports) -> u16
    requires { length (switches reports.now) + length (pod_holders askers.now) < 65535 }
    ensures { result ≡ first_free reports.now askers.now }
{
    // No more are taken than that.
    let most = reports.places_told() + askers.len();
    for pod in 0..most as u16 + 1 {
        if !is_taken(askers, reports, pod) {
            return pod;
        }
    }
    unreachable!()
}

fn is_taken(askers: &Askers, reports: &Reports, pod: u16) -> bool
    ensures { result ≡ is_taken reports.now askers.now pod }
{
    reports.has_pod(pod) || askers.has_given(pod)
}
