ghost use Rattle.std.specs.Prelude.{◌≡◌};
ghost use Rattle.pl_script.specs.Names.{host_named, host, switch, cause, who_of, ticking, end_of};

use crate::verb::cause_named;
use crate::{End, ScriptReason, Who};
use pl_journal::Cause;
use pl_wiring::{HostNo, SwitchNo, Wiring};

// The host of this name. As the names of a wiring's hosts are apart, there is one at most.
fn host_named(wiring: &Wiring, name: &str) -> Option<HostNo>
    ensures { result ≡ host_named wiring.now name.now }
{
    let _ = wiring.hosts();
    wiring.host_named(name)
}

/// The host of this name.
pub(crate) fn host(wiring: &Wiring, name: &str) -> Result<HostNo, ScriptReason>
    ensures { result ≡ host wiring.now name.now }
{
    host_named(wiring, name).ok_or(ScriptReason::Name)
}

/// The switch of this label.
pub(crate) fn switch(wiring: &Wiring, label: &str) -> Result<SwitchNo, ScriptReason>
    ensures { result ≡ switch wiring.now label.now }
{
    wiring.switch_named(label).ok_or(ScriptReason::Name)
}

/// The cause of this name.
pub(crate) fn cause(name: &str) -> Result<Cause, ScriptReason>
    ensures { result ≡ cause name.now }
{
    cause_named(name).ok_or(ScriptReason::Name)
}

/// A host, or `all`.
#[tactic(auto, unfolding(crate::specs::Names::who_of))]
pub(crate) fn who(wiring: &Wiring, name: &str) -> Result<Who, ScriptReason>
    ensures { result ≡ who_of wiring.now name.now }
{
    if name == "all" {
        return Ok(Who::All);
    }
    let host = host(wiring, name)?;
    Ok(Who::One(host))
}

/// A switch, or none of its own for `all`.
#[tactic(auto, unfolding(crate::specs::Names::ticking))]
pub(crate) fn ticking(wiring: &Wiring, label: &str) -> Result<Option<SwitchNo>, ScriptReason>
    ensures { result ≡ ticking wiring.now label.now }
{
    if label == "all" {
        return Ok(None);
    }
    let switch = switch(wiring, label)?;
    Ok(Some(switch))
}

/// `manager`, a host or a switch.
#[tactic(auto, unfolding(crate::specs::Names::end_of))]
pub(crate) fn end(wiring: &Wiring, name: &str) -> Result<End, ScriptReason>
    ensures { result ≡ end_of wiring.now name.now }
{
    if name == "manager" {
        return Ok(End::Manager);
    }
    if let Some(host) = host_named(wiring, name) {
        return Ok(End::Host(host));
    }
    let switch = switch(wiring, name)?;
    Ok(End::Switch(switch))
}
