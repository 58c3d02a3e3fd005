ghost use Rattle.std.specs.Prelude.{◌≡◌};
ghost use Rattle.std.specs.Option.{option_copied};
ghost use Rattle.pl_layouts.specs.Equality.{same_switch};
ghost use Rattle.pl_watch.specs.SameLooks.{same_kind, same_label, same_look};
ghost use Rattle.pl_watch.specs.News.{same_attempt, same_bool, same_hold, same_ids, same_neighbour, same_option, same_part, same_port};

use pl_frame::SwitchId;
use pl_log_lines::{Kind, Look};
use pl_node::{Neighbour, PortRecord, TreePart, is_same_place};
use pl_wiring::SwitchNo;

fn is_same_bool(a: bool, b: bool) -> bool
    ensures { result ≡ same_bool a b }
{
    if a { b } else { !b }
}

fn is_same_switch(a: SwitchId, b: SwitchId) -> bool
    ensures { result ≡ same_switch a b }
{
    a.0 == b.0
}

fn is_same_id(a: Option<SwitchId>, b: Option<SwitchId>) -> bool
    ensures { result ≡ same_option same_switch a b }
{
    match (a, b) {
        (Some(a), Some(b)) => is_same_switch(a, b),
        (None, None) => true,
        _ => false,
    }
}

fn is_same_neighbour(a: Neighbour, b: Neighbour) -> bool
    ensures { result ≡ same_neighbour a b }
{
    is_same_switch(a.id, b.id) && is_same_place(a.place, b.place) && is_same_id(a.echo, b.echo)
}

fn is_same_heard(a: Option<Neighbour>, b: Option<Neighbour>) -> bool
    ensures { result ≡ same_option same_neighbour a b }
{
    match (a, b) {
        (Some(a), Some(b)) => is_same_neighbour(a, b),
        (None, None) => true,
        _ => false,
    }
}

/// Whether the same is heard at a port.
pub(crate) fn is_same_port(a: PortRecord, b: PortRecord) -> bool
    ensures { result ≡ same_port a b }
{
    is_same_bool(a.host, b.host) && is_same_heard(a.heard, b.heard)
}

pub(crate) fn is_same_attempt(a: Option<(u32, u8)>, b: Option<(u32, u8)>) -> bool
    ensures { result ≡ same_option same_attempt a b }
{
    match (a, b) {
        (Some(a), Some(b)) => a.0 == b.0 && a.1 == b.1,
        (None, None) => true,
        _ => false,
    }
}

pub(crate) fn is_same_hold(a: Option<(SwitchId, bool)>, b: Option<(SwitchId, bool)>) -> bool
    ensures { result ≡ same_option same_hold a b }
{
    match (a, b) {
        (Some(a), Some(b)) => is_same_switch(a.0, b.0) && is_same_bool(a.1, b.1),
        (None, None) => true,
        _ => false,
    }
}

#[tactic(auto, using(crate::proofs::Sameness::other_many, crate::proofs::Sameness::same_on, crate::proofs::Sameness::other_there, crate::proofs::Sameness::same_to_end))]
fn are_same_ids(a: &[SwitchId], b: &[SwitchId]) -> bool
    ensures { result ≡ same_ids a.now b.now }
{
    if a.len() != b.len() {
        return false;
    }
    for n in 0..a.len() {
        if !is_same_switch(a[n], b[n]) {
            return false;
        }
    }
    true
}

/// Whether a switch has the same part of a tree.
pub(crate) fn is_same_part(a: Option<&TreePart>, b: Option<&TreePart>) -> bool
    ensures { result ≡ same_option same_part (option_copied a.entry) (option_copied b.entry) }
{
    match (a, b) {
        (Some(a), Some(b)) => {
            is_same_id(a.up, b.up) && are_same_ids(a.down.as_slice(), b.down.as_slice())
        }
        (None, None) => true,
        _ => false,
    }
}

pub(crate) fn is_same_look(a: &Look, b: &Look) -> bool
    ensures { result ≡ same_look a.now b.now }
{
    is_same_label(a.of, b.of)
        && is_same_kind(a.kind, b.kind)
        && a.first == b.first
        && a.last == b.last
        && is_same_bool(a.json, b.json)
}

fn is_same_label(a: Option<SwitchNo>, b: Option<SwitchNo>) -> bool
    ensures { result ≡ same_option same_label a b }
{
    match (a, b) {
        (Some(a), Some(b)) => a.0 == b.0,
        (None, None) => true,
        _ => false,
    }
}

fn is_same_kind(a: Option<Kind>, b: Option<Kind>) -> bool
    ensures { result ≡ same_option same_kind a b }
{
    match (a, b) {
        (Some(a), Some(b)) => a.text() == b.text(),
        (None, None) => true,
        _ => false,
    }
}
