ghost use Rattle.std.specs.Prelude.{◌<◌};
ghost use Rattle.pl_wiring.specs.Labels.{switch_count};

use pl_faults::Matrix;
use pl_frame::SwitchId;
use pl_node::{Memory, Place};
use pl_wiring::{Label, Peer, SwitchNo, Wiring};

/// The place of a switch in a settled fabric whose pods are numbered as in the labels.
pub(crate) fn place_of(label: Label) -> Place {
    match label {
        Label::Edge(pod, position) => Place {
            level: Some(0),
            position: Some(position),
            pod: Some(pod),
        },
        Label::Aggregation(pod, _) => Place {
            level: Some(1),
            position: None,
            pod: Some(pod),
        },
        Label::Core(_, _) => Place {
            level: Some(2),
            position: None,
            pod: None,
        },
    }
}

/// Every switch tells its place, and that each of its links is usable.
pub(crate) fn tell_all(wiring: &Wiring, matrix: &mut Matrix) -> Result<(), Memory> {
    for s in 0..wiring.switch_count() {
        let switch = SwitchNo(s);
        matrix.set_place(wiring.id(switch), place_of(wiring.label(switch)))?;
        tell_links(wiring, switch, matrix)?;
    }
    Ok(())
}

fn tell_links(wiring: &Wiring, switch: SwitchNo, matrix: &mut Matrix) -> Result<(), Memory>
    requires { switch.0 < switch_count wiring.now.k }
{
    for port in 0..wiring.k() {
        if let Peer::Switch(other, _) = wiring.peer(switch, port) {
            matrix.report(wiring.id(switch), wiring.id(other), true)?;
        }
    }
    Ok(())
}

/// Both ends of a link tell whether it is usable.
pub(crate) fn tell_both(
    matrix: &mut Matrix,
    a: SwitchId,
    b: SwitchId,
    usable: bool,
) -> Result<(), Memory> {
    matrix.report(a, b, usable)?;
    matrix.report(b, a, usable)
}

/// What came of reports: how many there were, how many lists were compared with those that were kept, and how
/// many of them differed.
#[derive(Clone, Copy, Debug, Default)]
pub(crate) struct Tally {
    pub(crate) reports: u32,
    pub(crate) lists: u32,
    pub(crate) other: u32,
}

impl Tally {
    // Each kept list is compared with the one that is made of all that was told.
    fn compare(&mut self, wiring: &Wiring, matrix: &Matrix) -> Result<(), Memory> {
        self.reports = self.reports.wrapping_add(1);
        for s in 0..wiring.switch_count() {
            let switch = wiring.id(SwitchNo(s));
            let made = matrix.avoid_for(switch)?;
            self.lists = self.lists.wrapping_add(1);
            let same = match matrix.list(switch) {
                Some(kept) => kept.is(&made),
                None => made.is_empty(),
            };
            if !same {
                self.other = self.other.wrapping_add(1);
            }
        }
        Ok(())
    }
}

/// Both ends of each link up from a switch tell that it failed, and then that it is usable again.
pub(crate) fn fail_links(
    wiring: &Wiring,
    switch: SwitchNo,
    matrix: &mut Matrix,
    tally: &mut Tally,
) -> Result<(), Memory>
    requires { switch.0 < switch_count wiring.now.k }
{
    for port in 0..wiring.k() {
        if let Peer::Switch(other, _) = wiring.peer(switch, port) {
            if switch.0 < other.0 {
                fail_link(wiring, wiring.id(switch), wiring.id(other), matrix, tally)?;
            }
        }
    }
    Ok(())
}

fn fail_link(
    wiring: &Wiring,
    a: SwitchId,
    b: SwitchId,
    matrix: &mut Matrix,
    tally: &mut Tally,
) -> Result<(), Memory> {
    for usable in [false, true] {
        matrix.report(a, b, usable)?;
        tally.compare(wiring, matrix)?;
        matrix.report(b, a, usable)?;
        tally.compare(wiring, matrix)?;
    }
    Ok(())
}
