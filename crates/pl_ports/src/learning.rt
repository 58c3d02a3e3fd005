ghost use Rattle.std.specs.Prelude.{◌≡◌, ◌<◌, ◌&&◌, if◌then◌else◌, is_none, IfSome, Some};
ghost use Rattle.pl_node.specs.SwitchViews.{SwitchView};
ghost use Rattle.pl_switch_rule.specs.Levels.{becomes_edge, learns_level, learns_pod, level_after, pod_after, pod_told_before, with_pod};
ghost use Rattle.pl_switch_rule.specs.Messages.{takes_pod};
ghost use Rattle.pl_ports.specs.Changes.{with_position};
ghost use Rattle.pl_ports.specs.PortsViews.{ports_alone, put_ports};
ghost use Rattle.pl_ports.specs.SoundPorts.{IsPod};

use crate::Ports;
use crate::evidence::{hears_other_pod, pod_told_before};
use pl_layouts::Place;

// The pod that stands for none.
const NO_POD: u16 = u16::MAX;

impl Ports {
    /// The switch learns its level, and then its pod, from the place that a message told, once `heard`
    /// has replaced the record.
    pub fn learn(&mut self, told: Place)
        requires { IfSome told.pod IsPod }
        ensures { (v : SwitchView) → put_ports self.new v ≡ learns_pod (learns_level (put_ports self.old v) told) told }
    {
        self.learn_level(told);
        self.learn_pod(told);
    }

    fn learn_level(&mut self, told: Place)
        ensures { (v : SwitchView) → put_ports self.new v ≡ learns_level (put_ports self.old v) told }
    {
        let level = self.level_after(told);
        let place = self.place();
        self.stand(Place { level, ..place });
    }

    fn level_after(&self, told: Place) -> Option<u8>
        ensures { result ≡ level_after (ports_alone self.now) told }
    {
        match (self.place().level, told.level) {
            (Some(level), _) => Some(level),
            (None, Some(0)) => Some(1),
            (None, Some(1)) if hears_other_pod(told.pod, self.records()) => Some(2),
            _ => None,
        }
    }

    fn learn_pod(&mut self, told: Place)
        requires { IfSome told.pod IsPod }
        ensures { (v : SwitchView) → put_ports self.new v ≡ learns_pod (put_ports self.old v) told }
    {
        let place = self.place();
        let pod = pod_after(place, told);
        self.stand(Place { pod, ..place });
    }

    /// The position of an edge switch is fixed.
    pub fn fix_position(&mut self, position: u8)
        requires level { self.old.place.level ≡ Some 0 }
        requires position { position < 255 }
        ensures { (v : SwitchView) → put_ports self.new v ≡ with_position (put_ports self.old v) (Some position) }
    {
        let place = self.place();
        self.stand(Place {
            position: Some(position),
            ..place
        });
    }

    /// The fabric manager says the number of the pod. An edge switch with position 0 and without a pod
    /// takes it; the answer is whether it did.
    pub fn take_pod(&mut self, pod: u16) -> bool
        ensures told { result ≡ takes_pod (ports_alone self.old) pod }
        ensures view { (v : SwitchView) → put_ports self.new v ≡ with_pod (put_ports self.old v) (if takes_pod (put_ports self.old v) pod then Some pod else self.old.place.pod) }
    {
        if !self.takes_pod(pod) {
            return false;
        }
        let place = self.place();
        self.stand(Place {
            pod: Some(pod),
            ..place
        });
        true
    }

    fn takes_pod(&self, pod: u16) -> bool
        ensures { result ≡ takes_pod (ports_alone self.now) pod }
    {
        let place = self.place();
        place.level == Some(0) && place.position == Some(0) && place.pod.is_none() && pod != NO_POD
    }

    // A host is at a port: this is an edge switch.
    pub(crate) fn become_edge(&mut self)
        ensures { (v : SwitchView) → put_ports self.new v ≡ becomes_edge (put_ports self.old v) }
    {
        let pod = self.edge_pod();
        let place = self.place();
        self.stand(Place {
            level: Some(0),
            pod,
            ..place
        });
    }

    // The pod of the switch as an edge switch: its own, or else the one that was told before it knew its
    // level.
    fn edge_pod(&self) -> Option<u16>
        ensures pod { result ≡ (if is_none self.now.place.level && is_none self.now.place.pod then pod_told_before (ports_alone self.now) else self.now.place.pod) }
        ensures fits { IfSome result IsPod }
    {
        let place = self.place();
        match (place.level, place.pod) {
            (None, None) => pod_told_before(self.records()),
            _ => place.pod,
        }
    }
}

fn pod_after(place: Place, told: Place) -> Option<u16>
    ensures { result ≡ pod_after place told }
{
    match (place.pod, place.level, told.level) {
        (None, Some(0), Some(1)) | (None, Some(1), Some(0)) => told.pod,
        _ => place.pod,
    }
}
