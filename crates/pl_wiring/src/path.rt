ghost use Rattle.std.specs.Prelude.{◌≡◌, ◌≢◌, ◌+◌, ◌/◌, ◌<◌, List, [], ◌∷◌, IfSome, IfNone, length, slice_get, option_copied};
ghost use Rattle.pl_wiring.specs.declared.label.SwitchNo.{SwitchNo};
ghost use Rattle.pl_wiring.specs.Labels.{edge_count};
ghost use Rattle.pl_wiring.specs.LiveLinks.{IsFor};
ghost use Rattle.pl_wiring.specs.Paths.{IsLivePath, LeadsUp, LeadsUpAt, NeverMeet, NeverMeetAt, NeverMeetOver};
ghost use Rattle.pl_wiring.specs.Plan.{IsPlan};

use crate::order::half;
use crate::{LinkStates, SwitchNo, Wiring};
use arrayvec::ArrayVec;
use std::marker::Model;

/// The switches that a path goes through, in order: five at most. Contracts see it as their list.
#[derive(Debug, Drop)]
pub struct Path {
    switches: ArrayVec<SwitchNo, 5>,
}

impl Model for Path {
    ghost use Rattle.std.specs.Prelude.{List};
    ghost use Rattle.pl_wiring.specs.declared.label.SwitchNo.{SwitchNo};

    ghost Value = { List SwitchNo };

    ghost view = { λ path. path.switches.items };
}

impl Path {
    pub fn len(&self) -> usize
        ensures { result ≡ length self.now }
    {
        self.switches.len()
    }

    pub fn get(&self, n: usize) -> Option<&SwitchNo>
        ensures { option_copied result ≡ slice_get self.now n }
    {
        self.switches().get(n)
    }

    pub fn switches(&self) -> &[SwitchNo]
        ensures { result.now ≡ self.now }
    {
        self.switches.as_slice()
    }

    fn at(switch: SwitchNo) -> Path
        ensures { result ≡ switch ∷ [] }
    {
        let mut switches = ArrayVec::new();
        switches.push(switch);
        Path { switches }
    }

    fn over(start: SwitchNo, top: SwitchNo, end: SwitchNo) -> Path
        ensures { result ≡ start ∷ top ∷ end ∷ [] }
    {
        let mut path = Path::at(start);
        path.switches.push(top);
        path.switches.push(end);
        path
    }

    fn over_core(switches: [SwitchNo; 5]) -> Path
        ensures { result ≡ switches }
    {
        Path {
            switches: ArrayVec::from(switches),
        }
    }
}

impl Wiring {
    /// A path over live links from one edge switch to another one, or to itself, that goes up zero,
    /// one or two levels and down as many, through no switch twice.
    pub fn live_path(&self, links: &LinkStates, start: SwitchNo, end: SwitchNo) -> Option<Path>
        requires start { start.0 < edge_count self.now.k }
        requires end { end.0 < edge_count self.now.k }
        requires made_for { IsFor self.now links.now }
        ensures found { IfSome result (IsLivePath self.now links.now start end) }
        ensures none { IfNone result ((path : List SwitchNo) →
            IsLivePath self.now links.now start end path → ⊥) }
    {
        if start == end {
            return Some(Path::at(start));
        }
        match self.live_above_both(links, start, end) {
            Some(top) => Some(Path::over(start, top, end)),
            None => self.live_path_over_core(links, start, end),
        }
    }

    // A path by the first aggregation switches from which live links meet in the core.
    fn live_path_over_core(
        &self,
        links: &LinkStates,
        start: SwitchNo,
        end: SwitchNo,
    ) -> Option<Path>
        requires start { start.0 < edge_count self.now.k }
        requires end { end.0 < edge_count self.now.k }
        requires apart { start ≢ end }
        requires not_below { NeverMeet self.now links.now start end }
        ensures found { IfSome result (IsLivePath self.now links.now start end) }
        ensures none { IfNone result ((path : List SwitchNo) →
            IsLivePath self.now links.now start end path → ⊥) }
    {
        for uplink in 0..half(self.k()) {
            if let Some(path) = self.live_path_at(links, start, end, uplink) {
                return Some(path);
            }
        }
        None
    }

    // A path by the aggregation switches by this uplink of both edge switches.
    fn live_path_at(
        &self,
        links: &LinkStates,
        start: SwitchNo,
        end: SwitchNo,
        uplink: u32,
    ) -> Option<Path>
        requires start { start.0 < edge_count self.now.k }
        requires end { end.0 < edge_count self.now.k }
        requires uplink { uplink < self.now.k / 2 }
        requires apart { start ≢ end }
        requires not_below { NeverMeet self.now links.now start end }
        ensures found { IfSome result (IsLivePath self.now links.now start end) }
        ensures none { IfNone result (NeverMeetOver self.now links.now start end uplink) }
    {
        let left = self.live_above(links, start, uplink)?;
        let right = self.live_above(links, end, uplink)?;
        let core = self.live_above_both(links, left, right)?;
        Some(Path::over_core([start, left, core, right, end]))
    }

    // The first switch to which live links lead up from both.
    fn live_above_both(&self, links: &LinkStates, a: SwitchNo, b: SwitchNo) -> Option<SwitchNo>
        requires a { a.0 < edge_count self.now.k + edge_count self.now.k }
        requires b { b.0 < edge_count self.now.k + edge_count self.now.k }
        ensures found { IfSome result (λ top.
            LeadsUp self.now links.now a top × LeadsUp self.now links.now b top) }
        ensures none { IfNone result (NeverMeet self.now links.now a b) }
        ensures plan { IsPlan self.now }
    {
        for uplink in 0..half(self.k()) {
            if let Some(top) = self.live_above_both_at(links, a, b, uplink) {
                return Some(top);
            }
        }
        None
    }

    fn live_above_both_at(
        &self,
        links: &LinkStates,
        a: SwitchNo,
        b: SwitchNo,
        uplink: u32,
    ) -> Option<SwitchNo>
        requires a { a.0 < edge_count self.now.k + edge_count self.now.k }
        requires b { b.0 < edge_count self.now.k + edge_count self.now.k }
        requires uplink { uplink < self.now.k / 2 }
        ensures found { IfSome result (λ top.
            LeadsUpAt self.now links.now a uplink top × LeadsUpAt self.now links.now b uplink top) }
        ensures none { IfNone result (NeverMeetAt self.now links.now a b uplink) }
    {
        let left = self.live_above(links, a, uplink)?;
        let right = self.live_above(links, b, uplink)?;
        if left == right { Some(left) } else { None }
    }

    // The switch by an uplink of this one, where the link to it is live.
    fn live_above(&self, links: &LinkStates, lower: SwitchNo, uplink: u32) -> Option<SwitchNo>
        requires lower { lower.0 < edge_count self.now.k + edge_count self.now.k }
        requires uplink { uplink < self.now.k / 2 }
        ensures found { IfSome result (LeadsUpAt self.now links.now lower uplink) }
        ensures none { IfNone result ((upper : SwitchNo) →
            LeadsUpAt self.now links.now lower uplink upper → ⊥) }
        ensures plan { IsPlan self.now }
    {
        let link = self.link_above(lower, uplink);
        if links.is_live(link) {
            Some(link.upper)
        } else {
            None
        }
    }
}
