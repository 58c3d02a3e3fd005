ghost use Rattle.std.specs.Prelude.{◌≡◌};
ghost use Rattle.std.specs.List.{filter_map, list_any};
ghost use Rattle.pl_node.specs.PortRecords.{heard_place};
ghost use Rattle.pl_journal.specs.Flights.{first_of};
ghost use Rattle.pl_switch_rule.specs.Levels.{is_of_other_pod, told_pod};
ghost use Rattle.pl_ports.specs.Evidence.{are_of_two_pods, is_of_level, level_shown};

use crate::Ports;
use pl_node::PortRecord;

impl Ports {
    /// The level that the records show: 0 where a host is at a port, 1 where an edge switch was heard, 2
    /// where aggregation switches of two pods were.
    pub fn level_of(&self) -> Option<u8>
        ensures { result ≡ level_shown self.now.ports }
    {
        let records = self.records();
        if has_host(records) {
            Some(0)
        } else if hears_level(0, records) {
            Some(1)
        } else if hears_two_pods(records) {
            Some(2)
        } else {
            None
        }
    }
}

fn has_host(records: &[PortRecord]) -> bool
    ensures { result ≡ list_any (λ r. r.host) records.now }
{
    records.iter().any(|record| record.host)
}

fn hears_level(level: u8, records: &[PortRecord]) -> bool
    ensures { result ≡ list_any (is_of_level level) records.now }
{
    records.iter().any(|record| is_of_level(level, record))
}

fn hears_two_pods(records: &[PortRecord]) -> bool
    ensures { result ≡ are_of_two_pods records.now }
{
    hears_other_pod(pod_told_before(records), records)
}

/// Whether an aggregation switch was heard that told another pod than this one.
pub(crate) fn hears_other_pod(pod: Option<u16>, records: &[PortRecord]) -> bool
    ensures { result ≡ list_any (is_of_other_pod pod) records.now }
{
    records.iter().any(|record| is_of_other_pod(pod, record))
}

/// The pod that the first aggregation switch told of those that told one.
pub(crate) fn pod_told_before(records: &[PortRecord]) -> Option<u16>
    ensures { result ≡ first_of (filter_map told_pod records.now) }
{
    for record in records {
        if let Some(pod) = told_pod(record) {
            return Some(pod);
        }
    }
    None
}

fn told_pod(known: &PortRecord) -> Option<u16>
    ensures { result ≡ told_pod known.now }
{
    if is_of_level(1, known) {
        pod_of(known)
    } else {
        None
    }
}

fn is_of_other_pod(pod: Option<u16>, known: &PortRecord) -> bool
    ensures { result ≡ is_of_other_pod pod known.now }
{
    match (pod, pod_of(known)) {
        (Some(pod), Some(other)) => is_of_level(1, known) && pod != other,
        _ => false,
    }
}

fn is_of_level(level: u8, known: &PortRecord) -> bool
    ensures { result ≡ is_of_level level known.now }
{
    match known.heard {
        Some(neighbour) => neighbour.place.level == Some(level),
        None => false,
    }
}

fn pod_of(known: &PortRecord) -> Option<u16>
    ensures { result ≡ (heard_place known.now.heard).pod }
{
    match known.heard {
        Some(neighbour) => neighbour.place.pod,
        None => None,
    }
}
