ghost use Rattle.std.specs.Prelude.{◌≡◌, ◌+◌, ◌/◌, ◌<◌, IfOk};
ghost use Rattle.pl_wiring.specs.Labels.{IsArity, IsLabel, edge_count, number_of};
ghost use Rattle.pl_wiring.specs.FatTree.{above, number_below, link_count, canonical_link as canonical_link_of, canonical_links as canonical_links_of};

use crate::Memory;
use pl_wiring::{Label, Link, SwitchNo, edges, half, label_at, switch_at};
use std::alloc::Global;

/// The links of the canonical wiring, in link order: port k/2 + j of an edge switch joins the
/// aggregation switch j of its pod at the port of the edge switch's number, and port k/2 + m of
/// an aggregation switch joins the core switch m of its group at the port of the pod's number.
#[tactic(auto, using(crate::proofs::Steps::push_next))]
pub(crate) fn canonical_links(alloc: Global, k: u8) -> Result<Vec<Link>, Memory>
    requires { IsArity k }
    ensures { IfOk result (λ links. links.items ≡ canonical_links_of k) }
{
    let count = link_count(k);
    let mut links = Vec::with_capacity(alloc, count as usize)?;
    for number in 0..count {
        links.push(canonical_link(k, number))?;
    }
    Ok(links)
}

/// How many links there are: each switch but those of the core has k/2 to those above it.
pub(crate) fn link_count(k: u8) -> u32
    requires { IsArity k }
    ensures { result ≡ link_count k }
{
    2 * edges(k) * half(k)
}

fn canonical_link(k: u8, number: u32) -> Link
    requires arity { IsArity k }
    requires in_range { number < link_count k }
    ensures { result ≡ canonical_link_of k number }
{
    let lower = SwitchNo(number / half(k));
    let uplink = (number % half(k)) as u8;
    let label = label_at(k, lower);
    Link {
        lower,
        lower_port: k / 2 + uplink,
        upper: switch_at(k, label_above(k, label, uplink)),
        upper_port: port_below(label),
    }
}

fn label_above(k: u8, label: Label, uplink: u8) -> Label
    requires in_range { IsLabel k label }
    requires not_core { number_of k label < edge_count k + edge_count k }
    requires few { uplink < k / 2 }
    ensures above { result ≡ above label uplink }
    ensures label { IsLabel k result }
{
    match label {
        Label::Edge(pod, _) => Label::Aggregation(pod, uplink),
        Label::Aggregation(_, j) => Label::Core(j, uplink),
        Label::Core(_, _) => unreachable!(),
    }
}

fn port_below(label: Label) -> u8
    requires { number_below label < 256 }
    ensures { result ≡ number_below label }
{
    match label {
        Label::Edge(_, i) => i,
        Label::Aggregation(pod, _) => pod as u8,
        Label::Core(_, m) => m,
    }
}
