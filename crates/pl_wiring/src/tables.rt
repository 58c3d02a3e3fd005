ghost use Rattle.std.specs.Prelude.{◌≡◌, ◌≢◌, ℕ, ◌*◌, ◌^◌, ◌<◌, IfOk, All, AllPairs, is_some, length, map, vec_len};
ghost use Rattle.pl_wiring.specs.Labels.{IsArity, switch_count};
ghost use Rattle.pl_wiring.specs.FatTree.{IsFatTree};
ghost use Rattle.pl_wiring.specs.Plan.{IsAttachedAt};
ghost use Rattle.pl_wiring.specs.Index.{look_at, port_index};
ghost use Rattle.pl_wiring.specs.Tables.{FindsLinks, FindsHosts, FindsNames};

use crate::order::switches;
use crate::{Host, Link, Memory, SwitchNo};
use std::alloc::Global;
use std::collections::HashMap;

// For each port of each switch the number of the item that is there, if there is one.
pub(crate) type PortTable = Vec<Option<u32>>;

pub(crate) fn index_in_table(k: u8, switch: SwitchNo, port: u8) -> usize
    ensures { result ≡ port_index k switch.0 port }
{
    switch.0 as usize * usize::from(k) + usize::from(port)
}

// What a table has for a port.
pub(crate) fn look_at(table: &[Option<u32>], k: u8, switch: SwitchNo, port: u8) -> Option<u32>
    requires long { length table.now ≡ switch_count k * k }
    requires switch { switch.0 < switch_count k }
    requires port { port < k }
    ensures { result ≡ look_at k table.now (switch.0, port) }
{
    table[index_in_table(k, switch, port)]
}

fn empty_table(alloc: Global, k: u8) -> Result<PortTable, Memory>
    requires { IsArity k }
    ensures long { IfOk result (λ table. vec_len table ≡ switch_count k * k) }
    ensures empty { IfOk result (λ table. (key : ℕ × ℕ) → look_at k table.items key ≡ None) }
{
    vec![in alloc; None; switches(k) as usize * usize::from(k)]
}

// Where a table has something.
pub(crate) fn present(alloc: Global, table: &[Option<u32>]) -> Result<Vec<bool>, Memory>
    ensures { IfOk result (λ flags. flags.items ≡ map is_some table.now) }
{
    table.iter().map(|number| number.is_some()).collect(alloc)
}

pub(crate) fn link_table(alloc: Global, k: u8, links: &[Link]) -> Result<PortTable, Memory>
    requires arity { IsArity k }
    requires tree { IsFatTree k links.now }
    requires few { length links.now < 2 ^ 32 }
    ensures long { IfOk result (λ table. vec_len table ≡ switch_count k * k) }
    ensures index { IfOk result (λ table. FindsLinks k table.items links.now) }
{
    let mut table = empty_table(alloc, k)?;
    for (number, link) in links.iter().enumerate() {
        table[index_in_table(k, link.lower, link.lower_port)] = Some(number as u32);
        table[index_in_table(k, link.upper, link.upper_port)] = Some(number as u32);
    }
    Ok(table)
}

pub(crate) fn host_table(alloc: Global, k: u8, hosts: &[Host]) -> Result<PortTable, Memory>
    requires arity { IsArity k }
    requires in_range { All (λ h. (h.edge.0 < switch_count k) × (h.port < k)) hosts.now }
    requires apart { AllPairs (λ g h. ¬ IsAttachedAt g h.edge.0 h.port) hosts.now }
    requires few { length hosts.now < 2 ^ 32 }
    ensures long { IfOk result (λ table. vec_len table ≡ switch_count k * k) }
    ensures index { IfOk result (λ table. FindsHosts k table.items hosts.now) }
{
    let mut table = empty_table(alloc, k)?;
    for (number, host) in hosts.iter().enumerate() {
        table[index_in_table(k, host.edge, host.port)] = Some(number as u32);
    }
    Ok(table)
}

pub(crate) fn name_table(alloc: Global, hosts: &[Host]) -> Result<HashMap<String, u32>, Memory>
    requires apart { AllPairs (λ g h. g.name ≢ h.name) hosts.now }
    requires few { length hosts.now < 2 ^ 32 }
    ensures { IfOk result (λ names. FindsNames names hosts.now) }
{
    let mut names = HashMap::new(alloc);
    for (number, host) in hosts.iter().enumerate() {
        names.insert(String::from_str(alloc, host.name.text())?, number as u32)?;
    }
    Ok(names)
}
