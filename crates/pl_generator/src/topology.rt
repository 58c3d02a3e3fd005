ghost use Rattle.std.specs.Prelude.{◌≡◌, ◌++◌, ◌<◌, Some, IfOk, OnOk, string_bytes};
ghost use Rattle.std.specs.List.{flat_map, range_with_len};
ghost use Rattle.pl_wiring.specs.Labels.{IsArity};
ghost use Rattle.pl_generator.specs.Hosts.{host_count};
ghost use Rattle.pl_generator.specs.TopologyText.{host_table, line_text, topology_text};

use crate::hosts::{edge_of, host_count, ip_of, mac_of, port_of};
use pl_frame::{Ip4, Mac};
use pl_shelf::Memory;
use pl_wiring::Label;
use std::alloc::Global;
use std::fmt;

/// The text of the topology.
#[tactic(auto, unfolding(crate::specs::TopologyText::topology_text))]
pub(crate) fn topology_text(alloc: Global, k: u8) -> Result<String, Memory>
    requires { IsArity k }
    ensures { IfOk result (λ text. string_bytes text ≡ topology_text k) }
{
    let mut text = format!(in alloc; "k = {k}\n")?;
    add_hosts(alloc, &mut text, k)?;
    Ok(text)
}

// A table for each host.
fn add_hosts(alloc: Global, text: &mut String, k: u8) -> Result<(), Memory>
    requires { IsArity k }
    ensures { OnOk result (string_bytes text.new
        ≡ string_bytes text.old ++ flat_map (host_table k) (range_with_len 0 (host_count k))) }
{
    for host in 0..host_count(k) {
        add_host(alloc, text, k, host)?;
    }
    Ok(())
}

fn add_host(alloc: Global, text: &mut String, k: u8, host: u16) -> Result<(), Memory>
    requires arity { IsArity k }
    requires in_range { host < host_count k }
    ensures { OnOk result (string_bytes text.new ≡ string_bytes text.old ++ host_table k host) }
{
    let lines = [
        HostLine::Name(host),
        HostLine::Address(mac_of(host)),
        HostLine::Ip(ip_of(host)),
        HostLine::Edge(edge_of(k, host)),
        HostLine::Port(port_of(k, host)),
        HostLine::Capture(host),
    ];
    text.push_str("\n[[host]]\n")?;
    add_lines(alloc, text, &lines)
}

fn add_lines(alloc: Global, text: &mut String, lines: &[HostLine]) -> Result<(), Memory>
    ensures { OnOk result (string_bytes text.new ≡ string_bytes text.old ++ flat_map line_text lines.now) }
{
    for line in lines {
        add_line(alloc, text, *line)?;
    }
    Ok(())
}

fn add_line(alloc: Global, text: &mut String, line: HostLine) -> Result<(), Memory>
    ensures { OnOk result (string_bytes text.new ≡ string_bytes text.old ++ line_text line) }
{
    let line = format!(in alloc; "{line}")?;
    text.push_str(&line)
}

/// A line of a host's table. The host's number stands for its name and for the file of its capture.
#[derive(Clone, Copy, Debug)]
pub enum HostLine {
    Name(u16),
    Address(Mac),
    Ip(Ip4),
    Edge(Label),
    Port(u8),
    Capture(u16),
}

impl fmt::Display for HostLine {
    ghost output = { λ line. Some (line_text line) };

    #[tactic(auto, unfolding(crate::specs::TopologyText::line_text))]
    fn fmt<W: fmt::Write>(&self, f: &mut fmt::Formatter<W>) -> fmt::Result {
        match self {
            HostLine::Name(host) => write!(f, "name = \"h{host}\"\n"),
            HostLine::Address(mac) => write!(f, "mac = \"{mac}\"\n"),
            HostLine::Ip(ip) => write!(f, "ip = \"{ip}\"\n"),
            HostLine::Edge(edge) => write!(f, "edge = \"{edge}\"\n"),
            HostLine::Port(port) => write!(f, "port = {port}\n"),
            HostLine::Capture(host) => write!(f, "capture = \"h{host}.pcap\"\n"),
        }
    }
}
