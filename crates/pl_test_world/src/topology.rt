ghost use Rattle.std.specs.Prelude.{◌<◌, IfOk, IfSome};
ghost use Rattle.pl_wiring.specs.Labels.{edge_count, switch_count};
ghost use Rattle.pl_wiring.specs.LiveLinks.{IsFor};

use pl_frame::{Memory, SwitchId};
use pl_test_words::{first_word, frame, is_remark, say};
use pl_topology::TopologyError;
use pl_wiring::{Host, HostNo, Label, LinkStates, Path, Peer, SwitchNo, Wiring};
use std::alloc::Global;

/// Reads a wiring, and plays its lines; where there is none, false.
pub(crate) fn play_wiring(
    alloc: Global,
    topology: &str,
    digits: &str,
    lines: &[&str],
    out: &mut String,
) -> Result<bool, Memory> {
    match begin(alloc, topology, digits, out)? {
        None => Ok(false),
        Some(mut bench) => {
            bench.play_all(alloc, lines, out)?;
            Ok(true)
        }
    }
}

/// A wiring that was read, and the pairs of switches whose link failed.
#[derive(Drop)]
struct WiringBench {
    wiring: Wiring,
    failed: Vec<(SwitchNo, SwitchNo)>,
}

/// Reads a topology file, with bytes in hexadecimal behind it: prints how large the wiring is, or why
/// there is none.
fn begin(
    alloc: Global,
    topology: &str,
    digits: &str,
    out: &mut String,
) -> Result<Option<WiringBench>, Memory> {
    let Some(bytes) = frame(alloc, digits)? else {
        say(out, "not understood")?;
        return Ok(None);
    };
    let mut file = Vec::new(alloc);
    file.extend_from_slice(topology.as_bytes())?;
    file.extend_from_slice(&bytes)?;
    match wiring(alloc, &file, out)? {
        None => Ok(None),
        Some(wiring) => {
            say_sizes(alloc, &wiring, out)?;
            let failed = Vec::new(alloc);
            Ok(Some(WiringBench { wiring, failed }))
        }
    }
}

/// The wiring that a topology file means; prints why there is none.
pub(crate) fn wiring(
    alloc: Global,
    file: &[u8],
    out: &mut String,
) -> Result<Option<Wiring>, Memory> {
    match pl_topology::read(alloc, file) {
        Ok(wiring) => Ok(Some(wiring)),
        Err(error) => {
            say_refused(alloc, &error, out)?;
            Ok(None)
        }
    }
}

fn say_refused(alloc: Global, error: &TopologyError, out: &mut String) -> Result<(), Memory> {
    let line = format!(in alloc; "{error}")?;
    say(out, line.as_str())
}

fn say_sizes(alloc: Global, wiring: &Wiring, out: &mut String) -> Result<(), Memory> {
    let k = wiring.k();
    let switches = wiring.switch_count();
    let hosts = wiring.host_count();
    let line = format!(in alloc; "k {k} switches {switches} hosts {hosts}")?;
    say(out, line.as_str())
}

impl WiringBench {
    fn play_all(&mut self, alloc: Global, lines: &[&str], out: &mut String) -> Result<(), Memory> {
        for line in lines {
            self.play(alloc, line, out)?;
        }
        Ok(())
    }

    // Plays a line: a question about the wiring, or a link that fails.
    fn play(&mut self, alloc: Global, line: &str, out: &mut String) -> Result<(), Memory> {
        if is_remark(line) {
            return say(out, line);
        }
        let (verb, rest) = first_word(line);
        match verb {
            "fail" => self.fail(rest, out),
            "path" => self.path(alloc, rest, out),
            "way" => self.way(alloc, rest, out),
            "live" => self.live(alloc, rest, out),
            _ => self.tell(alloc, verb, rest, out),
        }
    }

    // What does not change.
    fn tell(&self, alloc: Global, verb: &str, rest: &str, out: &mut String) -> Result<(), Memory> {
        match verb {
            "switch" => say_switch(alloc, self.wiring.switch_named(rest), out),
            "label" => say_label(alloc, Label::read(rest), out),
            "id" => self.id(alloc, rest, out),
            "port" => self.port(alloc, rest, out),
            "at" => self.at(alloc, rest, out),
            "host" => self.host(alloc, rest, out),
            _ => say(out, "not understood"),
        }
    }

    // SWITCH SWITCH
    fn fail(&mut self, rest: &str, out: &mut String) -> Result<(), Memory> {
        let (a, b) = first_word(rest);
        let (Some(a), Some(b)) = (self.wiring.switch_named(a), self.wiring.switch_named(b)) else {
            return say(out, "not understood");
        };
        if self.wiring.link(a, b).is_none() {
            return say(out, "no link");
        }
        self.failed.push((a, b))?;
        say(out, "done")
    }

    // SWITCH PORT
    fn live(&self, alloc: Global, rest: &str, out: &mut String) -> Result<(), Memory> {
        let links = all_but(alloc, &self.wiring, &self.failed)?;
        match port(&self.wiring, rest) {
            None => say(out, "not understood"),
            Some((switch, port)) if links.live(switch, port) => say(out, "live"),
            Some(_) => say(out, "not live"),
        }
    }

    // EDGE EDGE: over how many switches a path leads.
    fn path(&self, alloc: Global, rest: &str, out: &mut String) -> Result<(), Memory> {
        let (a, b) = first_word(rest);
        let (Some(a), Some(b)) = (edge(&self.wiring, a), edge(&self.wiring, b)) else {
            return say(out, "not understood");
        };
        let links = all_but(alloc, &self.wiring, &self.failed)?;
        match self.wiring.live_path(&links, a, b) {
            None => say(out, "no path"),
            Some(path) => {
                let len = path.len();
                let line = format!(in alloc; "path of {len}")?;
                say(out, line.as_str())
            }
        }
    }

    // EDGE EDGE: over which switches a path leads.
    fn way(&self, alloc: Global, rest: &str, out: &mut String) -> Result<(), Memory> {
        let (a, b) = first_word(rest);
        let (Some(a), Some(b)) = (edge(&self.wiring, a), edge(&self.wiring, b)) else {
            return say(out, "not understood");
        };
        let links = all_but(alloc, &self.wiring, &self.failed)?;
        match self.wiring.live_path(&links, a, b) {
            None => say(out, "no path"),
            Some(path) => say_way(alloc, &self.wiring, &path, out),
        }
    }

    // SWITCH
    fn id(&self, alloc: Global, rest: &str, out: &mut String) -> Result<(), Memory> {
        let Some(switch) = self.wiring.switch_named(rest) else {
            return say(out, "not understood");
        };
        let SwitchId(id) = self.wiring.id(switch);
        let line = format!(in alloc; "id {id}")?;
        say(out, line.as_str())
    }

    // SWITCH PORT: where the port leads.
    fn port(&self, alloc: Global, rest: &str, out: &mut String) -> Result<(), Memory> {
        match port(&self.wiring, rest) {
            None => say(out, "not understood"),
            Some((switch, port)) => {
                say_peer(alloc, &self.wiring, self.wiring.peer(switch, port), out)
            }
        }
    }

    // SWITCH PORT: which host stands there.
    fn at(&self, alloc: Global, rest: &str, out: &mut String) -> Result<(), Memory> {
        match port(&self.wiring, rest) {
            None => say(out, "not understood"),
            Some((switch, port)) => say_host_no(alloc, self.wiring.host_at(switch, port), out),
        }
    }

    // HOST
    fn host(&self, alloc: Global, rest: &str, out: &mut String) -> Result<(), Memory> {
        let host = self.wiring.host_named(rest);
        say_host_no(alloc, host, out)?;
        match host {
            Some(number) if number.0 < self.wiring.host_count() => {
                say_host(alloc, &self.wiring, self.wiring.host(number), out)
            }
            _ => Ok(()),
        }
    }
}

// All links of a wiring are live but those of these pairs.
fn all_but(
    alloc: Global,
    wiring: &Wiring,
    failed: &[(SwitchNo, SwitchNo)],
) -> Result<LinkStates, Memory>
    ensures { IfOk result (λ links. IsFor wiring.now links) }
{
    let mut links = LinkStates::new(alloc, wiring)?;
    for pair in failed {
        fail(wiring, &mut links, pair.0, pair.1);
    }
    Ok(links)
}

// Makes the link of two switches failed, if there is one.
fn fail(wiring: &Wiring, links: &mut LinkStates, a: SwitchNo, b: SwitchNo)
    requires { IsFor wiring.now links.old }
    ensures { IsFor wiring.now links.new }
{
    if wiring.link(a, b).is_some() {
        links.set(wiring, a, b, false);
    }
}

// A switch and one of its ports.
fn port(wiring: &Wiring, text: &str) -> Option<(SwitchNo, u8)>
    ensures switch { IfSome result (λ at. at.0.0 < switch_count wiring.now.k) }
    ensures port { IfSome result (λ at. at.1 < wiring.now.k) }
{
    let (label, port) = first_word(text);
    let switch = wiring.switch_named(label)?;
    let port = port.parse::<u8>().ok()?;
    if port < wiring.k() {
        Some((switch, port))
    } else {
        None
    }
}

fn edge(wiring: &Wiring, label: &str) -> Option<SwitchNo>
    ensures { IfSome result (λ switch. switch.0 < edge_count wiring.now.k) }
{
    let switch = wiring.switch_named(label)?;
    let k = wiring.k() as u32;
    if switch.0 < k * (k / 2) {
        Some(switch)
    } else {
        None
    }
}

fn say_switch(alloc: Global, switch: Option<SwitchNo>, out: &mut String) -> Result<(), Memory> {
    match switch {
        None => say(out, "no switch"),
        Some(SwitchNo(number)) => {
            let line = format!(in alloc; "switch {number}")?;
            say(out, line.as_str())
        }
    }
}

fn say_label(alloc: Global, label: Option<Label>, out: &mut String) -> Result<(), Memory> {
    let line = match label {
        None => return say(out, "no label"),
        Some(Label::Edge(pod, number)) => format!(in alloc; "edge {pod} {number}")?,
        Some(Label::Aggregation(pod, number)) => format!(in alloc; "aggregation {pod} {number}")?,
        Some(Label::Core(group, number)) => format!(in alloc; "core {group} {number}")?,
    };
    say(out, line.as_str())
}

fn say_peer(alloc: Global, wiring: &Wiring, peer: Peer, out: &mut String) -> Result<(), Memory> {
    match peer {
        Peer::Switch(switch, port) if switch.0 < wiring.switch_count() => {
            let label = wiring.label(switch);
            let line = format!(in alloc; "to {label} {port}")?;
            say(out, line.as_str())
        }
        _ => say(out, "for a host"),
    }
}

fn say_host_no(alloc: Global, host: Option<HostNo>, out: &mut String) -> Result<(), Memory> {
    match host {
        None => say(out, "no host"),
        Some(HostNo(number)) => {
            let line = format!(in alloc; "host {number}")?;
            say(out, line.as_str())
        }
    }
}

// Its name, its addresses, where it stands, and its capture if it has one.
fn say_host(alloc: Global, wiring: &Wiring, host: &Host, out: &mut String) -> Result<(), Memory> {
    let name = host.name.text();
    let mac = host.mac;
    let ip = host.ip;
    let line = format!(in alloc; "{name} {mac} {ip}")?;
    say(out, line.as_str())?;
    if host.edge.0 < wiring.switch_count() {
        let label = wiring.label(host.edge);
        let port = host.port;
        let line = format!(in alloc; "at {label} {port}")?;
        say(out, line.as_str())?;
    }
    match &host.capture {
        None => say(out, "no capture"),
        Some(capture) => say(out, capture.text()),
    }
}

// The labels of its switches, a space before each.
fn say_way(alloc: Global, wiring: &Wiring, path: &Path, out: &mut String) -> Result<(), Memory> {
    let mut line = String::from_str(alloc, "path")?;
    for switch in path.switches() {
        if switch.0 < wiring.switch_count() {
            let label = wiring.label(*switch);
            write!(line, " {label}")?;
        }
    }
    say(out, line.as_str())
}
