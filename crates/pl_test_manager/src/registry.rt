//! `learn SWITCH PMAC MAC [IP]`, `lookup IP`, `newest MAC`, `pod SWITCH`; `aged SWITCH PMAC NUMBER`, `release PMAC` of one that
//! counted, and `leads PMAC`: where its trap leads; `trapped SWITCH OLD NEW NUMBER`; `restart N`: of a manager that began anew
//! so often. A switch is its id.
use pl_frame::{Memory, SwitchId};
use pl_pmac::{Pmac, pack};
use pl_registry::{Askers, Learning, Registry, Release};
use pl_test_words::{first_word, id, is_remark, number, pmac, say};
use pl_wiring::text::{ip, mac};
use std::alloc::Global;

pub(crate) fn play_registry(alloc: Global, lines: &[&str], out: &mut String) -> Result<(), Memory> {
    let mut bench = Bench {
        epoch: 0,
        registry: Registry::new(alloc, 0),
        askers: Askers::new(alloc),
    };
    for line in lines {
        bench.play(alloc, line, out)?;
    }
    Ok(())
}

/// What was learnt of addresses, and the switches that asked for a pod.
#[derive(Drop)]
struct Bench {
    epoch: u32,
    registry: Registry,
    askers: Askers,
}

impl Bench {
    fn play(&mut self, alloc: Global, line: &str, out: &mut String) -> Result<(), Memory> {
        if is_remark(line) {
            return say(out, line);
        }
        let (verb, rest) = first_word(line);
        match verb {
            "learn" => self.learn(alloc, rest, out),
            "lookup" => self.lookup(alloc, rest, out),
            "newest" => self.newest(alloc, rest, out),
            "pod" => self.pod(alloc, rest, out),
            "aged" => self.aged(rest, out),
            "trapped" => self.trapped(rest, out),
            "release" => self.release(alloc, rest, out),
            "leads" => self.leads(alloc, rest, out),
            "restart" => self.restart(alloc, rest, out),
            _ => say(out, "not understood"),
        }
    }

    // SWITCH PMAC MAC [IP]
    fn learn(&mut self, alloc: Global, rest: &str, out: &mut String) -> Result<(), Memory> {
        let (switch, rest) = first_word(rest);
        let (address, rest) = first_word(rest);
        let (amac, given) = first_word(rest);
        match (id(switch), pmac(address), mac(amac)) {
            (Some(switch), Some(pmac), Some(amac)) => {
                let learning = self.registry.learn(switch, pmac, amac, ip(given))?;
                say_learning(alloc, learning, out)
            }
            _ => say(out, "not understood"),
        }
    }

    // SWITCH PMAC NUMBER
    fn aged(&mut self, rest: &str, out: &mut String) -> Result<(), Memory> {
        let (switch, rest) = first_word(rest);
        let (address, behind) = first_word(rest);
        match (id(switch), pmac(address), behind.parse::<u64>()) {
            (Some(switch), Some(pmac), Ok(number)) => {
                let counts = self.registry.note_aged(switch, pmac, number, self.epoch)?;
                say(out, if counts { "counts" } else { "void" })
            }
            _ => say(out, "not understood"),
        }
    }

    // SWITCH OLD NEW NUMBER
    fn trapped(&mut self, rest: &str, out: &mut String) -> Result<(), Memory> {
        let (switch, rest) = first_word(rest);
        let (old, rest) = first_word(rest);
        let (new, number) = first_word(rest);
        match (id(switch), pmac(old), pmac(new), number.parse::<u64>()) {
            (Some(switch), Some(old), Some(new), Ok(number)) => {
                self.registry
                    .note_trap(switch, old, new, number, self.epoch)
            }
            _ => say(out, "not understood"),
        }
    }

    // PMAC
    fn release(&mut self, alloc: Global, rest: &str, out: &mut String) -> Result<(), Memory> {
        let Some(pmac) = pmac(rest) else {
            return say(out, "not understood");
        };
        say_release(alloc, self.registry.release(pmac), out)
    }

    // PMAC
    fn leads(&self, alloc: Global, rest: &str, out: &mut String) -> Result<(), Memory> {
        match pmac(rest) {
            Some(pmac) => say_address(alloc, self.registry.leads_to(pmac), out),
            None => say(out, "not understood"),
        }
    }

    // N
    fn restart(&mut self, alloc: Global, rest: &str, out: &mut String) -> Result<(), Memory> {
        let Some(epoch) = number(rest) else {
            return say(out, "not understood");
        };
        self.epoch = epoch;
        self.registry = Registry::new(alloc, epoch);
        self.askers = Askers::new(alloc);
        Ok(())
    }

    // IP
    fn lookup(&self, alloc: Global, rest: &str, out: &mut String) -> Result<(), Memory> {
        match ip(rest) {
            Some(ip) => say_address(alloc, self.registry.lookup(ip), out),
            None => say(out, "not understood"),
        }
    }

    // MAC
    fn newest(&self, alloc: Global, rest: &str, out: &mut String) -> Result<(), Memory> {
        let Some(amac) = mac(rest) else {
            return say(out, "not understood");
        };
        match self.registry.newest(amac) {
            Some((pmac, number)) => {
                let pmac = pack(pmac);
                let line = format!(in alloc; "{pmac} number {number}")?;
                say(out, line.as_str())
            }
            None => say(out, "none"),
        }
    }

    // SWITCH
    fn pod(&mut self, alloc: Global, rest: &str, out: &mut String) -> Result<(), Memory> {
        let Some(switch) = id(rest) else {
            return say(out, "not understood");
        };
        let pod = match self.askers.pod_of(switch) {
            Some(pod) => pod,
            None => {
                let Some(pod) = free_pod(&self.askers) else {
                    return say(out, "none");
                };
                self.askers.give(switch, pod)?;
                pod
            }
        };
        let line = format!(in alloc; "pod {pod}")?;
        say(out, line.as_str())
    }
}

// The smallest number that was given to no switch.
fn free_pod(askers: &Askers) -> Option<u16> {
    for pod in 0..u16::MAX {
        if !askers.has_given(pod) {
            return Some(pod);
        }
    }
    None
}

fn say_learning(alloc: Global, learning: Option<Learning>, out: &mut String) -> Result<(), Memory> {
    let Some(learning) = learning else {
        return say(out, "known");
    };
    let number = learning.number;
    let line = format!(in alloc; "number {number}")?;
    say(out, line.as_str())?;
    let Some(replaced) = learning.replaced else {
        return Ok(());
    };
    let SwitchId(switch) = replaced.switch;
    let old = pack(replaced.pmac);
    let line = match replaced.ip {
        Some(ip) => format!(in alloc; "replaces {old} of {switch} for {ip}")?,
        None => format!(in alloc; "replaces {old} of {switch}")?,
    };
    say(out, line.as_str())
}

fn say_release(alloc: Global, release: Option<Release>, out: &mut String) -> Result<(), Memory> {
    let Some(release) = release else {
        return say(out, "kept");
    };
    let SwitchId(switch) = release.switch;
    let pmac = pack(release.pmac);
    let line = format!(in alloc; "{switch} releases {pmac}")?;
    say(out, line.as_str())
}

fn say_address(alloc: Global, address: Option<Pmac>, out: &mut String) -> Result<(), Memory> {
    match address {
        Some(pmac) => {
            let pmac = pack(pmac);
            let line = format!(in alloc; "{pmac}")?;
            say(out, line.as_str())
        }
        None => say(out, "none"),
    }
}
