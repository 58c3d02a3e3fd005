//! `grant PORT MAC`, `learn PORT MAC [IP]`, `fill PORT COUNT`, `in-use PORT MAC`, `find PMAC`, `follow PMAC`,
//! `holding PORT VMID`, `trap PMAC NEW NUMBER [IP]`, `age TICKS`, `next-probe`, `next-aged`, `release PMAC`,
//! `report`: what a manager that begins anew is told.
use crate::pmacs::trap_to;
use pl_frame::Mac;
use pl_lists::Queue;
use pl_migrate::{AddressTable, GrantError};
use pl_node::{Memory, Outbox};
use pl_pmac::Pmac;
use pl_test_words::{byte, first_word, is_remark, number, pmac, say};
use pl_wiring::text::{ip, mac};
use std::alloc::{AllocError, Global};

pub(crate) fn play_address_table(
    alloc: Global,
    words: &str,
    lines: &[&str],
    out: &mut String,
) -> Result<(), Memory> {
    let (k, rest) = first_word(words);
    let (pod, position) = first_word(rest);
    let (Some(k), Ok(pod), Some(position)) = (byte(k), pod.parse::<u16>(), byte(position)) else {
        return say(out, "not understood");
    };
    let mut bench = Bench {
        address_table: AddressTable::new(alloc, k, pod, position)?,
        told: Queue::new(alloc),
    };
    for line in lines {
        bench.play(alloc, line, out)?;
    }
    Ok(())
}

/// An address table, and what was told to the manager.
#[derive(Drop)]
struct Bench {
    address_table: AddressTable,
    told: Outbox,
}

impl Bench {
    fn play(&mut self, alloc: Global, line: &str, out: &mut String) -> Result<(), Memory> {
        if is_remark(line) {
            return say(out, line);
        }
        let (verb, rest) = first_word(line);
        match verb {
            "grant" => self.grant(alloc, rest, out),
            "learn" => self.learn(alloc, rest, out),
            "fill" => self.fill(alloc, rest, out),
            "in-use" => self.in_use(alloc, rest, out),
            "find" => self.find(alloc, rest, out),
            "follow" => self.follow(alloc, rest, out),
            "holding" => self.holding(alloc, rest, out),
            "trap" => self.trap(alloc, rest, out),
            "age" => self.age(rest, out),
            "next-probe" => self.next_probe(alloc, out),
            "next-aged" => self.next_aged(alloc, out),
            "release" => self.release(alloc, rest, out),
            "report" => self.report(alloc, out),
            _ => say(out, "not understood"),
        }
    }

    // PORT MAC
    fn grant(&mut self, alloc: Global, rest: &str, out: &mut String) -> Result<(), Memory> {
        let (port, amac) = first_word(rest);
        match (byte(port), mac(amac)) {
            (Some(port), Some(amac)) if usize::from(port) < self.address_table.ports() => {
                let granted = self.address_table.grant(port, amac);
                say_granted(alloc, granted, out)
            }
            _ => say(out, "not understood"),
        }
    }

    // PORT MAC [IP]: what is told to the manager is printed, and then the address.
    fn learn(&mut self, alloc: Global, rest: &str, out: &mut String) -> Result<(), Memory> {
        let (port, rest) = first_word(rest);
        let (amac, given) = first_word(rest);
        match (byte(port), mac(amac)) {
            (Some(port), Some(amac)) if usize::from(port) < self.address_table.ports() => {
                let pmac = self
                    .address_table
                    .learn(port, amac, ip(given), &mut self.told)?;
                self.tell(alloc, out)?;
                let line = format!(in alloc; "{pmac:?}")?;
                say(out, line.as_str())
            }
            _ => say(out, "not understood"),
        }
    }

    // Prints what was done since the last line.
    fn tell(&mut self, alloc: Global, out: &mut String) -> Result<(), Memory> {
        for _ in 0..self.told.len() {
            if let Some(act) = self.told.take_first() {
                let line = format!(in alloc; "{act:?}")?;
                say(out, line.as_str())?;
            }
        }
        Ok(())
    }

    // PORT COUNT: so many hosts come at a port.
    fn fill(&mut self, alloc: Global, rest: &str, out: &mut String) -> Result<(), Memory> {
        let (port, count) = first_word(rest);
        match (byte(port), number(count)) {
            (Some(port), Some(count)) => self.fill_port(alloc, port, count, out),
            _ => say(out, "not understood"),
        }
    }

    // Prints the last address that was granted.
    fn fill_port(
        &mut self,
        alloc: Global,
        port: u8,
        count: u32,
        out: &mut String,
    ) -> Result<(), Memory> {
        let mut last = Err(GrantError::Spent);
        for n in 0..count {
            if usize::from(port) < self.address_table.ports() {
                let [_, _, a, b] = n.to_be_bytes();
                last = self.address_table.grant(port, Mac([2, 0, 0, 1, a, b]));
            }
        }
        say_granted(alloc, last, out)
    }

    // PORT MAC
    fn in_use(&self, alloc: Global, rest: &str, out: &mut String) -> Result<(), Memory> {
        let (port, amac) = first_word(rest);
        match (byte(port), mac(amac)) {
            (Some(port), Some(amac)) if usize::from(port) < self.address_table.ports() => {
                let pmac = self.address_table.in_use(port, amac);
                let line = format!(in alloc; "{pmac:?}")?;
                say(out, line.as_str())
            }
            _ => say(out, "not understood"),
        }
    }

    // PMAC
    fn find(&self, alloc: Global, rest: &str, out: &mut String) -> Result<(), Memory> {
        let Some(pmac) = pmac(rest) else {
            return say(out, "not understood");
        };
        let grantee = self.address_table.find(pmac);
        let line = format!(in alloc; "{grantee:?}")?;
        say(out, line.as_str())
    }

    // PMAC
    fn follow(&self, alloc: Global, rest: &str, out: &mut String) -> Result<(), Memory> {
        let Some(pmac) = pmac(rest) else {
            return say(out, "not understood");
        };
        let trap = self.address_table.follow(pmac);
        let line = format!(in alloc; "{trap:?}")?;
        say(out, line.as_str())
    }

    // PORT VMID
    fn holding(&self, alloc: Global, rest: &str, out: &mut String) -> Result<(), Memory> {
        let (port, vmid) = first_word(rest);
        match (byte(port), vmid.parse::<u16>()) {
            (Some(port), Ok(vmid)) => {
                let held = self.address_table.holding(port, vmid);
                let line = format!(in alloc; "{held:?}")?;
                say(out, line.as_str())
            }
            _ => say(out, "not understood"),
        }
    }

    // TICKS
    fn age(&mut self, rest: &str, out: &mut String) -> Result<(), Memory> {
        let Some(ticks) = number(rest) else {
            return say(out, "not understood");
        };
        for _ in 0..ticks {
            self.address_table.age()?;
        }
        Ok(())
    }

    fn next_probe(&mut self, alloc: Global, out: &mut String) -> Result<(), Memory> {
        let pmac = self.address_table.next_probe();
        let line = format!(in alloc; "{pmac:?}")?;
        say(out, line.as_str())
    }

    fn next_aged(&mut self, alloc: Global, out: &mut String) -> Result<(), Memory> {
        match self.address_table.next_aged() {
            Some((pmac, number)) => {
                let line = format!(in alloc; "{pmac:?} behind {number}")?;
                say(out, line.as_str())
            }
            None => say(out, "none"),
        }
    }

    // PMAC
    fn release(&mut self, alloc: Global, rest: &str, out: &mut String) -> Result<(), Memory> {
        let Some(pmac) = pmac(rest) else {
            return say(out, "not understood");
        };
        self.address_table.release(pmac, &mut self.told)?;
        self.tell(alloc, out)
    }

    fn report(&mut self, alloc: Global, out: &mut String) -> Result<(), Memory> {
        let Ok(k) = u8::try_from(self.address_table.ports()) else {
            return say(out, "too many ports");
        };
        self.address_table.report(k, &mut self.told)?;
        self.tell(alloc, out)
    }

    // PMAC NEW NUMBER [IP]
    fn trap(&mut self, alloc: Global, rest: &str, out: &mut String) -> Result<(), Memory> {
        let (old, rest) = first_word(rest);
        match (pmac(old), trap_to(rest)) {
            (Some(old), Some(to)) => {
                let was_in_use = self.address_table.trap(old, to)?;
                let line = format!(in alloc; "was in use: {was_in_use}")?;
                say(out, line.as_str())
            }
            _ => say(out, "not understood"),
        }
    }
}

fn say_granted(
    alloc: Global,
    granted: Result<Pmac, GrantError>,
    out: &mut String,
) -> Result<(), Memory> {
    match granted {
        Ok(pmac) => {
            let line = format!(in alloc; "{pmac:?}")?;
            say(out, line.as_str())
        }
        Err(GrantError::Spent) => say(out, "spent"),
        Err(GrantError::Memory) => Err(AllocError),
    }
}
