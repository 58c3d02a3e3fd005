ghost use Rattle.std.specs.Prelude.{[], List, ℕ, IfOk};
ghost use Rattle.pl_checker.specs.Past.{Keeps};

use pl_journal::Memory;
use pl_past_tables::{Addresses, Frames, Groups, Holders, Hosts, Links};
use pl_wiring::Wiring;
use std::alloc::Global;

/// What is kept of the entries of a journal so far, and the frame that crossed a switch by the newest of them.
#[derive(Debug, Drop)]
pub struct Past {
    pub(crate) frames: Frames,
    pub(crate) addresses: Addresses,
    pub(crate) holders: Holders,
    pub(crate) hosts: Hosts,
    pub(crate) links: Links,
    pub(crate) groups: Groups,
    pub(crate) restarts: u32,
    pub(crate) just: Option<u64>,
}

impl Past {
    /// What is kept before the first entry.
    pub fn first(alloc: Global, wiring: &Wiring) -> Result<Past, Memory>
        ensures { IfOk result (λ kept. (text : List ℕ) → Keeps wiring.now text [] kept) }
    {
        let hosts = Hosts::first(alloc, wiring)?;
        Ok(Past {
            frames: Frames::new(alloc),
            addresses: Addresses::new(alloc),
            holders: Holders::new(alloc),
            hosts,
            links: Links::new(alloc),
            groups: Groups::new(alloc),
            restarts: 0,
            just: None,
        })
    }
}
