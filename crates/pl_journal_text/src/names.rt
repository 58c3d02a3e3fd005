ghost use Rattle.pl_journal.specs.Text.{IsHost, IsSwitch, cause_text, host_text, skip_text, switch_text};

use crate::from_text::{FromText, Word};
use crate::verb::{cause_named, skip_named};
use pl_journal::{Cause, Memory, Skip};
use pl_wiring::{HostNo, SwitchNo, Wiring};
use std::alloc::Global;

impl FromText for SwitchNo {
    ghost spelling = { λ plan switch. switch_text plan switch.0 };

    ghost fits = { λ plan switch. IsSwitch plan switch.0 };

    fn from_text(_alloc: Global, wiring: &Wiring, text: &str) -> Result<Option<SwitchNo>, Memory> {
        let _k = wiring.k();
        Ok(wiring.switch_named(text))
    }
}

impl Word for SwitchNo {
    ghost use Rattle.pl_journal.specs.Text.{switch_text};
    ghost use Rattle.pl_journal_text.specs.Ink.{at_most_blank, free_of, switch_ink};

    ghost blankless = { λ plan is switch there.
        free_of 32 (switch_text plan switch.0) at_most_blank (switch_ink plan switch.0 is there) };
}

impl FromText for HostNo {
    ghost spelling = { λ plan host. host_text plan host.0 };

    ghost fits = { λ plan host. IsHost plan host.0 };

    fn from_text(_alloc: Global, wiring: &Wiring, text: &str) -> Result<Option<HostNo>, Memory> {
        Ok(wiring.host_named(text))
    }
}

impl Word for HostNo {
    ghost use Rattle.pl_journal.specs.Text.{host_text};
    ghost use Rattle.pl_journal_text.specs.Ink.{at_most_blank, free_of, host_ink};

    ghost blankless = { λ plan is host there.
        free_of 32 (host_text plan host.0) at_most_blank (host_ink plan host.0 is) };
}

impl FromText for Cause {
    ghost spelling = { λ _ cause. cause_text cause };

    ghost fits = { λ _ _. Unit {0} };

    fn from_text(_alloc: Global, _wiring: &Wiring, text: &str) -> Result<Option<Cause>, Memory> {
        Ok(cause_named(text))
    }
}

impl FromText for Skip {
    ghost spelling = { λ _ skip. skip_text skip };

    ghost fits = { λ _ _. Unit {0} };

    fn from_text(_alloc: Global, _wiring: &Wiring, text: &str) -> Result<Option<Skip>, Memory> {
        Ok(skip_named(text))
    }
}
