ghost use Rattle.std.specs.Prelude.{◌≡◌, OnOk};
ghost use Rattle.pl_output.specs.Mail.{earlier_in, no_mail, with_receipt};

use crate::saving::receipt::{LastLine, Receipt};
use pl_frame::Memory;
use pl_wiring::Name;
use std::alloc::Global;
use std::marker::Model;

/// The last microsecond of a second.
const LAST_MICRO: u32 = 999_999;

/// What a host received, and the name of the capture that is saved of it.
#[derive(Debug, Drop)]
pub struct Inbox {
    name: Name,
    receipts: Vec<Receipt>,
    /// The index behind the line at which the last receipt came.
    behind: usize,
    /// How many came since that line, counted to 1,000,000.
    earlier: u32,
}

impl Model for Inbox {
    ghost use Rattle.pl_output.specs.Mail.{Mail};

    ghost Value = { Mail };

    ghost view = { λ inbox. record {
      name = inbox.name;
      receipts = inbox.receipts.items;
      behind = inbox.behind;
      earlier = inbox.earlier;
    } };
}

impl Inbox {
    pub fn new(alloc: Global, name: Name) -> Inbox
        ensures { result ≡ no_mail name }
    {
        Inbox {
            name,
            receipts: Vec::new(alloc),
            behind: 0,
            earlier: 0,
        }
    }

    pub fn name(&self) -> &str
        ensures { result.now ≡ self.now.name }
    {
        self.name.text()
    }

    pub fn into_name(self) -> Name
        ensures { result ≡ self.name }
    {
        let Inbox { name, .. } = self;
        name
    }

    pub fn receipts(&self) -> &[Receipt]
        ensures { result.now ≡ self.now.receipts }
    {
        self.receipts.as_slice()
    }

    /// A frame is received, whose entry stands at this index.
    pub fn receive(&mut self, line: LastLine, index: usize) -> Result<(), Memory>
        ensures { OnOk result (self.new ≡ with_receipt self.old line index) }
    {
        let micros = self.earlier(line).min(LAST_MICRO);
        self.receipts.push(Receipt {
            seconds: line.number,
            micros,
            entry: index,
        })?;
        self.behind = line.behind;
        self.earlier = micros + 1;
        Ok(())
    }

    /// How many were received since the line.
    fn earlier(&self, line: LastLine) -> u32
        ensures { result ≡ earlier_in self.now line }
    {
        if self.behind == line.behind {
            self.earlier
        } else {
            0
        }
    }
}
