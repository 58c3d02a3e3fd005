ghost use Rattle.std.specs.Prelude.{◌≡◌, IfOk, length};
ghost use Rattle.pl_frame.specs.Ethernet.{fields, fields_of, with_destination};
ghost use Rattle.pl_node.specs.Accounting.{IsWholeFrame};

use pl_frame::{Frame, FrameView, Mac, Memory};
use std::alloc::Global;
use std::marker::Model;

/// A frame of a length that is carried. Contracts see its bytes.
#[derive(Debug, Drop)]
pub(crate) struct Carried {
    frame: Frame,
}

impl Model for Carried {
    ghost use Rattle.std.specs.Prelude.{ℕ, List};
    ghost use Rattle.pl_node.specs.Accounting.{IsWholeFrame};

    ghost Value = { List ℕ };

    ghost view = { λ carried. carried.frame };

    ghost invariant = { λ carried. IsWholeFrame carried.frame };
}

impl Carried {
    pub(crate) fn copy(alloc: Global, bytes: &[u8]) -> Result<Carried, Memory>
        requires { IsWholeFrame bytes.now }
        ensures { IfOk result (λ carried. carried ≡ bytes.now) }
    {
        Ok(Carried {
            frame: Frame::copy(alloc, bytes)?,
        })
    }

    pub(crate) fn view(&self) -> FrameView<'_>
        ensures { fields result ≡ fields_of self.now }
    {
        match pl_frame::view(self.frame.bytes()) {
            Ok(view) => view,
            Err(_) => unreachable!(),
        }
    }

    /// Writes the destination, and no other byte.
    pub(crate) fn set_destination(&mut self, to: Mac)
        ensures { self.new ≡ with_destination self.old to }
    {
        pl_frame::set_destination(self.frame.bytes_mut(), to);
    }

    pub(crate) fn into_frame(self) -> Frame
        ensures { result ≡ self }
    {
        let Carried { frame } = self;
        frame
    }
}
