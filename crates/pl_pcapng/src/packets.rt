ghost use Rattle.std.specs.Prelude.{◌≡◌, ◌≤◌};
ghost use Rattle.pl_pcapng.specs.Layout.{cut_to};
ghost use Rattle.pl_pcapng.specs.Reading.{packet_of};

use crate::block::{Content, Interface};
use crate::error::BlockError;
use pl_capture::Captured;

/// The longest captured length that is read, as in a libpcap file.
const LONGEST: u32 = 262_144;

const ETHERNET: u16 = 1;

/// How many bytes of a frame of this length were captured, where a packet does not tell it.
pub fn cut(interface: Interface, len: u32) -> u32
    ensures { result ≡ cut_to interface.snapshot len }
{
    if interface.snapshot == 0 {
        return len;
    }
    interface.snapshot.min(len)
}

/// What a packet of an interface says, in a block that ends at an offset.
pub fn packet(interface: Interface, captured: Captured, end: usize) -> Result<Content, BlockError>
    requires { captured.start ≤ end }
    ensures { result ≡ packet_of interface captured captured.at end }
{
    if captured.len > LONGEST {
        return Err(BlockError::BadRecord(captured.at));
    }
    let padded = (captured.len as usize + 3) / 4 * 4;
    if end - captured.start < padded + 4 {
        return Err(BlockError::BadBlock(captured.at));
    }
    if interface.link == ETHERNET {
        return Ok(Content::HasRecord(captured));
    }
    Ok(Content::PassedOver)
}
