ghost use Rattle.std.specs.Prelude.{◌≡◌, ◌≤◌, length};
ghost use Rattle.pl_frame.specs.Ethernet.{destination_of};
ghost use Rattle.pl_layouts.specs.Memberships.{is_group};
ghost use Rattle.pl_switch_rule.specs.Delivering.{destination};

use pl_frame::Mac;
use pl_pmac::Pmac;

/// The pseudo address that a frame is for.
pub(crate) fn destination(frame: &[u8]) -> Pmac
    requires { 14 ≤ length frame.now }
    ensures { result ≡ destination frame.now }
{
    pl_pmac::unpack(Mac::read_at(frame, 0))
}

/// Whether a frame is for a group.
pub(crate) fn is_for_group(frame: &[u8]) -> bool
    requires { 14 ≤ length frame.now }
    ensures { result ≡ is_group (destination_of frame.now) }
{
    Mac::read_at(frame, 0).is_group()
}
