ghost use Rattle.std.specs.Prelude.{◌≡◌, [], ◌∷◌, ◌++◌, OnOk, Some, fold, map};
ghost use Rattle.pl_node.specs.declared.acts.HostAct.TheVariants.{Send};
ghost use Rattle.pl_node.specs.HostViews.{groups_after};
ghost use Rattle.pl_host_rule.specs.HostRule.{released};
ghost use Rattle.pl_host.specs.Carried.{replies};

use crate::carried::Carried;
use crate::frames::reply;
use crate::groups::Groups;
use pl_arp::Arp;
use pl_frame::{Mac, Memory};
use pl_lists::Queue;
use pl_node::{HostAct, HostOutbox};
use std::alloc::Global;

/// A frame is sent, whatever it says.
pub(crate) fn put(frame: Carried, out: &mut HostOutbox) -> Result<(), Memory>
    ensures { OnOk result (out.new ≡ out.old ++ Send frame ∷ []) }
{
    out.push(HostAct::Send(frame.into_frame()))
}

/// A frame is sent, and the host has joined what it says.
pub(crate) fn send(joined: &mut Groups, frame: Carried, out: &mut HostOutbox) -> Result<(), Memory>
    ensures groups { OnOk result (joined.new ≡ groups_after joined.old frame) }
    ensures sent { OnOk result (out.new ≡ out.old ++ Send frame ∷ []) }
{
    joined.note(&frame)?;
    put(frame, out)
}

/// The reply that is owed for a packet is sent, where one is.
pub(crate) fn answer(
    alloc: Global,
    joined: &mut Groups,
    answer: Option<Arp>,
    out: &mut HostOutbox,
) -> Result<(), Memory>
    ensures groups { OnOk result (joined.new ≡ fold groups_after joined.old (replies answer)) }
    ensures sent { OnOk result (out.new ≡ out.old ++ map Send (replies answer)) }
{
    match answer {
        Some(arp) => send(joined, reply(alloc, &arp)?, out),
        None => Ok(()),
    }
}

/// Frames that waited are sent in order to the address that they waited for.
pub(crate) fn release(
    joined: &mut Groups,
    mut frames: Queue<Carried>,
    to: Mac,
    out: &mut HostOutbox,
) -> Result<(), Memory>
    ensures groups { OnOk result (joined.new ≡ fold groups_after joined.old (released frames (Some to))) }
    ensures sent { OnOk result (out.new ≡ out.old ++ map Send (released frames (Some to))) }
{
    while let Some(frame) = frames.take_first() {
        let mut frame = frame;
        frame.set_destination(to);
        send(joined, frame, out)?;
    }
    Ok(())
}
