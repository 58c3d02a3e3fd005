ghost use Rattle.std.specs.Prelude.{◌≡◌, ℕ, List, Option, Some};
ghost use Rattle.pl_node.specs.declared.acts.Act.{Act};
ghost use Rattle.pl_node.specs.declared.switch_records.Grant.{Grant};
ghost use Rattle.pl_node.specs.declared.trap.Trap.{Trap};
ghost use Rattle.pl_node.specs.SwitchViews.{SwitchView};
ghost use Rattle.pl_delivery.specs.Sending.{makes_any};
ghost use Rattle.pl_pmac.specs.declared.pmac.Pmac.{Pmac};
ghost use Rattle.pl_steps.specs.Taken.{IsTaken};
ghost use Rattle.pl_switch_rule.specs.Delivering.{arrives_home, comes_home, destination, tells_sender, trap_for};
ghost use Rattle.pl_switch_rule.specs.Forwarding.{Choice};
ghost use Rattle.pl_switch_rule.specs.Messages.{forgets_members, invalidates, probes, sets_trap};

/// Where a trap is set for an address, then what its host had joined is forgotten, and then the host is
/// probed, an `Invalidate` is heard.
pub fn an_invalidation_is_three_parts()
    ensures { (v w : SwitchView) (old : Pmac) (trap : Trap) (grant : Grant) (out_before between out_after : List Act) → IsTaken (forgets_members old.port grant.amac (sets_trap v old grant trap)) w out_before between → IsTaken (probes old grant w) w between out_after → IsTaken (invalidates v old trap (Some grant)) w out_before out_after }
{}

/// Where a frame came home, and then its reply is made if there is one, the frame has arrived home.
pub fn a_sender_is_told_behind_its_frame()
    ensures { (choose : Choice) (frame : List ℕ) (reply : Option (List ℕ)) (v w : SwitchView) (out_before between out_after : List Act) → makes_any choose reply v ≡ tells_sender choose frame (trap_for v (destination frame)) v → IsTaken (comes_home choose v frame) v out_before between → IsTaken (makes_any choose reply v) w between out_after → IsTaken (arrives_home choose v frame) w out_before out_after }
{}
