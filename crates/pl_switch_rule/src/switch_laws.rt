ghost use Rattle.std.specs.Prelude.{ℕ};
ghost use Rattle.pl_frame.specs.declared.address.SwitchId.{SwitchId};
ghost use Rattle.pl_node.specs.Accounting.{AccountsForFrames, IsShaped, AllowsNoMore};
ghost use Rattle.pl_node.specs.SwitchFacts.{CanBoot, switch_at_boot};
ghost use Rattle.pl_switch_rule.specs.SwitchRule.{Exact, Loose};

/// A switch that knows its id and its ports alone has the shape that its steps ask for and keep.
pub fn a_new_switch_is_shaped()
    ensures { (id : SwitchId) (k : ℕ) → CanBoot id k → IsShaped (switch_at_boot id k) }
{}

/// Whatever comes, a switch ends each frame that it handles once: it passes it on, takes it or drops
/// it. Control frames go out as control frames and data frames as data frames, by ports that are
/// there. Afterwards it is the same switch, of the same shape.
pub fn each_step_accounts_for_its_frames()
    ensures exact { AccountsForFrames Exact }
    ensures loose { AccountsForFrames Loose }
{}

/// A switch that chooses by the flow does no more than one that may choose any of the candidates.
pub fn exact_steps_are_loose()
    ensures { AllowsNoMore Exact Loose }
{}
