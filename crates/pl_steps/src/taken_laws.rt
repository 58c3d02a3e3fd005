ghost use Rattle.std.specs.Prelude.{◌≡◌, List, ◌++◌};
ghost use Rattle.pl_node.specs.declared.acts.Act.{Act};
ghost use Rattle.pl_node.specs.Gains.{Gains};
ghost use Rattle.pl_node.specs.SwitchViews.{SwitchView};
ghost use Rattle.pl_steps.specs.Steps.{SwitchStep, does, rests, ◌▹◌};
ghost use Rattle.pl_steps.specs.Taken.{IsOfPart, IsTaken, IsTakenByPart, IsTakenUpTo};

/// A part of a step, and then the next from what the switch knows by then, are the two together.
pub fn a_part_and_then_the_next()
    ensures { (s : SwitchStep) (next : SwitchView → SwitchStep) (v w : SwitchView) (out_before between out_after : List Act) → IsTaken s v out_before between → IsTaken (next v) w between out_after → IsTaken (s ▹ next) w out_before out_after }
{}

/// Where nothing changes and nothing is done, a part that rests is taken, and it is taken in no other way.
/// Behind a part, it adds nothing.
pub fn a_part_that_rests()
    ensures taken { (v : SwitchView) (out : List Act) → IsTaken (rests v) v out out }
    ensures only { (v w : SwitchView) (out_before out_after : List Act) → IsTaken (rests v) w out_before out_after → (w ≡ v) × (out_after ≡ out_before) }
    ensures behind { (s : SwitchStep) (w : SwitchView) (out_before out_after : List Act) → IsTaken s w out_before out_after → IsTaken (s ▹ rests) w out_before out_after }
{}

/// A part that does these acts and changes nothing puts them behind the outbox.
pub fn a_part_that_tells()
    ensures { (v : SwitchView) (acts out : List Act) → IsTaken (does v acts) v out (out ++ acts) }
{}

/// Who takes what is left of a step has taken the step.
pub fn what_is_left_is_done()
    ensures { (rest step : SwitchStep) (after : SwitchView) (out_before between out_after : List Act) → IsTakenUpTo rest step out_before between → IsTaken rest after between out_after → IsTaken step after out_before out_after }
{}

/// A whole step that is taken gains its acts, under every rule that asks for this view and these acts.
pub fn what_a_whole_step_gives()
    ensures { (s : SwitchStep) (w : SwitchView) (out_before out_after : List Act) → IsTaken s w out_before out_after → Gains out_before out_after (λ acts. (w ≡ s.view) × (acts ≡ s.acts)) }
{}

/// A step that reads and changes one part of a switch alone is taken by that part, whatever else the switch
/// knows.
pub fn a_step_of_one_part<P>()
    ensures { (put : P → SwitchView → SwitchView) (row : SwitchView → SwitchStep) (becomes : P → P) (done : P → List Act) → IsOfPart put row becomes done → (part : P) (out : List Act) → IsTakenByPart put row part (becomes part) out (out ++ done part) }
{}

/// What a part takes, the switch that has this part takes.
pub fn what_a_part_takes_the_switch_takes<P>()
    ensures { (put : P → SwitchView → SwitchView) (row : SwitchView → SwitchStep) (before after : P) (out_before out_after : List Act) → IsTakenByPart put row before after out_before out_after → (v w : SwitchView) → v ≡ put before v → w ≡ put after v → IsTaken (row v) w out_before out_after }
{}
