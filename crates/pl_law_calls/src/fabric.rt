ghost use Rattle.std.specs.Prelude.{◌≡◌, ◌<◌, ◌≤◌, ℕ, IfErr, IfOk, OnErr, OnOk, Some};
ghost use Rattle.pl_world.specs.Booting.{booted};
ghost use Rattle.pl_world.specs.Changes.{noted};
ghost use Rattle.pl_world.specs.Ready.{CanStep};
ghost use Rattle.pl_world.specs.Runs.{IsMark};
ghost use Rattle.pl_fabric.specs.declared.settling.Settling.TheVariants.{Settled};
ghost use Rattle.pl_fabric.specs.Executions.{EndsAs, Makes, UnlessMemory};
ghost use Rattle.pl_fabric.specs.Draws.{Draws};
ghost use Rattle.pl_fabric.specs.Rounds.{Sweeps};
ghost use Rattle.pl_fabric.specs.Settlings.{GoesRounds, Settles};
ghost use Rattle.pl_law_settled.specs.AtPlace.{ReceiversArePlaced};
ghost use Rattle.pl_law_settled.specs.Whole.{IsWholePod};
ghost use Rattle.pl_law_registration.specs.Registering.{AreRegistered};
ghost use Rattle.pl_law_theorem.specs.OneSwitch.{IsOneSwitch};
ghost use Rattle.pl_law_calls.specs.Moments.{IsOfRun};

use pl_fabric::{
    Settling, a_sweep_is_a_run, drawn_steps_are_a_run, the_rounds_of_a_settling_are_a_run,
};
use pl_frame::Memory;
use pl_host_rule::LawfulHost;
use pl_journal::Entry;
use pl_law_registration::a_fabric_at_rest_has_empty_queues;
use pl_law_theorem::lawful_logic_is_one_switch;
use pl_manager_rule::LawfulManager;
use pl_schedule::World;
use pl_stage::{Nobody, Stage};
use pl_switch_rule::LooseSwitch;
use pl_wiring::Wiring;
use pl_world::{Event, Limits, StepError};
use std::alloc::Global;

/// A fabric of lawful logic as it begins.
pub fn boot<S: LooseSwitch, M: LawfulManager, H: LawfulHost>(
    alloc: Global,
    wiring: Wiring,
    limits: Limits,
) -> Result<Stage<S, M, H, Nobody>, Memory>
    requires { limits.steps ≤ 4000000000 }
    ensures booted { IfOk result (λ w. w ≡ booted wiring limits) }
    ensures orderly { IfOk result (λ w. CanStep w) }
    ensures moment { IfOk result (λ w. IsOfRun S.rule M.rule H.rule w) }
    ensures one_switch { IfOk result (λ w. IsOneSwitch S.rule M.rule H.rule w) }
{
    lawful_logic_is_one_switch::<S, M, H>();
    // A wiring is a fat tree.
    let _hosts = wiring.hosts();
    let world = World::boot(alloc, wiring, limits)?;
    Ok(Stage::new(world, Nobody))
}

/// One step of it. Where it is refused, nothing changes. After want of memory the world is not used again.
pub fn make<S: LooseSwitch, M: LawfulManager, H: LawfulHost>(
    world: &mut Stage<S, M, H, Nobody>,
    event: &Event,
) -> Result<(), StepError>
    requires orderly { CanStep world.old }
    requires moment { IsOfRun S.rule M.rule H.rule world.old }
    ensures made { EndsAs result (λ end. Makes S.rule M.rule H.rule event.now world.old end world.new) }
    ensures orderly { EndsAs result (λ _. CanStep world.new) }
    ensures moment { EndsAs result (λ _. IsOfRun S.rule M.rule H.rule world.new) }
    ensures one_switch { EndsAs result (λ _. IsOneSwitch S.rule M.rule H.rule world.new) }
{
    lawful_logic_is_one_switch::<S, M, H>();
    pl_fabric::make(world, event)
}

/// A mark in its journal. After want of memory the world is as it was.
pub fn mark<S: LooseSwitch, M: LawfulManager, H: LawfulHost>(
    world: &mut Stage<S, M, H, Nobody>,
    entry: Entry,
) -> Result<(), Memory>
    requires mark { IsMark entry }
    requires orderly { CanStep world.old }
    requires moment { IsOfRun S.rule M.rule H.rule world.old }
    ensures marked { OnOk result (world.new ≡ noted world.old entry) }
    ensures err { OnErr result (world.new ≡ world.old) }
    ensures orderly { OnOk result (CanStep world.new) }
    ensures moment { OnOk result (IsOfRun S.rule M.rule H.rule world.new) }
    ensures one_switch { OnOk result (IsOneSwitch S.rule M.rule H.rule world.new) }
{
    lawful_logic_is_one_switch::<S, M, H>();
    world.mark(entry)
}

/// A sweep over its queues. Where a step is refused the steps before it stand.
pub fn sweep<S: LooseSwitch, M: LawfulManager, H: LawfulHost>(
    world: &mut Stage<S, M, H, Nobody>,
) -> Result<(), StepError>
    requires orderly { CanStep world.old }
    requires moment { IsOfRun S.rule M.rule H.rule world.old }
    ensures swept { EndsAs result (λ end. Sweeps S.rule M.rule H.rule world.old end world.new) }
    ensures orderly { EndsAs result (λ _. CanStep world.new) }
    ensures moment { EndsAs result (λ _. IsOfRun S.rule M.rule H.rule world.new) }
    ensures one_switch { EndsAs result (λ _. IsOneSwitch S.rule M.rule H.rule world.new) }
{
    lawful_logic_is_one_switch::<S, M, H>();
    a_sweep_is_a_run::<S, M, H>();
    pl_fabric::sweep(world)
}

/// Rounds, the least number of them, at most as many as asked, after which it is settled and all queues are
/// empty. Where the answer is that it is settled, each edge switch of a pod that lacks no link that received a
/// frame of a host has its place; and where fewer rounds were made than asked, each host is registered that its
/// edge switch could learn of.
pub fn settle<S: LooseSwitch, M: LawfulManager, H: LawfulHost>(
    world: &mut Stage<S, M, H, Nobody>,
    rounds: u32,
) -> Result<Settling, StepError>
    requires orderly { CanStep world.old }
    requires moment { IsOfRun S.rule M.rule H.rule world.old }
    ensures settles { IfOk result (λ answer. Settles S.rule M.rule H.rule rounds world.old answer world.new) }
    ensures refused { IfErr result (λ reason. UnlessMemory reason (GoesRounds S.rule M.rule H.rule rounds world.old (Some reason) world.new)) }
    ensures placed { IfOk result (λ answer. (used : ℕ) → answer ≡ Settled used → (pod : ℕ) → IsWholePod world.new pod → ReceiversArePlaced world.new pod) }
    ensures registered { IfOk result (λ answer. (used : ℕ) → answer ≡ Settled used → used < rounds → AreRegistered world.new) }
    ensures orderly { EndsAs result (λ _. CanStep world.new) }
    ensures moment { EndsAs result (λ _. IsOfRun S.rule M.rule H.rule world.new) }
    ensures one_switch { EndsAs result (λ _. IsOneSwitch S.rule M.rule H.rule world.new) }
{
    lawful_logic_is_one_switch::<S, M, H>();
    the_rounds_of_a_settling_are_a_run::<S, M, H>();
    a_fabric_at_rest_has_empty_queues();
    pl_fabric::settle(world, rounds)
}

/// So many steps that are drawn by numbers. Where one is refused the steps before it stand.
pub fn random<S: LooseSwitch, M: LawfulManager, H: LawfulHost>(
    world: &mut Stage<S, M, H, Nobody>,
    number: u64,
    steps: u32,
) -> Result<(), StepError>
    requires orderly { CanStep world.old }
    requires moment { IsOfRun S.rule M.rule H.rule world.old }
    ensures drawn { EndsAs result (λ end. Draws S.rule M.rule H.rule steps number world.old end world.new) }
    ensures orderly { EndsAs result (λ _. CanStep world.new) }
    ensures moment { EndsAs result (λ _. IsOfRun S.rule M.rule H.rule world.new) }
    ensures one_switch { EndsAs result (λ _. IsOneSwitch S.rule M.rule H.rule world.new) }
{
    lawful_logic_is_one_switch::<S, M, H>();
    drawn_steps_are_a_run::<S, M, H>();
    pl_fabric::random(world, number, steps)
}
