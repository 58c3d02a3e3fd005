ghost use Rattle.std.specs.Prelude.{◌≡◌, ◌↔◌, ℕ, Some, false, slice_get};
ghost use Rattle.pl_node.specs.SwitchViews.{SwitchView};
ghost use Rattle.pl_world.specs.Runs.{InEveryRun};
ghost use Rattle.pl_fabric.specs.Settled.{would_change};
ghost use Rattle.pl_law_settled.specs.Agreed.{IsAgreed};

use pl_manager_rule::LawfulManager;
use pl_node::HostLogic;
use pl_switch_rule::LooseSwitch;

/// The table of what a proposal that is sent once more would change says what the rows of proposals and votes
/// say, of each two switches at each moment of each run of lawful logic: nothing would change exactly where the
/// row of the one that hears the proposal leaves it as it is, and that of the vote leaves the other one.
pub fn a_proposal_sent_again_changes_nothing_exactly_where_the_rows_leave_both<
    S: LooseSwitch,
    M: LawfulManager,
    H: HostLogic,
>()
    ensures { InEveryRun S.rule M.rule H.rule (λ new. (s t : ℕ) (v u : SwitchView) (port q : ℕ) → slice_get new.switches s ≡ Some v → slice_get new.switches t ≡ Some u → (would_change v port u q ≡ false) ↔ IsAgreed v port u q) }
{}
