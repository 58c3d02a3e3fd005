ghost use Rattle.pl_journal.specs.Lossy.{GoodTrail, Run};
ghost use Rattle.pl_world.specs.Runs.{InEveryRun};
ghost use Rattle.pl_law_ledger.specs.Ledgers.{WhereNumbersSuffice};
ghost use Rattle.pl_law_flights.specs.OnTheWay.{IsJournaled};

use pl_host_rule::LawfulHost;
use pl_manager_rule::LawfulManager;
use pl_switch_rule::LooseSwitch;

/// So it is in each run of lawful logic: what the journal says of frames, links and hosts is so.
pub fn lawful_logic_writes_what_is_so<S: LooseSwitch, M: LawfulManager, H: LawfulHost>()
    ensures { InEveryRun S.rule M.rule H.rule (WhereNumbersSuffice IsJournaled) }
{}

/// Whatever the wiring, the events and the choices of the switches, lawful logic is one lossy switch with
/// good trails, as their journal shows.
pub fn lawful_logic_is_one_lossy_switch<S: LooseSwitch, M: LawfulManager, H: LawfulHost>()
    ensures run { InEveryRun S.rule M.rule H.rule (WhereNumbersSuffice (λ new. Run new.plan new.journal)) }
    ensures trails { InEveryRun S.rule M.rule H.rule (WhereNumbersSuffice (λ new. GoodTrail new.plan new.journal)) }
{}
