ghost use Rattle.pl_wiring.specs.Plan.{Plan};
ghost use Rattle.pl_journal.specs.Lossy.{GoodTrail, Run};
ghost use Rattle.pl_manager_rule.specs.WholeRule.{whole_rule};
ghost use Rattle.pl_switch_rule.specs.SwitchRule.{Loose};
ghost use Rattle.pl_world.specs.declared.limits.Limits.{Limits};
ghost use Rattle.pl_world.specs.Booting.{CanBegin};
ghost use Rattle.pl_world.specs.Runs.{InEveryRun};
ghost use Rattle.pl_law_ledger.specs.Ledgers.{WhereNumbersSuffice};
ghost use Rattle.pl_law_flights.specs.Given.{ManagerNumbersWell};
ghost use Rattle.pl_law_flights.specs.OnTheWay.{IsJournaled};
ghost use Rattle.pl_law_flights.specs.Standing.{StandsOn, StandsOnHosts};
ghost use Rattle.pl_law_theorem.specs.Groups.{GroupsAreWell};

use pl_host_rule::LawfulHost;
use pl_node::HostLogic;

/// In every run what switches know of places, of addresses and of the hosts at their ports is so, by the
/// journal.
pub fn what_switches_know_is_so_in_every_run<H: HostLogic>()
    ensures addresses { InEveryRun Loose whole_rule H.rule (WhereNumbersSuffice StandsOn) }
    ensures hosts { InEveryRun Loose whole_rule H.rule (WhereNumbersSuffice StandsOnHosts) }
{}

/// In every run each address that the manager numbers may be numbered then: it is live, and its number is above all
/// before, those of earlier epochs too.
pub fn the_manager_numbers_well_in_every_run<H: HostLogic>()
    ensures { InEveryRun Loose whole_rule H.rule (WhereNumbersSuffice (ManagerNumbersWell whole_rule)) }
{}

/// In every run a frame of a group comes out of a port for hosts as the first of its root, and a host that keeps
/// one is a member of its group.
pub fn frames_of_groups_arrive_well_in_every_run<H: LawfulHost>()
    ensures { (plan : Plan) (limits : Limits) → CanBegin plan → GroupsAreWell H.rule plan limits }
{}

/// In every run each frame in a queue is where the journal says that it is on its way, and links and hosts are
/// as the journal says.
pub fn the_journal_says_what_is_so_in_every_run<H: LawfulHost>()
    ensures { InEveryRun Loose whole_rule H.rule (WhereNumbersSuffice IsJournaled) }
{}

/// So the journal is a run of the one lossy switch: each frame that arrives arrives once, unaltered, at the host
/// that holds its address, and each frame that ends otherwise ends for a cause that shows.
pub fn the_journal_is_a_run_of_one_lossy_switch<H: LawfulHost>()
    ensures { InEveryRun Loose whole_rule H.rule (WhereNumbersSuffice (λ new. Run new.plan new.journal)) }
{}

/// And its trails are good: a frame to one host crosses at most five switches for each address, none of them
/// twice, up and then down, over links that were live all the while.
pub fn the_trails_of_the_journal_are_good<H: LawfulHost>()
    ensures { InEveryRun Loose whole_rule H.rule (WhereNumbersSuffice (λ new. GoodTrail new.plan new.journal)) }
{}
