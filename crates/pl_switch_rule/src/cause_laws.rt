ghost use Rattle.pl_switch_rule.specs.SwitchRule.{Exact, Loose};
ghost use Rattle.pl_switch_rule.specs.CauseOf.{DropsForFirstCause};

/// Whatever comes, a switch drops the frame that came, and the one that it makes itself, for the first
/// cause that holds, and drops neither where none holds. It makes at most one.
pub fn each_drop_is_for_the_first_cause()
    ensures exact { DropsForFirstCause Exact }
    ensures loose { DropsForFirstCause Loose }
{}
