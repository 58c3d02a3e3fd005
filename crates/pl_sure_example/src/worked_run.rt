ghost use Rattle.pl_sure_example.specs.Worked.{IsWorked};

/// There is a run, by the exact rules of switches, manager and hosts, in which a frame is sure from its sending
/// to its arrival: so what is promised of such frames is promised of some.
pub fn a_frame_is_sure_until_it_arrives()
    ensures { IsWorked }
{}
