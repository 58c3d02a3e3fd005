//! One count of the frames of each root: of those that came to a target, that may still come there and that are
//! owed. A target is a port where frames arrive, a switch that they cross, or a port out of which they go.
//! Each small change of a world, the acts of a switch and the turns of nodes keep it, whatever the targets are. It
//! has no code.
#![tactic(auto)]
