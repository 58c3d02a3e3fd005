ghost use Rattle.std.specs.Prelude.{◌≡◌, ◌↔◌, ℕ, All, Any, Contains};
ghost use Rattle.pl_wiring.specs.declared.label.SwitchNo.{SwitchNo};
ghost use Rattle.pl_wiring.specs.declared.link.Link.{Link};
ghost use Rattle.pl_wiring.specs.declared.link.Peer.TheVariants.{HostPort, Switch};
ghost use Rattle.pl_wiring.specs.FatTree.{IsAt};
ghost use Rattle.pl_wiring.specs.Peers.{HasEnds, LinksSwitches, peer_of};
ghost use Rattle.pl_wiring.specs.Plan.{IsPlan, Plan};

/// A port leads to a port of another switch exactly where a link of the wiring has these two as its
/// ends, and is a host port exactly where no link is at it.
pub fn a_port_leads_to_the_other_end_of_its_link()
    ensures switch { (plan : Plan) (s p : ℕ) (t : SwitchNo) (q : ℕ) → IsPlan plan →
        ((peer_of plan s p ≡ Switch t q) ↔ Any (λ link. HasEnds link s p t.0 q) plan.links) }
    ensures none { (plan : Plan) (s p : ℕ) → IsPlan plan →
        ((peer_of plan s p ≡ HostPort) ↔ All (λ link. ¬ IsAt link s p) plan.links) }
{}

/// Two links of a wiring that join the same two switches are one.
pub fn two_switches_have_one_link()
    ensures { (plan : Plan) (l m : Link) (a b : ℕ) → IsPlan plan →
        Contains plan.links l → Contains plan.links m → LinksSwitches l a b → LinksSwitches m a b → l ≡ m }
{}
