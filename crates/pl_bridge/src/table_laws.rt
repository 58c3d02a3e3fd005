ghost use Rattle.std.specs.Prelude.{◌≡◌, ◌<◌, ℕ, List, Some};
ghost use Rattle.pl_frame.specs.declared.address.Mac.{Mac};
ghost use Rattle.pl_node.specs.declared.switch_records.Member.{Member};
ghost use Rattle.pl_members.specs.Reached.{AreMembersAtPorts, IsMac};
ghost use Rattle.pl_bridge_rule.specs.BridgeRule.{learns, port_among};

/// An address that was learnt is found at its port, in each table of a bridge.
pub fn what_is_learnt_is_found()
    ensures { (k port : ℕ) (mac : Mac) (members : List Member) → AreMembersAtPorts members → IsMac mac → port < k →
        port_among k (learns port mac members) mac ≡ Some port }
{}
