ghost use Rattle.std.specs.Prelude.{◌≡◌, ◌<◌, ℕ, length, None, Some};
ghost use Rattle.pl_frame.specs.declared.address.SwitchId.{SwitchId};
ghost use Rattle.pl_layouts.specs.declared.control.Ldm.{Ldm};
ghost use Rattle.pl_node.specs.SwitchFacts.{switch_at_boot};
ghost use Rattle.pl_node.specs.SwitchViews.{SwitchView};
ghost use Rattle.pl_switch_rule.specs.Announcing.{with_aged_ports};
ghost use Rattle.pl_switch_rule.specs.Levels.{becomes_edge, learns_level, with_message};
ghost use Rattle.pl_ports.specs.Changes.{with_host};
ghost use Rattle.pl_ports.specs.Evidence.{level_shown};

/// The level that a switch learns is the one that its records then show, by a message and by a host. While
/// it knows none they show none: at first, after each message that gives none, and after each tick.
pub fn the_level_is_what_the_records_show()
    ensures at_first { (id : SwitchId) (k : ℕ) → level_shown (switch_at_boot id k).ports ≡ None }
    ensures message { (v : SwitchView) (port : ℕ) (id : SwitchId) (m : Ldm) → port < length v.ports → v.place.level ≡ None → level_shown v.ports ≡ None → (learns_level (with_message v port id m) m.place).place.level ≡ level_shown (with_message v port id m).ports }
    ensures host { (v : SwitchView) (port : ℕ) → port < length v.ports → (becomes_edge (with_host v port)).place.level ≡ level_shown (becomes_edge (with_host v port)).ports }
    ensures tick { (v : SwitchView) → level_shown (with_aged_ports v).ports ≡ level_shown v.ports }
{}
