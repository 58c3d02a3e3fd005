ghost use Rattle.std.specs.Prelude.{◌≡◌, ℕ, false, List};
ghost use Rattle.pl_frame.specs.declared.address.Mac.{Mac};
ghost use Rattle.pl_frame.specs.declared.address.SwitchId.{SwitchId};
ghost use Rattle.pl_layouts.specs.Equality.{same_mac};
ghost use Rattle.pl_node.specs.declared.acts.Act.{Act};
ghost use Rattle.pl_node.specs.declared.switch_records.Member.{Member};
ghost use Rattle.pl_node.specs.Accounting.{AccountsForFrames};
ghost use Rattle.pl_node.specs.ManagerDuties.{AnswersDuly};
ghost use Rattle.pl_node.specs.SwitchFacts.{switch_at_boot};
ghost use Rattle.pl_node.specs.SwitchInputs.{SwitchInput};
ghost use Rattle.pl_node.specs.SwitchViews.{SwitchView};
ghost use Rattle.pl_bridge_rule.specs.BridgeRule.{AreAtOnePort, Bridges, learns, port_among};
ghost use Rattle.pl_bridge_rule.specs.QuietManager.{IsQuiet};

/// Each step of a bridge accounts for its frames.
pub fn a_bridge_accounts_for_its_frames()
    ensures { AccountsForFrames Bridges }
{}

/// What a bridge knew and what comes leave it no choice.
pub fn a_bridge_has_no_choice()
    ensures { (old : SwitchView) (input : SwitchInput) (one other : SwitchView) (acts more : List Act) →
        Bridges old input one acts → Bridges old input other more → (one ≡ other) × (acts ≡ more) }
{}

/// An address is at one port of a bridge at most: at boot, and behind each step.
pub fn an_address_is_at_one_port()
    ensures boots { (id : SwitchId) (k : ℕ) → AreAtOnePort (switch_at_boot id k).members }
    ensures stays { (old : SwitchView) (input : SwitchInput) (new : SwitchView) (acts : List Act) →
        Bridges old input new acts → AreAtOnePort old.members → AreAtOnePort new.members }
{}

/// To learn an address leaves where each other one is, whatever the table.
pub fn other_addresses_stay()
    ensures { (k port : ℕ) (mac other : Mac) (members : List Member) → same_mac mac other ≡ false →
        port_among k (learns port mac members) other ≡ port_among k members other }
{}

/// A fabric manager that says nothing answers duly.
pub fn a_quiet_manager_answers_duly()
    ensures { AnswersDuly IsQuiet }
{}
