ghost use Rattle.std.specs.Prelude.{◌≡◌, ◌<◌, ◌^◌, List, length};
ghost use Rattle.pl_arp.specs.declared.cache.Me.{Me};
ghost use Rattle.pl_node.specs.declared.acts.HostAct.{HostAct};
ghost use Rattle.pl_node.specs.HostViews.{HostView, IsOrderlyHost, boot_host};
ghost use Rattle.pl_host_rule.specs.HostRule.{host_rule};
ghost use Rattle.pl_node.specs.HostDuties.{HoldsData, HoldsOwn, HostsJoinBySending, HostsKeepFrames, HostsSendData, HostsSendOwn};
ghost use Rattle.pl_node.specs.HostInputs.{HostAnswer, HostInput};

/// A host holds and sends only frames of 14 to 65,553 bytes that are no control frames, from its boot
/// on and whatever it is told or hears, and it keeps its addresses and its table.
pub fn a_host_sends_data_frames()
    ensures boots { (me : Me) (table : List Me) → length me.mac.0 ≡ 6 → HoldsData (boot_host me table) }
    ensures sends { HostsSendData host_rule }
{}

/// A host sends its frames under its own address, its ARP packets with its own addresses as sender: those
/// that it makes, those that it plays and those that it held. From its boot on it holds no others.
pub fn a_host_sends_under_its_own_addresses()
    ensures boots { (me : Me) (table : List Me) → me.ip.0 < 2 ^ 32 → HoldsOwn (boot_host me table) }
    ensures sends { HostsSendOwn host_rule }
{}

/// A host keeps each frame that arrives but those of a routed group that it has not joined: each frame to
/// it alone, and each that is flooded.
pub fn a_host_keeps_what_goes_to_no_routed_group()
    ensures { HostsKeepFrames host_rule }
{}

/// What a host has joined changes in a step just as the frames say that it sends, those included that
/// were recorded, and those that it held.
pub fn a_host_has_joined_what_its_frames_say()
    ensures { HostsJoinBySending host_rule }
{}

/// From its boot on a host keeps its groups and the addresses with held frames rising, no two groups
/// with one number, and for an address at most 64 frames, none once its cache knows the address.
pub fn a_host_is_orderly()
    ensures boots { (me : Me) (table : List Me) → IsOrderlyHost (boot_host me table) }
    ensures stays { (view : HostView) (input : HostInput) (after : HostView) (acts : List HostAct)
        (answer : HostAnswer) → IsOrderlyHost view → host_rule view input after acts answer →
        IsOrderlyHost after }
{}
