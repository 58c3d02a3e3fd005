ghost use Rattle.std.specs.Prelude.{◌≡◌, ◌≢◌, ◌↔◌, ◌<◌, [], ◌∷◌, ℕ, List, Contains, reverse, find, map, Option, Some, None, IfSome, IsSome, IsTrue, true};
ghost use Rattle.std.specs.List.{IsDistinct, range_with_len};
ghost use Rattle.std.specs.List.Sorted.{IsStrictlySortedBy};
ghost use Rattle.std.specs.Option.{option_and_then};
ghost use Rattle.std.specs.Ordering.{nat_cmp};
ghost use Rattle.pl_frame.specs.declared.address.SwitchId.{SwitchId};
ghost use Rattle.pl_node.specs.declared.messages.TreePart.{TreePart};
ghost use Rattle.pl_layouts.specs.Equality.{same_mac, same_pmac, same_switch};
ghost use Rattle.pl_node.specs.declared.pod_given.PodGiven.{PodGiven};
ghost use Rattle.pl_node.specs.ManagerViews.{ManagerView, Members, Told, alive_at_level, booted_manager, id_cmp, ip_of, is_taken, link_cmp, members_cmp, neighbours, newest, owner, place_of, pod_given, registration, registry, switches, value_at};
ghost use Rattle.pl_node.specs.AvoidLists.{Avoids, avoid_list, avoided_cmp};
ghost use Rattle.pl_node.specs.Trees.{needed_edges, tree_part};
ghost use Rattle.pl_manager_rule.specs.ManagerRule.{manager_hears, manager_rule, same_avoid_list, same_part, with_asker};
ghost use Rattle.pl_frame.specs.declared.address.Ip4.{Ip4};
ghost use Rattle.pl_frame.specs.declared.address.Mac.{Mac};
ghost use Rattle.pl_pmac.specs.declared.pmac.Pmac.{Pmac};
ghost use Rattle.pl_manager_rule.specs.Histories.{Word, if_still, ip_since, known, link_said, members_said, numbered, owner_told, place_said, pods_asked, registered, said_by, said_last};
ghost use Rattle.pl_gathering.specs.Acting.{treats_all};
ghost use Rattle.pl_manager_rule.specs.Treating.{at_rest, follows, treats};
ghost use Rattle.pl_manager_rule.specs.WholeRule.{manager_steps, whole_rule};
ghost use Rattle.pl_manager_rule.specs.Repeats.{CanBeRepeated, HasToldLast, TablesAreInOrder, answers};
ghost use Rattle.pl_node.specs.declared.messages.ToManager.{ToManager};
ghost use Rattle.pl_node.specs.ManagerFacts.{groups};
ghost use Rattle.pl_node.specs.ManagerDuties.{AnswersDuly};

/// The avoid list of a switch has all that the switch avoids and nothing else, in rising order and
/// nothing twice.
pub fn an_avoid_list_is_what_its_switch_avoids()
    ensures listed { (told : Told) (s : SwitchId) (avoided : SwitchId × ℕ × ℕ) →
        Contains (avoid_list told s) avoided ↔ Avoids told s avoided }
    ensures rising { (told : Told) (s : SwitchId) →
        IsStrictlySortedBy avoided_cmp (avoid_list told s) }
{}

/// The manager's lists of switches and of groups rise, with nothing twice; so does what stands below
/// in a part of a tree.
pub fn lists_of_switches_rise()
    ensures switches { (told : Told) → IsStrictlySortedBy id_cmp (switches told) }
    ensures neighbours { (told : Told) (s : SwitchId) →
        IsStrictlySortedBy id_cmp (neighbours told s) }
    ensures alive { (told : Told) (s : SwitchId) (level : ℕ) →
        IsStrictlySortedBy id_cmp (alive_at_level told s level) }
    ensures needed { (told : Told) (members : Members) (group : ℕ) →
        IsStrictlySortedBy id_cmp (needed_edges told members group) }
    ensures groups { (members : Members) → IsStrictlySortedBy nat_cmp (groups members) }
    ensures parts { (told : Told) (members : Members) (group : ℕ) (s : SwitchId) →
        IfSome (tree_part told members group s) (λ part. IsStrictlySortedBy id_cmp part.down) }
{}

/// The manager's tests of avoid lists and of parts of trees tell just those apart that differ.
pub fn a_change_is_seen()
    ensures avoid { (xs ys : List (SwitchId × ℕ × ℕ)) → IsTrue (same_avoid_list xs ys) ↔ (xs ≡ ys) }
    ensures part { (x y : Option TreePart) → IsTrue (same_part x y) ↔ (x ≡ y) }
{}

/// In the first epoch addresses are given the numbers 1, 2, 3 and so on in the order in which they are learnt; one
/// that was released is given another when it is learnt again. Each is registered once.
pub fn addresses_are_numbered_in_order()
    ensures numbers { (k : ℕ) (words : List Word) → reverse (map (λ r. r.number) (numbered k words))
        ≡ range_with_len 1 (known k words).learnt.count }
    ensures once { (k : ℕ) (words : List Word) → IsDistinct same_pmac (map (λ r. r.pmac) (registry (known k words).learnt)) }
{}

/// A switch that asks for a pod for the first time is given the smallest number that stands in no place
/// told, and that was given to no other switch. One that asks has a number then.
pub fn a_pod_is_free_when_it_is_given()
    ensures untold { (told : Told) (pods : List PodGiven) (s t : SwitchId) (n : ℕ) → pod_given pods s ≡ None →
        pod_given (with_asker told pods s) s ≡ Some n → (place_of told t).pod ≢ Some n }
    ensures ungiven { (told : Told) (pods : List PodGiven) (s t : SwitchId) (n : ℕ) → pod_given pods s ≡ None →
        pod_given (with_asker told pods s) s ≡ Some n → pod_given pods t ≢ Some n }
    ensures smallest { (told : Told) (pods : List PodGiven) (s : SwitchId) (n m : ℕ) → pod_given pods s ≡ None →
        pod_given (with_asker told pods s) s ≡ Some n → m < n → is_taken told pods m ≡ true }
    ensures asked { (told : Told) (pods : List PodGiven) (s : SwitchId) → IsSome (pod_given (with_asker told pods s) s) }
{}

/// The manager sends messages to switches that it heard before, and to the one that speaks; and it
/// numbers just the addresses that it learns. So it does in its first epoch, and in all of them.
pub fn the_manager_answers_duly()
    ensures first { AnswersDuly manager_rule }
    ensures whole { AnswersDuly whole_rule }
{}

/// What the manager knows is in order from the beginning, and stays so with all that it hears in one epoch.
pub fn what_is_known_stays_in_order()
    ensures boots { (k : ℕ) → TablesAreInOrder (booted_manager k) }
    ensures stays { (view : ManagerView) (s : SwitchId) (says : ToManager) →
        TablesAreInOrder view → TablesAreInOrder (manager_hears view s says).view }
    ensures reached { (k : ℕ) (words : List Word) → TablesAreInOrder (known k words) }
{}

/// In one epoch a word that a switch told last already changes nothing that is known and brings no act about: only
/// a wish for a pod and a question are answered again. And each word but that an address has aged is told last
/// once it was heard.
pub fn a_repeated_word_changes_nothing()
    ensures nothing { (view : ManagerView) (s : SwitchId) (says : ToManager) → TablesAreInOrder view → HasToldLast view s says →
        manager_hears view s says ≡ record { view = view; acts = answers view s says } }
    ensures last { (view : ManagerView) (s : SwitchId) (says : ToManager) → CanBeRepeated says → HasToldLast (manager_hears view s says).view s says }
{}

/// In the first epoch a word that is treated alone, and what follows from it, are what the manager does when
/// it hears that word: where no address is known by a report alone, of which there are none then.
pub fn a_word_is_treated_alone_as_it_is_heard()
    ensures { (view : ManagerView) (s : SwitchId) (says : ToManager) → view.epoch ≡ 0 → view.learnt.reported ≡ [] →
        treats_all treats follows (at_rest view) (record { switch = s; word = says } ∷ [])
        ≡ record { known = at_rest (manager_hears view s says).view; acts = (manager_hears view s says).acts } }
{}

/// So over all epochs the manager does in the first one what its rule of one epoch says, word by word, and
/// neither begins anew nor hears of an address by a report alone.
pub fn the_first_epoch_goes_by_the_rule_of_one()
    ensures step { (view : ManagerView) (s : SwitchId) (says : ToManager) → view.epoch ≡ 0 → view.learnt.reported ≡ [] →
        manager_steps view s says ≡ manager_hears view s says }
    ensures epoch { (view : ManagerView) (s : SwitchId) (says : ToManager) → (manager_hears view s says).view.epoch ≡ view.epoch }
    ensures reported { (view : ManagerView) (s : SwitchId) (says : ToManager) →
        (manager_hears view s says).view.learnt.reported ≡ view.learnt.reported }
{}

/// What the manager knows in the first epoch, however long, is the last that was said of each place, link and group;
/// the pods, each the smallest that was free when its switch first asked; the addresses that were given numbers and not released since; of each
/// the IPv4 address that was said last with it since then; the host of the address with which an IPv4 address
/// was told last; and as the newest address of a host the last of it that was given a number, unless that was
/// released.
pub fn what_is_known_is_what_was_told_last()
    ensures places { (k : ℕ) (words : List Word) (s : SwitchId) →
        value_at id_cmp (known k words).told.places s ≡ said_last (said_by s place_said) words }
    ensures links { (k : ℕ) (words : List Word) (s u : SwitchId) →
        value_at link_cmp (known k words).told.links (s, u) ≡ said_last (said_by s (link_said u)) words }
    ensures members { (k : ℕ) (words : List Word) (s : SwitchId) (group : ℕ) →
        value_at members_cmp (known k words).members (s, group) ≡ said_last (said_by s (members_said group)) words }
    ensures pods { (k : ℕ) (words : List Word) → (known k words).pods ≡ pods_asked k words }
    ensures registrations { (k : ℕ) (words : List Word) → registry (known k words).learnt ≡ registered k words }
    ensures newest { (k : ℕ) (words : List Word) (amac : Mac) →
        newest (known k words).learnt amac ≡ option_and_then (if_still (known k words).learnt) (find (λ r. same_mac r.amac amac) (numbered k words)) }
    ensures ips { (k : ℕ) (words : List Word) (x : Pmac) → ip_of (known k words).learnt x ≡ ip_since k words x }
    ensures owners { (k : ℕ) (words : List Word) (ip : Ip4) → owner (known k words).learnt ip ≡ owner_told k words ip }
{}
