ghost use Rattle.std.specs.Prelude.{◌≡◌, true, List, ◌∷◌};
ghost use Rattle.pl_wiring.specs.declared.label.Label.{Label};
ghost use Rattle.pl_bridge_rule.specs.Tree.{end_of, is_of_tree, IsWay, leads_to, towards};

/// What lies behind two neighbours of a switch in the tree lies behind one neighbour.
pub fn links_of_the_tree_lead_apart()
    ensures { (a b c x : Label) → leads_to a b x ≡ true → leads_to a c x ≡ true → b ≡ c }
{}

/// Two ways over the tree between the same switches are one.
pub fn one_way_leads_from_switch_to_switch()
    ensures { (a : Label) (p q : List Label) → IsWay (a ∷ p) → IsWay (a ∷ q) → end_of a p ≡ end_of a q → p ≡ q }
{}

/// And there is one: from each switch of the tree the next one towards another leads to it.
pub fn there_is_a_way_to_each_switch()
    ensures { (a x : Label) → is_of_tree a ≡ true → is_of_tree x ≡ true → (a ≡ x → ⊥) → leads_to a (towards a x) x ≡ true }
{}
