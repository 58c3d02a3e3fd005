//! The items of a command: each is `--name=VALUE`, or `--name` and then the VALUE.
ghost use Rattle.std.specs.Prelude.{◌≡◌, ◌<◌, ◌≤◌, Some, None, Bool, true, false, option_map, drop, length, IfSome, OnSome, IfNone};
ghost use Rattle.std.specs.List.{list_any, before_first, after_first};
ghost use Rattle.std.specs.Option.{option_and_then, option_copied};
ghost use Rattle.pl_inputs.specs.Words.{is_equals, is_among, given_by, beside, items_of, items_behind, value_if_given, value_in};
ghost use Rattle.pl_inputs.specs.Met.{texts, given};

/// The words behind a command, which takes items of these names.
#[derive(Clone, Copy, Debug)]
pub struct Items<'w, 'a> {
    pub names: &'w [&'static str],
    pub words: &'w [&'a str],
}

// An item, and how many words it has.
#[derive(Clone, Copy, Debug)]
struct Item<'a> {
    name: &'a str,
    value: &'a str,
    words: usize,
}

impl<'a> Items<'_, 'a> {
    /// The value of the one item with this name. None where it is not there or a second one is, and where
    /// the words are no items of the command.
    pub fn value(&self, name: &str) -> Option<&'a str>
        ensures { option_copied result ≡ option_and_then (value_in name.now)
            (items_of (texts self.now.names.now) (texts self.now.words.now)) }
    {
        self.value_if_given(name)?
    }

    /// The same of an item that need not be there: `Some(None)` where it is not.
    pub fn value_if_given(&self, name: &str) -> Option<Option<&'a str>>
        ensures { option_map option_copied result ≡ option_and_then (value_if_given name.now)
            (items_of (texts self.now.names.now) (texts self.now.words.now)) }
    {
        let mut found = None;
        let mut at = 0;
        while at < self.words.len() {
            let item = first_item(self.names, &self.words[at..])?;
            if item.name == name {
                if found.is_some() {
                    return None;
                }
                found = Some(item.value);
            }
            at += item.words;
        }
        Some(found)
    }
}

// The first item of these words.
#[tactic(auto, unfolding(crate::specs::Words::items_of, crate::specs::Words::given_in))]
fn first_item<'a>(names: &[&str], words: &[&'a str]) -> Option<Item<'a>>
    ensures found { IfSome result (λ item. items_of (texts names.now) (texts words.now)
        ≡ beside (Some (given item)) (items_of (texts names.now) (drop item.words (texts words.now)))) }
    ensures some_words { IfSome result (λ item. 0 < item.words) }
    ensures within { IfSome result (λ item. item.words ≤ length words.now) }
    ensures none { IfNone result (0 < length words.now → items_of (texts names.now) (texts words.now) ≡ None) }
{
    let (word, behind) = words.split_first()?;
    match parted(word) {
        Some((name, value)) => Item::of(names, name, value, 1),
        None => item_behind(names, word, behind),
    }
}

// The item of this name, whose value is the first of these words.
#[tactic(auto, unfolding(crate::specs::Words::items_behind))]
fn item_behind<'a>(names: &[&str], name: &'a str, words: &[&'a str]) -> Option<Item<'a>>
    ensures found { IfSome result (λ item. items_behind (texts names.now) name.now (texts words.now)
        ≡ beside (Some (given item)) (items_of (texts names.now) (drop 1 (texts words.now)))) }
    ensures words { IfSome result (λ item. item.words ≡ 2) }
    ensures within { OnSome result (0 < length words.now) }
    ensures none { IfNone result (items_behind (texts names.now) name.now (texts words.now) ≡ None) }
{
    let value = words.first()?;
    if value.starts_with('-') {
        return None;
    }
    Item::of(names, name, value, 2)
}

// What stands before and behind the first `=`.
#[tactic(auto, using(crate::proofs::Parted::any_before_end, crate::proofs::Parted::none_at_end))]
fn parted(word: &str) -> Option<(&str, &str)>
    ensures found { IfSome result (λ parts. (parts.0.now ≡ before_first is_equals word.now)
        × (parts.1.now ≡ after_first is_equals word.now)) }
    ensures some { OnSome result (list_any is_equals word.now ≡ true) }
    ensures none { IfNone result (list_any is_equals word.now ≡ false) }
{
    word.split_once('=')
}

impl<'a> Item<'a> {
    // None where the command has no such item, or its value is empty.
    #[tactic(auto, unfolding(crate::specs::Words::given_by))]
    fn of(names: &[&str], name: &'a str, value: &'a str, words: usize) -> Option<Item<'a>>
        ensures given { option_map given result ≡ given_by (texts names.now) name.now value.now }
        ensures words { IfSome result (λ item. item.words ≡ words) }
    {
        if value.is_empty() || !is_among(names, name) {
            return None;
        }
        Some(Item { name, value, words })
    }
}

fn is_among(names: &[&str], name: &str) -> bool
    ensures { result ≡ is_among (texts names.now) name.now }
{
    names.contains(&name)
}
