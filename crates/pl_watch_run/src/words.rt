ghost use Rattle.std.specs.Prelude.{◌≡◌, ◌++◌, ◌∷◌, [], filter, not, option_map, IfOk, OnOk};
ghost use Rattle.std.specs.List.{list_any};
ghost use Rattle.std.specs.Option.{option_and_then};
ghost use Rattle.pl_inputs.specs.Met.{asked, texts};
ghost use Rattle.pl_inputs.specs.Words.{items_of};
ghost use Rattle.pl_watch_run.specs.Words.{asked_by, asked_of, files_by, is_json, watch_items, watching};

use pl_frame::Memory;
use pl_inputs::{Files, Items, Network};
use std::alloc::Global;

/// What the program is asked to do: the files of a run, and which lines of its log are shown.
#[derive(Clone, Copy, Debug)]
pub(crate) struct Asked<'a> {
    pub files: Files<'a>,
    pub of: Option<&'a str>,
    pub kind: Option<&'a str>,
    pub lines: Option<&'a str>,
    pub json: bool,
}

const ITEMS: [&str; 7] = [
    "--topology",
    "--script",
    "--captures",
    "--out",
    "--of",
    "--kind",
    "--lines",
];

/// What the words ask for, of which the first is the program's name. None exactly where an item is unknown, missing, without a
/// value, or given twice. `--out` is taken, so that the words of a run serve, and nothing is saved there.
#[tactic(auto, unfolding(crate::specs::Words::asked_of))]
pub(crate) fn read_words<'a>(alloc: Global, words: &[&'a str]) -> Result<Option<Asked<'a>>, Memory>
    ensures { IfOk result (λ asked. option_map watching asked ≡ asked_of (texts words.now)) }
{
    let Some((_program, words)) = words.split_first() else {
        return Ok(None);
    };
    let plain = plain_words(alloc, words)?;
    Ok(asked_by(has_json(words), &plain))
}

// The words but for `--json`.
#[tactic(auto, using(crate::proofs::Asking::plain_more, crate::proofs::Asking::plain_all))]
fn plain_words<'a>(alloc: Global, words: &[&'a str]) -> Result<Vec<&'a str>, Memory>
    ensures { IfOk result (λ plain. texts plain.items ≡ filter (λ word. not (is_json word)) (texts words.now)) }
{
    let mut plain = Vec::new(alloc);
    for word in words {
        push_plain(&mut plain, word)?;
    }
    Ok(plain)
}

fn push_plain<'a>(plain: &mut Vec<&'a str>, word: &'a str) -> Result<(), Memory>
    ensures { OnOk result (texts plain.new.items ≡ texts plain.old.items ++ filter (λ word. not (is_json word)) (word.now ∷ [])) }
{
    if is_json(word) {
        return Ok(());
    }
    plain.push(word)?;
    Ok(())
}

fn has_json(words: &[&str]) -> bool
    ensures { result ≡ list_any is_json (texts words.now) }
{
    words.contains(&"--json")
}

fn is_json(word: &str) -> bool
    ensures { result ≡ is_json word.now }
{
    word == "--json"
}

fn asked_by<'a>(json: bool, words: &[&'a str]) -> Option<Asked<'a>>
    ensures { option_map watching result ≡ option_and_then (asked_by json) (items_of watch_items (texts words.now)) }
{
    let items = Items {
        names: &ITEMS,
        words,
    };
    let _out = items.value_if_given("--out")?;
    Some(Asked {
        files: files(&items)?,
        of: items.value_if_given("--of")?,
        kind: items.value_if_given("--kind")?,
        lines: items.value_if_given("--lines")?,
        json,
    })
}

fn files<'a>(items: &Items<'_, 'a>) -> Option<Files<'a>>
    ensures { option_map asked result ≡ option_and_then files_by (items_of (texts items.now.names.now) (texts items.now.words.now)) }
{
    Some(Files {
        network: Network::Fabric,
        topology: items.value("--topology")?,
        script: items.value("--script")?,
        captures: items.value("--captures")?,
        out: "",
    })
}
