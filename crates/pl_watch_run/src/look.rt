ghost use Rattle.std.specs.Prelude.{◌≡◌, false, true, IfNone, IfSome, OnSome};
ghost use Rattle.std.specs.List.{after_first, before_first, list_any};
ghost use Rattle.std.specs.Option.{option_copied};
ghost use Rattle.pl_watch_run.specs.Words.{if_given, is_dash, kind_named, line_number, lines_in, lines_of, look_of, watching};
ghost use Rattle.pl_wiring.specs.SwitchNames.{switch_named};

use crate::words::Asked;
use pl_log_lines::{Kind, Look};
use pl_script::number;
use pl_wiring::{SwitchNo, Wiring};

/// The lines that are shown; none where a switch, a kind or a number is none.
#[tactic(auto, unfolding(crate::specs::Words::look_of))]
pub(crate) fn look_of(asked: &Asked<'_>, wiring: &Wiring) -> Option<Look>
    ensures { result ≡ look_of wiring.now.k (watching asked.now) }
{
    let of = switch_shown(asked.of, wiring)?;
    let kind = kind_shown(asked.kind)?;
    let (first, last) = lines_shown(asked.lines)?;
    Some(Look {
        of,
        kind,
        first,
        last,
        json: asked.json,
    })
}

fn switch_shown(text: Option<&str>, wiring: &Wiring) -> Option<Option<SwitchNo>>
    ensures { result ≡ if_given (switch_named wiring.now.k) (option_copied text.entry) }
{
    match text {
        None => Some(None),
        Some(text) => Some(Some(wiring.switch_named(text)?)),
    }
}

fn kind_shown(text: Option<&str>) -> Option<Option<Kind>>
    ensures { result ≡ if_given kind_named (option_copied text.entry) }
{
    match text {
        None => Some(None),
        Some(text) => Some(Some(Kind::named(text)?)),
    }
}

fn lines_shown(text: Option<&str>) -> Option<(u32, u32)>
    ensures { result ≡ lines_of (option_copied text.entry) }
{
    match text {
        None => Some((0, u32::MAX)),
        Some(text) => lines_in(text),
    }
}

// Two numbers of lines, with `-` between them.
fn lines_in(text: &str) -> Option<(u32, u32)>
    ensures { result ≡ lines_in text.now }
{
    let (first, last) = parted(text)?;
    Some((line_number(first)?, line_number(last)?))
}

// What stands before and behind the first `-`.
#[tactic(auto, using(crate::proofs::Asking::any_before_end, crate::proofs::Asking::none_at_end))]
fn parted(text: &str) -> Option<(&str, &str)>
    ensures found { IfSome result (λ parts. (parts.0.now ≡ before_first is_dash text.now) × (parts.1.now ≡ after_first is_dash text.now)) }
    ensures some { OnSome result (list_any is_dash text.now ≡ true) }
    ensures none { IfNone result (list_any is_dash text.now ≡ false) }
{
    text.split_once('-')
}

fn line_number(text: &str) -> Option<u32>
    ensures { result ≡ line_number text.now }
{
    match number(text, 0, u64::from(u32::MAX)) {
        Ok(n) => Some(n as u32),
        Err(_) => None,
    }
}
