ghost use Rattle.std.specs.Prelude.{◌≡◌, ◌≢◌, ◌≤◌, [], ◌∷◌, false, not, position, IfSome, IfNone, slice_index};
ghost use Rattle.std.specs.List.{position_or_len};
ghost use Rattle.pl_script.specs.Texts.{is_blank, is_hash, before_comment, words_of, words_in};

/// The words of a part of a line, of which no form has more than three. With more of them the last
/// text is what stands behind the fourth.
#[derive(Clone, Copy)]
pub(crate) enum Words<'a> {
    Zero,
    One(&'a str),
    Two(&'a str, &'a str),
    Three(&'a str, &'a str, &'a str),
    More(&'a str, &'a str, &'a str, &'a str, &'a str),
}

impl<'a> Words<'a> {
    pub(crate) fn of(text: &'a str) -> Words<'a>
        ensures { words_in result ≡ words_of text.now }
    {
        let Some((a, rest)) = next_word(text) else {
            return Words::Zero;
        };
        let Some((b, rest)) = next_word(rest) else {
            return Words::One(a);
        };
        let Some((c, rest)) = next_word(rest) else {
            return Words::Two(a, b);
        };
        let Some((d, rest)) = next_word(rest) else {
            return Words::Three(a, b, c);
        };
        Words::More(a, b, c, d, rest)
    }
}

/// The text without its comment.
pub(crate) fn before_comment(text: &str) -> &str
    ensures { result.now ≡ before_comment text.now }
{
    match text.split_once('#') {
        Some((before, _)) => before,
        None => text,
    }
}

/// The first word of a text and what stands behind it.
pub(crate) fn next_word(text: &str) -> Option<(&str, &str)>
    ensures found { IfSome result (λ parts. words_of text.now ≡ parts.0.now ∷ words_of parts.1.now) }
    ensures none { IfNone result (words_of text.now ≡ []) }
{
    let text = without_blanks(text);
    if text.is_empty() {
        return None;
    }
    let end = word_len(text.as_bytes());
    Some((&text[..end], &text[end..]))
}

// The text from its first word on.
fn without_blanks(text: &str) -> &str
    ensures words { words_of result.now ≡ words_of text.now }
    ensures begins { result.now ≢ [] → is_blank (slice_index result.now 0) ≡ false }
{
    let blanks = blank_len(text.as_bytes());
    &text[blanks..]
}

// How many blanks stand first.
#[tactic(auto, using(crate::proofs::WordLemmas::unwrap_or_position))]
fn blank_len(text: &[u8]) -> usize
    ensures { result ≡ position_or_len (λ byte. not (is_blank byte)) text.now }
{
    first_other(text).unwrap_or(text.len())
}

// How many bytes stand before the first blank.
#[tactic(auto, using(crate::proofs::WordLemmas::unwrap_or_position))]
fn word_len(text: &[u8]) -> usize
    ensures { result ≡ position_or_len is_blank text.now }
{
    first_blank(text).unwrap_or(text.len())
}

// Where the first byte stands that is no blank.
fn first_other(text: &[u8]) -> Option<usize>
    ensures { result ≡ position (λ byte. not (is_blank byte)) text.now }
{
    text.iter().position(|byte| !is_blank(*byte))
}

// Where the first blank stands.
fn first_blank(text: &[u8]) -> Option<usize>
    ensures { result ≡ position is_blank text.now }
{
    text.iter().position(|byte| is_blank(*byte))
}

fn is_blank(byte: u8) -> bool
    ensures { result ≡ is_blank byte }
{
    byte == b' ' || byte == b'\t'
}
