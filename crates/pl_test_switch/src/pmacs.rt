use pl_node::Trap;
use pl_test_words::{first_word, pmac};
use pl_wiring::text::ip;

/// A trap: NEW NUMBER [IP].
pub(crate) fn trap_to(text: &str) -> Option<Trap> {
    let (new, rest) = first_word(text);
    let (number, given) = first_word(rest);
    let new = pmac(new)?;
    let number = number.parse::<u64>().ok()?;
    let ip = ip(given);
    Some(Trap { new, number, ip })
}
