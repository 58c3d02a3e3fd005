ghost use Rattle.std.specs.Prelude.{◌-◌, ◌<◌, ◌≤◌, length, take, drop};
ghost use Rattle.pl_verify.specs.Judged.{IsLine};

use memchr::memchr;

/// Where the line that begins at a place ends: behind its newline, or at the end of the text.
pub(crate) fn line_end(text: &[u8], at: usize) -> usize
    requires { at < length text.now }
    ensures further { at < result }
    ensures within { result ≤ length text.now }
    ensures line { IsLine (drop at text.now) (take (result - at) (drop at text.now)) }
{
    match memchr(b'\n', &text[at..]) {
        None => text.len(),
        Some(i) => at + i + 1,
    }
}
