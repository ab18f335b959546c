ghost use Rattle.std.specs.Prelude.{◌≡◌, ◌<◌, ◌==◌, length, position, IfSome};
ghost use Rattle.std.specs.Option.{option_map};
ghost use Rattle.std.specs.Str.{bytes_eq};
ghost use Rattle.mea_text.specs.Words.{cut};

use memchr::memchr_iter;

/// Whether a word is this one. It is looked up among words that are known where the program is built, so that each test
/// is of a length and of a byte or more, and no call.
#[inline(always)]
#[tactic(auto, using(crate::proofs::Tables::of_other_length))]
pub fn is(word: &[u8], own: &[u8]) -> bool
    ensures { result ≡ bytes_eq word.now own.now }
{
    if word.len() != own.len() {
        return false;
    }
    for i in 0..own.len() {
        if word[i] != own[i] {
            return false;
        }
    }
    true
}

/// What stands before and after the first such byte, if there is one. It takes no memory.
pub fn cut(bytes: &[u8], byte: u8) -> Option<(&[u8], &[u8])>
    ensures { option_map (λ parts. (parts.0.now, parts.1.now)) result ≡ cut byte bytes.now }
{
    match place_of(bytes, byte) {
        None => None,
        Some(at) => Some((&bytes[..at], &bytes[at + 1..])),
    }
}

// It stands apart, since what a caller makes of the place would be made ready at each byte.
#[inline(never)]
fn place_of(bytes: &[u8], byte: u8) -> Option<usize>
    ensures place { result ≡ position (λ b. b == byte) bytes.now }
    ensures within { IfSome result (λ at. at < length bytes.now) }
{
    bytes.iter().position(|b| *b == byte)
}

/// What stands before and after the first newline, if there is one, by a search that is fast among many lines. It takes
/// no memory.
pub fn cut_line(bytes: &[u8]) -> Option<(&[u8], &[u8])>
    ensures { option_map (λ parts. (parts.0.now, parts.1.now)) result ≡ cut 10 bytes.now }
{
    match newline_of(bytes) {
        None => None,
        Some(at) => Some((&bytes[..at], &bytes[at + 1..])),
    }
}

// A line is short, and the search by places looks at 32 bytes first, where the other looks at 64.
fn newline_of(bytes: &[u8]) -> Option<usize>
    ensures place { result ≡ position (λ b. b == 10) bytes.now }
    ensures within { IfSome result (λ at. at < length bytes.now) }
{
    let mut places = memchr_iter(b'\n', bytes);
    places.next()
}
