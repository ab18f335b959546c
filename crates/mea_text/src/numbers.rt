ghost use Rattle.std.specs.Prelude.{◌≡◌};
ghost use Rattle.mea_text.specs.Words.{numbers_of, two_or_three};

use crate::number::{first_number, number_of};

/// The numbers after the word of a line.
#[derive(Clone, Copy)]
pub enum Numbers {
    Bare,
    One(u64),
    Two(u64, u64),
    Three(u64, u64, u64),
}

/// The numbers that bytes spell, with one space between each two: one, two or three.
#[tactic(auto, using(crate::proofs::Firsts::through_first))]
pub fn numbers_of(bytes: &[u8]) -> Option<Numbers>
    ensures { result ≡ numbers_of bytes.now }
{
    match first_number(bytes)? {
        (first, None) => Some(Numbers::One(first)),
        (first, Some(rest)) => two_or_three(first, rest),
    }
}

/// A number and those that bytes spell, one or two.
#[tactic(auto, using(crate::proofs::Firsts::through_first))]
fn two_or_three(first: u64, bytes: &[u8]) -> Option<Numbers>
    ensures { result ≡ two_or_three first bytes.now }
{
    match first_number(bytes)? {
        (second, None) => Some(Numbers::Two(first, second)),
        (second, Some(rest)) => Some(Numbers::Three(first, second, number_of(rest)?)),
    }
}
