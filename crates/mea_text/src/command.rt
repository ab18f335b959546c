ghost use Rattle.std.specs.Prelude.{◌≡◌, ◌↔◌, ℕ, Some, map, string_bytes};
ghost use Rattle.mea_text.specs.declared.numbers.Numbers.{Numbers as Listed};
ghost use Rattle.mea_text.specs.Command.{IsCommand, IsSpelled, numbers_in, numbers_after, two_of};

use crate::number::number_of;
use crate::numbers::Numbers;

/// The two numbers of a command, where its words are this name and two numbers, each in its one spelling. It takes
/// no memory.
pub fn numbers_of_command(name: &[u8], words: &[String]) -> Option<(u64, u64)>
    ensures { (first second : ℕ) → (result ≡ Some (first, second)) ↔ IsCommand name.now (map string_bytes words.now) first second }
{
    two_of(command_numbers(name, words))
}

/// The two numbers, where there are two.
fn two_of(numbers: Option<Numbers>) -> Option<(u64, u64)>
    ensures { result ≡ two_of numbers }
{
    match numbers {
        Some(Numbers::Two(first, second)) => Some((first, second)),
        _ => None,
    }
}

/// The numbers of a command, where its words are this name and at most three numbers, each in its one spelling. It
/// takes no memory.
pub fn command_numbers(name: &[u8], words: &[String]) -> Option<Numbers>
    ensures { (numbers : Listed) → (result ≡ Some numbers) ↔ IsSpelled name.now (map string_bytes words.now) numbers }
{
    match words {
        [word, numbers @ ..] => numbers_after(name, word.as_bytes(), numbers),
        [] => None,
    }
}

fn numbers_after(name: &[u8], word: &[u8], words: &[String]) -> Option<Numbers>
    ensures { result ≡ numbers_after name.now word.now (map string_bytes words.now) }
{
    if word != name {
        return None;
    }
    numbers_in(words)
}

/// The numbers that words spell, at most three.
fn numbers_in(words: &[String]) -> Option<Numbers>
    ensures { result ≡ numbers_in (map string_bytes words.now) }
{
    match words {
        [] => Some(Numbers::Bare),
        [first] => Some(Numbers::One(number_of(first.as_bytes())?)),
        [first, second] => {
            let first = number_of(first.as_bytes())?;
            Some(Numbers::Two(first, number_of(second.as_bytes())?))
        }
        [first, second, third] => {
            let first = number_of(first.as_bytes())?;
            let second = number_of(second.as_bytes())?;
            Some(Numbers::Three(first, second, number_of(third.as_bytes())?))
        }
        _ => None,
    }
}
