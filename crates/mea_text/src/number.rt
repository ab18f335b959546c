ghost use Rattle.std.specs.Prelude.{◌≡◌, ◌^◌, ◌<◌, true};
ghost use Rattle.std.specs.Option.{SomeIff, option_map};
ghost use Rattle.std.specs.Str.{all_ascii_digits};
ghost use Rattle.std.specs.Str.Parse.{digits_value};
ghost use Rattle.mea_text.specs.Number.{number_of, count_of};
ghost use Rattle.mea_text.specs.Words.{before_space, place_of_space, first_number};

/// The number that bytes spell: digits with no leading zero.
#[tactic(auto, using(crate::proofs::Firsts::number_is_whole))]
pub fn number_of(bytes: &[u8]) -> Option<u64>
    ensures { result ≡ number_of bytes.now }
{
    match first_number(bytes) {
        Some((number, None)) => Some(number),
        _ => None,
    }
}

/// The number, if it is a count: below 2 ^ 32.
pub fn count_of(n: u64) -> Option<u32>
    ensures { result ≡ count_of n }
{
    u32::try_from(n).ok()
}

/// The number that bytes spell up to their first space, or to their end, and what stands after that space. Each byte
/// is looked at once.
pub fn first_number(bytes: &[u8]) -> Option<(u64, Option<&[u8]>)>
    ensures { option_map (λ first. (first.0, option_map (λ rest. rest.now) first.1)) result ≡ first_number bytes.now }
{
    let (value, digits) = digits_of(bytes)?;
    if digits == 0 || (bytes[0] == b'0' && digits > 1) {
        return None;
    }
    if digits < bytes.len() {
        Some((value, Some(&bytes[digits + 1..])))
    } else {
        Some((value, None))
    }
}

/// What the digits before the first space, or all, stand for, and how many they are, where no other byte stands there
/// and the value fits.
fn digits_of(bytes: &[u8]) -> Option<(u64, usize)>
    ensures { SomeIff result ((all_ascii_digits (before_space bytes.now) ≡ true) × (digits_value 10 (before_space bytes.now) < 2 ^ 64)) (digits_value 10 (before_space bytes.now), place_of_space bytes.now) }
{
    let mut value: u64 = 0;
    let mut digits: usize = 0;
    for byte in bytes {
        if !byte.is_ascii_digit() {
            if *byte == b' ' {
                break;
            }
            return None;
        }
        let digit = u64::from(*byte - b'0');
        value = value.checked_mul(10)?.checked_add(digit)?;
        digits += 1;
    }
    Some((value, digits))
}
