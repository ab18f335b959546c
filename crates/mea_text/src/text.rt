ghost use Rattle.std.specs.Prelude.{◌≡◌, ◌++◌, ◌∷◌, take, length, OnOk, OnErr};
ghost use Rattle.mea_text.specs.Text.{number_text, counted_line};

use itoa::Buffer;
use mea_base::NoMemory;

/// Appends a space and a number in decimal. On an error nothing has changed.
#[inline(always)]
#[tactic(auto, using(std::proofs::lemmas::Fmt::decimal_digit))]
pub fn put_number(out: &mut Vec<u8>, n: u64) -> Result<(), NoMemory>
    ensures ok { OnOk result (out.new.items ≡ out.old.items ++ number_text n) }
    ensures err { OnErr result (out.new.items ≡ out.old.items) }
{
    if n < 10 {
        return put_text(out, &[b' ', b'0' + n as u8]);
    }
    put_long_number(out, n)
}

// Appends a space and a number of any length in decimal. On an error nothing has changed.
#[inline(never)]
fn put_long_number(out: &mut Vec<u8>, n: u64) -> Result<(), NoMemory>
    ensures ok { OnOk result (out.new.items ≡ out.old.items ++ number_text n) }
    ensures err { OnErr result (out.new.items ≡ out.old.items) }
{
    let mut digits = Buffer::new();
    put_digits(out, digits.format(n).as_bytes())
}

// Appends a space and digits. On an error nothing has changed.
fn put_digits(out: &mut Vec<u8>, digits: &[u8]) -> Result<(), NoMemory>
    ensures ok { OnOk result (out.new.items ≡ out.old.items ++ 32 ∷ digits.now) }
    ensures err { OnErr result (out.new.items ≡ out.old.items) }
{
    let start = out.len();
    put_text(out, b" ")?;
    let put = put_text(out, digits);
    if put.is_err() {
        out.truncate(start);
    }
    put
}

/// Appends a space and a total in decimal, as an account has them. On an error nothing has changed.
pub fn put_total(out: &mut Vec<u8>, n: u128) -> Result<(), NoMemory>
    ensures ok { OnOk result (out.new.items ≡ out.old.items ++ number_text n) }
    ensures err { OnErr result (out.new.items ≡ out.old.items) }
{
    let mut digits = Buffer::new();
    put_digits(out, digits.format(n).as_bytes())
}

/// Appends a text. On an error nothing has changed.
pub fn put_text(out: &mut Vec<u8>, text: &[u8]) -> Result<(), NoMemory>
    ensures ok { OnOk result (out.new.items ≡ out.old.items ++ text.now) }
    ensures err { OnErr result (out.new.items ≡ out.old.items) }
{
    out.extend_from_slice(text)?;
    Ok(())
}

/// Appends a line of a word and a number. It may leave a front of it where there was no memory.
#[tactic(auto, using(crate::proofs::Puts::kept_before))]
pub fn put_line(text: &mut Vec<u8>, word: &[u8], n: u64) -> Result<(), NoMemory>
    ensures ok { OnOk result (text.new.items ≡ text.old.items ++ counted_line word.now n) }
    ensures kept { take (length text.old.items) text.new.items ≡ text.old.items }
{
    put_text(text, word)?;
    put_number(text, n)?;
    put_text(text, b"\n")
}
