ghost use Rattle.std.specs.Prelude.{◌≡◌, None, is_some, MatchResult};

use mea_base::NoMemory;
use mea_wait::End;
use std::sync::Wait;

/// Ends what there is, and tells whether there was something. It takes no memory.
pub fn end<R: Wait, T: End>(rt: &R, value: Option<T>) -> bool
    ensures { result ≡ is_some value }
{
    match value {
        Some(value) => {
            value.end(rt);
            true
        }
        None => false,
    }
}

/// What a call found; want of memory finds nothing. It takes no memory.
pub fn found<T>(answer: Result<Option<T>, NoMemory>) -> Option<T>
    ensures { MatchResult answer (λ there. result ≡ there) (λ _. result ≡ None) }
{
    match answer {
        Ok(found) => found,
        Err(NoMemory) => None,
    }
}
