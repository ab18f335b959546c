ghost use Rattle.std.specs.Prelude.{◌≡◌, cond};

/// What a thing adds to a count of those that are so: 1 where it is, and 0 where it is not.
pub fn one_if(is: bool) -> u128
    ensures { result ≡ cond is 1 0 }
{
    if is { 1 } else { 0 }
}
