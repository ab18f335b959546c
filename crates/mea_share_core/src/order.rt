ghost use Rattle.std.specs.Prelude.{◌≡◌};
ghost use Rattle.mea_share_core.specs.Rank.{is_before, lesser};

use crate::rank::Rank;

// Whether the first is admitted before the second: it holds less for its weight, or as much and waits longer.
fn is_before(first: &Rank, second: &Rank) -> bool
    ensures { result ≡ is_before first.now second.now }
{
    let ours = first.held as u128 * second.weight as u128;
    let theirs = second.held as u128 * first.weight as u128;
    ours < theirs || ours == theirs && first.sequence < second.sequence
}

// The one that is admitted before the other, where there is one.
pub(crate) fn lesser(first: Option<Rank>, second: Option<Rank>) -> Option<Rank>
    ensures { result ≡ lesser first second }
{
    match (first, second) {
        (Some(one), Some(other)) => if is_before(&other, &one) {
            second
        } else {
            first
        },
        (None, _) => second,
        (_, None) => first,
    }
}
