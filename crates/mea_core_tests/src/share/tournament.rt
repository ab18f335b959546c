ghost use Rattle.std.specs.Prelude.{◌≡◌, length};

use mea_share_core::{Rank, Tournament};
use std::process::Abort;

// A group that was queued as the one with this number among all that were.
fn rank(group: usize, held: usize, sequence: u64) -> Rank {
    Rank {
        held,
        weight: 1,
        sequence,
        group,
    }
}

// Which group is next.
fn next(groups: &Tournament) -> Option<usize> {
    match groups.next() {
        Some(rank) => Some(rank.group),
        None => None,
    }
}

// A group is vacant where it is not queued, and only there; the next is the one that holds least.
#[test]
fn a_group_is_vacant_until_it_is_queued(rt: HostRuntime) {
    let mut groups = Tournament::new(rt.alloc());
    assert!(rt; groups.grow(rt.alloc(), 2).is_ok() && groups.len() == 2);
    is_vacant_until_it_is_queued(&rt, &mut groups);
}

// Of two groups.
fn is_vacant_until_it_is_queued(rt: &impl Abort, groups: &mut Tournament)
    requires { length groups.old ≡ 2 }
{
    assert!(rt; groups.is_vacant(0) && groups.is_vacant(1) && next(groups).is_none());
    groups.set(1, Some(rank(1, 3, 8)));
    assert!(rt; groups.is_vacant(0) && !groups.is_vacant(1) && next(groups) == Some(1));
    groups.set(0, Some(rank(0, 2, 9)));
    assert!(rt; !groups.is_vacant(0) && next(groups) == Some(0));
    groups.set(0, None);
    assert!(rt; groups.is_vacant(0) && next(groups) == Some(1));
}
