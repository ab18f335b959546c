use mea_by_name::NameHasher;
use std::hash::BuildHasher;

// As many names as 64 groups of a table hold on average, nine in each, at even steps: how many fall on the group that has
// most of them. A group has twelve places.
fn most_at_one_place(step: u64) -> u32 {
    let mut places = [0u32; 64];
    let mut name = 0u64;
    for _ in 0..576 {
        let place = (NameHasher::new().hash_one(name) % 64) as usize;
        places[place] = places[place].saturating_add(1);
        name = name.wrapping_add(step);
    }
    places.iter().copied().max().unwrap_or(0)
}

#[test]
fn names_at_even_steps_fill_a_table_evenly(rt: HostRuntime) {
    for power in 0..17u32 {
        assert!(rt; most_at_one_place(1 << power) <= 12);
    }
}

#[test]
fn names_that_follow_each_other_lie_side_by_side(rt: HostRuntime) {
    let hasher = NameHasher::new();
    for name in 0..4u64 {
        assert_eq!(rt; hasher.hash_one(name) % 64, 0);
        assert_eq!(rt; hasher.hash_one(4 + name) % 64, 1);
    }
}
