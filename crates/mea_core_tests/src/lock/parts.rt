ghost use Rattle.std.specs.Prelude.{Some, refl, slice_get};
ghost use Rattle.std.specs.Vec.{with_item};

use mea_lock_core::{Part, Then, with_part, with_part_mut};

// A name and a list of counts.
#[derive(Drop)]
struct Tally {
    name: u8,
    counts: Vec<u64>,
}

// The counts of a tally.
#[derive(Clone, Copy)]
struct Counts;

impl Part<Tally> for Counts {
    ghost use Rattle.mea_core_tests.specs.FirstItem.{same_value};

    type Out = Vec<u64>;

    ghost get = { λ p x. Some x.counts };

    ghost put = { λ p x y. record x { counts = y } };

    fn part<'a>(&self, whole: &'a Tally) -> Option<&'a Vec<u64>>
    where
        Self: 'a,
    {
        Some(&whole.counts)
    }

    fn part_mut<'a>(whole: &'a mut Tally, _part: &Self) -> Option<&'a mut Vec<u64>>
    where
        Self: 'a,
    {
        Some(&mut whole.counts)
    }

    ghost stays = { λ p x y h. refl };

    ghost rests = { λ p x y h. λ i. record x { counts = same_value x.counts y h i } };
}

// The first item of a list.
#[derive(Clone, Copy)]
struct First;

impl<T> Part<Vec<T>> for First {
    ghost use Rattle.mea_core_tests.specs.FirstItem.{first_stays, first_rests};

    type Out = T;

    ghost get = { λ p x. slice_get x.items 0 };

    ghost put = { λ p x y. with_item x 0 y };

    fn part<'a>(&self, whole: &'a Vec<T>) -> Option<&'a T>
    where
        Self: 'a,
    {
        whole.first()
    }

    fn part_mut<'a>(whole: &'a mut Vec<T>, _part: &Self) -> Option<&'a mut T>
    where
        Self: 'a,
    {
        whole.first_mut()
    }

    ghost stays = { λ p x y h. first_stays x.items y h };

    ghost rests = { λ p x y h. first_rests x y h };
}

// The first count of a tally.
const FIRST_COUNT: Then<Counts, First> = Then {
    first: Counts,
    second: First,
};

fn first_of(tally: &Tally) -> Option<u64> {
    with_part(tally, &FIRST_COUNT, |n: &u64| *n)
}

fn length_of(tally: &Tally) -> Option<usize> {
    with_part(tally, &Counts, |list: &Vec<u64>| list.len())
}

// Writes the first count, and tells what it was.
fn set_first(tally: &mut Tally, to: u64) -> Option<u64> {
    with_part_mut(tally, &FIRST_COUNT, |n: &mut u64| {
        let old = *n;
        *n = to;
        old
    })
}

// A part is read and written where it is there, and nothing happens where it is not.
#[test]
fn parts(rt: HostRuntime) {
    let mut tally = Tally {
        name: 1,
        counts: Vec::new(rt.alloc()),
    };
    assert!(rt; first_of(&tally).is_none() && length_of(&tally) == Some(0));
    assert!(rt; set_first(&mut tally, 7).is_none());
    tally.counts.push(5).expect(&rt, "memory");
    assert!(rt; first_of(&tally) == Some(5) && length_of(&tally) == Some(1));
    assert!(rt; set_first(&mut tally, 7) == Some(5));
    assert!(rt; first_of(&tally) == Some(7) && length_of(&tally) == Some(1));
    assert!(rt; set_first(&mut tally, 7) == Some(7));
    assert_eq!(rt; tally.name, 1);
}
