use mea::atomicbox::AtomicBox;
use std::alloc::{AllocError, Global};
use std::sync::Wait;
use std::thread;

// Swaps a list with that of the box a hundred times, and pushes a number after each.
fn swaps<R: Wait>(rt: &R, shared: &AtomicBox<Vec<u64>>, own: &mut Box<Vec<u64>>, number: u64) {
    for _ in 0..100u64 {
        shared.swap_mut(rt, own);
        let _ = own.push(number);
    }
}

// How often a number stands in a list.
fn times(list: &[u64], number: u64) -> usize {
    list.iter().filter(|entry| **entry == number).count()
}

// How often a number stands in all of these lists.
fn all_times(lists: &[Box<Vec<u64>>], last: &[u64], number: u64) -> usize {
    let mut all = times(last, number);
    for list in lists {
        all = all.wrapping_add(times(list, number));
    }
    all
}

// So many empty lists.
fn empty_lists(alloc: Global, many: u64) -> Result<Vec<Box<Vec<u64>>>, AllocError> {
    let mut lists = Vec::new(alloc);
    for _ in 0..many {
        lists.push(Box::new(alloc, Vec::new(alloc))?)?;
    }
    Ok(lists)
}

// Nine threads swap their list with that of one box: over all ten lists each number stands a hundred times.
#[test]
fn atomic_threads(rt: HostRuntime) {
    let mut lists = empty_lists(rt.alloc(), 9).expect(&rt, "memory");
    let last = Box::new(rt.alloc(), Vec::new(rt.alloc())).expect(&rt, "memory");
    let shared = AtomicBox::new(last);
    let (rt, of) = (&rt, &shared);
    thread::for_each_mut(
        rt,
        &mut lists,
        9,
        &|i: usize, own: &mut Box<Vec<u64>>| { swaps(rt, of, own, i as u64) },
    );
    let last = shared.into_inner();
    for number in 0..9u64 {
        assert!(rt; all_times(&lists, &last, number) == 100);
    }
}
