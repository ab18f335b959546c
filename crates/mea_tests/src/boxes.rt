use mea::atomicbox::{AtomicBox, AtomicOptionBox};
use std::process::Abort;
use std::sync::Wait;

// A box with this content.
fn boxed(rt: &(impl Abort + AllocGlobal), content: u64) -> Box<u64> {
    Box::new(rt.alloc(), content).expect(rt, "memory")
}

// Each call of a box once.
#[test]
fn a_box_is_swapped(rt: HostRuntime) {
    let mut shared = AtomicBox::new(boxed(&rt, 1));
    let mut other = boxed(&rt, 3);
    assert!(rt; *shared.swap(&rt, boxed(&rt, 2)) == 1);
    shared.swap_mut(&rt, &mut other);
    assert!(rt; *other == 2);
    shared.store(&rt, boxed(&rt, 4));
    assert!(rt; *shared.get_mut() == 4);
    *shared.get_mut() = 5;
    assert!(rt; *shared.into_inner() == 5);
}

// What is there, which is let go.
fn content(there: Option<Box<u64>>) -> Option<u64> {
    match there {
        Some(content) => Some(*content),
        None => None,
    }
}

// Each call of a box that may be empty once.
#[test]
fn a_box_may_be_empty(rt: HostRuntime) {
    let mut shared = AtomicOptionBox::none();
    is_swapped(&rt, &shared);
    assert!(rt; written(&mut shared) == Some(2));
    assert!(rt; content(shared.take(&rt)) == Some(6));
    shared.store(&rt, None);
    assert!(rt; content(shared.into_inner()).is_none());
    let full = AtomicOptionBox::new(Some(boxed(&rt, 3)));
    assert!(rt; content(full.into_inner()) == Some(3));
}

fn is_swapped<R: Wait + Abort + AllocGlobal>(rt: &R, shared: &AtomicOptionBox<u64>) {
    assert!(rt; content(shared.swap(rt, Some(boxed(rt, 1)))).is_none());
    assert!(rt; content(shared.take(rt)) == Some(1));
    let mut other = Some(boxed(rt, 2));
    shared.swap_mut(rt, &mut other);
    assert!(rt; content(other).is_none());
}

// What who has the whole box finds in it, and writes another value over.
fn written(shared: &mut AtomicOptionBox<u64>) -> Option<u64> {
    match shared.get_mut() {
        Some(content) => {
            let before = *content;
            *content = 6;
            Some(before)
        }
        None => None,
    }
}
