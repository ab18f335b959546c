use mea_chan_core::{BoxCore, OptionBoxCore};
use std::process::Abort;

// A box with this content.
fn boxed(rt: &(impl Abort + AllocGlobal), content: u64) -> Box<u64> {
    Box::new(rt.alloc(), content).expect(rt, "memory")
}

#[test]
fn contents_are_swapped_whole(rt: HostRuntime) {
    are_swapped_whole(&rt, boxed(&rt, 1));
}

fn are_swapped_whole(rt: &(impl Abort + AllocGlobal), content: Box<u64>) {
    let mut cell = BoxCore::new(content);
    assert!(rt; *cell.swap(boxed(rt, 2)) == 1);
    cell.store(boxed(rt, 3));
    *cell.get_mut() = 4;
    let mut other = boxed(rt, 5);
    cell.swap_mut(&mut other);
    assert!(rt; *other == 4);
    assert!(rt; *cell.into_inner() == 5);
}

#[test]
fn a_box_may_be_empty(rt: HostRuntime) {
    may_be_empty(&rt, OptionBoxCore::new(Some(boxed(&rt, 1))));
    takes_another(&rt, OptionBoxCore::none());
}

fn may_be_empty(rt: &(impl Abort + AllocGlobal), mut cell: OptionBoxCore<u64>) {
    assert!(rt; matches!(cell.take(), Some(content) if *content == 1));
    assert!(rt; cell.swap(Some(boxed(rt, 2))).is_none());
    assert!(rt; written(&mut cell) == Some(2));
    assert!(rt; matches!(cell.take(), Some(content) if *content == 6));
    cell.store(None);
    assert!(rt; cell.into_inner().is_none());
}

// What is in the box, which another value is written over.
fn written(cell: &mut OptionBoxCore<u64>) -> Option<u64> {
    match cell.get_mut() {
        Some(content) => {
            let before = *content;
            *content = 6;
            Some(before)
        }
        None => None,
    }
}

fn takes_another(rt: &(impl Abort + AllocGlobal), mut none: OptionBoxCore<u64>) {
    let mut other = Some(boxed(rt, 3));
    none.swap_mut(&mut other);
    assert!(rt; other.is_none());
}
