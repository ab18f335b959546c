use mea::atomicbox::{AtomicBox, AtomicOptionBox};
use std::test::Fail;

// The limits of a service are replaced whole, and who replaces them has the old ones.
#[test]
fn limits_in_a_box(rt: HostRuntime) -> Result<(), Fail> {
    let limits = AtomicBox::new(Box::new(rt.alloc(), (10u64, 1u64))?);
    let before = limits.swap(&rt, Box::new(rt.alloc(), (20, 2))?);
    assert!(rt; *before == (10, 1));
    assert!(rt; *limits.into_inner() == (20, 2));
    Ok(())
}

// The newest reading of a gauge: one that nobody took is overwritten, and each is taken once.
#[test]
fn the_newest_reading(rt: HostRuntime) -> Result<(), Fail> {
    let newest: AtomicOptionBox<u64> = AtomicOptionBox::none();
    newest.store(&rt, Some(Box::new(rt.alloc(), 17)?));
    newest.store(&rt, Some(Box::new(rt.alloc(), 18)?));
    assert!(rt; matches!(newest.take(&rt), Some(reading) if *reading == 18));
    assert!(rt; newest.take(&rt).is_none());
    Ok(())
}
