use mea_base::Poll;
use mea_meet_core::{LatchCore, LatchWait};

// A server starts once its three parts are up. Whoever waits for it may give up before.
#[test]
fn a_latch_at_start_up(rt: HostRuntime) {
    let mut parts: LatchCore<u64> = LatchCore::new(rt.alloc(), 3);
    let mut server = LatchWait::new();
    let mut impatient = LatchWait::new();
    assert!(rt; matches!(parts.poll_checked(&mut server, 10), Ok(Poll::Pending)));
    assert!(rt; matches!(parts.poll_checked(&mut impatient, 11), Ok(Poll::Pending)));
    parts.count_down();
    parts.end_checked(impatient);
    parts.arrive(2);
    assert_eq!(rt; parts.next_wake(), Some(10));
    assert!(rt; matches!(parts.poll_checked(&mut server, 10), Ok(Poll::Ready(()))));
}
