ghost use Rattle.std.specs.Prelude.{IsSome};

use futures::executor::block_on;
use futures::future::{Either, join, pending, ready, select};
use futures::stream::iter;
use futures::{Future, StreamExt};
use mea::mpsc::bounded;
use mea::semaphore::Semaphore;
use mea_futures::{Acquiring, Bell, Feeding, Kept, Receives, Receiving, feed, receive, wait};
use std::alloc::AllocGlobal;
use std::io;
use std::process::Abort;
use std::random::RandomSource;
use std::sync::{Arc, Wait};

// One task sends the numbers from 1 to 9 while another adds them up. The channel has room for two.
#[test]
fn a_sum_over_a_channel(rt: HostRuntime) {
    let (sender, receiver) = bounded::<u64, Bell>(rt.alloc(), 2).expect(&rt, "memory");
    let sender = Kept::new(&rt, sender);
    let sink = feed(&rt, rt.alloc(), sender.get()).expect(&rt, "memory");
    let numbers = receive(&rt, rt.alloc(), receiver).expect(&rt, "memory");
    assert!(rt; matches!(sum(&rt, sink, numbers), Ok(45)));
}

// The sink borrows its sender, which lives on, so who adds up takes as many as are sent.
fn sum<R: Wait + RandomSource + AllocGlobal, C: Receives<u64>>(
    rt: &R,
    sink: Feeding<'_, R, u64>,
    numbers: Receiving<'_, R, C, u64>,
) -> io::Result<u64> {
    let sends = iter(1..10u64).map(Ok).forward(sink);
    let adds = numbers
        .take(9)
        .fold(0u64, |sum, number| ready(sum.wrapping_add(number)));
    let (_sink, sum) = block_on(rt, join(sends, adds))?;
    Ok(sum)
}

// A wait for one permit, which owns a share of its semaphore.
fn acquire<'a, R: Wait + AllocGlobal + Abort>(
    rt: &'a R,
    semaphore: &Arc<Semaphore<Bell>>,
) -> Acquiring<'a, R>
    ensures { IsSome result.waiting.wait }
{
    let share = Arc::try_clone(semaphore).expect(rt, "memory");
    wait(rt, rt.alloc(), share.acquire_owned(1))
        .expect(rt, "memory")
        .try_holding()
}

// A copy takes a permit of the disk it reads and one of the disk it writes. Both go back where they are dropped.
#[test]
fn permits_of_two_disks(rt: HostRuntime) {
    let source = Arc::new(rt.alloc(), Semaphore::new(rt.alloc(), 1)).expect(&rt, "memory");
    let target = Arc::new(rt.alloc(), Semaphore::new(rt.alloc(), 1)).expect(&rt, "memory");
    let copied = both(&rt, acquire(&rt, &source), acquire(&rt, &target), || {
        source.available_permits(&rt) == 0 && target.available_permits(&rt) == 0
    });
    assert!(rt; matches!(copied, Ok(true)));
    assert!(rt; source.available_permits(&rt) == 1 && target.available_permits(&rt) == 1);
}

// Does the work with what both futures give, which is dropped after it.
fn both<R: Wait + RandomSource + AllocGlobal, F: Future, G: Future, W: FnOnce() -> bool>(
    rt: &R,
    first: F,
    second: G,
    work: W,
) -> io::Result<bool>
where
    F::Output: Drop,
    G::Output: Drop,
    requires first { F.can_poll first }
    requires second { G.can_poll second }
    requires work { W.IsAlwaysCallable work }
{
    let _permits = block_on(rt, join(first, second))?;
    Ok(work())
}

// What a wait comes to before its deadline. One that is late is dropped, and so ended.
fn before<R: Wait + RandomSource + AllocGlobal, F: Future, D: Future<Output = ()>>(
    rt: &R,
    wait: F,
    deadline: D,
) -> io::Result<Option<F::Output>>
    requires wait { F.can_poll wait }
    requires deadline { D.can_poll deadline }
{
    match block_on(rt, select(wait, deadline))? {
        Either::Left((output, _deadline)) => Ok(Some(output)),
        Either::Right(((), _wait)) => Ok(None),
    }
}

// Whether a deadline was kept. What came before it is dropped.
fn is_kept<O: Drop>(answer: io::Result<Option<O>>) -> bool {
    matches!(answer, Ok(Some(_)))
}

// A permit that is free comes before any deadline; one that is not is given up at the deadline.
#[test]
fn a_wait_with_a_deadline(rt: HostRuntime) {
    let semaphore = Arc::new(rt.alloc(), Semaphore::new(rt.alloc(), 1)).expect(&rt, "memory");
    assert!(rt; is_kept(before(&rt, acquire(&rt, &semaphore), pending())));
    let taken = semaphore.try_acquire_and_forget(&rt, 1);
    assert!(rt; taken && !is_kept(before(&rt, acquire(&rt, &semaphore), ready(()))));
    // Nobody waits any more: what is released is free.
    assert!(rt; semaphore.release(&rt, 1).is_ok());
    assert!(rt; semaphore.available_permits(&rt) == 1);
}
