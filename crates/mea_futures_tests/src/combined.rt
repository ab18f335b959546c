ghost use Rattle.std.specs.Prelude.{◌≡◌, IsSomeAnd};

use crate::polls::rests;
use futures::Future;
use futures::future::{Either, Pending, Select, pending, ready, select};
use futures::task::{Context, Poll};
use futures::test::MockTask;
use mea_futures::{Bell, Kept, TakeError, block, block_before, take, take_before, wait};
use mea_link::shutdown::{ShutdownSend, new_pair};
use mea_sync::mutex::Mutex;
use mea_sync::semaphore::Semaphore;
use mea_wait::{End, PollFault, Polled, Unpolled, Waits};
use std::alloc::AllocGlobal;
use std::io;
use std::ops::DerefMut;
use std::process::Abort;
use std::random::RandomSource;
use std::sync::Wait;

// Permits are taken by a thread that waits, and not past a deadline or a close.
#[test]
fn permits_are_taken(rt: HostRuntime) {
    are_taken(&rt, &Semaphore::new(rt.alloc(), 2));
}

fn are_taken<R: Wait + RandomSource + AllocGlobal + Abort>(rt: &R, semaphore: &Semaphore<Bell>) {
    let kept = granted(take(rt, semaphore, 2)).expect(rt, "permits");
    assert!(rt; kept.get().permits() == 2 && semaphore.available_permits(rt) == 0);
    assert!(rt; is_late(take_before(rt, semaphore, 1, ready(()))));
    drop(kept);
    are_given_back(rt, semaphore);
}

fn are_given_back<R: Wait + RandomSource + AllocGlobal + Abort>(
    rt: &R,
    semaphore: &Semaphore<Bell>,
) {
    assert!(rt; semaphore.available_permits(rt) == 2);
    assert!(rt; is_in_time(take_before(rt, semaphore, 1, ready(()))));
    semaphore.close(rt);
    assert!(rt; is_closed(take(rt, semaphore, 1)));
}

// What was waited for, if it came to that.
fn granted<P: Drop, E: Drop>(answer: io::Result<Result<P, E>>) -> Option<P> {
    match answer {
        Ok(Ok(granted)) => Some(granted),
        Ok(Err(_)) | Err(_) => None,
    }
}

// A wait on this thread is one line, for any wait of the library.
#[test]
fn a_wait_is_one_line(rt: HostRuntime) {
    let mutex = Mutex::new(rt.alloc(), 6u64);
    writes(&rt, mutex.lock(), (mutex.lock(), mutex.lock()), 7);
    assert!(rt; mutex.into_inner() == Some(7));
}

// Writes by the guard that a wait gives. Of two further waits one is late while the guard is there, and one is not after it.
fn writes<
    R: Wait + RandomSource + AllocGlobal + Abort,
    F: Waits<Bell, G>,
    G: End + DerefMut<Target = u64>,
>(rt: &R, lock: F, further: (F, F), value: u64)
    requires lock { F.can_poll lock }
    requires late { F.can_poll further.0 }
    requires after { F.can_poll further.1 }
{
    let (late, after) = further;
    let mut guard = block(rt, lock).expect(rt, "a guard");
    *guard = value;
    assert!(rt; !ends(rt, block_before(rt, late, ready(()))));
    guard.end(rt);
    assert!(rt; ends(rt, block_before(rt, after, ready(()))));
}

// A wait that is refused at each poll.
struct Refused;

impl End for Refused {
    fn end<R: Wait>(self, _rt: &R) {
        let Refused = self;
    }
}

impl Waits<Bell, ()> for Refused {
    fn poll<R: Wait>(self, _rt: &R, waker: Bell) -> Result<Polled<Self, ()>, Unpolled<Self, Bell>> {
        Err(Unpolled::no_memory(self, waker))
    }
}

// A wait that is refused is an error, and not one that came too late.
#[test]
fn a_refused_wait_is_an_error(rt: HostRuntime) {
    assert!(rt; block(&rt, Refused).is_err());
    assert!(rt; block_before(&rt, Refused, ready(())).is_err());
}

// Ends what a wait gave before its deadline. Whether it gave anything.
fn ends<R: Wait, P: End>(rt: &R, given: io::Result<Option<P>>) -> bool {
    match given {
        Ok(Some(given)) => {
            given.end(rt);
            true
        }
        Ok(None) | Err(_) => false,
    }
}

// Whether the deadline came before the permits.
fn is_late<P: Drop>(taken: io::Result<Result<Option<P>, TakeError>>) -> bool {
    matches!(taken, Ok(Ok(None)))
}

// Whether the permits came before the deadline. They are dropped.
fn is_in_time<P: Drop>(taken: io::Result<Result<Option<P>, TakeError>>) -> bool {
    matches!(taken, Ok(Ok(Some(_))))
}

// Whether there are no permits since the semaphore is closed.
fn is_closed<P: Drop>(taken: io::Result<Result<P, TakeError>>) -> bool {
    matches!(taken, Ok(Err(TakeError::Closed)))
}

// A job that is done at its second poll, or one that is never done and wakes nobody.
#[derive(Drop)]
struct Nap {
    is_endless: bool,
    is_begun: bool,
    never: Pending<()>,
}

impl Nap {
    fn new(is_endless: bool) -> Self {
        Nap {
            is_endless,
            is_begun: false,
            never: pending(),
        }
    }
}

impl Future for Nap {
    type Output = ();

    fn poll(&mut self, cx: &mut Context<'_>) -> Poll<()> {
        if self.is_endless {
            return self.never.poll(cx);
        }
        if self.is_begun {
            return Poll::Ready(());
        }
        self.is_begun = true;
        cx.yield_now()
    }
}

// Does one job after another until its wait is over, and tells how many. The wait is kept: each select hands it back.
#[derive(Drop)]
struct Until<F: Future> {
    next: Select<F, Nap>,
    done: u64,
}

impl<F: Future> Until<F> {
    fn new(wait: F) -> Self
        requires { F.can_poll wait }
        ensures { IsSomeAnd result.next.inner (λ both. both.0 ≡ wait) }
    {
        Until {
            next: select(wait, Nap::new(false)),
            done: 0,
        }
    }
}

impl<F: Future<Output = Result<(), PollFault>>> Future for Until<F> {
    type Output = u64;

    ghost can_poll = { λ until. IsSomeAnd until.next.inner (λ both. F.can_poll both.0) };

    fn poll(&mut self, cx: &mut Context<'_>) -> Poll<u64> {
        match self.next.poll(cx) {
            Poll::Ready(Either::Left((_, _nap))) => Poll::Ready(self.done),
            Poll::Ready(Either::Right(((), wait))) => {
                self.done = self.done.wrapping_add(1);
                self.next = select(wait, Nap::new(self.done == 2));
                cx.yield_now()
            }
            Poll::Pending => Poll::Pending,
        }
    }
}

// A wait goes from select to select, and the task still hears of it: two jobs are done, and a third never ends.
#[test]
fn a_wait_is_kept_from_select_to_select(rt: HostRuntime) {
    let (stopper, stopped) = new_pair(rt.alloc()).expect(&rt, "memory");
    let (stopper, stopped) = (Kept::new(&rt, stopper), Kept::new(&rt, stopped));
    let signal = stopped.get().is_shutdown_owned().expect(&rt, "memory");
    is_kept(&rt, stopper.get(), signal);
}

fn is_kept<R: Wait + RandomSource + AllocGlobal + Abort, F: Waits<Bell, ()>>(
    rt: &R,
    stopper: &ShutdownSend<Bell>,
    signal: F,
)
    requires { F.can_poll signal }
{
    let signal = wait(rt, rt.alloc(), signal).expect(rt, "memory");
    let task = MockTask::new(rt).expect(rt, "memory");
    goes_on(rt, &task, stopper, Until::new(signal));
}

fn goes_on<R: Wait + Abort, F: Future<Output = u64>>(
    rt: &R,
    task: &MockTask,
    stopper: &ShutdownSend<Bell>,
    mut until: F,
)
    requires { F.can_poll until }
{
    assert!(rt; rests(task, &mut until) && rests(task, &mut until));
    assert!(rt; rests(task, &mut until) && rests(task, &mut until));
    assert!(rt; rests(task, &mut until) && !task.is_woken());
    stopper.shutdown(rt);
    assert!(rt; task.is_woken() && matches!(task.poll(&mut until), Poll::Ready(2)));
}
