use crate::polls::rests;
use futures::task::{Context, Poll};
use futures::test::MockTask;
use futures::{Future, Stream};
use mea_futures::{Bell, Kept, Receives, receive, wait};
use mea_link::mpsc::{UnboundedSender, unbounded};
use mea_link::shutdown::{ShutdownSend, new_pair};
use mea_wait::{PollFault, Waits};
use std::alloc::AllocGlobal;
use std::process::Abort;
use std::random::RandomSource;
use std::sync::Wait;

// Adds up its jobs until it is told to stop. The wait for the signal is kept from poll to poll: one for each job would take
// the shutdown's lock twice for each.
#[derive(Drop)]
struct Supervisor<S, J> {
    stop: S,
    jobs: J,
    sum: u64,
}

impl<S: Future<Output = Result<(), PollFault>>, J: Stream<Item = u64>> Future for Supervisor<S, J> {
    type Output = u64;

    ghost can_poll = { λ s. S.can_poll s.stop × J.can_poll s.jobs };

    fn poll(&mut self, cx: &mut Context<'_>) -> Poll<u64> {
        match self.stop.poll(cx) {
            Poll::Ready(_) => return Poll::Ready(self.sum),
            Poll::Pending => {}
        }
        match self.jobs.poll_next(cx) {
            Poll::Ready(Some(job)) => {
                self.sum = self.sum.wrapping_add(job);
                cx.yield_now()
            }
            Poll::Ready(None) => Poll::Ready(self.sum),
            Poll::Pending => Poll::Pending,
        }
    }
}

// A supervisor works at what comes, rests, and stops at the signal.
#[test]
fn a_supervisor_stops_at_the_signal(rt: HostRuntime) {
    let (stopper, stopped) = new_pair(rt.alloc()).expect(&rt, "memory");
    let (stopper, stopped) = (Kept::new(&rt, stopper), Kept::new(&rt, stopped));
    let (sender, receiver) = unbounded::<u64, Bell>(rt.alloc()).expect(&rt, "memory");
    let sender = Kept::new(&rt, sender);
    let signal = stopped.get().is_shutdown_owned().expect(&rt, "memory");
    supervises(&rt, sender.get(), stopper.get(), signal, receiver);
}

// A supervisor of these jobs, until this signal.
fn supervises<R: Wait + RandomSource + AllocGlobal + Abort, F: Waits<Bell, ()>, C: Receives<u64>>(
    rt: &R,
    sender: &UnboundedSender<u64, Bell>,
    stopper: &ShutdownSend<Bell>,
    signal: F,
    jobs: C,
)
    requires { F.can_poll signal }
{
    let jobs = receive(rt, rt.alloc(), jobs).expect(rt, "memory");
    let stop = wait(rt, rt.alloc(), signal).expect(rt, "memory");
    let task = MockTask::new(rt).expect(rt, "memory");
    stops_at_the_signal(
        rt,
        &task,
        sender,
        stopper,
        Supervisor { stop, jobs, sum: 0 },
    );
}

fn stops_at_the_signal<R: Wait + Abort, F: Future<Output = u64>>(
    rt: &R,
    task: &MockTask,
    sender: &UnboundedSender<u64, Bell>,
    stopper: &ShutdownSend<Bell>,
    mut supervisor: F,
)
    requires { F.can_poll supervisor }
{
    assert!(rt; rests(task, &mut supervisor) && !task.is_woken());
    assert!(rt; sender.send(rt, 5).is_ok() && task.is_woken());
    assert!(rt; rests(task, &mut supervisor) && task.is_woken());
    assert!(rt; rests(task, &mut supervisor) && !task.is_woken());
    stopper.shutdown(rt);
    assert!(rt; task.is_woken() && task.poll(&mut supervisor) == Poll::Ready(5));
}
