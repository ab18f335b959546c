ghost use Rattle.std.specs.Prelude.{◌≡◌, ◌<◌, ◌≤◌, ◌^◌, Some, true, length};
ghost use Rattle.mea_base.specs.WaitList.{get, is_linked};
ghost use Rattle.mea_sem_core.specs.Places.{IsQueue, paid_in, CutsPlace, CutsQueue};

use crate::wait_record::WaitRecord;
use mea_base::{Outbox, WaitList};

// Takes an acquire out of the queue and makes its waker ready; a debt stays. It tells what the acquire was
// paid.
fn cut_waiter<W: Drop>(
    waiters: &mut WaitList<WaitRecord<W>>,
    outbox: &mut Outbox<W>,
    number: usize,
) -> usize
    requires kept { IsQueue waiters.old }
    requires linked { is_linked waiters.old number ≡ true }
    requires room { length waiters.old.order ≤ outbox.old.spare }
    ensures { (place : WaitRecord W) → get waiters.old number ≡ Some place → CutsPlace waiters.old waiters.new outbox.old outbox.new number result place }
{
    if waiters.get(number).is_debt() {
        return 0;
    }
    let paid = waiters.get(number).paid();
    waiters.unlink(number);
    match waiters.get_mut(number).cut() {
        Some(waker) => outbox.push(waker),
        None => unreachable!(),
    }
    paid
}

/// Takes all acquires out of the queue and makes their wakers ready in its order, in one pass. It tells
/// what they were paid together, and takes no memory.
pub(crate) fn cut_queue<W: Drop>(
    waiters: &mut WaitList<WaitRecord<W>>,
    outbox: &mut Outbox<W>,
) -> usize
    requires kept { IsQueue waiters.old }
    requires room { length waiters.old.order ≤ outbox.old.spare }
    requires fits { paid_in waiters.old < 2 ^ 64 }
    ensures { CutsQueue waiters.old waiters.new outbox.old outbox.new result }
{
    let mut paid = 0;
    let mut next = waiters.first();
    while let Some(number) = next {
        next = waiters.next(number);
        paid += cut_waiter(waiters, outbox, number);
    }
    paid
}
