use crate::task::Call;
use mea::End;
use mea::semaphore::Semaphore;

// A batch takes its permits at once, and gives them back as its jobs are done.
#[test]
fn permits_of_a_batch(rt: HostRuntime) {
    let semaphore: Semaphore<Call> = Semaphore::new(rt.alloc(), 3);
    let mut batch = semaphore.try_acquire(&rt, 3).expect(&rt, "permits");
    let one = batch.split(1).expect(&rt, "a permit");
    one.end(&rt);
    assert!(rt; semaphore.available_permits(&rt) == 1);
    // A further job joins the batch, with a permit of the same semaphore.
    let joins = semaphore.try_acquire(&rt, 1).expect(&rt, "a permit");
    batch.merge(joins);
    assert!(rt; batch.permits() == 3);
    batch.end(&rt);
    assert!(rt; semaphore.available_permits(&rt) == 3);
}
