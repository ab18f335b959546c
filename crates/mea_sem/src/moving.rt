ghost use Rattle.std.specs.Prelude.{◌≡◌, ◌+◌, ◌≤◌, ◌++◌, [], length};

use mea_base::Ready;
use mea_sem_core::SemCore;

/// Makes those wakers ready that a core has ready, in their order.
pub fn hand_on(core: &mut SemCore<u64>, ready: &mut Ready<u64>)
    requires { length core.old.wakes ≤ ready.old.registered }
    ensures taken { core.new ≡ record core.old { wakes = [] } }
    ensures moved { ready.new.wakers ≡ ready.old.wakers ++ core.old.wakes }
    ensures counted { ready.new.registered + length core.old.wakes ≡ ready.old.registered }
{
    while let Some(waker) = core.next_wake() {
        ready.wake(waker);
    }
}
