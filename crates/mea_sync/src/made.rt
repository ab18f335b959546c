ghost use Rattle.std.specs.Prelude.{◌≡◌, ◌-◌, None};

use mea_base::Wake;
use mea_wait::hand_out;

// What a step made ready: the first waker, which left the core under the same lock, and how many more are to be taken out.
#[derive(Drop)]
pub(crate) struct Made<W> {
    first: Option<W>,
    rest: usize,
}

impl<W: Wake> Made<W> {
    // Of a step that made so many ready. `next` takes one out, while the lock of the step is still held.
    pub(crate) fn of<F: FnOnce() -> Option<W>>(made: usize, next: F) -> Self
        requires { F.IsAlwaysCallable next }
        ensures rest { result.rest ≡ made - 1 }
        ensures none { made ≡ 0 → result.first ≡ None }
    {
        if made == 0 {
            return Made {
                first: None,
                rest: 0,
            };
        }
        Made {
            first: next(),
            rest: made - 1,
        }
    }

    // Wakes each. `next` takes the lock for as long as it takes one of the rest out.
    pub(crate) fn hand_out<F: FnMut() -> Option<W>>(self, next: F)
        requires { F.IsAlwaysCallable next }
    {
        let Made { first, rest } = self;
        if let Some(waker) = first {
            waker.wake();
        }
        hand_out(rest, next);
    }
}
