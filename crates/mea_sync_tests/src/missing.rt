ghost use Rattle.std.specs.Prelude.{Some, refl};

use mea_lock_core::Part;
use mea_sync::mutex::{Mapped, MappedMutexGuard, Mutex};
use mea_test_support::Bell;
use mea_wait::End;
use std::sync::Wait;

// What is inside an option.
#[derive(Clone, Copy, Drop)]
struct Inside;

impl<T> Part<Option<T>> for Inside {
    ghost use Rattle.mea_sync_tests.specs.Inside.{same_option};

    type Out = T;

    ghost get = { λ p x. x };

    ghost put = { λ p x y. Some y };

    fn part<'a>(&self, whole: &'a Option<T>) -> Option<&'a T>
    where
        Self: 'a,
    {
        whole.as_ref()
    }

    fn part_mut<'a>(whole: &'a mut Option<T>, _part: &Self) -> Option<&'a mut T>
    where
        Self: 'a,
    {
        whole.as_mut()
    }

    ghost stays = { λ p x y h. refl };

    ghost rests = { λ p x y h. same_option x y h };
}

// A part that is missing gives the guard back, and so does a part of a part; one that is there is written.
#[test]
fn a_part_that_may_be_missing(rt: HostRuntime) {
    let mutex: Mutex<Option<Option<u64>>, Bell> = Mutex::new(rt.alloc(), None);
    assert!(rt; is_missing(&rt, &mutex));
    assert!(rt; is_missing_further(&rt, &mutex));
    assert!(rt; mutex.into_inner() == Some(Some(Some(7))));
}

type Nested = Mutex<Option<Option<u64>>, Bell>;

// Whether nothing is inside; then an empty option is put there by the guard that came back.
fn is_missing<R: Wait>(rt: &R, mutex: &Nested) -> bool {
    let Some(guard) = mutex.try_lock(rt) else {
        return false;
    };
    match Mapped::filter_map(guard, Inside) {
        Ok(mapped) => {
            mapped.end(rt);
            false
        }
        Err((mut guard, Inside)) => {
            *guard = Some(None);
            guard.end(rt);
            true
        }
    }
}

// Whether nothing is inside what is inside; then a number is put there by the guard that came back, shown and written.
fn is_missing_further<R: Wait>(rt: &R, mutex: &Nested) -> bool {
    let Some(guard) = mutex.try_lock(rt) else {
        return false;
    };
    match Mapped::filter_map(guard, Inside) {
        Ok(outer) => is_put_inside(rt, outer),
        Err((guard, Inside)) => {
            guard.end(rt);
            false
        }
    }
}

// A guard of the option that is inside.
type Outer<'a> = MappedMutexGuard<'a, Option<Option<u64>>, Inside, Bell>;

fn is_put_inside<R: Wait>(rt: &R, outer: Outer<'_>) -> bool {
    match Mapped::filter_map_further(outer, Inside) {
        Ok(inner) => {
            inner.end(rt);
            false
        }
        Err((mut outer, Inside)) => {
            *outer = Some(3);
            is_written(rt, outer)
        }
    }
}

// Whether the number is shown, which is then written.
fn is_written<R: Wait>(rt: &R, outer: Outer<'_>) -> bool {
    match Mapped::filter_map_further(outer, Inside) {
        Ok(mut inner) => {
            let shown = *inner;
            *inner = 7;
            inner.end(rt);
            shown == 3
        }
        Err((outer, Inside)) => {
            outer.end(rt);
            false
        }
    }
}
