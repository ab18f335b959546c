ghost use Rattle.std.specs.Prelude.{Some, refl};

use mea_base::Turn;
use mea_lock_core::{LockWait, MutexCore, Part, with_part_mut};

// What a service is set to.
#[derive(Drop)]
pub struct Settings {
    pub name: &'static str,
    pub limit: u64,
}

// The limit of the settings.
#[derive(Clone, Copy)]
pub struct Limit;

impl Part<Settings> for Limit {
    ghost use Rattle.mea_uses.specs.Settings.{same_value};

    type Out = u64;

    ghost get = { λ p x. Some x.limit };

    ghost put = { λ p x y. record x { limit = y } };

    fn part<'a>(&self, whole: &'a Settings) -> Option<&'a u64>
    where
        Self: 'a,
    {
        Some(&whole.limit)
    }

    fn part_mut<'a>(whole: &'a mut Settings, _part: &Self) -> Option<&'a mut u64>
    where
        Self: 'a,
    {
        Some(&mut whole.limit)
    }

    ghost stays = { λ p x y h. refl };

    ghost rests = { λ p x y h. λ i. record x { limit = same_value x.limit y h i } };
}

// Settings behind a mutex, whose limit is raised by who has the lock.
#[test]
fn settings_behind_a_mutex(rt: HostRuntime) {
    let settings = Settings {
        name: "mail",
        limit: 10,
    };
    let mut lock: MutexCore<Settings, u64> = MutexCore::new(rt.alloc(), settings);
    let mut wait = LockWait::new();
    assert!(rt; matches!(lock.poll_checked(&mut wait, 1), Ok(Turn::Ready(_))));
    if lock.is_held() {
        let _raised = with_part_mut(lock.value_mut(), &Limit, |limit: &mut u64| *limit = 20);
    }
    lock.unlock_checked();
    let settings = lock.into_inner_checked();
    assert_eq!(rt; settings.name, "mail");
    assert_eq!(rt; settings.limit, 20);
}
