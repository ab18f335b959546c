use crate::settings::{Limit, Settings};
use crate::task::Call;
use mea::End;
use mea::rwlock::{Mapped, RwLock};

// A write shows the limit alone, sets it, and becomes a read: no other write comes between the two.
#[test]
fn a_part_that_is_written_and_read(rt: HostRuntime) {
    let mail = Settings {
        name: "mail",
        limit: 10,
    };
    let settings: RwLock<Settings, Call> = RwLock::new(rt.alloc(), mail);
    let guard = settings.try_write(&rt).expect(&rt, "a free lock");
    let mut limit = Mapped::map(guard, Limit);
    *limit = 20;
    match limit.downgrade(&rt) {
        Ok(read) => {
            assert!(rt; *read == 20);
            read.end(&rt);
        }
        // There is no memory to share the value among those who read, and the write comes back.
        Err((write, _)) => write.end(&rt),
    }
    assert!(rt; matches!(settings.into_inner(), Some(settings) if settings.limit == 20));
}
