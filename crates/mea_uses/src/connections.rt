use futures::Future;
use futures::future::ready;
use mea::End;
use mea_futures::{Bell, block_before};
use mea_shared_pool::{Closed, Lease, Pool};
use std::alloc::AllocGlobal;
use std::process::Abort;
use std::random::RandomSource;
use std::sync::Wait;

// A connection, as the kit's `sqlite::Connection` or a socket would be. This one counts its queries.
#[derive(Drop)]
struct Connection {
    queries: u64,
}

type Connections = Pool<Connection, Bell>;

// What came of a request.
#[derive(Debug, Clone, Copy, PartialEq, Eq, Drop)]
enum Served {
    Done,
    TooLate,
    Closing,
}

// Makes a query on a connection, and puts it back.
fn query<R: Wait>(rt: &R, lease: Lease<'_, Connection, Bell>) {
    let mut lease = lease;
    lease.queries = lease.queries.wrapping_add(1);
    lease.end(rt);
}

// Waits for a connection until the deadline is ready, and makes a query on it. A wait that is too late is given up: what it may
// have been granted by then goes to the next.
fn serve<R: Wait + RandomSource + AllocGlobal + Abort, D: Future<Output = ()>>(
    rt: &R,
    pool: &Connections,
    deadline: D,
) -> Served
    requires { D.can_poll deadline }
{
    match block_before(rt, pool.get(), deadline).expect(rt, "memory") {
        Some(Ok(lease)) => {
            query(rt, lease);
            Served::Done
        }
        Some(Err(Closed)) => Served::Closing,
        None => Served::TooLate,
    }
}

// A pool of one connection.
fn connections<R: AllocGlobal + Abort>(rt: &R) -> Connections {
    let all = vec![in rt.alloc(); Connection { queries: 0 }].expect(rt, "memory");
    Pool::new(rt.alloc(), all).ok().expect(rt, "memory")
}

#[test]
fn connections_are_lent_and_drained(rt: HostRuntime) {
    let pool = connections(&rt);
    serves(&rt, &pool);
}

fn serves<R: Wait + RandomSource + AllocGlobal + Abort>(rt: &R, pool: &Connections) {
    assert!(rt; serve(rt, pool, ready(())) == Served::Done);
    let busy = pool.try_get(rt).expect(rt, "a connection");
    assert!(rt; busy.queries == 1);
    assert!(rt; serve(rt, pool, ready(())) == Served::TooLate);

    // The service stops: nobody gets a connection any more, and the last one that comes back ends the drain.
    pool.drain(rt);
    assert!(rt; serve(rt, pool, ready(())) == Served::Closing);
    assert!(rt; !pool.is_drained(rt));
    query(rt, busy);
    assert!(rt; pool.is_drained(rt));
}
