use mea_sem_core::{Acquire, OpenTurn, SemCore};

// What a client that asks for a connection is told; None means want of memory.
fn ask(connections: &mut SemCore<u64>, client: &mut Acquire, waker: u64) -> Option<OpenTurn<u64>> {
    connections.poll_open_checked(client, waker).ok()
}

// Two connections and three clients, whose wakers are their numbers. The pool is drained by closing it.
#[test]
fn a_pool_of_connections(rt: HostRuntime) {
    let mut connections: SemCore<u64> = SemCore::new(rt.alloc(), 2);
    let [mut first, mut second, mut third] = [Acquire::new(1), Acquire::new(1), Acquire::new(1)];
    assert!(rt;
        matches!(
            ask(&mut connections, &mut first, 1),
            Some(OpenTurn::Ready(_))
        )
    );
    assert!(rt;
        matches!(
            ask(&mut connections, &mut second, 2),
            Some(OpenTurn::Ready(_))
        )
    );
    assert!(rt;
        matches!(
            ask(&mut connections, &mut third, 3),
            Some(OpenTurn::Pending)
        )
    );

    // The first client is done, and the third is told to poll again.
    connections.give_back_checked(1);
    assert_eq!(rt; connections.next_wake(), Some(3));
    assert!(rt;
        matches!(
            ask(&mut connections, &mut third, 3),
            Some(OpenTurn::Ready(_))
        )
    );

    // Nobody comes in any more, and the last two connections come back.
    connections.close();
    let mut late = Acquire::new(1);
    assert!(rt;
        matches!(
            ask(&mut connections, &mut late, 4),
            Some(OpenTurn::Closed(_))
        )
    );
    connections.give_back_checked(2);
    assert_eq!(rt; connections.held(), 0);
}
