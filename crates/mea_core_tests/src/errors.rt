use mea_chan_core::{RecvError, SendError, TryRecvError, TrySendError, UnboundedError};
use std::alloc::Global;
use std::fmt::Display;

// Whether the error reads so.
pub(crate) fn reads<E: Display + Drop>(alloc: Global, error: E, text: &str) -> bool {
    match format!(in alloc; "{error}") {
        Ok(read) => read.as_str() == text,
        Err(_) => false,
    }
}

#[test]
fn texts(rt: HostRuntime) {
    let alloc = rt.alloc();
    assert!(rt; reads(alloc, SendError(7u64), "sending on a closed channel"));
    assert!(rt; reads(alloc, TrySendError::Full(7u64), "sending on a full channel"));
    assert!(rt;
        reads(
            alloc,
            TrySendError::Disconnected(7u64),
            "sending on a closed channel"
        )
    );
    assert!(rt;
        reads(
            alloc,
            UnboundedError::Closed(7u64),
            "sending on a closed channel"
        )
    );
    assert!(rt; reads(alloc, UnboundedError::NoMemory(7u64), "out of memory"));
    assert!(rt;
        reads(
            alloc,
            RecvError::Disconnected,
            "receiving on a closed channel"
        )
    );
    assert!(rt; reads(alloc, TryRecvError::Empty, "receiving on an empty channel"));
    assert!(rt;
        reads(
            alloc,
            TryRecvError::Disconnected,
            "receiving on a closed channel"
        )
    );
}

#[test]
fn values_come_back(rt: HostRuntime) {
    assert_eq!(rt; *SendError(7u64).as_inner(), 7);
    assert_eq!(rt; SendError(7u64).into_inner(), 7);
    assert_eq!(rt; *TrySendError::Full(8u64).as_inner(), 8);
    assert_eq!(rt; TrySendError::Disconnected(8u64).into_inner(), 8);
    assert_eq!(rt; UnboundedError::Closed(9u64).into_inner(), 9);
    assert_eq!(rt; *UnboundedError::NoMemory(9u64).as_inner(), 9);
    assert!(rt; SendError(7u64) != SendError(8));
    assert!(rt; TryRecvError::Empty != TryRecvError::Disconnected);
}
