use mea_base::{NoMemory, Poll, Turn};
use mea_chan_core::{RecvError, TryRecvError};
use mea_test_support::Plays;
use std::alloc::Global;
use std::collections::VecDeque;

// What a call of a script tells: that it is done, what it gives or hands back, or why it gives nothing.
#[derive(Clone, Copy, PartialEq, Eq)]
pub(crate) enum Reply {
    Done,
    Yes,
    No,
    Pending,
    // The waker comes back, since the poll is ready.
    Ready(u64),
    // The waker or the value comes back, since it is refused.
    Back(u64),
    Nothing,
    // A value, a message or a waker.
    Value(u64),
    Count(usize),
    Error(u64),
    Empty,
    Lagged(u64),
    Disconnected,
    // The value comes back, since the channel is full, or closed.
    Full(u64),
    Closed(u64),
    NoMemory,
}

impl Reply {
    pub(crate) fn whether(yes: bool) -> Reply {
        if yes { Reply::Yes } else { Reply::No }
    }

    // What a poll tells, if it finds memory.
    pub(crate) fn turned(polled: Result<Turn<u64>, (u64, NoMemory)>) -> Option<Reply> {
        match polled {
            Ok(Turn::Ready(waker)) => Some(Reply::Ready(waker)),
            Ok(Turn::Pending) => Some(Reply::Pending),
            Err(_) => None,
        }
    }

    // The same of a poll that keeps no waker for a later stage.
    pub(crate) fn polled(polled: Result<Poll<()>, (u64, NoMemory)>) -> Option<Reply> {
        match polled {
            Ok(Poll::Ready(())) => Some(Reply::Done),
            Ok(Poll::Pending) => Some(Reply::Pending),
            Err(_) => None,
        }
    }

    // A value or a waker, where there is one.
    pub(crate) fn found(found: Option<u64>) -> Reply {
        match found {
            Some(value) => Reply::Value(value),
            None => Reply::Nothing,
        }
    }

    pub(crate) fn received(received: Result<u64, TryRecvError>) -> Reply {
        match received {
            Ok(message) => Reply::Value(message),
            Err(TryRecvError::Empty) => Reply::Empty,
            Err(TryRecvError::Disconnected) => Reply::Disconnected,
        }
    }

    // How many messages fall at the end of a receiver, or nothing where it has ended.
    pub(crate) fn fallen(queued: Option<VecDeque<u64>>) -> Reply {
        match queued {
            Some(queued) => Reply::Count(queued.len()),
            None => Reply::Nothing,
        }
    }

    // What a poll of a receive tells.
    pub(crate) fn heard(polled: Poll<Result<u64, RecvError>>) -> Reply {
        match polled {
            Poll::Ready(Ok(message)) => Reply::Value(message),
            Poll::Ready(Err(RecvError::Disconnected)) => Reply::Disconnected,
            Poll::Pending => Reply::Pending,
        }
    }

    // What a poll of a computation answers.
    pub(crate) fn computed<F: Drop>(polled: Result<Poll<Result<u64, u64>>, F>) -> Reply {
        match polled {
            Ok(Poll::Pending) => Reply::Pending,
            Ok(Poll::Ready(Ok(value))) => Reply::Value(value),
            Ok(Poll::Ready(Err(e))) => Reply::Error(e),
            Err(_) => Reply::NoMemory,
        }
    }
}

// What the calls of a script tell, up to the first that finds no memory.
pub(crate) fn answers<P: Plays>(alloc: Global, mut player: P, script: &[P::Call]) -> Vec<P::Reply> {
    let mut answers = Vec::new(alloc);
    for call in script {
        match player.reply(*call) {
            Some(told) if answers.push(told).is_ok() => {}
            _ => return answers,
        }
    }
    answers
}
