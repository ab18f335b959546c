use crate::task::{Call, Task};
use mea::End;
use mea::mpsc::{BoundedReceiver, BoundedSender, TryRecvError, bounded};
use std::process::Abort;
use std::sync::Wait;

// What an account is told.
#[derive(Debug, PartialEq, Eq, Drop)]
enum Command {
    Deposit(u64),
    Withdraw(u64),
}

// What an account has after a command.
fn after(balance: u64, command: Option<Command>) -> u64 {
    match command {
        Some(Command::Deposit(sum)) => balance.wrapping_add(sum),
        Some(Command::Withdraw(sum)) => balance.saturating_sub(sum),
        None => balance,
    }
}

// One task owns an account and reads its mailbox; who finds the mailbox full waits.
#[test]
fn a_mailbox(rt: HostRuntime) {
    let (owner, client) = (Task::new(&rt), Task::new(&rt));
    let (sender, mut mailbox) = bounded(rt.alloc(), 1).expect(&rt, "memory");
    assert!(rt; reads(&rt, &owner, &client, &sender, &mut mailbox) == 3);
    sender.end(&rt);
    assert!(rt; mailbox.try_recv(&rt) == Err(TryRecvError::Disconnected));
    mailbox.end(&rt);
}

// What the account has at the end.
fn reads<R: Wait + Abort>(
    rt: &R,
    owner: &Task,
    client: &Task,
    sender: &BoundedSender<Command, Call>,
    mailbox: &mut BoundedReceiver<Command, Call>,
) -> u64 {
    let idle = owner.later(rt, mailbox.recv());
    assert!(rt; sender.try_send(rt, Command::Deposit(5)).is_ok());
    assert!(rt; owner.calls() == 1);
    let full = client.later(rt, sender.send(Command::Withdraw(2)));
    let balance = match owner.again(rt, idle) {
        Some(command) => after(0, command.ok()),
        None => 0,
    };
    assert!(rt; balance == 5);
    assert!(rt; client.calls() == 1);
    assert!(rt; client.again(rt, full) == Some(Ok(())));
    after(balance, mailbox.try_recv(rt).ok())
}
