ghost use Rattle.std.specs.Prelude.{◌≡◌, ◌+◌, ◌≤◌, ◌++◌, ◌^◌, take, length, OnOk};
ghost use Rattle.mea_task_run.specs.Results.{state_text, task_text, tasks_text, accounts_text, results};

use mea_base::NoMemory;
use mea_family::Answer;
use mea_task_core::{Executor, TaskState};
use mea_text::{put_line, put_number, put_reply, put_text};

/// Appends what has become of each task, the turns, and the account of each semaphore, or some of it.
#[tactic(auto, using(mea_text::proofs::Puts::kept_before), unfolding(crate::specs::Results::results))]
pub fn put_results(executor: &mut Executor, text: &mut Vec<u8>) -> Result<(), NoMemory>
    requires { executor.old.events + length executor.old.semaphores ≤ 2 ^ 62 }
    ensures ok { OnOk result (text.new.items ≡ text.old.items ++ results executor.old) }
    ensures kept { take (length text.old.items) text.new.items ≡ text.old.items }
{
    put_tasks(executor, text)?;
    put_line(text, b"polls", executor.polls())?;
    put_accounts(executor, text)
}

// The lines of the tasks.
#[tactic(auto, using(mea_text::proofs::Puts::kept_before))]
fn put_tasks(executor: &Executor, text: &mut Vec<u8>) -> Result<(), NoMemory>
    ensures ok { OnOk result (text.new.items ≡ text.old.items ++ tasks_text executor.now) }
    ensures kept { take (length text.old.items) text.new.items ≡ text.old.items }
{
    for task in 0..executor.tasks() {
        put_task(text, task as u64, executor.state(task))?;
    }
    Ok(())
}

// The line of a task.
#[tactic(auto, using(mea_text::proofs::Puts::kept_before))]
fn put_task(text: &mut Vec<u8>, task: u64, state: TaskState) -> Result<(), NoMemory>
    ensures ok { OnOk result (text.new.items ≡ text.old.items ++ task_text task state) }
    ensures kept { take (length text.old.items) text.new.items ≡ text.old.items }
{
    put_text(text, b"task")?;
    put_number(text, task)?;
    put_state(text, state)?;
    put_text(text, b"\n")
}

#[tactic(auto, using(mea_text::proofs::Puts::kept_before))]
fn put_state(text: &mut Vec<u8>, state: TaskState) -> Result<(), NoMemory>
    ensures ok { OnOk result (text.new.items ≡ text.old.items ++ state_text state) }
    ensures kept { take (length text.old.items) text.new.items ≡ text.old.items }
{
    match state {
        TaskState::Queued => put_text(text, b" queued"),
        TaskState::Finished => put_text(text, b" finished"),
        TaskState::Failed => put_text(text, b" failed"),
        TaskState::Waits { semaphore, demand } => {
            put_text(text, b" waits")?;
            put_number(text, semaphore as u64)?;
            put_number(text, demand as u64)
        }
    }
}

// The accounts of the semaphores, each of which is an event.
#[tactic(auto, using(mea_text::proofs::Puts::kept_before))]
fn put_accounts(executor: &mut Executor, text: &mut Vec<u8>) -> Result<(), NoMemory>
    requires { executor.old.events + length executor.old.semaphores ≤ 2 ^ 62 }
    ensures ok { OnOk result (text.new.items ≡ text.old.items ++ accounts_text executor.old) }
    ensures kept { take (length text.old.items) text.new.items ≡ text.old.items }
{
    for semaphore in 0..executor.semaphores() {
        let account = Answer::Account(executor.ledger(semaphore));
        put_reply(text, &account, &[])?;
    }
    Ok(())
}
