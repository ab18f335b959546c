use mea_family::Ledger;
use mea_task_core::{AddFault, Executor, Step, TaskState};
use std::alloc::Global;

// No event may have a greater number where a semaphore is added or an account is told.
const LAST_EVENT: u64 = 1 << 62;

fn is_added(executor: &mut Executor, alloc: Global, steps: &[Step]) -> bool {
    match Vec::from_slice(alloc, steps) {
        Ok(steps) => executor.add_task(steps).is_ok(),
        Err(_) => false,
    }
}

// Whether an executor takes semaphores of so many permits and these tasks.
fn takes(executor: &mut Executor, alloc: Global, permits: &[usize], tasks: &[&[Step]]) -> bool {
    for count in permits {
        if executor.events() >= LAST_EVENT || executor.add_semaphore(*count).is_err() {
            return false;
        }
    }
    for steps in tasks {
        if !is_added(executor, alloc, steps) {
            return false;
        }
    }
    true
}

fn runs(executor: &mut Executor) -> bool {
    executor.run().is_ok()
}

// Whether the tasks have come to these states.
fn are_in(executor: &Executor, states: &[TaskState]) -> bool {
    for (task, state) in states.iter().enumerate() {
        if task >= executor.tasks() || executor.state(task) != *state {
            return false;
        }
    }
    executor.tasks() == states.len()
}

// The account of a semaphore: made, released, owed, free, held, paid and forgotten.
fn account(executor: &mut Executor, semaphore: usize) -> Option<[u128; 7]> {
    if executor.events() >= LAST_EVENT || semaphore >= executor.semaphores() {
        return None;
    }
    let Ledger {
        made,
        released,
        owed,
        free,
        held,
        paid,
        forgotten,
    } = executor.ledger(semaphore);
    Some([made, released, owed, free, held, paid, forgotten])
}

// Whether the semaphores have these accounts.
fn have(executor: &mut Executor, accounts: &[[u128; 7]]) -> bool {
    for (semaphore, told) in accounts.iter().enumerate() {
        if account(executor, semaphore) != Some(*told) {
            return false;
        }
    }
    executor.semaphores() == accounts.len()
}

// What tasks come to.
#[derive(Drop)]
struct Outcome<'a> {
    states: &'a [TaskState],
    polls: u64,
    accounts: &'a [[u128; 7]],
}

// Whether the tasks of an executor run, and come to this.
fn run_to(executor: &mut Executor, outcome: &Outcome<'_>) -> bool {
    runs(executor)
        && are_in(executor, outcome.states)
        && executor.polls() == outcome.polls
        && have(executor, outcome.accounts)
}

// The same of a new executor with semaphores of so many permits and these tasks.
fn come_to(alloc: Global, permits: &[usize], tasks: &[&[Step]], outcome: &Outcome<'_>) -> bool {
    let mut executor = Executor::new(alloc);
    takes(&mut executor, alloc, permits, tasks) && run_to(&mut executor, outcome)
}

// The second task waits for two permits, and is woken by the third.
#[test]
fn a_release_wakes_who_waits(rt: HostRuntime) {
    let tasks: [&[Step]; 3] = [
        &[Step::Take(0, 1), Step::Give(0, 1)],
        &[Step::Take(0, 2), Step::Give(0, 1)],
        &[Step::Give(0, 1)],
    ];
    let outcome = Outcome {
        states: &[
            TaskState::Finished,
            TaskState::Finished,
            TaskState::Finished,
        ],
        polls: 4,
        accounts: &[[1, 3, 0, 1, 0, 0, 3]],
    };
    assert!(rt; come_to(rt.alloc(), &[1], &tasks, &outcome));
}

// Two tasks take two semaphores in turn, each in another order, and both wait.
#[test]
fn two_tasks_wait_for_each_other(rt: HostRuntime) {
    let tasks: [&[Step]; 2] = [
        &[Step::Take(0, 1), Step::Yield, Step::Take(1, 1)],
        &[Step::Take(1, 1), Step::Yield, Step::Take(0, 1)],
    ];
    let states = [
        TaskState::Waits {
            semaphore: 1,
            demand: 1,
        },
        TaskState::Waits {
            semaphore: 0,
            demand: 1,
        },
    ];
    let outcome = Outcome {
        states: &states,
        polls: 4,
        accounts: &[[1, 0, 0, 0, 0, 0, 1], [1, 0, 0, 0, 0, 0, 1]],
    };
    assert!(rt; come_to(rt.alloc(), &[1, 1], &tasks, &outcome));
}

// A semaphore has as many permits as it may have, and one more is released.
#[test]
fn a_release_is_refused(rt: HostRuntime) {
    let tasks: [&[Step]; 1] = [&[Step::Give(0, 1), Step::Take(0, 1)]];
    let most = usize::MAX as u128;
    let outcome = Outcome {
        states: &[TaskState::Failed],
        polls: 1,
        accounts: &[[most, 0, 0, most, 0, 0, 0]],
    };
    assert!(rt; come_to(rt.alloc(), &[usize::MAX], &tasks, &outcome));
}

// Where a run finds no memory the next goes on there, and all ends as if it had been there. It is not there where the test
// is run with an allocation refused; where that is one of those that set up, there is nothing to see.
#[test]
fn a_run_goes_on_where_memory_ended(rt: HostRuntime) {
    let twice = [
        Step::Take(0, 1),
        Step::Yield,
        Step::Give(0, 1),
        Step::Give(1, 1),
    ];
    let tasks: [&[Step]; 4] = [
        &twice,
        &twice,
        &[Step::Take(1, 2), Step::Take(2, 3), Step::Yield],
        &[Step::Take(1, 1)],
    ];
    let mut executor = Executor::new(rt.alloc());
    if !takes(&mut executor, rt.alloc(), &[1, 0, 2], &tasks) {
        return;
    }
    let _first = runs(&mut executor);
    let outcome = Outcome {
        states: &[
            TaskState::Finished,
            TaskState::Finished,
            TaskState::Waits {
                semaphore: 2,
                demand: 3,
            },
            TaskState::Waits {
                semaphore: 1,
                demand: 1,
            },
        ],
        polls: 8,
        accounts: &[
            [1, 2, 0, 1, 0, 0, 2],
            [0, 2, 0, 0, 0, 0, 2],
            [2, 0, 0, 0, 0, 2, 0],
        ],
    };
    assert!(rt; run_to(&mut executor, &outcome));
}

// The step that means a semaphore which is not there, and how many steps came back.
fn unknown_step(added: Result<usize, AddFault>) -> Option<(usize, usize)> {
    match added {
        Err(AddFault::Unknown { step, steps }) => Some((step, steps.len())),
        _ => None,
    }
}

// The same of a new executor, and how many tasks it has then.
fn refused(alloc: Global, steps: Vec<Step>) -> (Option<(usize, usize)>, usize) {
    let mut executor = Executor::new(alloc);
    let told = unknown_step(executor.add_task(steps));
    (told, executor.tasks())
}

// A step that means no semaphore is told, with the steps.
#[test]
fn an_unknown_semaphore(rt: HostRuntime) {
    let alloc = rt.alloc();
    let steps = Vec::from_slice(alloc, &[Step::Yield, Step::Give(0, 1)]).expect(&rt, "memory");
    assert!(rt; refused(alloc, steps) == (Some((1, 2)), 0));
}
