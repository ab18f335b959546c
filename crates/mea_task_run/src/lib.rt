//! Programs of tasks as scripts: their lines make semaphores and tasks, and at the end of the input the tasks are run on an
//! executor of `mea_task_core` and the text tells what has become of each. The scripts are read by `mea_script`.
#![tactic(auto)]

mod event;
mod lines;
mod machine;
mod results;
mod running;

pub use event::TaskEvent;
pub use lines::{event_of_line, lines_have_one_spelling};
pub use machine::TaskMachine;
pub use running::run_tasks;
