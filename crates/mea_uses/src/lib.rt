//! How a program uses the library: the programs of docs/USING.md and the first of docs/EXECUTORS.md, which stand here
//! so that the gate proves and runs them. `docs/check_programs.py` compares.
#![tactic(auto)]

#[cfg(test)]
mod boxes;
#[cfg(test)]
mod config;
#[cfg(test)]
mod connections;
#[cfg(test)]
mod first_use;
#[cfg(test)]
mod hub;
#[cfg(test)]
mod mailbox;
#[cfg(test)]
mod meeting;
#[cfg(test)]
mod orderly_shutdown;
#[cfg(test)]
mod part;
#[cfg(test)]
mod permits;
#[cfg(test)]
mod pipelines;
#[cfg(test)]
mod pool;
#[cfg(test)]
mod rate_limiter;
#[cfg(test)]
mod reply;
#[cfg(test)]
mod request_cache;
#[cfg(test)]
mod settings;
#[cfg(test)]
mod startup;
#[cfg(test)]
mod task;
#[cfg(test)]
mod tenants;
#[cfg(test)]
mod wake;
#[cfg(test)]
mod work_queue;
