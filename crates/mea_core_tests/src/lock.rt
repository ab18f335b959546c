mod condvar;
mod mutex;
mod parts;
mod rw;
