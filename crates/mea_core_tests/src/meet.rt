mod barrier;
mod group;
mod latch;
mod shutdown;
