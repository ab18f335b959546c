//! Boxes that threads share, and whose content is swapped whole: `mea::atomicbox`.
mod atomic_box;
mod atomic_option_box;

pub use atomic_box::AtomicBox;
pub use atomic_option_box::AtomicOptionBox;
