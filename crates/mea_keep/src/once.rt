//! A call that runs once, a cell that is filled once, and a map that computes a value for each key: `mea::once`.
mod call;
mod cell;
mod map;

pub use crate::keyed::{KeyClaim, KeyClaiming, KeyFilling};
pub use call::{CallClaim, CallClaiming, Once, OnceCall, OnceClaim, OnceClaiming, OnceWait};
pub use cell::{
    CellClaim, CellClaiming, CellInit, CellInsert, CellMutInit, CellMutTryInit, CellSet,
    CellTryInit, OnceCell,
};
pub use map::{FoldOnceMap, MapClaim, MapClaiming, MapCompute, MapFilling, MapTryCompute, OnceMap};
