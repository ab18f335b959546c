//! The cores of the once types: a call that runs once, a cell that is filled once, and the keyed tables of
//! such cells, where each key's value is computed once. A cell is a value and one permit, which is handed
//! from caller to caller: it stands on the contract of `mea_sem_core`'s `SemCore` alone, and the call that
//! runs once on those of the cell and of the latch. The hall of once types and the types that threads share
//! stand on them.
//!
//! A call is *one of* a core where the number that it keeps is in use there for it. A core can not tell one
//! that another core has queued under the same number, so a user keeps the two together.
#![tactic(auto)]

mod cell_core;
mod cell_stage;
mod cell_turn;
mod entries;
mod entry;
mod flight_core;
mod init;
mod init_call;
mod insert_call;
mod key_call;
mod keyed;
mod laws;
mod map_core;
mod never;
mod once_core;
mod once_table;
mod permit;

pub use cell_core::CellCore;
pub use cell_stage::CellStage;
pub use cell_turn::CellTurn;
pub use flight_core::FlightCore;
pub use init::Init;
pub use init_call::InitCall;
pub use insert_call::InsertCall;
pub use key_call::{KeyCall, KeyStage};
pub use laws::a_full_cell_stays_full;
pub use map_core::MapCore;
pub use never::Never;
pub use once_core::OnceCore;
pub use once_table::OnceTable;
