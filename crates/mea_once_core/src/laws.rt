ghost use Rattle.std.specs.Prelude.{◌≡◌, Some, Result};
ghost use Rattle.mea_base.specs.declared.no_memory.NoMemory.{NoMemory};
ghost use Rattle.mea_sets.specs.Poll.{Poll};
ghost use Rattle.mea_once_core.specs.Cell.{Cell, IsSound, PollsTurn, PollsInit, PollsInsert, Ends};
ghost use Rattle.mea_once_core.specs.Permit.{MayPoll, MayAsk};
ghost use Rattle.mea_once_core.specs.declared.cell_turn.CellTurn.{CellTurn};
ghost use Rattle.mea_once_core.specs.declared.init_call.InitCall.{InitCall};
ghost use Rattle.mea_once_core.specs.declared.insert_call.InsertCall.{InsertCall};
ghost use Rattle.mea_once_core.specs.declared.cell_stage.CellStage.{CellStage};

use crate::init::Init;

/// A full cell keeps its value while it is shared: a poll for one's turn, a poll of a call with an initialiser or
/// with a value, and the end of one, leave it there. No turn is given where it is full, so nobody may fill it.
pub fn a_full_cell_stays_full<T, E, W, I: Init<T, E, W>>()
    ensures turns { (c c' : Cell T W) (v : T) (stage stage' : CellStage) (w : W) (r : Result (CellTurn W) (W × NoMemory)) → IsSound c → MayPoll c.permit stage → PollsTurn stage c w r c' stage' → c.value ≡ Some v → c'.value ≡ Some v }
    ensures computes { (c c' : Cell T W) (v : T) (call call' : InitCall I) (w : W) (r : Result (Poll (Result (Unit {0}) E)) (W × NoMemory)) → IsSound c → MayPoll c.permit call.stage → PollsInit I.answers c call w r c' call' → c.value ≡ Some v → c'.value ≡ Some v }
    ensures inserts { (c c' : Cell T W) (v : T) (call call' : InsertCall T) (w : W) (r : Result (Poll (Result (Unit {0}) T)) (W × NoMemory)) → MayAsk c.permit call.stage → PollsInsert c call w r c' call' → c.value ≡ Some v → c'.value ≡ Some v }
    ensures ends { (c c' : Cell T W) (v : T) (stage : CellStage) → Ends c stage c' → c.value ≡ Some v → c'.value ≡ Some v }
{}
