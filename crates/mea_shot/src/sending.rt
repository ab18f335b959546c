ghost use Rattle.std.specs.Prelude.{◌≡◌, ◌⊎◌, [], ◌∷◌, Some, None, IfErr, OnOk, OnErr, IsErr, MatchBool};
ghost use Rattle.atomic_table.specs.Table.{rest};
ghost use Rattle.mea_shot.specs.Steps.{IsOn, IsSender};
ghost use Rattle.mea_shot.specs.declared.view.View.TheVariants.{Sends};
ghost use Rattle.mea_shot.specs.declared.view.SendStage.TheVariants.{Shut, Finishing, Refused, Gone};
ghost use Rattle.mea_shot.specs.declared.view.SendStage.TheVariants.{Sent as SentStage};

use crate::message::{Content, Message};
use crate::steps::{Board, finish, flip, leave, open, put};
use crate::view::View;
use atomic_table::Seat;
use mea_base::Wake;

// The waker out of its slot, which the seat took last.
pub(crate) fn waker_out<T: Message, W>(
    board: &Board<T, W>,
    seat: &mut Seat<Option<Content<T, W>>, View<W>>,
) -> W
    requires board { seat.old.table_id ≡ board.now.shared.table_id }
    requires held { (w : W) × (seat.old.me.1 ≡ (1, Some (Content.Waker w)) ∷ rest seat.old.me.1) }
    ensures board { seat.new.table_id ≡ seat.old.table_id }
    ensures left { seat.new.me ≡ (seat.old.me.0, (1, None) ∷ rest seat.old.me.1) }
{
    let got = board.shared.exchange(seat, 1, None);
    let Some(Content::Waker(waker)) = got else {
        unreachable!()
    };
    waker
}

// The message out of its slot, which the seat took last.
pub(crate) fn message_out<T: Message, W>(
    board: &Board<T, W>,
    seat: &mut Seat<Option<Content<T, W>>, View<W>>,
) -> T
    requires board { seat.old.table_id ≡ board.now.shared.table_id }
    requires held { (x : T) × (seat.old.me.1 ≡ (0, Some (Content.Message x)) ∷ rest seat.old.me.1) }
    ensures board { seat.new.table_id ≡ seat.old.table_id }
    ensures stage { seat.new.me.0 ≡ seat.old.me.0 }
    ensures value { seat.old.me.1 ≡ (0, Some (Content.Message result)) ∷ rest seat.old.me.1 }
{
    let got = board.shared.exchange(seat, 0, None);
    let Some(Content::Message(message)) = got else {
        unreachable!()
    };
    message
}

// The rest of a send that found a waker.
fn finish_on<T: Message, W: Wake + Drop>(
    board: &Board<T, W>,
    seat: &mut Seat<Option<Content<T, W>>, View<W>>,
) -> Result<(), T>
    requires board { IsOn seat.old.table_id board.now.shared.table_id }
    requires held { (w : W) × (x : T) × T.fits x × (seat.old.me ≡ (Sends Finishing, (1, Some (Content.Waker w)) ∷ (0, Some (Content.Message x)) ∷ [])) }
    ensures sent { OnOk result (seat.new.me.0 ≡ Sends SentStage) }
    ensures refused { IfErr result (λ m. rest seat.old.me.1 ≡ (0, Some (Content.Message m)) ∷ []) }
    ensures stage { OnErr result (seat.new.me.0 ≡ Sends Refused) }
{
    let waker = waker_out(board, seat);
    seat.turn();
    if finish(board, seat) {
        waker.wake();
        return Ok(());
    }
    Err(message_out(board, seat))
}

// Sends on a seat that may send.
pub(crate) fn send_on<T: Message, W: Wake + Drop>(
    board: &Board<T, W>,
    seat: &mut Seat<Option<Content<T, W>>, View<W>>,
    message: T,
) -> Result<(), T>
    requires board { IsOn seat.old.table_id board.now.shared.table_id }
    requires stage { IsSender seat.old.me.0 }
    requires empty { seat.old.me.1 ≡ [] }
    requires fits { T.fits message }
    ensures sent { OnOk result (seat.new.me.0 ≡ Sends SentStage) }
    ensures refused { IfErr result (λ m. m ≡ message) }
    ensures stage { OnErr result (seat.new.me.0 ≡ Sends Refused) }
    ensures shut { seat.old.me.0 ≡ Sends Shut → IsErr result }
{
    open(board, seat);
    let old = board
        .shared
        .exchange(seat, 0, Some(Content::Message(message)));
    let None = old else { unreachable!() };
    let found = put(board, seat);
    if found == 3 {
        return Ok(());
    }
    if found == 0 {
        return finish_on(board, seat);
    }
    Err(message_out(board, seat))
}

// Ends a sender that has not sent.
pub(crate) fn end_on<T: Message, W: Wake + Drop>(
    board: &Board<T, W>,
    seat: &mut Seat<Option<Content<T, W>>, View<W>>,
)
    requires board { IsOn seat.old.table_id board.now.shared.table_id }
    requires stage { IsSender seat.old.me.0 }
    requires empty { seat.old.me.1 ≡ [] }
    ensures stage { seat.new.me.0 ≡ Sends Gone }
{
    if flip(board, seat) {
        let waker = waker_out(board, seat);
        if leave(board, seat) {
            waker.wake();
        }
    }
}
