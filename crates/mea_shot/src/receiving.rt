ghost use Rattle.std.specs.Prelude.{◌≡◌, ◌⊎◌, [], ◌∷◌, Some, None, IsSome, IsSomeAnd, IfSome, IfOk, IfErr, OnOk, OnErr, IsOk, IsErr, MatchBool, MatchOption};
ghost use Rattle.atomic_table.specs.Table.{rest};
ghost use Rattle.mea_shot.specs.Steps.{IsOn, IsOver, FindsNothing, IsUnpublished, IsPublished, MayEnd};
ghost use Rattle.mea_shot.specs.declared.view.View.TheVariants.{Receives};
ghost use Rattle.mea_shot.specs.declared.view.RecvStage.TheVariants.{Waiting, Holding, Published, Woken, Full, Received, Closed, Ended};

use crate::message::{Content, Message};
use crate::sending::{message_out, waker_out};
use crate::steps::{Board, close, grasp, look, publish, reclaim, take_slot};
use crate::view::View;
use atomic_table::Seat;
use mea_base::Wake;

// The message of a seat that has seen it.
pub(crate) fn take<T: Message, W>(
    board: &Board<T, W>,
    seat: &mut Seat<Option<Content<T, W>>, View<W>>,
) -> T
    requires board { IsOn seat.old.table_id board.now.shared.table_id }
    requires stage { seat.old.me.0 ≡ Receives Full }
    ensures board { seat.new.table_id ≡ seat.old.table_id }
    ensures stage { seat.new.me.0 ≡ Receives Received }
    ensures next { IsUnpublished seat.new.me }
    ensures fits { T.fits result }
{
    take_slot(board, seat);
    message_out(board, seat)
}

// Publishes the waker from a seat that holds its slot.
fn publish_on<T: Message + Drop, W: Wake + Drop>(
    board: &Board<T, W>,
    seat: &mut Seat<Option<Content<T, W>>, View<W>>,
    waker: W,
) -> Option<Option<T>>
    requires board { IsOn seat.old.table_id board.now.shared.table_id }
    requires held { (y : _) × (seat.old.me ≡ (Receives Holding, (1, y) ∷ [])) }
    ensures board { seat.new.table_id ≡ seat.old.table_id }
    ensures pending { result ≡ None → seat.new.me ≡ (Receives (Published waker), []) }
    ensures fits { IfSome result (λ r. IfSome r (λ m. T.fits m)) }
    ensures taken { IfSome result (λ r. IfSome r (λ m. seat.new.me.0 ≡ Receives Received)) }
    ensures nothing { result ≡ Some None → seat.new.me.0 ≡ Receives Closed }
    ensures next { MatchOption result (IsPublished seat.new.me) (λ r. IsUnpublished seat.new.me) }
{
    let _old = board.shared.exchange(seat, 1, Some(Content::Waker(waker)));
    let found = publish(board, seat);
    if found == 3 {
        return None;
    }
    let _waker = waker_out(board, seat);
    if found == 4 {
        return Some(Some(take(board, seat)));
    }
    Some(None)
}

// Polls a seat whose waker is not out.
pub(crate) fn poll_unpublished<T: Message + Drop, W: Wake + Drop>(
    board: &Board<T, W>,
    seat: &mut Seat<Option<Content<T, W>>, View<W>>,
    waker: W,
) -> Option<Option<T>>
    requires board { IsOn seat.old.table_id board.now.shared.table_id }
    requires stage { IsUnpublished seat.old.me }
    ensures board { seat.new.table_id ≡ seat.old.table_id }
    ensures pending { result ≡ None → seat.new.me ≡ (Receives (Published waker), []) }
    ensures full { seat.old.me.0 ≡ Receives Full → IsSomeAnd result (λ r. IsSome r) }
    ensures fits { IfSome result (λ r. IfSome r (λ m. T.fits m)) }
    ensures taken { IfSome result (λ r. IfSome r (λ m. seat.new.me.0 ≡ Receives Received)) }
    ensures nothing { result ≡ Some None → FindsNothing seat.old.me.0 seat.new.me.0 }
    ensures over { IsOver seat.old.me.0 → (result ≡ Some None) × (seat.new.me ≡ seat.old.me) }
    ensures next { MatchOption result (IsPublished seat.new.me) (λ r. IsUnpublished seat.new.me) }
{
    let found = grasp(board, seat);
    if found == 2 {
        return Some(None);
    }
    if found == 4 {
        return Some(Some(take(board, seat)));
    }
    publish_on(board, seat, waker)
}

// Polls a seat whose waker is out.
pub(crate) fn poll_published<T: Message + Drop, W: Wake + Drop>(
    board: &Board<T, W>,
    seat: &mut Seat<Option<Content<T, W>>, View<W>>,
    waker: W,
) -> Option<Option<T>>
    requires board { IsOn seat.old.table_id board.now.shared.table_id }
    requires stage { IsPublished seat.old.me }
    ensures board { seat.new.table_id ≡ seat.old.table_id }
    ensures pending { result ≡ None → (seat.new.me ≡ (Receives (Published waker), [])) ⊎ (seat.new.me ≡ (Receives Woken, [])) }
    ensures fits { IfSome result (λ r. IfSome r (λ m. T.fits m)) }
    ensures taken { IfSome result (λ r. IfSome r (λ m. seat.new.me.0 ≡ Receives Received)) }
    ensures nothing { result ≡ Some None → seat.new.me.0 ≡ Receives Closed }
    ensures next { MatchOption result (IsPublished seat.new.me) (λ r. IsUnpublished seat.new.me) }
{
    let found = reclaim(board, seat);
    if found == 0 {
        return publish_on(board, seat, waker);
    }
    if found == 1 {
        waker.wake();
        return None;
    }
    if found == 4 {
        return Some(Some(take(board, seat)));
    }
    Some(None)
}

// Ends a seat that may end at once.
pub(crate) fn end_unpublished<T: Message + Drop, W: Drop>(
    board: &Board<T, W>,
    seat: &mut Seat<Option<Content<T, W>>, View<W>>,
)
    requires board { IsOn seat.old.table_id board.now.shared.table_id }
    requires stage { MayEnd seat.old.me }
    ensures stage { seat.new.me.0 ≡ Receives Ended }
{
    if close(board, seat) {
        let _message = message_out(board, seat);
    }
}
