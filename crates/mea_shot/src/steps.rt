ghost use Rattle.std.specs.Prelude.{◌≡◌, ◌≢◌, ◌⊎◌, [], ◌∷◌, Some, None, MatchBool, nat_eq, cond, true, false};
ghost use Rattle.mea_shot.specs.Rule.{Holds};
ghost use Rattle.mea_shot.specs.Steps.{IsOn, opens, asks, puts, finishes, flips, leaves, looks, grasps, publishes, reclaims, takes_message, closes, IsSender, IsWriting, writing_stage, IsOver, FindsNothing, IsUnpublished, IsPublished, MayEnd};
ghost use Rattle.mea_shot.specs.declared.view.View.TheVariants.{Whole, Sends, Receives};
ghost use Rattle.mea_shot.specs.declared.view.SendStage.TheVariants.{Ready, Shut, Writing, WritingShut, Finishing, Leaving, Refused, Gone};
ghost use Rattle.mea_shot.specs.declared.view.SendStage.TheVariants.{Sent as SentStage};
ghost use Rattle.mea_shot.specs.declared.view.RecvStage.TheVariants.{Waiting, Holding, Published, Woken, Full, Received, Closed, Ended};

use crate::message::{Content, Message};
use crate::view::View;
use atomic_table::{Play, Seat, Split, Table, TableRule};
use std::alloc::Global;

pub(crate) type Board<T, W> = Table<Option<Content<T, W>>, View<W>, (), Protocol, Global>;

pub(crate) struct Protocol;

impl<T: Message, W> TableRule<Option<Content<T, W>>, View<W>, ()> for Protocol {
    ghost holds = { λ _. Holds T.fits };

    ghost first = { λ _. Whole };
}

pub(crate) struct Ends;

impl<W> Split<View<W>> for Ends {
    ghost left = { λ _. Sends Ready };

    ghost right = { λ _. Receives Waiting };
}

pub(crate) struct Opens;

impl<T: Message, W> Play<Option<Content<T, W>>, View<W>> for Opens {
    ghost then = { opens T.fits };
}

pub(crate) struct Asks;

impl<T: Message, W> Play<Option<Content<T, W>>, View<W>> for Asks {
    ghost then = { asks T.fits };
}

pub(crate) struct Puts;

impl<T: Message, W> Play<Option<Content<T, W>>, View<W>> for Puts {
    ghost then = { puts T.fits };
}

pub(crate) struct Finishes;

impl<T: Message, W> Play<Option<Content<T, W>>, View<W>> for Finishes {
    ghost then = { finishes T.fits };
}

pub(crate) struct Flips;

impl<T: Message, W> Play<Option<Content<T, W>>, View<W>> for Flips {
    ghost then = { flips T.fits };
}

pub(crate) struct Leaves;

impl<T: Message, W> Play<Option<Content<T, W>>, View<W>> for Leaves {
    ghost then = { leaves T.fits };
}

pub(crate) struct Looks;

impl<T: Message, W> Play<Option<Content<T, W>>, View<W>> for Looks {
    ghost then = { looks T.fits };
}

pub(crate) struct Grasps;

impl<T: Message, W> Play<Option<Content<T, W>>, View<W>> for Grasps {
    ghost then = { grasps T.fits };
}

pub(crate) struct Publishes;

impl<T: Message, W> Play<Option<Content<T, W>>, View<W>> for Publishes {
    ghost then = { publishes T.fits };
}

pub(crate) struct Reclaims;

impl<T: Message, W> Play<Option<Content<T, W>>, View<W>> for Reclaims {
    ghost then = { reclaims T.fits };
}

pub(crate) struct TakesMessage;

impl<T: Message, W> Play<Option<Content<T, W>>, View<W>> for TakesMessage {
    ghost then = { takes_message T.fits };
}

pub(crate) struct Closes;

impl<T: Message, W> Play<Option<Content<T, W>>, View<W>> for Closes {
    ghost then = { closes T.fits };
}

// The first seat becomes the sender's, and a new one the receiver's.
pub(crate) fn split<T: Message, W>(
    board: &Board<T, W>,
    seat: &mut Seat<Option<Content<T, W>>, View<W>>,
) -> Seat<Option<Content<T, W>>, View<W>>
    requires board { IsOn seat.old.table_id board.now.shared.table_id }
    requires seat { seat.old.me ≡ (Whole, []) }
    ensures board { seat.new.table_id ≡ seat.old.table_id }
    ensures new { result.table_id ≡ seat.old.table_id }
    ensures views { (seat.new.me ≡ (Sends Ready, [])) × (result.me ≡ (Receives Waiting, [])) }
{
    board.shared.split_seat::<Ends>(seat)
}

// The sender takes the slot of the message.
pub(crate) fn open<T: Message, W>(
    board: &Board<T, W>,
    seat: &mut Seat<Option<Content<T, W>>, View<W>>,
)
    requires board { IsOn seat.old.table_id board.now.shared.table_id }
    requires stage { IsSender seat.old.me.0 }
    requires empty { seat.old.me.1 ≡ [] }
    ensures board { seat.new.table_id ≡ seat.old.table_id }
    ensures seat { seat.new.me ≡ (writing_stage seat.old.me.0, (0, None) ∷ []) }
{
    board.shared.load::<Opens>(seat, 0);
}

// The sender asks whether the receiver is gone.
pub(crate) fn ask<T: Message, W>(
    board: &Board<T, W>,
    seat: &mut Seat<Option<Content<T, W>>, View<W>>,
) -> bool
    requires board { IsOn seat.old.table_id board.now.shared.table_id }
    requires stage { IsSender seat.old.me.0 }
    requires empty { seat.old.me.1 ≡ [] }
    ensures board { seat.new.table_id ≡ seat.old.table_id }
    ensures seat { seat.new.me ≡ (cond result (Sends Shut) seat.old.me.0, []) }
    ensures stays { seat.old.me.0 ≡ Sends Shut → result ≡ true }
{
    board.shared.load::<Asks>(seat, 0) == 2
}

// The sender adds 1.
pub(crate) fn put<T: Message, W>(
    board: &Board<T, W>,
    seat: &mut Seat<Option<Content<T, W>>, View<W>>,
) -> u64
    requires board { IsOn seat.old.table_id board.now.shared.table_id }
    requires stage { IsWriting seat.old.me.0 }
    requires held { (x : T) × T.fits x × (seat.old.me.1 ≡ (0, Some (Content.Message x)) ∷ []) }
    ensures board { seat.new.table_id ≡ seat.old.table_id }
    ensures seat { MatchBool (nat_eq result 3) ((seat.old.me.0 ≡ Sends Writing) × (seat.new.me ≡ (Sends SentStage, []))) (MatchBool (nat_eq result 0) ((seat.old.me.0 ≡ Sends Writing) × ((w : W) × (seat.new.me ≡ (Sends Finishing, (1, Some (Content.Waker w)) ∷ seat.old.me.1)))) ((result ≡ 2) × (seat.new.me ≡ (Sends Refused, seat.old.me.1)))) }
{
    board.shared.fetch_add::<Puts>(seat, 0, 1)
}

// The sender tells that the message is there. True where the receiver waits for it.
pub(crate) fn finish<T: Message, W>(
    board: &Board<T, W>,
    seat: &mut Seat<Option<Content<T, W>>, View<W>>,
) -> bool
    requires board { IsOn seat.old.table_id board.now.shared.table_id }
    requires seat { (x : T) × (y : _) × T.fits x × (seat.old.me ≡ (Sends Finishing, (0, Some (Content.Message x)) ∷ (1, y) ∷ [])) }
    ensures board { seat.new.table_id ≡ seat.old.table_id }
    ensures seat { MatchBool result (seat.new.me.0 ≡ Sends SentStage) (seat.new.me ≡ (Sends Refused, seat.old.me.1)) }
{
    board.shared.swap::<Finishes>(seat, 0, 4) == 1
}

// The sender flips the last bit. True where a waker waited.
pub(crate) fn flip<T: Message, W>(
    board: &Board<T, W>,
    seat: &mut Seat<Option<Content<T, W>>, View<W>>,
) -> bool
    requires board { IsOn seat.old.table_id board.now.shared.table_id }
    requires stage { IsSender seat.old.me.0 }
    requires empty { seat.old.me.1 ≡ [] }
    ensures board { seat.new.table_id ≡ seat.old.table_id }
    ensures seat { MatchBool result ((w : W) × (seat.new.me ≡ (Sends Leaving, (1, Some (Content.Waker w)) ∷ []))) (seat.new.me.0 ≡ Sends Gone) }
{
    board.shared.fetch_xor::<Flips>(seat, 0, 1) == 0
}

// The sender, with the waker taken out, goes. True where the receiver is there.
pub(crate) fn leave<T: Message, W>(
    board: &Board<T, W>,
    seat: &mut Seat<Option<Content<T, W>>, View<W>>,
) -> bool
    requires board { IsOn seat.old.table_id board.now.shared.table_id }
    requires seat { (y : _) × (seat.old.me ≡ (Sends Leaving, (1, y) ∷ [])) }
    ensures board { seat.new.table_id ≡ seat.old.table_id }
    ensures seat { seat.new.me.0 ≡ Sends Gone }
{
    board.shared.swap::<Leaves>(seat, 0, 2) == 1
}

// The receiver reads the word.
pub(crate) fn look<T: Message, W>(
    board: &Board<T, W>,
    seat: &mut Seat<Option<Content<T, W>>, View<W>>,
) -> u64
    requires board { IsOn seat.old.table_id board.now.shared.table_id }
    requires seat { IsUnpublished seat.old.me }
    ensures board { seat.new.table_id ≡ seat.old.table_id }
    ensures seat { MatchBool (nat_eq result 2) (FindsNothing seat.old.me.0 seat.new.me.0 × (seat.new.me.1 ≡ seat.old.me.1)) (MatchBool (nat_eq result 4) (seat.new.me ≡ (Receives Full, seat.old.me.1)) ((result ≡ 3) × (seat.old.me ≡ (Receives Waiting, [])) × (seat.new.me ≡ seat.old.me))) }
    ensures full { seat.old.me.0 ≡ Receives Full → result ≡ 4 }
    ensures over { IsOver seat.old.me.0 → (result ≡ 2) × (seat.new.me ≡ seat.old.me) }
{
    board.shared.load::<Looks>(seat, 0)
}

// The receiver reads the word, and takes the waker's slot where it is empty.
pub(crate) fn grasp<T: Message, W>(
    board: &Board<T, W>,
    seat: &mut Seat<Option<Content<T, W>>, View<W>>,
) -> u64
    requires board { IsOn seat.old.table_id board.now.shared.table_id }
    requires seat { IsUnpublished seat.old.me }
    ensures board { seat.new.table_id ≡ seat.old.table_id }
    ensures seat { MatchBool (nat_eq result 2) (FindsNothing seat.old.me.0 seat.new.me.0 × (seat.new.me.1 ≡ seat.old.me.1)) (MatchBool (nat_eq result 4) (seat.new.me ≡ (Receives Full, seat.old.me.1)) ((result ≡ 3) × (seat.new.me ≡ (Receives Holding, (1, None) ∷ [])))) }
    ensures full { seat.old.me.0 ≡ Receives Full → result ≡ 4 }
    ensures over { IsOver seat.old.me.0 → (result ≡ 2) × (seat.new.me ≡ seat.old.me) }
{
    board.shared.load::<Grasps>(seat, 0)
}

// The receiver puts its waker out, where the word is empty.
pub(crate) fn publish<T: Message, W>(
    board: &Board<T, W>,
    seat: &mut Seat<Option<Content<T, W>>, View<W>>,
) -> u64
    requires board { IsOn seat.old.table_id board.now.shared.table_id }
    requires seat { (w : W) × (seat.old.me ≡ (Receives Holding, (1, Some (Content.Waker w)) ∷ [])) }
    ensures board { seat.new.table_id ≡ seat.old.table_id }
    ensures seat { MatchBool (nat_eq result 3) ((w : W) × (seat.old.me.1 ≡ (1, Some (Content.Waker w)) ∷ []) × (seat.new.me ≡ (Receives (Published w), []))) (MatchBool (nat_eq result 4) (seat.new.me ≡ (Receives Full, seat.old.me.1)) ((result ≡ 2) × (seat.new.me ≡ (Receives Closed, seat.old.me.1)))) }
{
    board.shared.compare_exchange::<Publishes>(seat, 0, 3, 0)
}

// The receiver takes its waker back, where the sender does not have it.
pub(crate) fn reclaim<T: Message, W>(
    board: &Board<T, W>,
    seat: &mut Seat<Option<Content<T, W>>, View<W>>,
) -> u64
    requires board { IsOn seat.old.table_id board.now.shared.table_id }
    requires seat { IsPublished seat.old.me }
    ensures board { seat.new.table_id ≡ seat.old.table_id }
    ensures seat { MatchBool (nat_eq result 0) ((w : W) × (seat.new.me ≡ (Receives Holding, (1, Some (Content.Waker w)) ∷ []))) (MatchBool (nat_eq result 1) (seat.new.me ≡ (Receives Woken, [])) (MatchBool (nat_eq result 4) (seat.new.me ≡ (Receives Full, [])) ((result ≡ 2) × (seat.new.me ≡ (Receives Closed, []))))) }
{
    board.shared.compare_exchange::<Reclaims>(seat, 0, 0, 3)
}

// The receiver takes the slot of the message that it has seen.
pub(crate) fn take_slot<T: Message, W>(
    board: &Board<T, W>,
    seat: &mut Seat<Option<Content<T, W>>, View<W>>,
)
    requires board { IsOn seat.old.table_id board.now.shared.table_id }
    requires seat { seat.old.me.0 ≡ Receives Full }
    ensures board { seat.new.table_id ≡ seat.old.table_id }
    ensures seat { (x : T) × T.fits x × (seat.new.me ≡ (Receives Received, (0, Some (Content.Message x)) ∷ seat.old.me.1)) }
{
    board.shared.swap::<TakesMessage>(seat, 0, 2);
}

// The receiver ends. True where a message is left, whose slot it then has.
pub(crate) fn close<T: Message, W>(
    board: &Board<T, W>,
    seat: &mut Seat<Option<Content<T, W>>, View<W>>,
) -> bool
    requires board { IsOn seat.old.table_id board.now.shared.table_id }
    requires seat { MayEnd seat.old.me }
    ensures board { seat.new.table_id ≡ seat.old.table_id }
    ensures seat { MatchBool result ((x : T) × (seat.new.me ≡ (Receives Ended, (0, Some (Content.Message x)) ∷ seat.old.me.1))) (seat.new.me ≡ (Receives Ended, seat.old.me.1)) }
{
    board.shared.swap::<Closes>(seat, 0, 2) == 4
}
