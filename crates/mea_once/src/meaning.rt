ghost use Rattle.std.specs.Prelude.{◌≡◌};
ghost use Rattle.mea_once_model.specs.Meaning.{meaning_of};
ghost use Rattle.mea_once.specs.Actions.{meant, FitsMeaning};

use crate::actions::{TableAction, TurnAction, ValueAction, WholeAction};
use mea_events::OnceEvent;
use mea_once_model::{Errand, Initialiser, WholeUse};

/// What a line does, and to which kind of things.
#[derive(Clone, Copy)]
pub enum Meaning {
    /// Something to calls that run once.
    Onces(TurnAction),
    /// Something to cells that is done to calls that run once too.
    Cells(TurnAction),
    /// Something to cells alone.
    OnlyCells(WholeAction),
    /// Something to maps that is done to groups too.
    Maps(TableAction),
    /// Something to maps alone.
    OnlyMaps(ValueAction),
    /// Something to groups.
    Groups(TableAction),
}

/// What this line does. It takes no memory.
pub fn meaning_of(event: &OnceEvent) -> Meaning
    ensures means { meant result ≡ meaning_of event.now }
    ensures fits { FitsMeaning result }
{
    match *event {
        OnceEvent::OnNew => Meaning::Onces(TurnAction::Make),
        OnceEvent::OnDone(o) => Meaning::Onces(TurnAction::TellFull(o)),
        OnceEvent::OnCall(o) => Meaning::Onces(TurnAction::Begin(
            o,
            Errand::Calls(Initialiser::Unsettled),
        )),
        OnceEvent::OnWait(o) => Meaning::Onces(TurnAction::Begin(o, Errand::Awaits)),
        OnceEvent::OnPoll(f, waker) => Meaning::Onces(TurnAction::Poll(f, waker)),
        OnceEvent::OnSettle(f) => Meaning::Onces(TurnAction::Settle(f, Initialiser::Gives(0))),
        OnceEvent::OnEnd(f) => Meaning::Onces(TurnAction::End(f)),
        OnceEvent::OnDrop(o) => Meaning::Onces(TurnAction::Drop(o)),
        OnceEvent::OcNew => Meaning::Cells(TurnAction::Make),
        OnceEvent::OcFrom(v) => Meaning::OnlyCells(WholeAction::MakeFull(v)),
        OnceEvent::OcGet(c) => Meaning::Cells(TurnAction::Tell(c)),
        OnceEvent::OcInit(c) => Meaning::Cells(TurnAction::Begin(
            c,
            Errand::Computes(Initialiser::Unsettled),
        )),
        OnceEvent::OcSet(c, v) => Meaning::Cells(TurnAction::Begin(c, Errand::Sets(v))),
        OnceEvent::OcIns(c, v) => Meaning::Cells(TurnAction::Begin(c, Errand::Inserts(v))),
        OnceEvent::OcMinit(c) => Meaning::Cells(TurnAction::Begin(
            c,
            Errand::Alone(Initialiser::Unsettled),
        )),
        OnceEvent::OcPoll(f, waker) => Meaning::Cells(TurnAction::Poll(f, waker)),
        OnceEvent::OcSettle(f, v) => Meaning::Cells(TurnAction::Settle(f, Initialiser::Gives(v))),
        OnceEvent::OcFail(f, e) => Meaning::Cells(TurnAction::Settle(f, Initialiser::Fails(e))),
        OnceEvent::OcEnd(f) => Meaning::Cells(TurnAction::End(f)),
        OnceEvent::OcPeek(c) => Meaning::OnlyCells(WholeAction::Use(c, WholeUse::Tells)),
        OnceEvent::OcPut(c, v) => Meaning::OnlyCells(WholeAction::Use(c, WholeUse::Writes(v))),
        OnceEvent::OcTake(c) => Meaning::OnlyCells(WholeAction::Use(c, WholeUse::Takes)),
        OnceEvent::OcInto(c) => Meaning::OnlyCells(WholeAction::TakeOut(c)),
        OnceEvent::OcDrop(c) => Meaning::Cells(TurnAction::Drop(c)),
        OnceEvent::OmNew => Meaning::Maps(TableAction::Make),
        OnceEvent::OmGet(m, key) => Meaning::OnlyMaps(ValueAction::Tell(m, key)),
        OnceEvent::OmCompute(m, key) => Meaning::Maps(TableAction::Begin(m, key)),
        OnceEvent::OmPoll(f, waker) => Meaning::Maps(TableAction::Poll(f, waker)),
        OnceEvent::OmSettle(f, v) => Meaning::Maps(TableAction::Settle(f, Initialiser::Gives(v))),
        OnceEvent::OmFail(f, e) => Meaning::Maps(TableAction::Settle(f, Initialiser::Fails(e))),
        OnceEvent::OmDiscard(m, key) => Meaning::Maps(TableAction::Discard(m, key)),
        OnceEvent::OmRemove(m, key) => Meaning::OnlyMaps(ValueAction::Remove(m, key)),
        OnceEvent::OmEnd(f) => Meaning::Maps(TableAction::End(f)),
        OnceEvent::OmDrop(m) => Meaning::Maps(TableAction::Drop(m)),
        OnceEvent::SfNew => Meaning::Groups(TableAction::Make),
        OnceEvent::SfWork(g, key) => Meaning::Groups(TableAction::Begin(g, key)),
        OnceEvent::SfPoll(f, waker) => Meaning::Groups(TableAction::Poll(f, waker)),
        OnceEvent::SfSettle(f, v) => Meaning::Groups(TableAction::Settle(f, Initialiser::Gives(v))),
        OnceEvent::SfFail(f, e) => Meaning::Groups(TableAction::Settle(f, Initialiser::Fails(e))),
        OnceEvent::SfForget(g, key) => Meaning::Groups(TableAction::Discard(g, key)),
        OnceEvent::SfEnd(f) => Meaning::Groups(TableAction::End(f)),
        OnceEvent::SfDrop(g) => Meaning::Groups(TableAction::Drop(g)),
    }
}
