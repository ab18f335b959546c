ghost use Rattle.std.specs.Prelude.{◌≡◌};
ghost use Rattle.mea_share_model.specs.Meaning.{meaning_of};
ghost use Rattle.mea_share.specs.Actions.{meant};

use crate::actions::ShareAction;
use mea_events::ShareEvent;
use mea_family::Form;

/// What this line does. It takes no memory.
pub fn meaning_of(event: &ShareEvent) -> ShareAction
    ensures { meant result ≡ meaning_of event.now }
{
    match *event {
        ShareEvent::FsNew(n) => ShareAction::Make(n),
        ShareEvent::FsFree(s) => ShareAction::Free(s),
        ShareEvent::FsWaiters(s) => ShareAction::Waiters(s),
        ShareEvent::FsTry(s, k) => ShareAction::Try(s, k, Form::Plain),
        ShareEvent::FsTryo(s, k) => ShareAction::Try(s, k, Form::Owned),
        ShareEvent::FsAcq(s, k) => ShareAction::Begin(s, k, Form::Plain),
        ShareEvent::FsAcqo(s, k) => ShareAction::Begin(s, k, Form::Owned),
        ShareEvent::FsPoll(f, waker) => ShareAction::Poll(f, waker),
        ShareEvent::FsKey(p) => ShareAction::Key(p),
        ShareEvent::FsEnd(x) => ShareAction::End(x),
        ShareEvent::FsDrop(s) => ShareAction::Drop(s),
        ShareEvent::FsWeight(s, k, n) => ShareAction::Weigh(s, k, n),
        ShareEvent::FsWeightof(s, k) => ShareAction::Weight(s, k),
    }
}
