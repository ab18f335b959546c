ghost use Rattle.std.specs.Prelude.{◌≡◌, ℕ, ◌+◌, ◌-◌, ◌≤◌, ◌++◌, Some, [], false, true, length, min, Contains};
ghost use Rattle.std.specs.FinMap.{get};
ghost use Rattle.mea_family.specs.Family.{IsRun, RunOf, KeepsWakers, LosesNoWake, last_waker, wakes_since};
ghost use Rattle.mea_events.specs.declared.chan_event.ChanEvent.{ChanEvent};
ghost use Rattle.mea_chan_model.specs.ChanHall.{ChanHall, ReceiverKind, mail, registered};
ghost use Rattle.mea_chan_model.specs.Meaning.{step, registers};
ghost use Rattle.mea_chan_model.specs.ChanFamily.{chans_family};
ghost use Rattle.mea_chan_model.specs.InOrder.{moved, queued_in};
ghost use Rattle.mea_chan_model.specs.Mailboxes.{Mailbox};
ghost use Rattle.mea_chan_model.specs.Bounded.{BoundedSend};
ghost use Rattle.mea_chan_model.specs.Sends.{sends_family, queue_at, capacity_at, is_granted_at, pending_at, granted_at};

/// A poll of a receiver that replies `pending` places its waker; while that is placed, each further poll of the
/// receiver replies `pending`; and an event that takes it away, and neither polls nor ends the receiver, wakes it. Who
/// is neither polled nor ended lives on, and who is ended does not.
pub fn wakers_are_kept()
    ensures { KeepsWakers chans_family }
{}

/// A living receiver whose last poll replied `pending`, and whose next poll would reply something else, has had the
/// waker of that last poll woken since.
pub fn no_wake_is_lost()
    ensures { (run : RunOf chans_family) → IsRun chans_family run → LosesNoWake chans_family run }
{}

/// An event wakes no more wakers than were registered, registers at most one, and none but a poll registers any.
pub fn wakes_are_of_the_registered()
    ensures most { (h : ChanHall) (i : ℕ) (e : ChanEvent) → length (step h i e).wakes ≤ registered h }
    ensures grows { (h : ChanHall) (i : ℕ) (e : ChanEvent) → registered (step h i e).hall + length (step h i e).wakes ≤ registered h + 1 }
    ensures falls { (h : ChanHall) (i : ℕ) (e : ChanEvent) → registers e ≡ false → registered (step h i e).hall + length (step h i e).wakes ≤ registered h }
{}

/// Messages in order, at every channel of every run: what was accepted is what was received, what fell when the
/// receiver ended, and what is queued, in this order. While the receiver lives nothing has fallen; once it has ended
/// nothing is queued, so that what was queued then is never received.
pub fn messages_are_in_order()
    ensures order { (run : RunOf chans_family) → IsRun chans_family run → (k : ReceiverKind) (o : ℕ) → (moved k o run.trace).accepted ≡ (moved k o run.trace).received ++ ((moved k o run.trace).fallen ++ queued_in (get (mail run.hall k).channels o)) }
    ensures lives { (run : RunOf chans_family) → IsRun chans_family run → (k : ReceiverKind) (o : ℕ) (c : Mailbox) → get (mail run.hall k).channels o ≡ Some c → c.ended ≡ false → (moved k o run.trace).fallen ≡ [] }
    ensures ended { (run : RunOf chans_family) → IsRun chans_family run → (k : ReceiverKind) (o : ℕ) (c : Mailbox) → get (mail run.hall k).channels o ≡ Some c → c.ended ≡ true → c.queued ≡ [] }
{}

/// Enough senders are woken: at every point of every run a pending send of a bounded channel that was granted a place has
/// had the waker of its last poll woken since. While the receiver lives, at least as many are granted as places are free,
/// or all that are pending; once it has ended, all are.
pub fn enough_senders_are_woken()
    ensures woken { (run : RunOf chans_family) → IsRun chans_family run → (f : ℕ) (x : BoundedSend) → get run.hall.bounded.sends f ≡ Some x → is_granted_at (queue_at run.hall.bounded x.channel) x.channel f x ≡ true → (w : ℕ) × (last_waker sends_family run.trace f ≡ Some w) × Contains (wakes_since sends_family run.trace f) w }
    ensures enough { (run : RunOf chans_family) → IsRun chans_family run → (o : ℕ) (c : Mailbox) → get run.hall.bounded.mail.channels o ≡ Some c → c.ended ≡ false → min (capacity_at run.hall.bounded o - length c.queued) (pending_at run.hall.bounded o) ≤ granted_at run.hall.bounded o }
    ensures all { (run : RunOf chans_family) → IsRun chans_family run → (o : ℕ) (c : Mailbox) → get run.hall.bounded.mail.channels o ≡ Some c → c.ended ≡ true → pending_at run.hall.bounded o ≡ granted_at run.hall.bounded o }
{}
