ghost use Rattle.std.specs.Prelude.{ℕ, ◌≡◌, ◌≢◌, ◌<◌, ◌≤◌, ◌==◌, cond, IfSome, IsSome, is_some, None, Some, true, false, OnOk, OnErr, if◌then◌else◌};
ghost use Rattle.std.specs.FinMap as map;
ghost use Rattle.mea_family.specs.Causes.{borrowed_by};
ghost use Rattle.mea_family.specs.Forms.{is_plain};
ghost use Rattle.mea_family.specs.Play.{PartYields};
ghost use Rattle.mea_meet_model.specs.Counts as counts;
ghost use Rattle.mea_meet_model.specs.Counts.{Point, Wait, no_counts, is_holder, is_sender, is_wait, borrowers_of, borrows, registered};
ghost use Rattle.mea_meet_model.specs.CountActions.{is_counted, join_cause, overflow_at, leave_by, cause_in, Make, Number, Try, Now, Arrive, Begin, Join, Watch, Into, EndHolder, Copy, Poll as PollIt, EndWait, EndEither, CopySender, Send, Await, EndSender};
ghost use Rattle.mea_meet_model.specs.Valid.{BorrowNothing};
ghost use Rattle.mea_meet.specs.Actions.{new_seen, count_action, takes_many, lends, IsNewOf, FitsKind};
ghost use Rattle.mea_family.specs.Acts.{ActsQuietly};
ghost use Rattle.mea_meet.specs.CountParts.{given_back};
ghost use Rattle.mea_meet.specs.CountLends.{StandsFor};
ghost use Rattle.mea_meet.specs.Halls.{CountActs, CountActsQuietly};

use crate::actions::CountAction;
use crate::count_core::{CountCore, NumberedCore};
use crate::count_wait::borrowed_if;
use crate::holder_entry::HolderEntry;
use crate::new_point::NewPoint;
use crate::point_entry::PointEntry;
use crate::wait_entry::WaitEntry;
use mea_base::{NoMemory, Poll, Ready};
use mea_by_name::ByName;
use mea_family::{Answer, Form, Reply, Stop, Word, one_if, overflow_if, unknown_unless, yes_if};
use std::alloc::Global;
use std::marker::Model;

/// The meeting points of one kind that count, with their senders, holders and futures, each by the number of the
/// event that made it. Each call costs a few look-ups by name and the wakers that it makes ready.
///
/// A point stays while one of them lives.
#[derive(Drop)]
pub struct CountPart<C: CountCore> {
    points: ByName<PointEntry<C>>,
    // The point of each sender.
    senders: ByName<u64>,
    holders: ByName<HolderEntry>,
    waits: ByName<WaitEntry>,
    // The least number that the next event may have, which may be 2^64.
    next: u128,
    alloc: Global,
}

impl<C: CountCore> Model for CountPart<C> {
    ghost use Rattle.mea_family.specs.Play.{Part, part_code};
    ghost use Rattle.mea_meet_model.specs.Counts.{Counts, counts_code};

    ghost Value = { Part Counts };

    ghost coded = { part_code counts_code };

    ghost use Rattle.mea_meet.specs.CountParts.{counts_seen, AreKeptCounts};

    ghost view = { λ a. record { hall = counts_seen a.points a.senders a.holders a.waits; next = a.next } };

    ghost invariant = { λ a. AreKeptCounts a.points a.senders a.holders a.waits a.next };
}

// A holder is borrowed by one future less.
fn give_back(holders: &mut ByName<HolderEntry>, borrowed: Option<u64>)
    requires { IfSome borrowed (λ k. IfSome (map.get holders.old k) (λ x. 1 ≤ x.borrowers) × IsSome (map.get holders.old k)) }
    ensures { holders.new ≡ given_back holders.old borrowed }
{
    if let Some(k) = borrowed {
        holders.at_mut(k).borrowers -= 1;
    }
}

// Puts a thing at a name, where it is to be there. On an error nothing has changed.
fn insert_if(things: &mut ByName<u64>, put: bool, name: u64, x: u64) -> Result<(), NoMemory>
    ensures ok { OnOk result (things.new ≡ (if put then map.insert things.old name x else things.old)) }
    ensures err { OnErr result (things.new ≡ things.old) }
{
    if put { things.insert(name, x) } else { Ok(()) }
}

impl<C: CountCore> CountPart<C> {
    /// No point. It takes no memory.
    pub fn new(alloc: Global) -> Self
        ensures { result ≡ record { hall = no_counts; next = 0 } }
    {
        CountPart {
            points: ByName::new(alloc),
            senders: ByName::new(alloc),
            holders: ByName::new(alloc),
            waits: ByName::new(alloc),
            next: 0,
            alloc,
        }
    }

    /// The core of a point that is there. It takes no memory.
    pub fn core(&self, o: u64) -> Option<&C>
        ensures there { is_some result ≡ is_some (map.get self.now.hall.points o) }
        ensures stands { IfSome result (λ core. StandsFor self.now.hall o (C.point_of core.now)) }
    {
        let entry = self.points.get(o)?;
        Some(entry.core())
    }

    /// Whether it is a holder. It takes no memory.
    pub fn is_holder(&self, k: u64) -> bool
        ensures { result ≡ is_holder self.now.hall k }
    {
        self.holders.has(k)
    }

    /// Why an action is refused; None where it is not. It takes no memory.
    pub fn cause(&self, action: CountAction) -> Option<Stop>
        ensures { result ≡ cause_in self.now.hall (count_action action) }
    {
        match action {
            CountAction::Make(_) => None,
            CountAction::Now(k) | CountAction::Arrive(k, _) => unknown_unless(self.is_holder(k)),
            CountAction::Begin(k, _) | CountAction::Into(k) => unknown_unless(self.is_holder(k)),
            CountAction::Join(k) => self.cause_of_join(k),
            CountAction::Watch(k) => unknown_unless(self.is_counted(k)),
            CountAction::EndHolder(k) => self.cause_of_end(k),
            CountAction::Copy(f) | CountAction::Poll(f, _) => unknown_unless(self.is_wait(f)),
            CountAction::EndWait(f) => unknown_unless(self.is_wait(f)),
            CountAction::EndEither(x) => unknown_unless(self.is_holder(x) || self.is_wait(x)),
            CountAction::CopySender(s) | CountAction::Send(s) => unknown_unless(self.is_sender(s)),
            CountAction::Await(s) | CountAction::EndSender(s) => unknown_unless(self.is_sender(s)),
        }
    }

    /// Does an action, or finds why it is refused. On an error nothing has changed. Memory is taken for what is made and by a
    /// poll, and by no end.
    pub fn act(
        &mut self,
        number: u64,
        action: CountAction,
        ready: &mut Ready<u64>,
    ) -> Result<Reply, Stop>
        requires next { self.old.next ≤ number }
        requires fits { FitsKind C.kind action }
        requires alone { lends C.kind ≡ false → BorrowNothing self.old.hall }
        requires room { registered self.old.hall ≤ ready.old.registered }
        ensures { CountActs self.old number (count_action action) result self.new ready.old ready.new }
    {
        match action {
            CountAction::Make(new) => self.make(number, new),
            CountAction::Now(k) => self.now(number, k),
            CountAction::Arrive(k, n) => self.arrive(number, k, n, ready),
            CountAction::Begin(k, form) => self.begin(number, k, form),
            CountAction::Join(k) => self.join(number, k),
            CountAction::Watch(k) => self.watch(number, k),
            CountAction::Into(k) => self.into_wait(number, k, ready),
            CountAction::EndHolder(k) => self.end_holder(number, k, ready),
            CountAction::Copy(f) => self.copy(number, f),
            CountAction::Poll(f, waker) => self.poll(number, f, waker, ready),
            CountAction::EndWait(f) => self.end_wait(number, f, ready),
            CountAction::EndEither(x) => self.end_either(number, x, ready),
            CountAction::CopySender(s) => self.copy_sender(number, s),
            CountAction::Send(s) => self.send(number, s, ready),
            CountAction::Await(s) => self.await_members(number, s),
            CountAction::EndSender(s) => self.end_sender(number, s, ready),
        }
    }

    fn is_sender(&self, k: u64) -> bool
        ensures { result ≡ is_sender self.now.hall k }
    {
        self.senders.has(k)
    }

    fn is_wait(&self, f: u64) -> bool
        ensures { result ≡ is_wait self.now.hall f }
    {
        self.waits.has(f)
    }

    // Whether it is a holder that is counted.
    fn is_counted(&self, k: u64) -> bool
        ensures { result ≡ is_counted (map.get self.now.hall.holders k) }
    {
        match self.holders.get(k) {
            Some(holder) => holder.counted,
            None => false,
        }
    }

    // Why a further holder is refused: the one beside it is unknown, or its point counts as many as it can.
    fn cause_of_join(&self, k: u64) -> Option<Stop>
        ensures { result ≡ join_cause self.now.hall (map.get self.now.hall.holders k) }
    {
        match self.holders.get(k) {
            Some(holder) => overflow_if(self.points.at(holder.point).is_full(holder.counted)),
            None => Some(Stop::Unknown),
        }
    }

    // Why the end of a holder is refused: it is unknown, or a plain future borrows it.
    fn cause_of_end(&self, k: u64) -> Option<Stop>
        ensures is { result ≡ borrowed_by (is_holder self.now.hall k) (borrowers_of self.now.hall k) }
        ensures tells { result ≢ Some Stop.NoMemory }
    {
        match self.holders.get(k) {
            Some(holder) => mea_family::borrowed_if(holder.borrowers > 0),
            None => Some(Stop::Unknown),
        }
    }

    // Makes a point, with its first holder, and a sender where it has one. On an error nothing has changed.
    fn make(&mut self, number: u64, new: NewPoint) -> Result<Reply, Stop>
        requires next { self.old.next ≤ number }
        requires fits { IsNewOf C.kind (new_seen new) }
        ensures { CountActsQuietly self.old number (Make (new_seen new)) result self.new }
    {
        let holder = HolderEntry {
            point: number,
            counted: new.counted,
            borrowers: 0,
        };
        let Ok(()) = self.holders.insert(number, holder) else {
            return Err(Stop::NoMemory);
        };
        let Ok(()) = insert_if(&mut self.senders, new.sends, number, number) else {
            let _ = self.holders.remove(number);
            return Err(Stop::NoMemory);
        };
        let entry = PointEntry::new(C::make(self.alloc, new), new.sends);
        let Ok(()) = self.points.insert(number, entry) else {
            let _ = self.holders.remove(number);
            self.senders.remove_if(number, new.sends);
            return Err(Stop::NoMemory);
        };
        self.next = number as u128 + 1;
        Ok(Reply(Word::Made))
    }

    // Tells whether the signal is set. It takes no memory.
    fn now(&mut self, number: u64, k: u64) -> Result<Reply, Stop>
        requires { self.old.next ≤ number }
        ensures { CountActsQuietly self.old number (Now k) result self.new }
    {
        let Some(holder) = self.holders.get(k) else {
            return Err(Stop::Unknown);
        };
        let set = self.points.at(holder.point).core().is_set();
        self.next = number as u128 + 1;
        Ok(yes_if(set))
    }

    // Takes `n` from the signal, by a holder. It takes no memory.
    fn arrive(&mut self, number: u64, k: u64, n: u32, ready: &mut Ready<u64>) -> Result<Reply, Stop>
        requires next { self.old.next ≤ number }
        requires most { takes_many C.kind ≡ true }
        requires room { registered self.old.hall ≤ ready.old.registered }
        ensures { CountActs self.old number (Arrive k n) result self.new ready.old ready.new }
    {
        let Some(holder) = self.holders.get(k) else {
            return Err(Stop::Unknown);
        };
        self.points.at_mut(holder.point).arrive(n, ready);
        self.next = number as u128 + 1;
        Ok(Reply(Word::Done))
    }

    // Sets the signal, by a sender. It takes no memory.
    fn send(&mut self, number: u64, s: u64, ready: &mut Ready<u64>) -> Result<Reply, Stop>
        requires next { self.old.next ≤ number }
        requires room { registered self.old.hall ≤ ready.old.registered }
        ensures { CountActs self.old number (Send s) result self.new ready.old ready.new }
    {
        let Some(o) = self.senders.get(s) else {
            return Err(Stop::Unknown);
        };
        self.points.at_mut(*o).arrive(1, ready);
        self.next = number as u128 + 1;
        Ok(Reply(Word::Done))
    }

    // Makes a future on the signal; a plain one borrows the holder. On an error nothing has changed.
    fn begin(&mut self, number: u64, k: u64, form: Form) -> Result<Reply, Stop>
        requires { self.old.next ≤ number }
        ensures { CountActsQuietly self.old number (Begin k (is_plain form)) result self.new }
    {
        let plain = form.is_plain();
        let Some(holder) = self.holders.get_mut(k) else {
            return Err(Stop::Unknown);
        };
        let future = WaitEntry::on_signal(holder.point, borrowed_if(plain, k));
        let Ok(()) = self.waits.insert(number, future) else {
            return Err(Stop::NoMemory);
        };
        holder.borrowers += one_if(plain);
        self.points.at_mut(holder.point).begin();
        self.next = number as u128 + 1;
        Ok(Reply(Word::Made))
    }

    // Makes a further future on the end of the members, beside another. On an error nothing has changed.
    fn copy(&mut self, number: u64, f: u64) -> Result<Reply, Stop>
        requires { self.old.next ≤ number }
        ensures { CountActsQuietly self.old number (Copy f) result self.new }
    {
        let Some(other) = self.waits.get(f) else {
            return Err(Stop::Unknown);
        };
        let o = other.point;
        let Ok(()) = self.waits.insert(number, WaitEntry::on_members(o)) else {
            return Err(Stop::NoMemory);
        };
        self.points.at_mut(o).begin();
        self.next = number as u128 + 1;
        Ok(Reply(Word::Made))
    }

    // Makes a further holder, counted as the one beside it. On an error nothing has changed.
    fn join(&mut self, number: u64, k: u64) -> Result<Reply, Stop>
        requires { self.old.next ≤ number }
        ensures { CountActsQuietly self.old number (Join k) result self.new }
    {
        let Some(holder) = self.holders.get(k) else {
            return Err(Stop::Unknown);
        };
        let holder = *holder;
        self.add(number, holder.point, holder.counted)
    }

    // Makes a further holder that is not counted, beside one that is. On an error nothing has changed.
    fn watch(&mut self, number: u64, k: u64) -> Result<Reply, Stop>
        requires { self.old.next ≤ number }
        ensures { CountActsQuietly self.old number (Watch k) result self.new }
    {
        let Some(holder) = self.holders.get(k) else {
            return Err(Stop::Unknown);
        };
        if !holder.counted {
            return Err(Stop::Unknown);
        }
        let o = holder.point;
        self.add(number, o, false)
    }

    // Makes a holder of a point, unless that counts as many as it can.
    fn add(&mut self, number: u64, o: u64, counted: bool) -> Result<Reply, Stop>
        requires next { self.old.next ≤ number }
        requires there { IsSome (map.get self.old.hall.points o) }
        requires lives { counted ≡ true → IfSome (map.get self.old.hall.points o) (λ r. 0 < r.members.number) }
        ensures { (r : Point) → map.get self.old.hall.points o ≡ Some r → ActsQuietly registered (if counted then overflow_at r.members.number else None) ⊥ self.old number (counts.join self.old.hall number o counted r) result self.new }
    {
        let entry = self.points.at_mut(o);
        if entry.is_full(counted) {
            return Err(Stop::Overflow);
        }
        let holder = HolderEntry {
            point: o,
            counted,
            borrowers: 0,
        };
        let Ok(()) = self.holders.insert(number, holder) else {
            return Err(Stop::NoMemory);
        };
        entry.join(counted);
        self.next = number as u128 + 1;
        Ok(Reply(Word::Made))
    }

    // Makes a future on the end of the members of a holder, which ends. No future borrows one. On an error nothing has
    // changed.
    fn into_wait(&mut self, number: u64, k: u64, ready: &mut Ready<u64>) -> Result<Reply, Stop>
        requires next { self.old.next ≤ number }
        requires free { BorrowNothing self.old.hall }
        requires room { registered self.old.hall ≤ ready.old.registered }
        ensures { CountActs self.old number (Into k) result self.new ready.old ready.new }
    {
        let Some(holder) = self.holders.get(k) else {
            return Err(Stop::Unknown);
        };
        let holder = *holder;
        let future = WaitEntry::on_members(holder.point);
        let Ok(()) = self.waits.insert(number, future) else {
            return Err(Stop::NoMemory);
        };
        let _ = self.holders.remove(k);
        self.points.at_mut(holder.point).part(holder.counted, ready);
        self.next = number as u128 + 1;
        Ok(Reply(Word::Made))
    }

    // Ends a holder that no future borrows. It takes no memory.
    fn end_holder(&mut self, number: u64, k: u64, ready: &mut Ready<u64>) -> Result<Reply, Stop>
        requires next { self.old.next ≤ number }
        requires room { registered self.old.hall ≤ ready.old.registered }
        ensures { CountActs self.old number (EndHolder k) result self.new ready.old ready.new }
    {
        if let Some(stop) = self.cause_of_end(k) {
            return Err(stop);
        }
        let _ = self.leave(number, k, ready);
        Ok(Reply(Word::Done))
    }

    // Ends a holder that no future borrows, and tells whether it was there. It takes no memory.
    fn leave(&mut self, number: u64, k: u64, ready: &mut Ready<u64>) -> bool
        requires next { self.old.next ≤ number }
        requires free { (f : ℕ) (y : Wait) → map.get self.old.hall.waits f ≡ Some y → borrows y.awaits k ≡ false }
        requires room { registered self.old.hall ≤ ready.old.registered }
        ensures there { result ≡ is_holder self.old.hall k }
        ensures left { result ≡ true → PartYields registered self.old number (leave_by self.old.hall k) Answer.Done self.new ready.old ready.new }
        ensures same { result ≡ false → (self.new ≡ self.old) × (ready.new ≡ ready.old) }
    {
        let Some(holder) = self.holders.take(k) else {
            return false;
        };
        let entry = self.points.at_mut(holder.point);
        entry.part(holder.counted, ready);
        let over = entry.finish(ready);
        self.points.remove_if(holder.point, over);
        self.next = number as u128 + 1;
        true
    }

    // Polls a future, which is gone where it is ready. On an error nothing has changed.
    fn poll(
        &mut self,
        number: u64,
        f: u64,
        waker: u64,
        ready: &mut Ready<u64>,
    ) -> Result<Reply, Stop>
        requires next { self.old.next ≤ number }
        requires room { registered self.old.hall ≤ ready.old.registered }
        ensures { CountActs self.old number (PollIt f waker) result self.new ready.old ready.new }
    {
        let Some(future) = self.waits.get_mut(f) else {
            return Err(Stop::Unknown);
        };
        let o = future.point;
        let entry = self.points.at_mut(o);
        match entry.poll(f, &mut future.wait, waker, ready) {
            Err(_) => Err(Stop::NoMemory),
            Ok(Poll::Pending) => {
                self.next = number as u128 + 1;
                Ok(Reply(Word::Pending))
            }
            Ok(Poll::Ready(())) => {
                give_back(&mut self.holders, future.wait.borrowed());
                let over = entry.finish(ready);
                self.points.remove_if(o, over);
                let _ = self.waits.remove(f);
                self.next = number as u128 + 1;
                Ok(Reply(Word::Ready))
            }
        }
    }

    // Ends a future; its waker stays while its point does. It takes no memory.
    fn end_wait(&mut self, number: u64, f: u64, ready: &mut Ready<u64>) -> Result<Reply, Stop>
        requires next { self.old.next ≤ number }
        requires room { registered self.old.hall ≤ ready.old.registered }
        ensures { CountActs self.old number (EndWait f) result self.new ready.old ready.new }
    {
        let Some(future) = self.waits.take(f) else {
            return Err(Stop::Unknown);
        };
        give_back(&mut self.holders, future.wait.borrowed());
        let over = self.points.at_mut(future.point).finish(ready);
        self.points.remove_if(future.point, over);
        self.next = number as u128 + 1;
        Ok(Reply(Word::Done))
    }

    // Ends a holder, or else a future, where no future borrows a holder. It takes no memory.
    fn end_either(&mut self, number: u64, x: u64, ready: &mut Ready<u64>) -> Result<Reply, Stop>
        requires next { self.old.next ≤ number }
        requires free { BorrowNothing self.old.hall }
        requires room { registered self.old.hall ≤ ready.old.registered }
        ensures { CountActs self.old number (EndEither x) result self.new ready.old ready.new }
    {
        if self.leave(number, x, ready) {
            return Ok(Reply(Word::Done));
        }
        self.end_wait(number, x, ready)
    }

    // Makes a further sender. On an error nothing has changed.
    fn copy_sender(&mut self, number: u64, s: u64) -> Result<Reply, Stop>
        requires { self.old.next ≤ number }
        ensures { CountActsQuietly self.old number (CopySender s) result self.new }
    {
        let Some(o) = self.senders.get(s) else {
            return Err(Stop::Unknown);
        };
        let o = *o;
        let Ok(()) = self.senders.insert(number, o) else {
            return Err(Stop::NoMemory);
        };
        self.points.at_mut(o).begin();
        self.next = number as u128 + 1;
        Ok(Reply(Word::Made))
    }

    // Makes a future on the end of the members of a sender, which ends. On an error nothing has changed.
    fn await_members(&mut self, number: u64, s: u64) -> Result<Reply, Stop>
        requires { self.old.next ≤ number }
        ensures { CountActsQuietly self.old number (Await s) result self.new }
    {
        let Some(o) = self.senders.get(s) else {
            return Err(Stop::Unknown);
        };
        let Ok(()) = self.waits.insert(number, WaitEntry::on_members(*o)) else {
            return Err(Stop::NoMemory);
        };
        let _ = self.senders.remove(s);
        self.next = number as u128 + 1;
        Ok(Reply(Word::Made))
    }

    // Ends a sender. It takes no memory.
    fn end_sender(&mut self, number: u64, s: u64, ready: &mut Ready<u64>) -> Result<Reply, Stop>
        requires next { self.old.next ≤ number }
        requires room { registered self.old.hall ≤ ready.old.registered }
        ensures { CountActs self.old number (EndSender s) result self.new ready.old ready.new }
    {
        let Some(o) = self.senders.take(s) else {
            return Err(Stop::Unknown);
        };
        let over = self.points.at_mut(o).finish(ready);
        self.points.remove_if(o, over);
        self.next = number as u128 + 1;
        Ok(Reply(Word::Done))
    }
}

impl<C: NumberedCore> CountPart<C> {
    /// Tells the count of the signal, or finds why that is refused. It takes no memory.
    pub fn number(&mut self, number: u64, k: u64) -> Result<Reply, Stop>
        requires { self.old.next ≤ number }
        ensures { CountActsQuietly self.old number (Number k) result self.new }
    {
        let Some(holder) = self.holders.get(k) else {
            return Err(Stop::Unknown);
        };
        let count = self.points.at(holder.point).core().number();
        self.next = number as u128 + 1;
        Ok(Reply(Word::Count(count as u64)))
    }

    /// Tells whether the count of the signal is 0, or else how much it is, or finds why that is refused. It takes no memory.
    pub fn try_wait(&mut self, number: u64, k: u64) -> Result<Reply, Stop>
        requires { self.old.next ≤ number }
        ensures { CountActsQuietly self.old number (Try k) result self.new }
    {
        let Some(holder) = self.holders.get(k) else {
            return Err(Stop::Unknown);
        };
        let count = self.points.at(holder.point).core().number();
        self.next = number as u128 + 1;
        Ok(accepted_at(count as u64))
    }
}

// What a try answers.
fn accepted_at(count: u64) -> Reply
    ensures { result ≡ cond (count == 0) Answer.Accepted (Answer.Left count) }
{
    if count == 0 {
        Reply(Word::Accepted)
    } else {
        Reply(Word::Left(count))
    }
}
