ghost use Rattle.std.specs.Prelude.{◌≡◌, ◌≢◌, ℕ, ◌+◌, Bool, true, Some, None};
ghost use Rattle.std.specs.FinMap as finmap;
ghost use Rattle.mea_family.specs.declared.answer.Answer.TheVariants as answers;
ghost use Rattle.mea_events.specs.declared.sem_event.SemEvent.{SemEvent};
ghost use Rattle.mea_events.specs.declared.sem_event.SemEvent.TheVariants as events;
ghost use Rattle.mea_sem_model.specs.Hall.{Hall, Future, Waiting, Granted, Cut, is_closed, staged, live, owed};
ghost use Rattle.mea_sem_model.specs.Cause.{cause_of};
ghost use Rattle.mea_sem_model.specs.Step.{step, quietly, refusing, try_of, try_and_forget};
ghost use Rattle.mea_sem_model.specs.Valid.{IsValid, IsBelow};

/// A close cuts each future that waits, and what those were paid is poured: a close makes no permit and
/// loses none but to debts.
pub fn a_close_cuts_who_waits()
    ensures closes { (h : Hall) (i s : ℕ) → is_closed (step h i (events.Close s)).hall s ≡ true }
    ensures cuts { (h : Hall) (i s f w : ℕ) (x : Future) → IsValid h → finmap.get h.futures f ≡ Some x → x.semaphore ≡ s → x.stage ≡ Waiting w → finmap.get (step h i (events.Close s)).hall.futures f ≡ Some (staged Cut x) }
    ensures conserves { (h : Hall) (i k : ℕ) → IsValid h → IsBelow h i → cause_of h (events.Close k) ≡ None → (s : ℕ) → live (step h i (events.Close k)).hall s + owed h s ≡ live h s + owed (step h i (events.Close k)).hall s }
{}

/// A closed semaphore stays closed. None of its futures is granted that was not granted before, and a poll
/// of such a one replies `gone` and takes the future away, and nothing else. A try gets nothing of it.
pub fn a_closed_semaphore_stays_closed()
    ensures stays { (h : Hall) (i : ℕ) (e : SemEvent) → IsBelow h i → (s : ℕ) → is_closed h s ≡ true → is_closed (step h i e).hall s ≡ true }
    ensures grants { (h : Hall) (i : ℕ) (e : SemEvent) → IsValid h → IsBelow h i → cause_of h e ≡ None → (f : ℕ) (x y : Future) → finmap.get h.futures f ≡ Some x → is_closed h x.semaphore ≡ true → finmap.get (step h i e).hall.futures f ≡ Some y → y.stage ≡ Granted → x.stage ≡ Granted }
    ensures refuses { (h : Hall) (i f w : ℕ) (x : Future) → IsValid h → finmap.get h.futures f ≡ Some x → is_closed h x.semaphore ≡ true → x.stage ≢ Granted → step h i (events.Poll f w) ≡ refusing h f }
    ensures tries { (h : Hall) (i s n : ℕ) (plain : Bool) → is_closed h s ≡ true → try_of h i s n plain ≡ quietly h answers.Lacking }
    ensures forgetting { (h : Hall) (s n : ℕ) → is_closed h s ≡ true → try_and_forget h s n ≡ quietly h answers.No }
{}
