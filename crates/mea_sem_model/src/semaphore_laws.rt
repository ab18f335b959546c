ghost use Rattle.std.specs.Prelude.{◌≡◌, ◌≢◌, ℕ, ◌+◌, ◌-◌, ◌<◌, ◌≤◌, Bool, false, List, [], ◌∷◌, ◌++◌, map, Some, None};
ghost use Rattle.std.specs.FinMap as finmap;
ghost use Rattle.mea_base.specs.Queue.{waiting_after, granted_in};
ghost use Rattle.mea_family.specs.declared.answer.Answer.TheVariants as answers;
ghost use Rattle.mea_events.specs.declared.sem_event.SemEvent.TheVariants as events;
ghost use Rattle.mea_sem_model.specs.Hall.{Hall, Future, FutureStage, New, Waiting, Granted, Cut, Who, queue_at, is_closed, paid_to, free, live, owed, pour};
ghost use Rattle.mea_sem_model.specs.Cause.{cause_of};
ghost use Rattle.mea_sem_model.specs.Step.{step, try_of, try_and_forget, leaving, without_future};
ghost use Rattle.mea_sem_model.specs.Valid.{AllLack, IsValid, IsBelow};

/// While somebody waits no permit is free, so that neither a try nor a first poll overtakes; a semaphore
/// that is closed gives neither of them any.
pub fn nobody_overtakes()
    ensures free { (h : Hall) → IsValid h → (s : ℕ) → queue_at h s ≢ [] → free h s ≡ 0 }
    ensures tries { (h : Hall) → IsValid h → (i s n : ℕ) (plain : Bool) → queue_at h s ≢ [] → 0 < n → (try_of h i s n plain).reply ≡ answers.Lacking }
    ensures forgetting { (h : Hall) → IsValid h → (s n : ℕ) → queue_at h s ≢ [] → 0 < n → (try_and_forget h s n).reply ≡ answers.No }
    ensures polls { (h : Hall) → IsValid h → (i f w : ℕ) (x : Future) → finmap.get h.futures f ≡ Some x → x.stage ≡ New → is_closed h x.semaphore ≡ false → queue_at h x.semaphore ≢ [] → 0 < x.demand → (step h i (events.Poll f w)).reply ≡ answers.Pending }
{}

/// Permits are poured to the head first, whole or in part, and those who are granted stood before those
/// who wait on.
pub fn the_head_is_paid_first()
    ensures part { (e : Who × ℕ) (q : List (Who × ℕ)) (n : ℕ) → AllLack q → n < e.1 → waiting_after (e ∷ q) n ≡ (e.0, e.1 - n) ∷ q }
    ensures whole { (e : Who × ℕ) (q : List (Who × ℕ)) (n : ℕ) → e.1 ≤ n → waiting_after (e ∷ q) n ≡ waiting_after q (n - e.1) }
    ensures order { (q : List (Who × ℕ)) (n : ℕ) → AllLack q → granted_in q n ++ map (λ (e : Who × ℕ). e.0) (waiting_after q n) ≡ map (λ (e : Who × ℕ). e.0) q }
{}

/// A future that ends gives back exactly what it was paid, nothing if it was cut, and an end makes no permit and loses none but
/// to debts.
pub fn an_end_gives_back_what_was_paid()
    ensures new { (h : Hall) (i f : ℕ) (x : Future) → finmap.get h.futures f ≡ Some x → x.stage ≡ New → (step h i (events.End f)).hall ≡ without_future h f }
    ensures cut { (h : Hall) (i f : ℕ) (x : Future) → finmap.get h.futures f ≡ Some x → x.stage ≡ Cut → (step h i (events.End f)).hall ≡ without_future h f }
    ensures waiting { (h : Hall) (i f : ℕ) (x : Future) → finmap.get h.futures f ≡ Some x → (w : ℕ) → x.stage ≡ Waiting w → (step h i (events.End f)).hall ≡ pour (leaving h f x) x.semaphore (paid_to (queue_at h x.semaphore) f x.demand x.stage) }
    ensures granted { (h : Hall) (i f : ℕ) (x : Future) → finmap.get h.futures f ≡ Some x → x.stage ≡ Granted → (step h i (events.End f)).hall ≡ pour (without_future h f) x.semaphore (paid_to (queue_at h x.semaphore) f x.demand x.stage) }
    ensures leaving { (h : Hall) → IsValid h → (f w : ℕ) (x : Future) → finmap.get h.futures f ≡ Some x → x.stage ≡ Waiting w → live (leaving h f x) x.semaphore + paid_to (queue_at h x.semaphore) f x.demand x.stage ≡ live h x.semaphore }
    ensures conserves { (h : Hall) (i k : ℕ) → IsValid h → IsBelow h i → cause_of h (events.End k) ≡ None → (s : ℕ) → live (step h i (events.End k)).hall s + owed h s ≡ live h s + owed (step h i (events.End k)).hall s }
{}
