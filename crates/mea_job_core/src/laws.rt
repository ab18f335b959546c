ghost use Rattle.std.specs.Prelude.{◌≡◌, ◌++◌, ℕ, false, List, Some, None};
ghost use Rattle.std.specs.FinMap.{empty, entries, get};
ghost use Rattle.mea_job_core.specs.Calls.{Call, number_given, IsNewIn, AreNewFrom, called, answer_in, all_called, called_on, answer_of, all_called_on, all_handed, AddsAtMostOne};
ghost use Rattle.mea_job_core.specs.Record.{Record, new_record, stops, kept_of, queued_in};
ghost use Rattle.mea_by_name.specs.ByName.{Names, seen};
ghost use Rattle.mea_job_core.specs.Runs.{GoesFirst, Becomes, Calls, History, IsSettled};
ghost use Rattle.mea_job_core.specs.Work.{Submission, next_of};
ghost use Rattle.mea_job_core.specs.Service.{Service, new_service, after_finish, after_stop};

/// A core stands for the record of all jobs: after every list of calls it keeps what it keeps of the record, and its next
/// answer is the one that the record has. Each call gives a number that is above those before it, if it gives one.
pub fn a_core_stands_for_the_record<W>()
    ensures calls { (permits most_queued results : ℕ) (calls : List (Call W)) → AreNewFrom 0 calls
        → kept_of (all_called (new_record permits most_queued results) calls) ≡ all_called_on (new_service permits most_queued results) calls }
    ensures call { (r : Record W) (call : Call W) → IsNewIn r (number_given call) → kept_of (called r call) ≡ called_on (kept_of r) call }
    ensures answer { (r : Record W) (call : Call W) → answer_in r call ≡ answer_of (kept_of r) call }
{}

/// A finish and a stop make at most one waker ready.
pub fn a_call_wakes_at_most_one<W>()
    ensures finish { (s : Service W) (n outcome : ℕ) → AddsAtMostOne s.wakes (after_finish s n outcome).wakes }
    ensures stop { (s : Service W) → AddsAtMostOne s.wakes (after_stop s).wakes }
{}

/// Who starts: the next of some queued jobs is one of them, and its key has the fewest running jobs, and among these its
/// number is the least.
pub fn the_key_with_fewest_running_jobs_starts()
    ensures there { (q : Names Submission) (running : Names ℕ) (job : ℕ × Submission) → next_of q running ≡ Some job → get q job.0 ≡ Some job.1 }
    ensures first { (q : Names Submission) (running : Names ℕ) (job : ℕ × Submission) → next_of q running ≡ Some job → (j : ℕ) (x : Submission) → get q j ≡ Some x → GoesFirst running job (j, x) }
{}

/// Results are taken in the order of the finishes, each once: over every list of calls the finished ones are those that
/// were taken and those that were not, in this order.
pub fn results_are_in_order<W>()
    ensures { (r : Record W) (finished taken : List (ℕ × ℕ)) → History r finished taken → finished ≡ taken ++ r.results }
{}

/// Each accepted job has one state, and goes from queued to running or returned, from running to finished, and by no other
/// way: so it is at each call after every list of calls.
pub fn jobs_go_forward<W>()
    ensures { (r r' : Record W) (finished taken finished' taken' : List (ℕ × ℕ)) → History r finished taken → Calls r r' finished' taken' → (n : ℕ) → Becomes (get r.jobs n) (get r'.jobs n) }
{}

/// No permit is free while a job is queued, over every list of calls.
pub fn no_permit_is_free_while_a_job_is_queued<W>()
    ensures { (r : Record W) (finished taken : List (ℕ × ℕ)) → History r finished taken → IsSettled r }
{}

/// At the stop each queued job is returned and is to be handed back with its value.
pub fn a_stop_loses_no_job<W>()
    ensures back { (r : Record W) → r.stopped ≡ false → (n : ℕ) (q : Submission) → get (queued_in r.jobs) n ≡ Some q → get (stops r).back n ≡ Some q.value }
    ensures none { (r : Record W) → r.stopped ≡ false → queued_in (stops r).jobs ≡ empty }
{}

/// Each job comes back from a stop once: over every list of calls after it the jobs that were queued are those that were
/// handed back and those that still are to be, in this order, which is that of their numbers.
pub fn each_job_comes_back_once<W>()
    ensures { (r : Record W) (calls : List (Call W)) → r.stopped ≡ false
        → entries (seen (λ (q : Submission). q.value) (queued_in r.jobs)) ≡ all_handed (stops r) calls ++ entries (all_called (stops r) calls).back }
{}
