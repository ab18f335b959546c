//! Scripts as tables, played on the hall of one family.
ghost use Rattle.std.specs.Prelude.{◌≡◌, ◌≢◌, ◌≤◌, ◌+◌};

use mea_family::{Answer, Stop};
use mea_family_hall::{Family, FamilyHall};
use std::alloc::Global;
use std::process::Abort;

/// What is lent under a name: numbers that the cores of that name tell, or 0 where nothing is asked of one. What stands at
/// each place is said above the family's impl of `Lends`; a place that it does not use is None.
pub(crate) type Lent = [Option<u64>; 4];

/// What is lent under a name of nothing.
pub(crate) const NOTHING: &[Option<u64>] = &[None; 4];

/// 0 where a core is lent, of which nothing is asked.
pub(crate) fn presence(is_lent: bool) -> Option<u64> {
    if is_lent { Some(0) } else { None }
}

/// The objects of a family, which lend their cores by name.
pub(crate) trait Lends {
    /// What is lent under this name.
    fn lent(&self, name: u64) -> Lent;
}

/// The hall of a family, as a script is played on it.
pub(crate) trait Hall: Drop {
    type Event;

    ghost use Rattle.std.specs.Prelude.{ℕ};
    // The least number that the next event may have.
    ghost next: { Self → ℕ };
    // Whether an event takes no memory.
    ghost IsFree: { Self.Event → Type 0 };

    /// A hall with nothing in it.
    fn empty(alloc: Global) -> Self
        ensures { next result ≡ 0 };

    /// Plays an event.
    fn act(&mut self, number: u64, event: &Self::Event) -> Result<Answer, Stop>
        requires { next self.old ≤ number }
        ensures next { next self.new ≤ number + 1 }
        ensures free { IsFree event.now → result ≢ Err Stop.NoMemory };

    /// Takes the first waker that is ready.
    fn next_wake(&mut self) -> Option<u64>
        ensures { next self.new ≡ next self.old };

    /// How many wakers an event may still make ready.
    fn registered(&self) -> usize;

    /// How many wakers are ready.
    fn wakes_ready(&self) -> usize;

    /// What is lent under this name.
    fn lent(&self, name: u64) -> Lent;
}

impl<F: Family<M> + Lends, M> Hall for FamilyHall<F, M> {
    type Event = F::Event;

    ghost next = { λ h. h.next };

    ghost IsFree = { λ event. F.TakesNoMemory event };

    fn empty(alloc: Global) -> Self {
        FamilyHall::new(alloc)
    }

    fn act(&mut self, number: u64, event: &F::Event) -> Result<Answer, Stop> {
        Ok(FamilyHall::act(self, number, event)?.into_answer())
    }

    fn next_wake(&mut self) -> Option<u64> {
        FamilyHall::next_wake(self)
    }

    fn registered(&self) -> usize {
        FamilyHall::registered(self)
    }

    fn wakes_ready(&self) -> usize {
        FamilyHall::wakes_ready(self)
    }

    fn lent(&self, name: u64) -> Lent {
        self.family().lent(name)
    }
}

/// An event, what it is answered, and the wakers that it makes ready.
pub(crate) type Row<'a, E> = (E, Result<Answer, Stop>, &'a [u64]);

/// A script, with what it leaves of a new hall.
pub(crate) struct Script<'a, E> {
    /// What is told of it where it differs.
    pub(crate) name: &'a str,
    pub(crate) rows: &'a [Row<'a, E>],
    /// How many wakers are registered then. None is ready, since each row took those of its event.
    pub(crate) registered: usize,
    /// What is lent under some names.
    pub(crate) lent: &'a [(u64, &'a [Option<u64>])],
}

// Takes all wakers that are ready, and tells whether they are these.
fn wakes<H: Hall>(hall: &mut H, wakers: &[u64]) -> bool
    ensures { H.next hall.new ≡ H.next hall.old }
{
    for waker in wakers {
        if hall.next_wake() != Some(*waker) {
            return false;
        }
    }
    hall.next_wake().is_none()
}

// The number of the first event of a new hall that is answered otherwise, or makes other wakers ready.
fn differs_at<H: Hall>(hall: &mut H, rows: &[Row<H::Event>]) -> Option<usize>
    requires { H.next hall.old ≡ 0 }
{
    for (number, (event, answer, wakers)) in rows.iter().enumerate() {
        if hall.act(number as u64, event) != *answer || !wakes(hall, wakers) {
            return Some(number);
        }
    }
    None
}

// The first name under which something else is lent.
fn lends_other<H: Hall>(hall: &H, lent: &[(u64, &[Option<u64>])]) -> Option<u64> {
    for (name, cores) in lent {
        if hall.lent(*name).as_slice() != *cores {
            return Some(*name);
        }
    }
    None
}

// Plays a script on a new hall, and compares what it leaves.
fn check_script<H: Hall>(rt: &(impl Abort + AllocGlobal), mut hall: H, script: &Script<H::Event>)
    requires { H.next hall ≡ 0 }
{
    let name = script.name;
    assert_eq!(rt; differs_at(&mut hall, script.rows), None, "{name}");
    assert_eq!(rt; hall.registered(), script.registered, "{name}");
    assert_eq!(rt; hall.wakes_ready(), 0, "{name}");
    assert_eq!(rt; lends_other(&hall, script.lent), None, "{name}");
}

/// Plays each script on a hall of its own, and compares what it leaves.
pub(crate) fn check_scripts<H: Hall, R: Abort + AllocGlobal>(rt: &R, scripts: &[Script<H::Event>]) {
    for script in scripts {
        check_script(rt, H::empty(rt.alloc()), script);
    }
}

/// Lets a hall go. Here its type is a parameter: a test that let it go would take it apart, which costs more than all else
/// in its proof.
pub(crate) fn gone<H: Drop>(_hall: H) {}

/// Plays an event, and tells whether it is answered so.
pub(crate) fn answers<H: Hall>(hall: &mut H, number: u64, event: &H::Event, answer: Answer) -> bool
    requires { H.next hall.old ≤ number }
    ensures { H.next hall.new ≤ number + 1 }
{
    hall.act(number, event) == Ok(answer)
}

/// Plays an event that takes no memory: the cause for which it is refused, if it is, which want of memory never is.
pub(crate) fn refused<H: Hall>(hall: &mut H, number: u64, event: &H::Event) -> Option<Stop>
    requires next { H.next hall.old ≤ number }
    requires free { H.IsFree event.now }
    ensures { H.next hall.new ≤ number + 1 }
{
    match hall.act(number, event) {
        Ok(_) => None,
        Err(Stop::NoMemory) => unreachable!(),
        Err(stop) => Some(stop),
    }
}
