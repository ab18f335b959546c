use crate::polls::{Answer, Tasks, given, rests};
use futures::Future;
use futures::future::{pending, ready};
use futures::task::{Context, Poll};
use mea_futures::{Bell, initialise};
use mea_keep::once::OnceCell;
use mea_keep::singleflight::Group;
use mea_keep::{Claim, Claimed, Never};
use mea_wait::{End, Waits};
use std::alloc::AllocGlobal;
use std::hash::BuildHasher;
use std::process::Abort;
use std::random::RandomSource;
use std::sync::Wait;
use std::sync::atomic::AtomicU64;
use std::sync::atomic::Ordering::SeqCst;

// An initialiser is dropped while its future computes: the next that waits fills the cell.
#[test]
fn an_abandoned_initialiser_passes_its_turn_on(rt: HostRuntime) {
    let cell: OnceCell<u64, Bell> = OnceCell::new(rt.alloc());
    is_abandoned(&rt, &cell, cell.claim(), cell.claim());
}

// The first computes for ever.
fn is_abandoned<
    'c,
    R: Wait + RandomSource + AllocGlobal + Abort,
    F: Waits<Bell, Claimed<&'c u64, C>>,
    C: Claim<u64, &'c u64, G>,
    G: End,
>(rt: &R, cell: &'c OnceCell<u64, Bell>, first: F, second: F)
    requires first { F.can_poll first }
    requires second { F.can_poll second }
{
    let init = pending::<Result<u64, Never>>();
    let never = initialise(rt, rt.alloc(), first, init).expect(rt, "memory");
    is_taken_over(rt, cell, never, second);
}

// The second computes at once.
fn is_taken_over<
    'c,
    R: Wait + RandomSource + AllocGlobal + Abort,
    O: Drop,
    N: Future<Output = O>,
    F: Waits<Bell, Claimed<&'c u64, C>>,
    C: Claim<u64, &'c u64, G>,
    G: End,
>(rt: &R, cell: &'c OnceCell<u64, Bell>, never: N, second: F)
    requires never { N.can_poll never }
    requires second { F.can_poll second }
{
    let init = ready(Ok::<u64, Never>(9));
    let nine = initialise(rt, rt.alloc(), second, init).expect(rt, "memory");
    passes_its_turn_on(rt, &Tasks::new(rt), cell, never, nine);
}

fn passes_its_turn_on<
    'c,
    R: Abort,
    O: Drop,
    N: Future<Output = O>,
    E: Drop,
    F: Future<Output = Answer<&'c u64, E>>,
>(rt: &R, tasks: &Tasks, cell: &OnceCell<u64, Bell>, mut never: N, mut nine: F)
    requires never { N.can_poll never }
    requires nine { F.can_poll nine }
{
    let Tasks { one, two } = tasks;
    assert!(rt; rests(one, &mut never) && rests(two, &mut nine));
    assert!(rt; !two.is_woken() && cell.get().is_none());
    drop(never);
    assert!(rt; two.is_woken());
    assert!(rt; given(two.poll(&mut nine)) == Some(&9));
    assert!(rt; cell.get() == Some(&9));
}

// A page that is fetched in two polls.
#[derive(Drop)]
struct Fetch<'a> {
    page: u64,
    is_asked: bool,
    fetches: &'a AtomicU64,
}

impl<'a> Future for Fetch<'a> {
    type Output = Result<u64, u8>;

    fn poll(&mut self, cx: &mut Context<'_>) -> Poll<Result<u64, u8>> {
        if !self.is_asked {
            self.is_asked = true;
            return cx.yield_now();
        }
        self.fetches.fetch_add(1, SeqCst);
        Poll::Ready(fetched(self.page))
    }
}

// What is there to be fetched. There is no page 0.
fn fetched(page: u64) -> Result<u64, u8> {
    if page == 0 {
        return Err(7);
    }
    Ok(page.wrapping_mul(10))
}

// A fetch that was never polled.
fn new_fetch(page: u64, fetches: &AtomicU64) -> Fetch<'_> {
    Fetch {
        page,
        is_asked: false,
        fetches,
    }
}

// What a request for a page comes to: the page, or why it was not fetched.
type Page = Answer<u64, u8>;

// What is fetched at a time, by page.
type Flights<S> = Group<u64, u64, S, Bell>;

// Two requests are polled in turn: the first fetches, and the second waits for it. It tells what both have.
fn answers<R: Abort, O: Drop, F: Future<Output = O>>(
    rt: &R,
    tasks: &Tasks,
    mut first: F,
    mut second: F,
) -> (Poll<O>, Poll<O>)
    requires first { F.can_poll first }
    requires second { F.can_poll second }
{
    let Tasks { one, two } = tasks;
    assert!(rt; rests(one, &mut first) && rests(two, &mut second));
    assert!(rt; !two.is_woken());
    let page = one.poll(&mut first);
    assert!(rt; two.is_woken());
    (page, two.poll(&mut second))
}

// What two requests for a page at a time have, by the claims of both.
fn both<
    R: Wait + RandomSource + AllocGlobal + Abort,
    F: Waits<Bell, Claimed<u64, C>>,
    C: Claim<u64, u64, G>,
    G: End,
>(rt: &R, claims: (F, F), page: u64, fetches: &AtomicU64) -> (Poll<Page>, Poll<Page>)
    requires first { F.can_poll claims.0 }
    requires second { F.can_poll claims.1 }
{
    let (first, second) = claims;
    let fetch = new_fetch(page, fetches);
    let first = initialise(rt, rt.alloc(), first, fetch).expect(rt, "memory");
    let fetch = new_fetch(page, fetches);
    let second = initialise(rt, rt.alloc(), second, fetch).expect(rt, "memory");
    answers(rt, &Tasks::new(rt), first, second)
}

// The same of a group. It is the only place that has the type of its claims, which the proof builds anew at each call.
fn requests<R: Wait + RandomSource + AllocGlobal + Abort, S: BuildHasher + Drop>(
    rt: &R,
    flights: Flights<S>,
    page: u64,
    fetches: &AtomicU64,
) -> (Poll<Page>, Poll<Page>) {
    both(
        rt,
        (flights.claim(page), flights.claim(page)),
        page,
        fetches,
    )
}

// Two requests for a page at a time: it is fetched once, and both have it.
#[test]
fn a_page_is_fetched_once(rt: HostRuntime) {
    let fetches = AtomicU64::new(0);
    let both = requests(&rt, Group::new(rt.alloc()), 4, &fetches);
    assert!(rt; both == (Poll::Ready(Ok(Ok(40))), Poll::Ready(Ok(Ok(40)))));
    assert!(rt; fetches.load(SeqCst) == 1);
}

// A fetch that fails gives its error to who fetched; the other fetches itself.
#[test]
fn an_error_is_that_of_who_fetched(rt: HostRuntime) {
    let fetches = AtomicU64::new(0);
    let both = requests(&rt, Group::new(rt.alloc()), 0, &fetches);
    assert!(rt; both == (Poll::Ready(Ok(Err(7))), Poll::Pending));
    assert!(rt; fetches.load(SeqCst) == 1);
}
