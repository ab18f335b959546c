//! What makes the tasks of the crowd: for one primitive, or for several.
ghost use Rattle.std.specs.Prelude.{IfSome};

use crate::tickets::Ticket;
use futures::Future;
use futures::task::{Context, Poll};

/// Makes the tasks of some kinds.
pub(crate) trait Makes<F: Future> {
    /// The task that is wanted, if it is of one of these kinds. It was never polled.
    fn make(&mut self, ticket: Ticket) -> Option<F>
        ensures { IfSome result F.can_poll };
}

/// A task of one of two.
#[derive(Drop)]
pub(crate) enum Member<F, G> {
    First(F),
    Other(G),
}

impl<F: Future<Output = ()>, G: Future<Output = ()>> Future for Member<F, G> {
    ghost use Rattle.mea_crowd_tests.specs.declared.makes.Member.TheVariants.{First, Other};

    type Output = ();

    ghost can_poll = { elim [ First f ↦ F.can_poll f | Other g ↦ G.can_poll g ] };

    fn poll(&mut self, cx: &mut Context<'_>) -> Poll<()> {
        match self {
            Member::First(task) => task.poll(cx),
            Member::Other(task) => task.poll(cx),
        }
    }
}

/// Two makers beside each other.
#[derive(Drop)]
pub(crate) struct Both<A, B> {
    pub(crate) last: A,
    pub(crate) others: B,
}

impl<F: Future<Output = ()>, G: Future<Output = ()>, A: Makes<F>, B: Makes<G>> Makes<Member<F, G>>
    for Both<A, B> {
    fn make(&mut self, ticket: Ticket) -> Option<Member<F, G>> {
        if let Some(task) = self.last.make(ticket) {
            return Some(Member::First(task));
        }
        match self.others.make(ticket) {
            Some(task) => Some(Member::Other(task)),
            None => None,
        }
    }
}
