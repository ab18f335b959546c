//! Those of the crowd who want the value of a key: of a map, or of a group.
ghost use Rattle.std.specs.Prelude.{IsSome, IfNone};

use crate::keeps::Keeps;
use crate::makes::Makes;
use crate::tasks::{Inits, computing};
use crate::tickets::{Kind, Ticket};
use futures::Future;
use futures::task::{Context, Poll};
use mea::once::{MapClaim, MapClaiming, MapFilling, OnceMap};
use mea::singleflight::{Group, GroupClaim, GroupClaiming, GroupFilling};
use mea_futures::Bell;
use std::alloc::AllocGlobal;
use std::hash::{BuildHasherDefault, FoldHasher};
use std::process::Abort;
use std::sync::Wait;

type Hasher = BuildHasherDefault<FoldHasher>;

/// A map of values that are computed once.
pub(crate) type Map = OnceMap<u64, u64, Hasher, Bell>;

/// A group whose calls share a value where they meet.
pub(crate) type Flights = Group<u64, u64, Hasher, Bell>;

type Mapped<'a, R> = Inits<
    'a,
    R,
    MapClaiming<'a, u64, u64, Hasher, Bell>,
    u64,
    MapClaim<'a, u64, u64, Hasher, Bell>,
    u64,
    MapFilling<'a, u64, u64, Hasher, Bell>,
>;

type Flown<'a, R> = Inits<
    'a,
    R,
    GroupClaiming<'a, u64, u64, Hasher, Bell>,
    u64,
    GroupClaim<'a, u64, u64, Hasher, Bell>,
    u64,
    GroupFilling<'a, u64, u64, Hasher, Bell>,
>;

/// A task that waits for the value of a key.
pub(crate) struct Maps<'a, R: Wait> {
    computing: Mapped<'a, R>,
}

// Written out: so whoever holds one finds a drop by its name, and does not take the parts of a map apart.
impl<'a, R: Wait> Drop for Maps<'a, R> {
    fn drop(self) {
        let Maps { computing: _ } = self;
    }
}

impl<'a, R: Wait> Future for Maps<'a, R> {
    type Output = ();

    ghost can_poll = { λ m. IfNone m.computing.awaited.claim (IsSome m.computing.awaited.turn.wait) };

    fn poll(&mut self, cx: &mut Context<'_>) -> Poll<()> {
        self.computing.poll(cx)
    }
}

/// A task that waits for a value which those who come meanwhile share.
pub(crate) struct Flies<'a, R: Wait> {
    computing: Flown<'a, R>,
}

// Written out for the same reason.
impl<'a, R: Wait> Drop for Flies<'a, R> {
    fn drop(self) {
        let Flies { computing: _ } = self;
    }
}

impl<'a, R: Wait> Future for Flies<'a, R> {
    type Output = ();

    ghost can_poll = { λ f. IfNone f.computing.awaited.claim (IsSome f.computing.awaited.turn.wait) };

    fn poll(&mut self, cx: &mut Context<'_>) -> Poll<()> {
        self.computing.poll(cx)
    }
}

/// Makes those who compute a key of the map, one of three.
#[derive(Drop)]
pub(crate) struct Mapping<'a, R: Wait> {
    pub(crate) rt: &'a R,
    pub(crate) keeps: &'a Keeps,
}

impl<'a, R: Wait + AllocGlobal + Abort> Makes<Maps<'a, R>> for Mapping<'a, R> {
    fn make(&mut self, ticket: Ticket) -> Option<Maps<'a, R>> {
        match ticket.kind {
            Kind::Maps => {
                let keeps = self.keeps;
                let key = ticket.nth % 3;
                let claiming = keeps.map.claim(key);
                Some(Maps {
                    computing: computing(self.rt, claiming, key, &keeps.mapped),
                })
            }
            _ => None,
        }
    }
}

/// Makes those who compute a key of the group, one of three.
#[derive(Drop)]
pub(crate) struct Flying<'a, R: Wait> {
    pub(crate) rt: &'a R,
    pub(crate) keeps: &'a Keeps,
}

impl<'a, R: Wait + AllocGlobal + Abort> Makes<Flies<'a, R>> for Flying<'a, R> {
    fn make(&mut self, ticket: Ticket) -> Option<Flies<'a, R>> {
        match ticket.kind {
            Kind::Flies => {
                let keeps = self.keeps;
                let key = ticket.nth % 3;
                let claiming = keeps.flights.claim(key);
                Some(Flies {
                    computing: computing(self.rt, claiming, key, &keeps.flown),
                })
            }
            _ => None,
        }
    }
}
