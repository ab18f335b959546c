ghost use Rattle.std.specs.Prelude.{◌≡◌, ◌+◌, ◌≤◌, ◌==◌, IsSome, Some, None, OnOk, OnErr, if◌then◌else◌};
ghost use Rattle.slab.specs.Slab.{ContainsKey, HasRoomFor};
ghost use Rattle.std.specs.Borrow.{sem};
ghost use Rattle.mea_base.specs.WaitListLends.{lends_node};
ghost use Rattle.mea_base.specs.WaitListLinks.{node_at, next_in, prev_in, Relinks, Inserts, SameQueue};

use crate::no_memory::NoMemory;
use crate::steps::Steps;
use slab::Slab;
use std::alloc::Allocator;
use std::sync::ledger::Ledger;

/// The key of the node that closes the ring. It is made first, so its key is the first that a slab gives.
pub const SENTINEL: usize = 0;

/// A value and its neighbours in the ring. Off the ring a node points at itself.
#[derive(Drop)]
pub struct Node<T> {
    pub prev: usize,
    pub next: usize,
    // The sentinel has none.
    pub value: Option<T>,
}

/// Makes `to` the next key of the node under `key`.
pub fn set_next<T>(nodes: &mut Slab<Node<T>>, key: usize, to: usize)
    requires { ContainsKey nodes.old key }
    ensures { Relinks nodes.old nodes.new (λ k. if k == key then to else next_in nodes.old.slots k) (λ k. prev_in nodes.old.slots k) }
{
    nodes[key].next = to;
}

/// Makes `to` the previous key of the node under `key`.
pub fn set_prev<T>(nodes: &mut Slab<Node<T>>, key: usize, to: usize)
    requires { ContainsKey nodes.old key }
    ensures { Relinks nodes.old nodes.new (λ k. next_in nodes.old.slots k) (λ k. if k == key then to else prev_in nodes.old.slots k) }
{
    nodes[key].prev = to;
}

/// The node under a key. Each look-up is one step, and a call whose steps are counted reaches nodes by this
/// function alone.
pub fn node_mut<'a, T, A: Allocator, L: Ledger>(
    nodes: &'a mut Slab<Node<T>, A>,
    key: usize,
    steps: &mut Steps<L>,
) -> &'a mut Node<T>
    requires { ContainsKey nodes.old key }
    ensures* writes_back { sem 𝓛 (lends_node T.row A.row A.Allocator nodes.entry key result) }
    ensures value { node_at nodes.old.slots key ≡ Some result.now }
    ensures ticks { steps.new ≡ steps.old + 1 }
{
    steps.tick();
    &mut nodes[key]
}

/// Makes the node under `key` point at itself, and tells the keys at which it pointed. One step.
pub fn detach<T, L: Ledger>(
    nodes: &mut Slab<Node<T>>,
    key: usize,
    steps: &mut Steps<L>,
) -> (usize, usize)
    requires { ContainsKey nodes.old key }
    ensures prev { result.0 ≡ prev_in nodes.old.slots key }
    ensures next { result.1 ≡ next_in nodes.old.slots key }
    ensures links { Relinks nodes.old nodes.new (λ k. if k == key then key else next_in nodes.old.slots k) (λ k. if k == key then key else prev_in nodes.old.slots k) }
    ensures ticks { steps.new ≡ steps.old + 1 }
{
    let node = node_mut(nodes, key, steps);
    let (prev, next) = (node.prev, node.next);
    node.prev = key;
    node.next = key;
    (prev, next)
}

/// `set_next`, whose look-up is counted. One step.
pub fn set_next_counted<T, L: Ledger>(
    nodes: &mut Slab<Node<T>>,
    key: usize,
    to: usize,
    steps: &mut Steps<L>,
)
    requires { ContainsKey nodes.old key }
    ensures links { Relinks nodes.old nodes.new (λ k. if k == key then to else next_in nodes.old.slots k) (λ k. prev_in nodes.old.slots k) }
    ensures ticks { steps.new ≡ steps.old + 1 }
{
    node_mut(nodes, key, steps).next = to;
}

/// `set_prev`, whose look-up is counted. One step.
pub fn set_prev_counted<T, L: Ledger>(
    nodes: &mut Slab<Node<T>>,
    key: usize,
    to: usize,
    steps: &mut Steps<L>,
)
    requires { ContainsKey nodes.old key }
    ensures links { Relinks nodes.old nodes.new (λ k. next_in nodes.old.slots k) (λ k. if k == key then to else prev_in nodes.old.slots k) }
    ensures ticks { steps.new ≡ steps.old + 1 }
{
    node_mut(nodes, key, steps).prev = to;
}

/// Puts a value between two neighbours, and tells its key.
pub fn insert_between<T>(nodes: &mut Slab<Node<T>>, prev: usize, next: usize, value: T) -> usize
    requires room { HasRoomFor nodes.old 1 }
    requires prev { ContainsKey nodes.old prev }
    requires next { ContainsKey nodes.old next }
    ensures { Inserts nodes.old nodes.new prev next result value }
{
    let key = nodes.insert_reserved(Node {
        prev,
        next,
        value: Some(value),
    });
    set_next(nodes, prev, key);
    set_prev(nodes, next, key);
    key
}

/// Makes room for `n` more nodes, and makes the sentinel where there is none. The first block has room for those alone.
pub fn reserve_nodes<T>(nodes: &mut Slab<Node<T>>, n: usize) -> Result<(), NoMemory>
    requires first_key { node_at nodes.old.slots 0 ≡ None → nodes.old.vacant_key ≡ 0 }
    ensures room { OnOk result (HasRoomFor nodes.new n) }
    ensures sentinel { OnOk result (IsSome (node_at nodes.new.slots 0)) }
    ensures same { SameQueue nodes.old.slots nodes.new.slots }
    ensures err { OnErr result (nodes.new ≡ record nodes.old { capacity = nodes.new.capacity }) }
    ensures capacity { nodes.old.capacity ≤ nodes.new.capacity }
{
    if nodes.contains(SENTINEL) {
        nodes.reserve(n)?;
        return Ok(());
    }
    let Some(whole) = n.checked_add(1) else {
        return Err(NoMemory);
    };
    nodes.reserve_exact(whole)?;
    nodes.insert_reserved(Node {
        prev: SENTINEL,
        next: SENTINEL,
        value: None,
    });
    Ok(())
}
