ghost use Rattle.std.specs.Prelude.{◌≡◌, ℕ, ◌<◌, ◌≤◌, ◌*◌, ◌+◌, ◌^◌, [], length, None, is_none, get_or, slice_set, OnOk, OnErr, IfOk};
ghost use Rattle.mea_share_core.specs.Rank.{IsNext};
ghost use Rattle.mea_share_core.specs.Tournament.{IsTree, leaves_of};

use crate::order::lesser;
use crate::rank::Rank;
use mea_base::NoMemory;
use std::alloc::Global;
use std::marker::Model;

/// A tournament over groups: who is next among those that are queued, in the time of a logarithm.
///
/// Each inner node has the one of the two below it that is admitted first; the leaves are the groups.
#[derive(Drop)]
pub struct Tournament {
    nodes: Vec<Option<Rank>>,
    groups: usize,
}

impl Model for Tournament {
    ghost use Rattle.std.specs.Prelude.{◌≡◌, ◌*◌, length, List, Option};
    ghost use Rattle.mea_share_core.specs.declared.rank.Rank.{Rank};
    ghost use Rattle.mea_share_core.specs.Tournament.{IsTree, leaves_of};

    ghost Value = { List (Option Rank) };

    ghost view = { λ t. leaves_of t.groups t.nodes.items };

    ghost invariant = { λ t. record {
      size : length t.nodes.items ≡ 2 * t.groups;
      played : IsTree t.groups t.nodes.items;
    } };
}

impl Tournament {
    /// A tournament over no groups. It takes no memory.
    pub fn new(alloc: Global) -> Self
        ensures { result ≡ [] }
    {
        Tournament {
            nodes: Vec::new(alloc),
            groups: 0,
        }
    }

    /// How many groups there are. It takes no memory.
    pub fn len(&self) -> usize
        ensures { result ≡ length self.now }
    {
        self.groups
    }

    /// Who is next: queued, and none that is queued is before it. None where nobody is queued. It takes no memory.
    pub fn next(&self) -> Option<Rank>
        ensures { IsNext self.now result }
    {
        if self.groups == 0 {
            return None;
        }
        self.nodes[1]
    }

    /// Whether a group is not queued. It takes no memory.
    pub fn is_vacant(&self, group: usize) -> bool
        requires { group < length self.now }
        ensures { result ≡ is_none (get_or self.now group None) }
    {
        self.nodes[self.groups + group].is_none()
    }

    /// Sets what stands for a group: its rank where it is queued. It takes no memory.
    pub fn set(&mut self, group: usize, rank: Option<Rank>)
        requires { group < length self.old }
        ensures { self.new ≡ slice_set self.old group rank }
    {
        play(&mut self.nodes, self.groups, group, rank);
    }

    /// Makes room for this many groups; the further ones are not queued. It costs a step for each.
    pub fn grow(&mut self, alloc: Global, groups: usize) -> Result<(), NoMemory>
        requires { (length self.old ≤ groups) × (groups < 2 ^ 62) }
        ensures size { OnOk result (length self.new ≡ groups) }
        ensures kept { OnOk result ((k : ℕ) → get_or self.new k None ≡ get_or self.old k None) }
        ensures err { OnErr result (self.new ≡ self.old) }
    {
        let mut nodes = vec![in alloc; None; 2 * groups]?;
        copy_leaves(&self.nodes, self.groups, &mut nodes, groups);
        play_all(&mut nodes, groups);
        *self = Tournament { nodes, groups };
        Ok(())
    }
}

// Copies the leaves of a tournament to one over as many groups or more, none of which is queued.
fn copy_leaves(from: &[Option<Rank>], few: usize, nodes: &mut [Option<Rank>], leaves: usize)
    requires from { length from.now ≡ 2 * few }
    requires size { length nodes.old ≡ 2 * leaves }
    requires more { few ≤ leaves }
    requires none { (k : ℕ) → get_or nodes.old k None ≡ None }
    ensures { (k : ℕ) → get_or nodes.new (leaves + k) None ≡ get_or from.now (few + k) None }
{
    nodes[leaves..leaves + few].copy_from_slice(&from[few..]);
}

// Plays at each inner node, from the last to the first.
fn play_all(nodes: &mut [Option<Rank>], leaves: usize)
    requires { length nodes.old ≡ 2 * leaves }
    ensures played { IsTree leaves nodes.new }
    ensures leaves { (k : ℕ) → leaves ≤ k → get_or nodes.new k None ≡ get_or nodes.old k None }
{
    for node in (1..leaves).rev() {
        nodes[node] = lesser(nodes[2 * node], nodes[2 * node + 1]);
    }
}

// Sets a leaf, and plays again above it, up to the first node that stays as it was.
fn play(nodes: &mut Vec<Option<Rank>>, leaves: usize, place: usize, rank: Option<Rank>)
    requires size { length nodes.old.items ≡ 2 * leaves }
    requires place { place < leaves }
    requires played { IsTree leaves nodes.old.items }
    ensures played { IsTree leaves nodes.new.items }
    ensures size { length nodes.new.items ≡ 2 * leaves }
    ensures leaves { (k : ℕ) → leaves ≤ k → get_or nodes.new.items k None ≡ get_or (slice_set nodes.old.items (leaves + place) rank) k None }
{
    let mut node = leaves + place;
    nodes[node] = rank;
    while node > 1 {
        node /= 2;
        let winner = lesser(nodes[2 * node], nodes[2 * node + 1]);
        if winner == nodes[node] {
            return;
        }
        nodes[node] = winner;
    }
}
