//! Numbers in order, of which the first at most a bound is found without walking them.
ghost use Rattle.std.specs.Prelude.{◌≡◌, ℕ, ◌+◌, ◌*◌, ◌/◌, ◌^◌, ◌<◌, ◌≤◌, length, drop, slice_index, slice_set, replicate, nat_le, IfOk};
ghost use Rattle.std.specs.List.{position};
ghost use Rattle.fo_labels.specs.Mins.{HasMins, HasMinsBut, FirstLeaf};

use std::alloc::{AllocError, Global};
use std::marker::Model;

/// A list of numbers. It is kept as a binary tree of minima: the numbers are the leaves, node 1 is the root, and the
/// children of node `k` are nodes `2 * k` and `2 * k + 1`. A change and a search cost one step for each level.
#[derive(Drop)]
pub struct Minima {
    tree: Vec<u64>,
    leaves: usize,
    levels: u32,
    len: usize,
}

impl Model for Minima {
    ghost use Rattle.std.specs.Prelude.{List, ℕ, take, drop};

    ghost Value = { List ℕ };

    ghost use Rattle.fo_labels.specs.Minima.{IsTree};

    ghost view = { λ a. take a.len (drop a.leaves a.tree.items) };

    ghost invariant = { IsTree };
}

impl Minima {
    /// So many zeros.
    pub fn new(alloc: Global, len: u32) -> Result<Minima, AllocError>
        ensures { IfOk result (λ m. m ≡ replicate len 0) }
    {
        let len = len as usize;
        let levels = levels_for(len);
        let leaves = 1usize << levels;
        let tree = vec![in alloc; 0u64; 2 * leaves]?;
        Ok(Minima {
            tree,
            leaves,
            levels,
            len,
        })
    }

    /// The number at a place is now this one.
    pub fn set(&mut self, at: usize, value: u64)
        requires { at < length self.old }
        ensures { self.new ≡ slice_set self.old at value }
    {
        let node = self.leaves + at;
        self.tree[node] = value;
        raise(&mut self.tree, self.leaves, node);
    }

    /// The first place with a number at most this bound.
    pub fn first_within(&self, bound: u32) -> Option<usize>
        ensures { result ≡ position (λ x. nat_le x bound) self.now }
    {
        let bound = u64::from(bound);
        if self.tree[1] > bound {
            return None;
        }
        let at = leftmost(&self.tree, self.levels, bound) - self.leaves;
        if at < self.len { Some(at) } else { None }
    }
}

// How many levels a tree needs for so many leaves.
fn levels_for(len: usize) -> u32
    requires { len < 2 ^ 32 }
    ensures enough { len ≤ 2 ^ result }
    ensures within { result ≤ 32 }
{
    let mut levels = 0;
    while levels < 32 && (1usize << levels) < len {
        levels += 1;
    }
    levels
}

// Makes the minima above a node right again, after the node was changed.
fn raise(tree: &mut [u64], leaves: usize, changed: usize)
    requires size { length tree.old ≡ 2 * leaves }
    requires inside { changed < 2 * leaves }
    requires but { HasMinsBut leaves (changed / 2) tree.old }
    ensures mins { HasMins leaves tree.new }
    ensures kept { drop leaves tree.new ≡ drop leaves tree.old }
{
    let mut node = changed;
    while node > 1 {
        node /= 2;
        let least = tree[2 * node].min(tree[2 * node + 1]);
        tree[node] = least;
    }
}

// The leftmost leaf with a number at most the bound.
fn leftmost(tree: &[u64], levels: u32, bound: u64) -> usize
    requires size { length tree.now ≡ 2 * 2 ^ levels }
    requires mins { HasMins (2 ^ levels) tree.now }
    requires some { slice_index tree.now 1 ≤ bound }
    ensures { FirstLeaf levels tree.now bound result }
{
    let mut node = 1;
    let mut level = levels;
    while level > 0 {
        level -= 1;
        node = 2 * node;
        if tree[node] > bound {
            node += 1;
        }
    }
    node
}
