//! A source comes from its entry, and is put there again.
ghost use Rattle.std.specs.Prelude.{◌≡◌, ◌≢◌, ◌⊎◌, ◌^◌, ◌<◌, ◌≤◌, ℕ, List, MatchOption, IfSome};
ghost use Rattle.std.specs.List.{Contains};
ghost use Rattle.fo_image.specs.declared.types.Kind.TheVariants.{Dir};
ghost use Rattle.fo_image.specs.declared.types.Pointer.TheVariants.{Nil, Local};
ghost use Rattle.fo_crash.specs.declared.slot.Slot.TheVariants.{Entry as Head};
ghost use Rattle.fo_crash.specs.Images.{Reaches, target, walk, to_block};
ghost use Rattle.fo_crash.specs.Names.{SameUse};
ghost use Rattle.fo_crash.specs.Steps.{PutsSlot, AddsSlot, Covers};
ghost use Rattle.fo_ports.specs.Blocks.{cost, dropped, zeros};
ghost use Rattle.fo_ports.specs.State.{Frame, Hangs, KeepsOrder, AddsNoWait, IsPointers, none};
ghost use Rattle.fo_ports.specs.Sources.{IsPlain, StaysInPlace, StaysReady, ComesFor, DirtiesIn};
ghost use Rattle.fo_shown.specs.Shown.{ShowsNoMore};
ghost use Rattle.fo_shown.specs.Alike.{LeadsAlike};
ghost use Rattle.fo_tree_look.specs.Source.{Over, HasBlock, form_of};
ghost use Rattle.fo_tree_link.specs.of_tree_down.Clear.{EndsClear};
ghost use Rattle.fo_tree_link.specs.of_tree_open.Open.{HasEntry, IsFit, CanOpen, tree_of};
ghost use Rattle.fo_tree_link.specs.Link.{entry_of, CanLink};
ghost use Rattle.fo_tree_link.specs.Change.{HangsInTree};
ghost use Rattle.fo_tree.specs.Entry.{empty_tree};

use crate::source::Source;
use fo_image::{Entry, Pointer};
use fo_ports::Blocks;
use fo_tree_look::Ways;
use fo_tree_read::Tree;
use std::alloc::Global;

impl Source {
    /// A new source without bytes, which has no entry yet: of entries or of data, with this tag and rank of its leaves, this generation of its
    /// entry, and up to this length. It may come where an entry leads to no block.
    pub fn new<B: Blocks>(
        alloc: Global,
        on: &B,
        dir: bool,
        tag: u32,
        rank: u32,
        generation: u32,
        limit: u64,
    ) -> Self
        requires low { (rank < 2 ^ 31) × (limit ≤ 2 ^ 47) }
        ensures is { (result.ways.tree ≡ empty_tree dir tag rank) × (result.ways.generation ≡ generation) × (result.ways.limit ≡ limit) }
        ensures over { Over (B.state on.now) result.ways.tree result.ways.kept.items result.ways.limit }
        ensures trimmed { EndsClear (B.state on.now) result.ways.tree result.ways.kept.items }
        ensures comes { ComesFor (B.state on.now) result.ways.tree.top Nil }
    {
        let _ = on;
        Source {
            ways: Ways {
                tree: empty_tree(dir, tag, rank),
                generation,
                limit,
                kept: Vec::new(alloc),
            },
        }
    }

    /// The source of the entry that memory has in slot `i` of block `at`, a pinned leaf of entries or root block: with this tag and rank of
    /// its leaves, and up to this length. None exactly where the entry is no entry of such a source. Where nothing is to come in the place
    /// of another block, it hangs from there.
    pub fn open<B: Blocks>(
        alloc: Global,
        on: &B,
        at: u32,
        i: u32,
        entry: &Entry,
        tag: u32,
        rank: u32,
        limit: u64,
    ) -> Option<Self>
        requires pinned { (B.state on.now).pinned at }
        requires leaf { HasEntry ((B.state on.now).label at).kind i }
        requires entry { ((B.state on.now).now at).slot i ≡ Head entry.now }
        requires low { (rank < 2 ^ 31) × (limit ≤ 2 ^ 47) }
        requires told { (B.state on.now).tells → CanOpen (B.state on.now) at i entry.now rank }
        ensures fits { MatchOption result (IsFit entry.now tag limit → ⊥) (λ s. IsFit entry.now tag limit) }
        ensures is { IfSome result (λ s. (s.ways.tree ≡ tree_of entry.now rank) × (s.ways.generation ≡ entry.now.generation) × (s.ways.limit ≡ limit)) }
        ensures over { IfSome result (λ s. Over (B.state on.now) s.ways.tree s.ways.kept.items s.ways.limit) }
        ensures comes { IfSome result (λ s. (B.state on.now).tells → ComesFor (B.state on.now) s.ways.tree.top entry.now.top) }
        ensures linked { IfSome result (λ s. (B.state on.now).tells → ((y x : ℕ) → (B.state on.now).instead y x → ⊥) → HangsInTree (B.state on.now) s.ways.tree at i) }
    {
        let ways = fo_tree_link::open(alloc, on, at, i, entry, tag, rank, limit)?;
        Some(Source { ways })
    }

    /// Puts the source's entry, as it is now, into slot `i` of block `at`, a pinned and current leaf of entries or root block, where its old
    /// entry stands: in the same use, and not waiting to be cleared. Of levels that the source loses the tops are pinned.
    pub fn link<B: Blocks>(&self, on: &mut B, at: u32, i: u32)
        requires over { Over (B.state on.old) self.now.ways.tree self.now.ways.kept.items self.now.ways.limit }
        requires pinned { (B.state on.old).pinned at }
        requires current { ((B.state on.old).label at).epoch ≡ (B.state on.old).high }
        requires leaf { HasEntry ((B.state on.old).label at).kind i }
        requires settled { (B.state on.old).clearing at i → ⊥ }
        requires same_use { SameUse (Head (entry_of self.now.ways.tree self.now.ways.generation)) (((B.state on.old).now at).slot i) }
        requires other { (b : ℕ) → self.now.ways.tree.top ≡ Local b → b ≢ at }
        requires room { cost (((B.state on.old).now at).slot i) (Head (entry_of self.now.ways.tree self.now.ways.generation)) ≤ (B.state on.old).room }
        requires tops { (n x : ℕ) → n < dropped (((B.state on.old).now at).slot i) (Head (entry_of self.now.ways.tree self.now.ways.generation)) → target (walk (B.state on.old).now (((B.state on.old).now at).slot i) (zeros n)) ≡ Local x → (B.state on.old).pinned x }
        requires told { (B.state on.old).tells → CanLink (B.state on.old) self.now.ways.tree self.now.ways.generation at i }
        ensures now { PutsSlot at i (Head (entry_of self.now.ways.tree self.now.ways.generation)) (B.state on.old).now (B.state on.new).now }
        ensures images { AddsSlot (B.state on.old).now at i (Head (entry_of self.now.ways.tree self.now.ways.generation)) (λ image. Unit {0}) (B.state on.old).may_leave (B.state on.new).may_leave }
        ensures shown { IsPlain (form_of self.now.ways.tree self.now.ways.generation self.now.ways.limit) ⊎ LeadsAlike (B.state on.old).may_leave (B.state on.old).now at i (Head (entry_of self.now.ways.tree self.now.ways.generation)) → ShowsNoMore (B.state on.old).may_leave (B.state on.new).may_leave }
        ensures over { Over (B.state on.new) self.now.ways.tree self.now.ways.kept.items self.now.ways.limit }
        ensures put { (b : ℕ) → self.now.ways.tree.top ≡ Local b → (B.state on.new).apart b → ⊥ }
        ensures comes { ComesFor (B.state on.new) self.now.ways.tree.top self.now.ways.tree.top }
        ensures instead { (y x : ℕ) → (B.state on.new).instead y x → (B.state on.old).instead y x × (self.now.ways.tree.top ≡ Local y → ⊥) }
        ensures linked { (B.state on.old).tells → (b : ℕ) → Reaches (B.state on.old).now (Head (entry_of self.now.ways.tree self.now.ways.generation)) b → Reaches (B.state on.new).now (to_block 1) b }
        ensures owned { (B.state on.old).tells → (b : ℕ) → HasBlock (B.state on.new) self.now.ways.tree b → Reaches (B.state on.new).now (to_block 1) b }
        ensures again { (B.state on.old).tells → ((y x : ℕ) → (B.state on.old).instead y x → self.now.ways.tree.top ≡ Local y) → HangsInTree (B.state on.new) self.now.ways.tree at i }
        ensures in_tree { (B.state on.old).tells → (b : ℕ) → (Reaches (B.state on.old).now (((B.state on.old).now at).slot i) b → ⊥) → Reaches (B.state on.old).now (to_block 1) b → Reaches (B.state on.new).now (to_block 1) b }
        ensures in_place { (B.state on.old).tells → (b : ℕ) → (b ≢ at) ⊎ (((B.state on.old).label b).kind ≡ Dir 0) → Reaches (B.state on.new).now (to_block 1) b → StaysInPlace (B.state on.old) (B.state on.new) b }
        ensures ready { (b : ℕ) → (b ≢ at) ⊎ (((B.state on.old).label b).kind ≡ Dir 0) → (B.state on.old).pinned b → StaysReady (B.state on.old) (B.state on.new) b }
        ensures bytes { (b : ℕ) → ((B.state on.new).now b).bytes ≡ ((B.state on.old).now b).bytes }
        ensures frame { Frame (λ b. b ≡ at) (λ b. (b ≡ at) ⊎ (self.now.ways.tree.top ≡ Local b)) (cost (((B.state on.old).now at).slot i) (Head (entry_of self.now.ways.tree self.now.ways.generation))) (B.state on.old) (B.state on.new) }
        ensures hangs { Hangs at i (Head (entry_of self.now.ways.tree self.now.ways.generation)) (B.state on.old) (B.state on.new) }
        ensures order { KeepsOrder none (B.state on.old) (B.state on.new) }
        ensures no_wait { AddsNoWait none (B.state on.old) (B.state on.new) }
        ensures covers { (B.state on.old).tells → Covers (IsPointers (B.state on.old)) (((B.state on.old).now at).slot i) (B.state on.old).now (B.state on.new).now (B.state on.old).covered (B.state on.new).covered }
        ensures dirties { (first : B) (blocks : List ℕ) → DirtiesIn blocks (B.state first) (B.state on.old) → Contains blocks at → DirtiesIn blocks (B.state first) (B.state on.new) }
        ensures keeps { B.keeps on.old on.new }
    {
        fo_tree_link::link(&self.ways, on, at, i);
    }
}

/// The tree of a source without bytes.
fn empty_tree(dir: bool, tag: u32, rank: u32) -> Tree
    ensures { result ≡ empty_tree dir tag rank }
{
    Tree {
        dir,
        tag,
        rank,
        depth: 0,
        size: 0,
        top: Pointer::Nil,
    }
}
