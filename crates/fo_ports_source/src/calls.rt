//! The calls on a plain source.
ghost use Rattle.std.specs.Prelude.{◌≡◌, Option};
ghost use Rattle.fo_ports.specs.Sources.{is_dir, depth_for};
ghost use Rattle.fo_ports_source.specs.Source.{leaf_of};

use crate::source::{LEAF, PlainSource};
use fo_image::{Entry, Kind, Pointer};
use fo_ports::{BlockError, Blocks, Bytes};

impl<B: Blocks> Bytes<B> for PlainSource {
    ghost use Rattle.std.specs.Prelude.{refl};
    ghost use Rattle.fo_image.specs.declared.types.Pointer.TheVariants.{Nil};
    ghost use Rattle.fo_crash.specs.Places.{place};
    ghost use Rattle.fo_ports_source.specs.Source.{form_of, leaves_of, Over};
    ghost use Rattle.fo_ports_source.specs.SourceLaws.{only_place, source_stays, source_prepared, part_prepared, top_stays, no_top};

    ghost form = { λ s. form_of s.kind s.tag s.rank s.leaves.items };

    ghost size = { λ s. s.size };

    // It has no top: its leaves hang from no block of its own.
    ghost top = { λ s. Nil };

    ghost is_over = { λ s b. Over (B.state b) s.kind s.tag s.rank s.size s.leaves.items };

    ghost leaves = { λ s b. leaves_of (B.state b) s.kind s.tag s.size s.leaves.items };

    // Its leaves are listed, and none is named behind the end.
    ghost is_trimmed = { λ s b. Unit {0} };

    fn len(&self) -> u64 {
        self.size
    }

    fn entry(&self) -> Entry {
        Entry {
            generation: 0,
            active: true,
            dir: is_dir(self.kind),
            depth: depth_for(self.size),
            tag: self.tag,
            size: self.size,
            top: Pointer::Nil,
        }
    }

    fn trimmed(&self, on: &B) -> bool {
        let _ = on;
        true
    }

    fn read(&mut self, on: &mut B, offset: u64, into: &mut [u8]) -> Result<usize, BlockError> {
        let left = self.size.saturating_sub(offset);
        if left == 0 {
            return Ok(0);
        }
        let count = (left as usize).min(into.len());
        self.copy_out(on, offset, &mut into[..count])?;
        Ok(count)
    }

    fn leaf(&mut self, on: &mut B, i: u32) -> Result<Option<u32>, BlockError> {
        let _ = on;
        Ok(leaf_number(&self.leaves, i))
    }

    fn prepare(&mut self, on: &mut B, offset: u64, len: u64) -> Result<(), BlockError> {
        self.pin_for(on, offset, len)?;
        Ok(())
    }

    fn write(&mut self, on: &mut B, offset: u64, piece: &[u8]) {
        if piece.is_empty() {
            return;
        }
        self.size = self.size.max(offset + piece.len() as u64);
        self.put(on, offset, piece);
    }

    fn own_leaf(&mut self, on: &mut B, i: u32) -> u32 {
        if self.size < LEAF * (i as u64 + 1) {
            self.own_next(on, i as usize)
        } else {
            self.own(on, i as usize)
        }
    }

    ghost bytes_are = { λ s b over. refl };

    ghost none_held = { λ s b i over told not_plain. refl };

    ghost none_behind = { λ s b i over past. (over.none i past, refl) };

    ghost in_limit = { λ s b over. over.within };

    ghost apart = { λ s b i j at over told e f. over.apart told i j at e f };

    ghost leaf_owned = { λ s b i at over e. record { number = i; is = e } };

    ghost top_owned = { λ s b at over e. absurd (no_top at e) };

    ghost leaf_stands = { λ s b i at over told e. (place s.kind s.tag 0 s.rank, ((over.leaf i at e).told told).there) };

    ghost leaf_place = { λ s b i at p over told e stands. only_place (B.one_place b) ((over.leaf i at e).told told) p stands };

    ghost owned = { λ s b at p over told has stands. (only_place (B.one_place b) ((over.leaf has.number at has.is).told told) p stands).1 };

    ghost live = { λ s b at over told has. let leaf = (over.leaf has.number at has.is).told told in (leaf.labelled.is_live, leaf.labelled.up_to, leaf.uncovered) };

    ghost stays = { λ s a b over keeps kept. (source_stays s.kind s.tag s.rank s.size s.leaves.items (B.state a) (B.state b) (B.keeps_all a b keeps) over kept, λ told. (λ i. (refl, refl), λ at. (λ h. h, λ h. h))) };

    ghost still_current = { λ s a b over over_still keeps kept same top. top_stays s.kind s.tag s.rank s.size s.leaves.items (B.state a) (B.state b) (B.keeps_all a b keeps) same top };

    ghost still_trimmed = { λ s a b over over_still keeps kept trimmed. tt };

    ghost still_prepared = { λ s a b o n over over_still keeps kept prepared. source_prepared s.kind s.tag s.rank s.size s.leaves.items (B.state a) (B.state b) o n (B.keeps_all a b keeps) kept prepared };

    ghost prepared_within = { λ s b o n p m prepared from to. (part_prepared p m prepared from to, prepared.limit) };
}

/// Whether a kind is one of entries.
fn is_dir(kind: Kind) -> bool
    ensures { result ≡ is_dir kind }
{
    matches!(kind, Kind::Dir(_))
}

/// The least depth of a tree of blocks for so many bytes.
fn depth_for(size: u64) -> u8
    ensures { result ≡ depth_for size }
{
    if size <= LEAF {
        0
    } else if size <= LEAF * 409 {
        1
    } else if size <= LEAF * 167_281 {
        2
    } else if size <= LEAF * 68_417_929 {
        3
    } else {
        4
    }
}

/// The leaf of a number.
fn leaf_number(leaves: &[Option<u32>], i: u32) -> Option<u32>
    ensures { result ≡ leaf_of leaves.now i }
{
    match leaves.get(i as usize) {
        Some(leaf) => *leaf,
        None => None,
    }
}
