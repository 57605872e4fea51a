//! The head of the arena, of 8192 bytes, and the lines of its index, of 24.
ghost use Rattle.std.specs.Prelude.{◌≡◌, ◌↔◌, length, IsTrue};
ghost use Rattle.std.specs.List.{AllByRecursion};
ghost use Rattle.fo_image.specs.Field.{FieldFits, Reads, spelling};
ghost use Rattle.fo_image.specs.Part.{parts_bytes};
ghost use Rattle.fo_image.specs.declared.types.ArenaHead.{ArenaHead};
ghost use Rattle.fo_image.specs.declared.types.ArenaLine.{ArenaLine};
ghost use Rattle.fo_image.specs.Format.{arena_head_fields, SpellsArenaHead, is_arena_kind, arena_line_fields, ArenaLineHolds, SpellsArenaLine};

use crate::parts::{Part, is_spelled, score_at, u16_at, u32_at, write_parts};
use crate::pointers::is_score;
use crate::types::{ArenaHead, ArenaLine, Bad};
use fo_base::BLOCK;

fn parts_of_arena_head(head: ArenaHead) -> [Part<'static>; 3]
    ensures spelled { parts_bytes result ≡ spelling (arena_head_fields head) }
    ensures fit { AllByRecursion FieldFits (arena_head_fields head) }
{
    [
        Part::Bytes(b"FSARENA1"),
        Part::Four(head.blocks),
        Part::Four(head.used),
    ]
}

/// The only head that these bytes can spell.
fn arena_head_of(bytes: &[u8]) -> ArenaHead
    requires { length bytes.now ≡ 8192 }
    ensures { (head : ArenaHead) → SpellsArenaHead head bytes.now → result ≡ head }
{
    ArenaHead {
        blocks: u32_at(bytes, 8),
        used: u32_at(bytes, 12),
    }
}

/// Fills the block with the head of an arena.
pub fn write_arena_head(v: &ArenaHead, into: &mut [u8])
    requires { length into.old ≡ 8192 }
    ensures { SpellsArenaHead v.now into.new }
{
    write_parts(&parts_of_arena_head(*v), into);
}

/// The head of an arena that the block spells, or `Bad::Header` where it spells none.
pub fn read_arena_head(block: &[u8]) -> Result<ArenaHead, Bad>
    requires { length block.now ≡ 8192 }
    ensures { Reads (λ v. SpellsArenaHead v block.now) Bad.Header result }
{
    let head = arena_head_of(block);
    if is_spelled(&parts_of_arena_head(head), block) {
        Ok(head)
    } else {
        Err(Bad::Header)
    }
}

fn is_arena_kind(kind: u8) -> bool
    ensures { result ≡ is_arena_kind kind }
{
    matches!(kind, 0..=4 | 8..=12 | 16 | 17)
}

/// Whether the line has a spelling.
fn is_arena_line(line: &ArenaLine) -> bool
    ensures { IsTrue result ↔ ArenaLineHolds line.now }
{
    is_score(line.score) && is_arena_kind(line.kind) && line.len <= BLOCK as u16
}

fn parts_of_arena_line(line: ArenaLine) -> [Part<'static>; 4]
    ensures spelled { parts_bytes result ≡ spelling (arena_line_fields line) }
    ensures fit { AllByRecursion FieldFits (arena_line_fields line) }
{
    [
        Part::Twenty(line.score.0),
        Part::One(line.kind),
        Part::One(0),
        Part::Two(line.len),
    ]
}

/// The only line that these bytes can spell.
fn arena_line_of(bytes: &[u8]) -> ArenaLine
    requires { length bytes.now ≡ 24 }
    ensures { (line : ArenaLine) → SpellsArenaLine line bytes.now → result ≡ line }
{
    ArenaLine {
        score: score_at(bytes, 0),
        kind: bytes[20],
        len: u16_at(bytes, 22),
    }
}

/// Fills the 24 bytes with the line.
pub fn write_arena_line(v: &ArenaLine, into: &mut [u8])
    requires spelled { ArenaLineHolds v.now }
    requires length { length into.old ≡ 24 }
    ensures { SpellsArenaLine v.now into.new }
{
    write_parts(&parts_of_arena_line(*v), into);
}

/// The line of an index that the 24 bytes spell, or `Bad::Entry` where they spell none.
pub fn read_arena_line(bytes: &[u8]) -> Result<ArenaLine, Bad>
    requires { length bytes.now ≡ 24 }
    ensures { Reads (λ v. SpellsArenaLine v bytes.now) Bad.Entry result }
{
    let line = arena_line_of(bytes);
    if is_arena_line(&line) && is_spelled(&parts_of_arena_line(line), bytes) {
        Ok(line)
    } else {
        Err(Bad::Entry)
    }
}
