//! The header and the super block, of 8192 bytes.
ghost use Rattle.std.specs.Prelude.{◌≡◌, ◌↔◌, length, IsTrue};
ghost use Rattle.std.specs.List.{AllByRecursion};
ghost use Rattle.fo_image.specs.Field.{FieldFits, Reads, spelling};
ghost use Rattle.fo_image.specs.Part.{parts_bytes};
ghost use Rattle.fo_image.specs.declared.types.Header.{Header};
ghost use Rattle.fo_image.specs.declared.types.Super.{Super};
ghost use Rattle.fo_image.specs.Format.{header_fields, SpellsHeader, has_code, last_bytes, super_fields, SuperHolds, SpellsSuper};

use crate::labels::is_epoch;
use crate::parts::{Part, is_spelled, score_at, u16_at, u32_at, write_parts};
use crate::types::{Bad, Header, Score, Super};
use fo_base::BLOCK;

fn parts_of_header(header: Header) -> [Part<'static>; 3]
    ensures spelled { parts_bytes result ≡ spelling (header_fields header) }
    ensures fit { AllByRecursion FieldFits (header_fields header) }
{
    [
        Part::Bytes(b"FOSSILHD"),
        Part::Four(BLOCK as u32),
        Part::Four(header.blocks),
    ]
}

/// The only header that these bytes can spell.
fn header_of(bytes: &[u8]) -> Header
    requires { length bytes.now ≡ 8192 }
    ensures { (header : Header) → SpellsHeader header bytes.now → result ≡ header }
{
    Header {
        blocks: u32_at(bytes, 12),
    }
}

/// Fills the block with the header.
pub fn write_header(v: &Header, into: &mut [u8])
    requires { length into.old ≡ 8192 }
    ensures { SpellsHeader v.now into.new }
{
    write_parts(&parts_of_header(*v), into);
}

/// The header that the block spells, or `Bad::Header` where it spells none.
pub fn read_header(block: &[u8]) -> Result<Header, Bad>
    requires { length block.now ≡ 8192 }
    ensures { Reads (λ v. SpellsHeader v block.now) Bad.Header result }
{
    let header = header_of(block);
    if is_spelled(&parts_of_header(header), block) {
        Ok(header)
    } else {
        Err(Bad::Header)
    }
}

fn has_of(last: Option<Score>) -> u8
    ensures { result ≡ has_code last }
{
    match last {
        None => 0,
        Some(_) => 1,
    }
}

fn bytes_of_last(last: Option<Score>) -> [u8; 20]
    ensures is { result ≡ last_bytes last }
    ensures len { length result ≡ 20 }
{
    match last {
        None => [0; 20],
        Some(score) => score.0,
    }
}

/// Whether the super block has a spelling.
fn is_super_block(s: &Super) -> bool
    ensures { IsTrue result ↔ SuperHolds s.now }
{
    s.version == 1
        && is_epoch(s.low)
        && is_epoch(s.high)
        && 1 <= s.numbers
        && s.numbers <= 1 << 30
        && s.pending < 1 << 31
}

fn parts_of_super_block(s: Super) -> [Part<'static>; 9]
    ensures spelled { parts_bytes result ≡ spelling (super_fields s) }
    ensures fit { AllByRecursion FieldFits (super_fields s) }
{
    [
        Part::Bytes(b"FOSSILSB"),
        Part::Two(s.version),
        Part::Four(s.low),
        Part::Four(s.high),
        Part::Four(s.active),
        Part::Four(s.numbers),
        Part::Four(s.pending),
        Part::One(has_of(s.last)),
        Part::Twenty(bytes_of_last(s.last)),
    ]
}

/// The only super block that these bytes can spell.
fn super_block_of(bytes: &[u8]) -> Super
    requires { length bytes.now ≡ 8192 }
    ensures { (s : Super) → SpellsSuper s bytes.now → result ≡ s }
{
    Super {
        version: u16_at(bytes, 8),
        low: u32_at(bytes, 10),
        high: u32_at(bytes, 14),
        active: u32_at(bytes, 18),
        numbers: u32_at(bytes, 22),
        pending: u32_at(bytes, 26),
        last: match bytes[30] {
            0 => None,
            _ => Some(score_at(bytes, 31)),
        },
    }
}

/// Fills the block with the super block.
pub fn write_super(v: &Super, into: &mut [u8])
    requires spelled { SuperHolds v.now }
    requires length { length into.old ≡ 8192 }
    ensures { SpellsSuper v.now into.new }
{
    write_parts(&parts_of_super_block(*v), into);
}

/// The super block that the block spells, or `Bad::Super` where it spells none.
pub fn read_super(block: &[u8]) -> Result<Super, Bad>
    requires { length block.now ≡ 8192 }
    ensures { Reads (λ v. SpellsSuper v block.now) Bad.Super result }
{
    let s = super_block_of(block);
    if is_super_block(&s) && is_spelled(&parts_of_super_block(s), block) {
        Ok(s)
    } else {
        Err(Bad::Super)
    }
}
