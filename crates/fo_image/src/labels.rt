//! Labels, of 14 bytes.
ghost use Rattle.std.specs.Prelude.{◌≡◌, ◌↔◌, length, IsTrue};
ghost use Rattle.std.specs.List.{AllByRecursion};
ghost use Rattle.fo_image.specs.declared.types.State.{State};
ghost use Rattle.fo_image.specs.declared.types.Kind.{Kind};
ghost use Rattle.fo_image.specs.declared.types.Label.{Label};
ghost use Rattle.fo_image.specs.Field.{FieldFits, Reads, spelling};
ghost use Rattle.fo_image.specs.Part.{parts_bytes};
ghost use Rattle.fo_image.specs.Usable.{is_usable};
ghost use Rattle.fo_image.specs.Format.{state_code, kind_code, KindHolds, IsEpoch, LabelHolds, SpellsLabel, label_fields};

use crate::parts::{Part, is_spelled, u32_at, write_parts};
use crate::types::{Bad, Kind, Label, State};

fn code_of_state(state: State) -> u8
    ensures { result ≡ state_code state }
{
    match state {
        State::Free => 0,
        State::Live => 1,
        State::Closed => 9,
    }
}

fn code_of_kind(kind: Kind) -> u8
    requires { KindHolds kind }
    ensures { result ≡ kind_code kind }
{
    match kind {
        Kind::Data(level) => level,
        Kind::Dir(level) => 8 + level,
        Kind::Root => 16,
    }
}

fn parts_of(label: Label) -> [Part<'static>; 5]
    requires { LabelHolds label }
    ensures spelled { parts_bytes result ≡ spelling (label_fields label) }
    ensures fit { AllByRecursion FieldFits (label_fields label) }
{
    [
        Part::One(code_of_state(label.state)),
        Part::One(code_of_kind(label.kind)),
        Part::Four(label.epoch),
        Part::Four(label.closing),
        Part::Four(label.tag),
    ]
}

/// Fills the 14 bytes with the label.
pub fn write_label(v: &Label, into: &mut [u8])
    requires spelled { LabelHolds v.now }
    requires length { length into.old ≡ 14 }
    ensures { SpellsLabel v.now into.new }
{
    write_parts(&parts_of(*v), into);
}

fn state_of(code: u8) -> State
    ensures { (state : State) → code ≡ state_code state → result ≡ state }
{
    match code {
        1 => State::Live,
        9 => State::Closed,
        _ => State::Free,
    }
}

fn kind_of(code: u8) -> Kind
    ensures { (kind : Kind) → KindHolds kind → code ≡ kind_code kind → result ≡ kind }
{
    match code {
        16 => Kind::Root,
        8..=12 => Kind::Dir(code - 8),
        _ => Kind::Data(code),
    }
}

/// The only label that these bytes can spell.
fn label_of(bytes: &[u8]) -> Label
    requires { length bytes.now ≡ 14 }
    ensures { (l : Label) → SpellsLabel l bytes.now → result ≡ l }
{
    Label {
        state: state_of(bytes[0]),
        kind: kind_of(bytes[1]),
        epoch: u32_at(bytes, 2),
        closing: u32_at(bytes, 6),
        tag: u32_at(bytes, 10),
    }
}

/// Whether the level is at most 4.
fn is_kind(kind: Kind) -> bool
    ensures { IsTrue result ↔ KindHolds kind }
{
    match kind {
        Kind::Data(level) | Kind::Dir(level) => level <= 4,
        Kind::Root => true,
    }
}

/// Whether this is an epoch: from 1 to 2^31 - 1.
pub fn is_epoch(epoch: u32) -> bool
    ensures { IsTrue result ↔ IsEpoch epoch }
{
    1 <= epoch && epoch < 1 << 31
}

/// Whether the label has a spelling.
fn is_label(label: &Label) -> bool
    ensures { IsTrue result ↔ LabelHolds label.now }
{
    let Label {
        state,
        kind,
        tag,
        epoch,
        closing,
    } = *label;
    match state {
        State::Free => kind == Kind::Data(0) && tag == 0 && epoch == 0 && closing == 0,
        State::Live => is_kind(kind) && is_epoch(epoch) && closing == u32::MAX,
        State::Closed => is_kind(kind) && is_epoch(epoch) && epoch <= closing && is_epoch(closing),
    }
}

/// The label that the 14 bytes spell, or `Bad::Label` where they spell none.
pub fn read_label(bytes: &[u8]) -> Result<Label, Bad>
    requires { length bytes.now ≡ 14 }
    ensures { Reads (λ l. SpellsLabel l bytes.now) Bad.Label result }
{
    let label = label_of(bytes);
    if is_label(&label) && is_spelled(&parts_of(label), bytes) {
        Ok(label)
    } else {
        Err(Bad::Label)
    }
}

/// Whether a block with this label may be given out where `low` is the least low epoch that is kept: it is free, or was closed in
/// the epoch in which it was given out, or at an epoch up to `low`.
pub fn is_usable(label: &Label, low: u32) -> bool
    ensures { result ≡ is_usable low label.now }
{
    match label.state {
        State::Free => true,
        State::Live => false,
        State::Closed => label.closing == label.epoch || label.closing <= low,
    }
}
