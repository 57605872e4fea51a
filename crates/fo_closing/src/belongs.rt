//! Which blocks belong to a removal.
ghost use Rattle.std.specs.Prelude.{◌≡◌, ◌≢◌, ◌↔◌, ◌^◌, ◌<◌, ◌≤◌, true, [], IsTrue};
ghost use Rattle.fo_image.specs.declared.types.State.TheVariants.{Live};
ghost use Rattle.fo_facts.specs.Known.{fact_at};
ghost use Rattle.fo_mind.specs.MindParts.{parts};
ghost use Rattle.fo_mind.specs.Parts.{IsBlock, label_at};
ghost use Rattle.fo_closing.specs.Known.{IsClosable, IsPart, at_level, kind_below};

use fo_image::{Kind, Label, State};
use fo_mind::Mind;
use fo_unlink::Removal;

/// The kind of a source's blocks at this level.
pub fn at_level(kind: Kind, level: u8) -> Kind
    ensures { result ≡ at_level kind level }
{
    match kind {
        Kind::Data(_) => Kind::Data(level),
        Kind::Dir(_) => Kind::Dir(level),
        Kind::Root => Kind::Root,
    }
}

/// The kind of what hangs from a pointer block of this level, and without one of what a removal begins with.
pub fn kind_below(kind: Kind, level: Option<u8>) -> Kind
    ensures { result ≡ kind_below kind level }
{
    match level {
        Some(level) => at_level(kind, level.saturating_sub(1)),
        None => kind,
    }
}

// Whether a label is live, of this kind and tag, and of an epoch up to this one.
fn is_of(label: &Label, kind: Kind, tag: u32, epoch: u32) -> bool
    ensures { IsTrue result ↔ ((label.now.state ≡ Live) × (label.now.kind ≡ kind) × (label.now.tag ≡ tag) × (label.now.epoch ≤ epoch)) }
{
    label.state == State::Live && label.kind == kind && label.tag == tag && label.epoch <= epoch
}

/// Whether the label of a block says that it is one of this removal, of this kind.
pub fn is_part(mind: &Mind, r: &Removal, kind: Kind, at: u32) -> bool
    ensures { IsTrue result ↔ IsPart (parts mind.now [] 0).region r.now kind at }
{
    if !mind.is_block(at) {
        return false;
    }
    if !mind.is_block(r.at) {
        return false;
    }
    is_of(&mind.label(at), kind, mind.label(r.at).tag, r.epoch)
}

/// Whether a block of a removal may be closed, where all is at rest.
pub fn is_closable(mind: &Mind, r: &Removal, kind: Kind, at: u32) -> bool
    ensures { IsTrue result ↔ IsClosable (parts mind.now [] 0) r.now kind at }
{
    if !is_part(mind, r, kind, at) {
        return false;
    }
    at != mind.one.active && mind.facts.get(at).linked && r.epoch < 1 << 31
}
