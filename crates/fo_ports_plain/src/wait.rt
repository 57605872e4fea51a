//! Waits of a block for pairs of entries.
ghost use Rattle.std.specs.Prelude.{◌≡◌, ◌≢◌, ◌*◌, ◌<◌, ℕ, false, true, cond, slice_index_or, slice_set};
ghost use Rattle.std.specs.Vec.{vec_len, vec_capacity};
ghost use Rattle.fo_image.specs.declared.types.Pointer.TheVariants.{Nil};
ghost use Rattle.fo_crash.specs.declared.slot.Slot.TheVariants.{Pointer as To};
ghost use Rattle.fo_ports_plain.specs.Plain.{is_active};
ghost use Rattle.fo_ports_plain.specs.Moves.{EndsWaits};

use fo_base::POINTERS;
use fo_crash::Slot;

// A leaf of entries is divided into so many pairs; the last one has one entry alone.
const PAIRS: usize = 205;

/// What is put into block `at` waits for these pairs of entries of block `on`.
#[derive(Clone, Copy)]
pub struct Wait {
    pub(crate) at: u32,
    pub(crate) on: u32,
    pub(crate) pairs: [bool; PAIRS],
}

impl Wait {
    /// The wait without one of its pairs, if it is for entries of this block.
    fn ended(self, on: u32, pair: u32) -> Wait
        requires { pair < 205 }
        ensures here { self.on ≡ on → result ≡ record self { pairs = slice_set self.pairs pair false } }
        ensures other { self.on ≢ on → result ≡ self }
    {
        let mut wait = self;
        if wait.on == on {
            wait.pairs[pair as usize] = false;
        }
        wait
    }
}

/// Whether the slot is an entry in use.
fn is_active(slot: &Slot) -> bool
    ensures { result ≡ is_active slot.now }
{
    match slot {
        Slot::Entry(entry) => entry.active,
        Slot::Pointer(_) | Slot::Prev(_, _) => false,
    }
}

/// The pairs of entries whose first is in use.
pub(crate) fn used_pairs(slots: &[Slot; POINTERS]) -> [bool; PAIRS]
    ensures { (k : ℕ) → slice_index_or result k false ≡ is_active (slice_index_or slots.now (2 * k) (To Nil)) }
{
    let mut pairs = [false; PAIRS];
    for k in 0..PAIRS {
        pairs[k] = is_active(&slots[2 * k]);
    }
    pairs
}

/// Ends the waits for one pair of entries of a block.
pub(crate) fn end_pair(waits: &mut Vec<Wait>, on: u32, pair: u32)
    requires { pair < 205 }
    ensures ends { EndsWaits on (2 * pair) waits.old.items waits.new.items }
    ensures room { (vec_len waits.new ≡ vec_len waits.old) × (vec_capacity waits.new ≡ vec_capacity waits.old) }
{
    for n in 0..waits.len() {
        waits[n] = waits[n].ended(on, pair);
    }
}
