//! What the calls keep of the lists of records.
ghost use Rattle.std.specs.Prelude.{ℕ, List, []};
ghost use Rattle.fo_image.specs.declared.record.Record.{Record};
ghost use Rattle.fo_meta.specs.Leaf.{without};
ghost use Rattle.fo_dir_put.specs.Differ.{Distinct};
ghost use Rattle.fo_dir_plain.specs.Calls.{IsAdded, IsChanged, IsNew, MayBear};

/// No two records of an empty list have one name, number or pair. Where none do, none do after a call: a record that is added has to have
/// a new number.
pub fn records_differ()
    ensures empty { Distinct [] }
    ensures added { (r : Record) (k : ℕ) (old new : List Record) → IsAdded r k old new → IsNew old r.number → Distinct old → Distinct new }
    ensures removed { (name : List ℕ) (old : List Record) → Distinct old → Distinct (without name old) }
    ensures changed { (name other : List ℕ) (old new : List Record) → IsChanged name other old new → MayBear old name other → Distinct old → Distinct new }
{}
