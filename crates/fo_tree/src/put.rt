//! A piece is put into a source.
ghost use Rattle.std.specs.Prelude.{◌≡◌, ◌+◌, ◌*◌, ◌<◌, ◌≤◌, ℕ, length, max};
ghost use Rattle.fo_ports.specs.State.{none};
ghost use Rattle.fo_ports.specs.Sources.{Dirties, most_for};
ghost use Rattle.fo_tree_look.specs.Source.{Over, IsPlainTree, Prepared};
ghost use Rattle.fo_tree_link.specs.of_tree_down.Clear.{EndsClear};
ghost use Rattle.fo_tree_trim.specs.of_tree_own.Shown.{ShowsNoMore};
ghost use Rattle.fo_tree.specs.Writes.{Writes};

use crate::source::{at_top, ended};
use fo_ports::Blocks;
use fo_tree_append::put_past;
use fo_tree_append::tree_write::put_within;
use fo_tree_look::Ways;
use fo_tree_read::Tree;

/// Puts a piece in the place of the bytes from the offset on, with zeros between the end and it, and gives the source's tree then.
pub(crate) fn put<B: Blocks>(ways: &Ways, on: &mut B, offset: u64, piece: &[u8]) -> Tree
    requires over { Over (B.state on.old) ways.now.tree ways.now.kept.items ways.now.limit }
    requires plain { IsPlainTree ways.now.tree }
    requires some { 0 < length piece.now }
    requires prepared { Prepared (B.state on.old) ways.now.tree ways.now.kept.items ways.now.limit offset (length piece.now) }
    requires spare { most_for (max ways.now.tree.size (offset + length piece.now)) (length piece.now) ≤ (B.state on.old).spare }
    requires clear { ways.now.tree.size < offset + length piece.now → EndsClear (B.state on.old) ways.now.tree ways.now.kept.items }
    ensures writes { Writes (B.state on.old) (B.state on.new) ways.now.tree result ways.now.kept.items ways.now.limit offset piece.now }
    ensures dirties { Dirties (2 * most_for (max ways.now.tree.size (offset + length piece.now)) (length piece.now)) none (B.state on.old) (B.state on.new) }
    ensures shown { ShowsNoMore (B.state on.old).may_leave (B.state on.new).may_leave }
    ensures keeps { B.keeps on.old on.new }
{
    let end = offset + piece.len() as u64;
    if end <= ways.tree.size {
        let below = put_within(&ways.tree, &ways.kept, on, offset, piece);
        at_top(&ways.tree, below)
    } else {
        let below = put_past(&ways.tree, &ways.kept, on, offset, piece);
        ended(&ways.tree, end, below)
    }
}
