//! What stands at a place.
use fo_world::{Name, Node};

/// A node that a tree keeps, or one that is made for a dated directory.
#[derive(Drop)]
pub(crate) enum Found<'a> {
    Kept(&'a Node),
    Made(Node),
}

/// A node, with its name.
#[derive(Drop)]
pub(crate) struct Reached<'a> {
    pub(crate) name: &'a Name,
    pub(crate) found: Found<'a>,
}

impl Reached<'_> {
    ghost use Rattle.std.specs.Prelude.{◌≡◌};
    ghost use Rattle.fo_plain.specs.Found.{found_node};

    /// The node.
    pub(crate) fn node(&self) -> &Node
        ensures { result.now ≡ found_node self.now.found }
    {
        match &self.found {
            Found::Kept(node) => node,
            Found::Made(node) => node,
        }
    }
}
