//! How much room a request needs.
ghost use Rattle.std.specs.Prelude.{◌≡◌, ◌+◌, ◌^◌, ◌<◌, ◌≤◌, length, MatchOption};
ghost use Rattle.fo_rooms.specs.Needed.{IsEnough, Sums};

use fo_facts::Facts;

/// What is asked for: how many blocks may be made, how many more pinned, and how many removals and waits.
#[derive(Clone, Copy, Drop)]
pub struct Wants {
    pub blocks: u32,
    pub pins: u32,
    pub removals: u32,
}

/// How much room each part has to have: for buffers that are held, turns in the order of writing, removals, and blocks that are linked.
#[derive(Clone, Copy, Drop)]
pub struct Rooms {
    pub held: usize,
    pub turns: usize,
    pub removals: u32,
    pub linked: usize,
}

/// How much room is needed, where so many slots wait; None where 32 bits don't count it.
pub fn rooms_for(facts: &Facts, waiting: usize, wants: &Wants) -> Option<Rooms>
    ensures { MatchOption result (2 ^ 32 ≤ length facts.now + (waiting + (wants.now.blocks + wants.now.removals))) (IsEnough facts.now waiting wants.now) }
{
    if facts.len() > u32::MAX as usize || waiting > u32::MAX as usize {
        return None;
    }
    sum_up(facts.owed(), facts.made(), waiting, wants)
}

// The sums, where all fit.
fn sum_up(owed: usize, made: usize, waiting: usize, wants: &Wants) -> Option<Rooms>
    requires owed { owed < 2 ^ 32 }
    requires made { made < 2 ^ 32 }
    requires waiting { waiting < 2 ^ 32 }
    ensures { MatchOption result (2 ^ 32 ≤ made + (waiting + (wants.now.blocks + wants.now.removals))) (Sums owed made waiting wants.now) }
{
    let blocks = wants.blocks as usize;
    let pins = wants.pins as usize;
    let more = wants.removals as usize + waiting;
    let linked = made + blocks;
    let removals = linked + more;
    if removals > u32::MAX as usize {
        return None;
    }
    Some(Rooms {
        held: blocks + pins,
        turns: owed + 2 * blocks + pins + more,
        removals: removals as u32,
        linked,
    })
}
