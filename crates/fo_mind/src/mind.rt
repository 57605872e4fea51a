//! What a cache keeps in memory.
ghost use Rattle.std.specs.Prelude.{◌≡◌, ◌+◌, ◌*◌, ◌<◌, ◌≤◌, true, length};
ghost use Rattle.std.specs.Vec.{vec_len, vec_capacity};
ghost use Rattle.fo_mind.specs.Parts.{least_limit};
ghost use Rattle.fo_mind.specs.Sound.{Placed, Rooted, Labelled, Holding, Changing, Waiting, Clearable, Standing, RootIn, Owing, Roomy, Making};
ghost use Rattle.fo_mind.specs.Turning.{Turning};
ghost use Rattle.fo_image.specs.Format.{SpellsSuper};
ghost use Rattle.fo_mind.specs.Props.{super_prop, placed_prop, rooted_prop, labelled_prop, holding_prop, changing_prop, waiting_prop, clearable_prop, standing_prop, root_in_prop, owing_prop, roomy_prop, making_prop, turning_prop};

use fo_buffers::{Block, Buffers};
use fo_facts::Facts;
use fo_image::Super;
use fo_labels::Labels;
use fo_order::Order;
use fo_rooms::{Walk, Worklist};
use fo_unlink::Queue;
use fo_waits::{Clearing, Wait};
use std::alloc::Global;

/// All that a cache keeps but its device. Its parts are open to the crates of the cache: what has to hold of them is kept with them.
#[derive(Drop)]
pub struct Mind {
    pub alloc: Global,
    pub buffers: Buffers,
    pub order: Order,
    pub labels: Labels,
    pub queue: Queue,
    pub facts: Facts,
    pub links: Worklist,
    pub walk: Walk,
    pub waits: Vec<Wait>,
    pub clears: Vec<Clearing>,
    pub one: Super,
    pub one_bytes: Block,
    pub doubt: Option<Block>,
    pub first: u32,
    pub count: u32,
    pub next: u32,
    pub granted: bool,
    pub spare: u32,
    pub pins: u32,
    pub room: u32,
    ghost placed: { Placed labels order facts first count } by { placed_prop labels order facts first count },
    ghost rooted: { Rooted first count one } by { rooted_prop first count one },
    ghost spelled: { SpellsSuper one one_bytes } by { super_prop one one_bytes },
    ghost labelled: { Labelled labels } by { labelled_prop labels },
    ghost holding: { Holding one.low first count labels buffers } by { holding_prop one.low first count labels buffers },
    ghost changing: { Changing one.high labels buffers } by { changing_prop one.high labels buffers },
    ghost waiting: { Waiting labels buffers waits.items } by { waiting_prop labels buffers waits.items },
    ghost clearable: { Clearable labels one.low one.high clears.items } by { clearable_prop labels one.low one.high clears.items },
    ghost standing: { Standing buffers facts clears.items } by { standing_prop buffers facts clears.items },
    ghost root_in: { RootIn one.low labels facts one.active } by { root_in_prop one.low labels facts one.active },
    ghost owing: { Owing buffers order facts } by { owing_prop buffers order facts },
    ghost roomy: { Roomy buffers order labels facts one.low spare pins (room + length clears.items) } by { roomy_prop buffers order labels facts one.low spare pins (room + length clears.items) },
    ghost making: { Making facts spare (room + length clears.items) links queue.room } by { making_prop facts spare (room + length clears.items) links queue.room },
    ghost turning: { Turning first buffers order facts } by { turning_prop first buffers order facts },
    ghost rests: { length walk.pairs ≡ 0 },
    ghost awaits: { vec_len waits + 102 * (room + length clears.items) ≤ vec_capacity waits },
    ghost clears_more: { vec_len clears + room ≤ vec_capacity clears },
    ghost numbered: { next ≤ least_limit one doubt },
    ghost granting: { granted ≡ true → next < least_limit one doubt },
}
