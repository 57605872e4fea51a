//! Calls on the files and, where they answered, on the plain files.
ghost use Rattle.fo_world.specs.Limits.{IsUser};

use crate::call::Call;
use crate::edits::{change, create, piece, remove, write};
use crate::looks::look;
use crate::text::{name, user};
use crate::verdict::{Pairs, Spot, Verdict, apart};
use fo_base::{Bytes, Memory};
use fo_world::FileOps;
use std::alloc::Global;

/// A call by someone at a moment.
#[derive(Clone, Copy, Debug)]
pub struct Request {
    pub call: Call,
    pub who: u32,
    pub now: u32,
}

/// All is settled.
fn sync<F: FileOps>(files: &mut F) -> Verdict {
    match apart(&files.sync()) {
        Some(verdict) => verdict,
        None => Verdict::Same,
    }
}

/// A call by someone.
fn ask_as<F: FileOps, G: FileOps>(
    alloc: Global,
    files: &mut F,
    plain: &mut G,
    spot: &Spot,
    pairs: &Pairs,
    request: &Request,
    who: &Bytes,
) -> Result<Verdict, Memory>
    requires files { F.serves files.old spot.now.files.view }
    requires plain { G.serves plain.old spot.now.plain.view }
    requires who { IsUser who.now }
{
    let now = request.now;
    match &request.call {
        Call::Write {
            offset,
            count,
            salt,
        } => {
            let bytes = piece(alloc, *count, *salt)?;
            write(alloc, files, plain, spot, *offset, &bytes, who, now)
        }
        Call::Create { name: number, mode } => {
            let name = name(alloc, *number)?;
            create(alloc, files, plain, spot, pairs, &name, *mode, who, now)
        }
        Call::Remove => remove(alloc, files, plain, spot, who, now),
        Call::Change(what) => change(alloc, files, plain, spot, what, who, now),
        Call::Sync => Ok(sync(files)),
        call => look(alloc, files, plain, spot, pairs, *call),
    }
}

/// A call on both.
pub fn ask<F: FileOps, G: FileOps>(
    alloc: Global,
    files: &mut F,
    plain: &mut G,
    spot: &Spot,
    pairs: &Pairs,
    request: &Request,
) -> Result<Verdict, Memory>
    requires files { F.serves files.old spot.now.files.view }
    requires plain { G.serves plain.old spot.now.plain.view }
{
    let who = user(alloc, request.who)?;
    ask_as(alloc, files, plain, spot, pairs, request, &who)
}
