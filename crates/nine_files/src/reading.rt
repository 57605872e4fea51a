//! Reading directories, and writing.
ghost use Rattle.std.specs.Prelude.{◌≡◌, ◌==◌, ◌&&◌, not, IsTrue, IfOk, IfErr, MatchResult, Ok, Err};
ghost use Rattle.fo_world.specs.Limits.{IsUser};
ghost use Rattle.fo_world.specs.Step as step;
ghost use Rattle.nine_fids.specs.Refusing.{changed};
ghost use Rattle.fo_world.specs.declared.error.FileError.TheVariants as failure;
ghost use Rattle.nine_fids.specs.declared.refusal.Refusal.TheVariants as refusal;
ghost use Rattle.nine_fids.specs.Fids as fids;
ghost use Rattle.nine_fids.specs.Told.{served};
ghost use Rattle.nine_fids.specs.Looking.{HasCause, IsRefused, MayMiss};
ghost use Rattle.nine_files.specs.Reading as nine;
ghost use Rattle.nine_files.specs.Parts.{listed, Gives, write_start};
ghost use Rattle.nine_files.specs.Answering.{Changes, HadRoom};

use fo_world::{FileOps, Info, Name, Place};
use nine_fids::{Fid, Opened, Refusal, Stated, appends, next_at, put_record};
use std::alloc::Global;

/// What a read of a directory gives: whole records, and the name of the last file that was given, or that of before where none was.
#[derive(Drop)]
pub struct Records {
    pub bytes: Vec<u8>,
    pub last: Option<Name>,
}

impl Records {
    ghost use Rattle.std.specs.Prelude.{◌≡◌, ◌-◌, ◌≤◌, length, not, nat_lt, IsTrue, Option, Some, None, is_some, Ok, IfOk, IfErr, MatchResult, if◌then◌else◌};
    ghost use Rattle.fo_world.specs.Fits.{InfoFits};
    ghost use Rattle.fo_world.specs.declared.error.FileError.TheVariants as failure;
    ghost use Rattle.fo_world.specs.declared.place.Info.{Info};
    ghost use Rattle.nine_fids.specs.declared.refusal.Refusal.TheVariants as refusal;
    ghost use Rattle.nine_fids.specs.Told.{served, record_of};
    ghost use Rattle.nine_fids.specs.Looking.{HasCause, IsRefused, MayMiss};
    ghost use Rattle.nine_files.specs.Parts.{next_taken, Adds};

    /// Adds the record of a file, where it stands within the count; says whether it does.
    fn add(&mut self, alloc: Global, info: Info, count: usize) -> Result<bool, Refusal>
        requires fits { InfoFits info }
        requires within { length self.old.bytes.items ≤ count }
        ensures adds { MatchResult result (λ added. (added ≡ not (nat_lt (count - length self.old.bytes.items) (length (record_of info))))
            × Adds (if added then Some info else None) self.old.bytes.items self.new.bytes.items self.old.last self.new.last)
            (λ r. r ≡ refusal.File failure.Memory) }
        ensures short { IfOk result (λ _. length self.new.bytes.items ≤ count) }
    {
        let name = info.name.copy(alloc)?;
        let start = self.bytes.len();
        put_record(info, &mut self.bytes)?;
        if self.bytes.len() > count {
            self.bytes.truncate(start);
            return Ok(false);
        }
        self.last = Some(name);
        Ok(true)
    }

    /// Adds the record of the next file of a directory, where there is one and it stands within the count; says whether it does.
    fn take_next<F: FileOps>(
        &mut self,
        alloc: Global,
        files: &mut F,
        at: &Place,
        count: usize,
    ) -> Result<bool, Refusal>
        requires whole { IsTrue (F.whole files.old) }
        requires within { length self.old.bytes.items ≤ count }
        ensures takes { let told = next_taken (served (F.whole files.old) (F.largest files.old)) (F.world files.old) at.now self.old.last count (length self.old.bytes.items) in
            MatchResult result (λ taken. (next : Option Info) × (F.honest files.old → told ≡ Ok next) × (taken ≡ is_some next) × Adds next self.old.bytes.items self.new.bytes.items self.old.last self.new.last)
            (λ r. F.honest files.old → IsRefused told (MayMiss (F.faults files.old) (F.faults files.new) (F.honest files.old)) r) }
        ensures world { F.honest files.old → F.world files.new ≡ F.world files.old }
        ensures short { IfOk result (λ _. length self.new.bytes.items ≤ count) }
        ensures cause { IfErr result (HasCause (⟦<F as Stated>⟧.state files.old) (⟦<F as Stated>⟧.state files.new) 0) }
        ensures keeps { F.keeps files.old files.new }
    {
        let Some(info) = next_at(files, at, self.last.as_ref())? else {
            return Ok(false);
        };
        if self.add(alloc, info, count)? {
            return Ok(true);
        }
        if self.bytes.as_slice().is_empty() {
            return Err(Refusal::CountTooSmall);
        }
        Ok(false)
    }
}

/// As many records of a directory as stand within `count` bytes, from the first name above `after` on. It is refused where the first
/// record takes more than that, and where the files refuse or fail.
pub fn list_records<F: FileOps>(
    alloc: Global,
    files: &mut F,
    at: &Place,
    after: Option<Name>,
    count: u32,
) -> Result<Records, Refusal>
    requires { IsTrue (F.whole files.old) }
    ensures lists { let told = listed (served (F.whole files.old) (F.largest files.old)) (F.world files.old) at.now after count in
        MatchResult result (λ given. Gives (F.honest files.old) told after count given.bytes.items given.last)
        (λ r. F.honest files.old → IsRefused told (MayMiss (F.faults files.old) (F.faults files.new) (F.honest files.old)) r) }
    ensures world { F.honest files.old → F.world files.new ≡ F.world files.old }
    ensures cause { IfErr result (HasCause (⟦<F as Stated>⟧.state files.old) (⟦<F as Stated>⟧.state files.new) 0) }
    ensures keeps { F.keeps files.old files.new }
{
    let count = count as usize;
    let mut given = Records {
        bytes: Vec::new(alloc),
        last: after,
    };
    // Each record has bytes, so this ends.
    'records: loop {
        if !given.take_next(alloc, files, at, count)? {
            return Ok(given);
        }
    }
}

/// Whether a read of a directory can't begin at an offset: it is neither 0 nor where the last read ended.
pub fn is_bad_offset(opened: &Opened, offset: u64) -> bool
    ensures { result ≡ (not (offset == 0) && not (offset == opened.now.offset)) }
{
    offset != 0 && offset != opened.offset
}

/// Where a read of a directory begins: at its first name, or behind the last one that was given. Only memory may be wanting.
pub fn start_of(alloc: Global, opened: &Opened, offset: u64) -> Result<Option<Name>, Refusal>
    ensures { MatchResult result (λ start. start ≡ nine.start_of opened.now offset) (λ r. r ≡ refusal.File failure.Memory) }
{
    if offset == 0 {
        return Ok(None);
    }
    match &opened.last {
        None => Ok(None),
        Some(last) => Ok(Some(last.copy(alloc)?)),
    }
}

/// The fid with the place in its directory where its next read goes on: the offset, and the last name. Only memory may be wanting.
pub fn read_to(
    alloc: Global,
    fid: &Fid,
    opened: &Opened,
    offset: u64,
    last: Option<Name>,
) -> Result<Fid, Refusal>
    ensures { MatchResult result (λ f. f ≡ nine.read_to fid.now opened.now offset last) (λ r. r ≡ refusal.File failure.Memory) }
{
    Ok(Fid {
        number: fid.number,
        user: fid.user.copy(alloc)?,
        place: fid.place.copy(alloc)?,
        opened: Some(Opened {
            access: opened.access,
            remove: opened.remove,
            exclusive: opened.exclusive,
            offset,
            last,
        }),
    })
}

/// Where a write begins: at the end of a file with DMAPPEND.
fn write_start(info: &Info, offset: u64) -> u64
    ensures { result ≡ write_start info.now offset }
{
    if appends(info.mode) {
        info.length
    } else {
        offset
    }
}

/// Writes bytes into the file of a fid, whose user is one of files: at the offset, or at the end of a file with DMAPPEND. A refusal
/// or a failure of the files leaves the world.
pub fn write_bytes<F: FileOps>(
    files: &mut F,
    now: u32,
    fid: &Fid,
    info: &Info,
    offset: u64,
    bytes: &[u8],
) -> Result<(), Refusal>
    requires whole { IsTrue (F.whole files.old) }
    requires user { IsUser fid.now.user }
    ensures changes { Changes (⟦<F as Stated>⟧.state files.old) (⟦<F as Stated>⟧.state files.new)
        (λ w n. F.touches files.old w n files.new)
        (λ e w. changed (step.write e.whole e.largest w fid.now.place (write_start info.now offset) bytes.now fid.now.user now)) (λ e w. step.write_need fid.now.place bytes.now) (step.write_need fid.now.place bytes.now) result }
    ensures room { HadRoom (F.has_room files.old) (step.write_need fid.now.place bytes.now) result }
{
    let offset = write_start(info, offset);
    files.write(&fid.place, offset, bytes, &fid.user, now)?;
    Ok(())
}

/// How a fid is open, or the refusal that it isn't.
pub fn opened_of(fid: &Fid) -> Result<&Opened, Refusal>
    ensures { MatchResult result (λ o. fids.opened_of fid.now ≡ Ok o.now) (λ r. fids.opened_of fid.now ≡ Err r) }
{
    match &fid.opened {
        Some(opened) => Ok(opened),
        None => Err(Refusal::FidIsNotOpen),
    }
}
