//! What the scripts drive.
use fo_links::{MemSink, MemSource};
use fo_plain::PlainFiles;
use fo_script::{Flushed, ScriptEnd, Turner, Unlinked, run_script};
use fo_sessions::Sessions;
use fo_world::FileError;
use nine_wire::{Reply, Request};
use std::alloc::Global;
use std::process::Abort;
use std::test::Fail;

/// Sessions over plain files, and a disk of which only so much is known: what its turns will say.
#[derive(Drop)]
pub struct Served {
    files: PlainFiles,
    sessions: Sessions,
    /// How many more fids may be let go.
    fids: u32,
    /// Whether the next flushing turn fails.
    pub fails: bool,
    /// How many slots are to be cleared, and then how many blocks to be written.
    pub slots: u32,
    pub dirty: u32,
    /// How many removals are passed over, and then how many blocks are closed, which each makes a block to be written.
    pub passed: u32,
    pub removed: u32,
    faults: u64,
}

impl Served {
    /// Nothing is to be written, and nothing was removed.
    pub fn new(alloc: Global) -> Result<Served, Fail> {
        Ok(Served {
            files: PlainFiles::new(alloc, 0)?,
            sessions: Sessions::new(alloc),
            fids: 100,
            fails: false,
            slots: 0,
            dirty: 0,
            passed: 0,
            removed: 0,
            faults: 0,
        })
    }
}

impl Turner for Served {
    ghost faults = { λ s. record { main = s.faults; arena = 0 } };

    ghost fids = { λ s _. s.fids };

    ghost goes = { λ _ _ _ _. Unit {0} };

    fn answer(&mut self, session: u8, now: u32, request: Request) -> Reply {
        self.sessions.answer(session, &mut self.files, now, request)
    }

    fn drop_one(&mut self, session: u8, now: u32) -> (bool, Option<Reply>) {
        let (more, reply) = self.sessions.drop_one(session, &mut self.files, now);
        if !more || self.fids == 0 {
            return (false, None);
        }
        self.fids -= 1;
        (true, reply)
    }

    fn flush(&mut self) -> Result<Flushed, FileError> {
        if self.fails {
            self.fails = false;
            self.faults = self.faults.saturating_add(1);
            return Err(FileError::MainWrite);
        }
        if self.slots > 0 {
            self.slots -= 1;
            return Ok(Flushed::Cleared);
        }
        if self.dirty > 0 {
            self.dirty -= 1;
            return Ok(Flushed::Wrote(7));
        }
        Ok(Flushed::Idle)
    }

    fn unlink(&mut self) -> Result<Unlinked, FileError> {
        if self.dirty > 0 {
            return Ok(Unlinked::Waits);
        }
        if self.passed > 0 {
            self.passed -= 1;
            return Ok(Unlinked::Passed(8));
        }
        if self.removed > 0 {
            self.removed -= 1;
            self.dirty = 1;
            return Ok(Unlinked::Closed(9));
        }
        Ok(Unlinked::Empty)
    }
}

/// The bytes of these texts, one after another.
pub fn text(alloc: Global, pieces: &[&str]) -> Result<Vec<u8>, Fail> {
    let mut bytes = Vec::new(alloc);
    for piece in pieces {
        bytes.extend_from_slice(piece.as_bytes())?;
    }
    Ok(bytes)
}

/// Runs these bytes as a script, which come at most 5 at a time: what is put out, and how it ends.
pub fn runs(
    rt: &impl Abort,
    alloc: Global,
    served: &mut Served,
    input: Vec<u8>,
    output: &[&str],
    end: ScriptEnd,
) -> Result<(), Fail> {
    let mut input = MemSource::new(input, 5, Vec::new(alloc));
    let mut out = MemSink::new(Vec::new(alloc));
    let ended = run_script(alloc, &mut input, &mut out, served);
    assert_eq!(rt; ended, end);
    assert_eq!(rt; out.bytes(), text(alloc, output)?.as_slice());
    Ok(())
}

/// Runs this text over a server with nothing to be written: what is put out, and how it ends.
pub fn says(
    rt: &impl Abort,
    alloc: Global,
    input: &[&str],
    output: &[&str],
    end: ScriptEnd,
) -> Result<(), Fail> {
    let mut served = Served::new(alloc)?;
    let input = text(alloc, input)?;
    runs(rt, alloc, &mut served, input, output, end)
}
