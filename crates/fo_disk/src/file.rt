//! A disk in a file of the system, of which nothing is known.
ghost use Rattle.std.specs.Prelude.{◌≡◌, ◌<◌, ◌≤◌, ◌-◌, length, OnErr, IfOk};
ghost use Rattle.std.proofs.Common.{inl, refl};
ghost use Rattle.fo_disk.specs.File.{found, silent, silent_bytes};

use crate::disk::{count_call, count_fault};
use crate::{BLOCK, Disk, Failed};
use std::fs::{OpenFile, OpenOptions};
use std::io;
use std::io::{ErrorKind, Read, Seek, SeekFrom, Write};
use std::rt::Files;

/// A disk in a file, which is opened for reading and writing at the first call. Its blocks are the whole ones that the file
/// has when they are counted. It tells nothing of what it holds.
#[derive(Drop)]
pub struct FileDisk<R: Files> {
    rt: R,
    path: String,
    file: Option<R::File>,
    blocks: Option<u64>,
    calls: u64,
    pub(crate) faults: u64,
}

impl<R: Files> FileDisk<R> {
    /// The disk in the file with this path.
    pub fn new(rt: R, path: String) -> FileDisk<R>
        ensures size { found result.blocks ≡ 0 }
        ensures counts { (result.calls ≡ 0) × (result.faults ≡ 0) }
    {
        FileDisk {
            rt,
            path,
            file: None,
            blocks: None,
            calls: 0,
            faults: 0,
        }
    }
}

impl<R: Files> Disk for FileDisk<R> {
    ghost state = { λ d. silent };

    ghost size = { λ d. found d.blocks };

    ghost calls = { λ d. d.calls };

    ghost faults = { λ d. d.faults };

    ghost is_content = { λ d. inl refl };

    ghost are_bytes = { λ d. silent_bytes };

    ghost is_newest = { λ d. record { newest = tt } };

    ghost has_flags = { λ d. refl };

    fn blocks(&mut self) -> Result<u64, Failed> {
        count_call(&mut self.calls);
        if let Some(blocks) = self.blocks {
            return Ok(blocks);
        }
        match count_blocks(&self.rt, self.path.as_str(), &mut self.file) {
            Ok(blocks) => {
                self.blocks = Some(blocks);
                Ok(blocks)
            }
            Err(_) => Err(count_fault(&mut self.faults)),
        }
    }

    fn read(&mut self, at: u32, into: &mut [u8]) -> Result<(), Failed> {
        count_call(&mut self.calls);
        let mut bytes: [u8; BLOCK] = [0; BLOCK];
        match read_at(&self.rt, self.path.as_str(), &mut self.file, at, &mut bytes) {
            Ok(()) => {
                into.copy_from_slice(&bytes);
                Ok(())
            }
            Err(_) => Err(count_fault(&mut self.faults)),
        }
    }

    fn write(&mut self, at: u32, from: &[u8]) -> Result<(), Failed> {
        count_call(&mut self.calls);
        match write_at(&self.rt, self.path.as_str(), &mut self.file, at, from) {
            Ok(()) => Ok(()),
            Err(_) => Err(count_fault(&mut self.faults)),
        }
    }

    fn sync(&mut self) -> Result<(), Failed> {
        count_call(&mut self.calls);
        match settle_file(&self.rt, self.path.as_str(), &mut self.file) {
            Ok(()) => Ok(()),
            Err(_) => Err(count_fault(&mut self.faults)),
        }
    }
}

// The file, opened where it is not open yet.
fn opened<'a, R: Files>(
    rt: &R,
    path: &str,
    file: &'a mut Option<R::File>,
) -> io::Result<&'a mut R::File> {
    if file.is_none() {
        let mut how = OpenOptions::new();
        how.read(true);
        how.write(true);
        *file = Some(how.open(rt, path)?);
    }
    match file {
        Some(file) => Ok(file),
        None => Err(ErrorKind::NotFound.into()),
    }
}

fn count_blocks<R: Files>(rt: &R, path: &str, file: &mut Option<R::File>) -> io::Result<u64> {
    let file = opened(rt, path, file)?;
    Ok(file.metadata()?.len() / BLOCK as u64)
}

fn settle_file<R: Files>(rt: &R, path: &str, file: &mut Option<R::File>) -> io::Result<()> {
    let file = opened(rt, path, file)?;
    file.sync_all()
}

// Reads a block at its place.
fn read_at<R: Files>(
    rt: &R,
    path: &str,
    file: &mut Option<R::File>,
    at: u32,
    into: &mut [u8],
) -> io::Result<()> {
    let file = opened(rt, path, file)?;
    file.seek(SeekFrom::Start(at as u64 * BLOCK as u64))?;
    let mut done = 0;
    while done < into.len() {
        let n = file.read(&mut into[done..])?;
        if n == 0 {
            return Err(ErrorKind::UnexpectedEof.into());
        }
        done += n;
    }
    Ok(())
}

// Writes a block at its place.
fn write_at<R: Files>(
    rt: &R,
    path: &str,
    file: &mut Option<R::File>,
    at: u32,
    from: &[u8],
) -> io::Result<()> {
    let file = opened(rt, path, file)?;
    file.seek(SeekFrom::Start(at as u64 * BLOCK as u64))?;
    let mut done = 0;
    while done < from.len() {
        let n = file.write(&from[done..])?;
        if n == 0 {
            return Err(ErrorKind::WriteZero.into());
        }
        done += n;
    }
    Ok(())
}
