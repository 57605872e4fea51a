//! What the directories should have.
use crate::names::{DIRS, FAR, NAMES, PIECE, Spot};
use fo_base::Memory;
use std::alloc::Global;

/// A file: its number, whether it is a directory, its length, and the numbers of its two pieces, 0 where it has none or one of zeros.
#[derive(Clone, Copy)]
pub struct File {
    pub number: u32,
    pub is_dir: bool,
    pub long: u64,
    pub near: u32,
    pub far: u32,
}

/// What a name has, whether it ever had or was to have a file, and whether it was touched since all was settled last.
#[derive(Clone, Copy)]
pub struct Slot {
    pub file: Option<File>,
    pub used: bool,
    pub touched: bool,
}

/// What each name of each directory has.
#[derive(Drop)]
pub struct Model {
    slots: Vec<Slot>,
}

/// A name that has no file.
const NONE: Slot = Slot {
    file: None,
    used: false,
    touched: false,
};

/// The place of a name in the list of all.
fn place(spot: Spot) -> usize {
    (spot.dir % DIRS * NAMES + spot.name % NAMES) as usize
}

impl File {
    /// A file of this number, or a directory, in which nothing is.
    pub fn new(number: u32, is_dir: bool) -> File {
        File {
            number,
            is_dir,
            long: 0,
            near: 0,
            far: 0,
        }
    }

    /// The file once the piece of a number was written at an offset.
    pub fn written(self, offset: u64, number: u32) -> File {
        if offset == 0 {
            File {
                long: self.long.max(PIECE),
                near: number,
                ..self
            }
        } else {
            File {
                long: FAR + PIECE,
                far: number,
                ..self
            }
        }
    }

    /// The file once it got this length, up to the end of its second piece: what it loses is gone, and what it gains is zeros.
    pub fn cut(self, long: u64) -> File {
        File {
            long,
            near: if long < PIECE { 0 } else { self.near },
            far: if long < FAR + PIECE { 0 } else { self.far },
            ..self
        }
    }
}

impl Model {
    /// Directories with no files.
    pub fn new(alloc: Global) -> Result<Model, Memory> {
        let slots = vec![in alloc; NONE; (DIRS * NAMES) as usize]?;
        Ok(Model { slots })
    }

    /// The same once more.
    pub fn copy(&self) -> Result<Model, Memory> {
        let slots = self.slots.clone()?;
        Ok(Model { slots })
    }

    /// What a name has.
    pub fn at(&self, spot: Spot) -> Slot {
        match self.slots.get(place(spot)) {
            Some(slot) => *slot,
            None => NONE,
        }
    }

    /// Whether a name has a file.
    pub fn has(&self, spot: Spot) -> bool {
        self.at(spot).file.is_some()
    }

    /// Whether a name has a directory.
    pub fn is_dir(&self, spot: Spot) -> bool {
        match self.at(spot).file {
            Some(file) => file.is_dir,
            None => false,
        }
    }

    /// Whether a name had a file and has none.
    pub fn is_left(&self, spot: Spot) -> bool {
        let slot = self.at(spot);
        slot.used && slot.file.is_none()
    }

    /// What a name has from now on: it is touched.
    pub fn put(&mut self, spot: Spot, file: Option<File>) {
        if let Some(slot) = self.slots.get_mut(place(spot)) {
            *slot = Slot {
                file,
                used: true,
                touched: true,
            };
        }
    }

    /// A name was touched.
    pub fn touch(&mut self, spot: Spot) {
        let file = self.at(spot).file;
        self.put(spot, file);
    }

    /// All was settled.
    pub fn settle(&mut self) {
        for slot in self.slots.iter_mut() {
            slot.touched = false;
        }
    }
}
