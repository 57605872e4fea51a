//! Both trees are compared.
use crate::call::{Call, ENDS, MOST};
use crate::game::Game;
use crate::verdict::Stop;
use fo_world::FileOps;
use std::alloc::Global;

impl Game {
    /// Compares all files that may be there, with the names of directories and the bytes at all ends.
    pub fn compare(&mut self, alloc: Global) -> Result<(), Stop> {
        for at in 0..self.spots.len() {
            self.look(alloc, at, Call::Info)?;
            self.compare_names(alloc, at)?;
            self.compare_bytes(alloc, at)?;
        }
        Ok(())
    }

    /// Compares the names of a directory, each found behind the one before it.
    fn compare_names(&mut self, alloc: Global, at: usize) -> Result<(), Stop> {
        self.look(alloc, at, Call::Next(None))?;
        for name in 0..crate::text::NAMES {
            self.look(alloc, at, Call::Next(Some(name)))?;
        }
        Ok(())
    }

    /// Compares the bytes of a file from all ends on.
    fn compare_bytes(&mut self, alloc: Global, at: usize) -> Result<(), Stop> {
        let length = self.length(at);
        for offset in ENDS {
            if offset < length {
                self.look(
                    alloc,
                    at,
                    Call::Read {
                        offset,
                        count: MOST,
                    },
                )?;
            }
        }
        Ok(())
    }

    /// The length of the file at a place in the list, by the plain files.
    fn length(&mut self, at: usize) -> u64 {
        let Some(spot) = self.spots.get(at) else {
            return 0;
        };
        match self.plain.info(&spot.plain) {
            Ok(told) => told.length,
            Err(_) => 0,
        }
    }
}
