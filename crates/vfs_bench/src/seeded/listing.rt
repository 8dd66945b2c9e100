//! The directory that `readdir` reads: one by the seed, or one that the input tells.
//!
//! The directory by the seed has an item at each place below the seed's rest by 23, and, where its
//! rest by 31 is 30, at each place whatever. A reading begins at the place that is its offset. With
//! t the seed and the place's rest by 1000, the item of a place has
//!
//! - the node t + 100,
//! - the next place as its offset, at most the largest number,
//! - the type t % 16, or the largest number where t % 11 is 10,
//! - the name `.` at place 0 and `..` at place 1 where the seed is even; else the letter t % 26 of
//!   the alphabet, counted from 0: 300 times where t % 37 is 36, else as often as the rest by 40 of
//!   the seed and seven times the place's rest by 1000.
//!
//! One that is told has the items that are told, whatever the offset.

ghost use Rattle.std.specs.Prelude.{◌<◌, ◌≤◌, ◌^◌};

use crate::directory::ScriptEntries;
use vfs_files::{CStr, DirEntry, DirectoryIterator};

/// How many bytes a name has at most, with the 0 after it.
const NAME_ROOM: usize = 301;

/// A reading of a directory.
#[derive(Drop)]
pub enum DirectoryItems {
    /// Of the directory by the seed.
    Seeded(Seeded),
    /// Of one that is told.
    Told(ScriptEntries),
}

impl DirectoryIterator for DirectoryItems {
    ghost use Rattle.std.specs.Prelude.{⊤};

    ghost gives = { λ old item new. ⊤ };

    fn next(&mut self) -> Option<DirEntry<'_>> {
        match self {
            DirectoryItems::Seeded(items) => items.next(),
            DirectoryItems::Told(items) => items.next(),
        }
    }
}

/// A reading of the directory by the seed.
#[derive(Drop)]
pub struct Seeded {
    seed: u32,
    place: u64,
    name: [u8; NAME_ROOM],
}

impl Seeded {
    /// A reading from a place on.
    pub fn new(seed: u32, place: u64) -> Seeded {
        Seeded {
            seed,
            place,
            name: [0; NAME_ROOM],
        }
    }

    // The number that the item of the next place goes by.
    fn number(&self) -> u64
        ensures { result < 2 ^ 33 }
    {
        u64::from(self.seed) + self.place % 1000
    }

    // Whether there is no item from the next place on.
    fn has_ended(&self) -> bool {
        self.seed % 31 != 30 && self.place >= u64::from(self.seed % 23)
    }

    // The byte that the name at the next place repeats, and how often.
    fn letter(&self) -> (u8, usize)
        ensures { result.1 ≤ 300 }
    {
        if self.seed % 2 == 0 && self.place < 2 {
            return (b'.', self.place as usize + 1);
        }
        let t = self.number();
        let times = if t % 37 == 36 {
            300
        } else {
            (u64::from(self.seed) + 7 * (self.place % 1000)) % 40
        };
        (b'a' + (t % 26) as u8, times as usize)
    }

    // Writes the name of the item at the next place.
    fn write_name(&mut self) {
        let (letter, times) = self.letter();
        self.name[..times].fill(letter);
        self.name[times] = 0;
    }

    // The item of this number, whose name was written and which is after the next place.
    fn entry(&self, t: u64) -> Option<DirEntry<'_>>
        requires { t < 2 ^ 33 }
    {
        Some(DirEntry {
            ino: t + 100,
            offset: self.place,
            type_: kind(t),
            name: CStr::from_bytes_until_nul(&self.name)?,
        })
    }
}

// The type of the item of this number.
fn kind(t: u64) -> u32 {
    if t % 11 == 10 {
        u32::MAX
    } else {
        (t % 16) as u32
    }
}

impl DirectoryIterator for Seeded {
    ghost use Rattle.std.specs.Prelude.{⊤};

    ghost gives = { λ old item new. ⊤ };

    fn next(&mut self) -> Option<DirEntry<'_>> {
        if self.has_ended() {
            return None;
        }
        let t = self.number();
        self.write_name();
        self.place = self.place.saturating_add(1);
        self.entry(t)
    }
}
