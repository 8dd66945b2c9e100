//! Scratch memory for one call at a time, in which a reply is encoded.

ghost use Rattle.std.specs.Prelude.{◌≡◌, ◌≤◌, ◌+◌, ◌++◌, ℕ, false, true, length, take, drop, min, IfSome};
ghost use Rattle.nizwarf_codec.specs.Rooms.{HasRoomFor};

use c_rooms::{copy_part, lend};
use codec_decode::LONGEST_REPLY;
use std::alloc::Global;
use vfs_segments::Writer;

/// Memory in which one reply after another is put together.
#[derive(Drop)]
pub struct Part {
    /// Its one segment never gets shorter: the last room is its end.
    pub writer: Writer,
    /// Where the last room begins.
    pub start: usize,
}

impl Part {
    ghost use Rattle.nizwarf_codec.specs.Shown.{part_shown};

    /// None yet.
    fn new(alloc: Global) -> Part {
        Part {
            writer: Writer::empty(alloc),
            start: 0,
        }
    }

    /// Whether it has that many bytes, in one segment.
    #[inline(always)]
    pub fn has(&self, total: usize) -> bool
        ensures room { result ≡ true → HasRoomFor total self.now }
        ensures one { result ≡ true → length self.now.writer.lengths ≡ 1 }
        ensures enough { result ≡ true →
            total ≤ length self.now.writer.passed + length self.now.writer.left }
        ensures has { HasRoomFor total self.now → result ≡ true }
    {
        let segments = self.writer.segments();
        segments.len() == 1 && total <= segments[0].len()
    }

    // Takes memory for `total` bytes of room. False where there is none: then it is as it was.
    #[cold]
    fn grow(&mut self, alloc: Global, total: usize) -> bool
        ensures left { result ≡ true → length self.new.writer.left ≡ total }
        ensures one { result ≡ true → length self.new.writer.lengths ≡ 1 }
        ensures start { result ≡ true → self.new.start ≡ length self.new.writer.passed }
        ensures same { result ≡ false → self.new ≡ self.old }
    {
        let (mut list, mut room) = (Vec::new(alloc), Vec::new(alloc));
        let Some(writer) = lend(alloc, &mut list, &mut room, total) else {
            return false;
        };
        self.writer = writer;
        self.start = self.writer.bytes_written();
        true
    }

    /// Has memory for `total` bytes of room from now on. False where there is none.
    #[inline(always)]
    pub fn keep(&mut self, alloc: Global, total: usize) -> bool
        ensures kept { result ≡ true → HasRoomFor total self.new }
        ensures has_room { HasRoomFor total self.old → result ≡ true }
        ensures keeps { (n : ℕ) → HasRoomFor n self.old → HasRoomFor n self.new }
    {
        self.has(total) || self.grow(alloc, total)
    }

    /// Begins a reply with `total` bytes of room. False where there is no memory.
    #[inline(always)]
    pub fn begin(&mut self, alloc: Global, total: usize) -> bool
        ensures left { result ≡ true → length self.new.writer.left ≡ total }
        ensures one { result ≡ true → length self.new.writer.lengths ≡ 1 }
        ensures start { result ≡ true → self.new.start ≡ length self.new.writer.passed }
        ensures has_room { HasRoomFor total self.old → result ≡ true }
        ensures keeps { (n : ℕ) → HasRoomFor n self.old → HasRoomFor n self.new }
    {
        if !self.has(total) {
            return self.grow(alloc, total);
        }
        self.writer.rewind();
        self.start = self.writer.available_bytes() - total;
        self.writer.hold(self.start).is_ok()
    }

    // Copies the first `shown` bytes of the last room, from place `at` on, over the first ones of a piece, as many
    // as both have. Answers how many.
    fn copy_out(&self, shown: usize, at: usize, piece: &mut [u8]) -> usize
        ensures count { result ≡ min (length (drop at (part_shown self.now shown))) (length piece.old) }
        ensures copied { piece.new ≡
            take result (drop at (part_shown self.now shown)) ++ drop result piece.old }
    {
        let segments = self.writer.segments();
        if segments.len() != 1 {
            return 0;
        }
        copy_part(&segments[0], self.start, shown, at, piece)
    }
}

/// What a slot has: memory for the replies to requests that ask for no call, and for the answers to calls. What it has
/// for answers stays as it is where a request is asked.
#[derive(Drop)]
pub struct Memory {
    /// Where a reply to a request that asks for no call is put together: it has room for any.
    pub asked: Part,
    /// Where the answer to a call is.
    pub answers: Part,
    /// Whether the last reply is one to a request that asked for no call.
    pub was_asked: bool,
    /// How many bytes at the front of the last room are there to be copied out.
    pub shown: usize,
    pub ghost replies: { HasRoomFor 80 asked },
}

impl Memory {
    ghost use Rattle.nizwarf_codec.specs.Shown.{bytes_shown};

    /// With none for answers yet. `None` where there is no memory.
    pub fn new(alloc: Global) -> Option<Memory>
        ensures { IfSome result (λ memory. memory.shown ≡ 0) }
    {
        let mut asked = Part::new(alloc);
        if !asked.keep(alloc, LONGEST_REPLY) {
            return None;
        }
        Some(Memory {
            asked,
            answers: Part::new(alloc),
            was_asked: false,
            shown: 0,
        })
    }

    /// Begins to ask, with `total` bytes of room, and nothing there to be copied out. False where there is no memory.
    #[inline(always)]
    pub fn begin_ask(&mut self, alloc: Global, total: usize) -> bool
        ensures none_shown { self.new.shown ≡ 0 }
        ensures was_asked { self.new.was_asked ≡ true }
        ensures left { result ≡ true → length self.new.asked.writer.left ≡ total }
        ensures one { result ≡ true → length self.new.asked.writer.lengths ≡ 1 }
        ensures start { result ≡ true → self.new.asked.start ≡ length self.new.asked.writer.passed }
        ensures has_room { HasRoomFor total self.old.asked → result ≡ true }
        ensures same { self.new.answers ≡ self.old.answers }
    {
        self.shown = 0;
        self.was_asked = true;
        self.asked.begin(alloc, total)
    }

    /// Begins to answer, likewise.
    #[inline(always)]
    pub fn begin_answer(&mut self, alloc: Global, total: usize) -> bool
        ensures none_shown { self.new.shown ≡ 0 }
        ensures was_answered { self.new.was_asked ≡ false }
        ensures left { result ≡ true → length self.new.answers.writer.left ≡ total }
        ensures one { result ≡ true → length self.new.answers.writer.lengths ≡ 1 }
        ensures start { result ≡ true → self.new.answers.start ≡ length self.new.answers.writer.passed }
        ensures has_room { HasRoomFor total self.old.answers → result ≡ true }
        ensures keeps { (n : ℕ) → HasRoomFor n self.old.answers → HasRoomFor n self.new.answers }
    {
        self.shown = 0;
        self.was_asked = false;
        self.answers.begin(alloc, total)
    }

    /// Copies bytes that are there to be copied out, from place `at` on, over the first ones of a
    /// piece, as many as both have. Answers how many.
    pub fn copy_out(&self, at: usize, piece: &mut [u8]) -> usize
        ensures count { result ≡ min (length (drop at (bytes_shown self.now))) (length piece.old) }
        ensures copied { piece.new ≡
            take result (drop at (bytes_shown self.now)) ++ drop result piece.old }
    {
        if self.was_asked {
            self.asked.copy_out(self.shown, at, piece)
        } else {
            self.answers.copy_out(self.shown, at, piece)
        }
    }
}
