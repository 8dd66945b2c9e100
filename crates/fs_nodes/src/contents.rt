//! The bytes of a file.

ghost use Rattle.std.specs.Prelude.{◌≡◌, ◌≢◌, ◌<◌, ◌^◌, ◌≤◌, ◌+◌, ◌-◌, ◌*◌, ◌/◌, nat_eq, ℕ, List, [], ◌∷◌, Some, OnOk, IfErr, length, take};
ghost use Rattle.std.specs.Int.{div_ceil};
ghost use Rattle.std.specs.List.{list_any};
ghost use Rattle.vfs_files.specs.Bytes.{PutsPart};
ghost use Rattle.vfs_flags.specs.Numbers.{enomem};
ghost use Rattle.fs_nodes.specs.Contents.{no_contents, resized, allocated, fallocated, data_from, hole_from, lacking, pages_over, punched, zeroed, Writes};
ghost use Rattle.fs_nodes.specs.Pages.{reach};

use crate::pages::{PAGE, Pages};
use crate::transfer::{Reading, count_left, fill};
use std::alloc::Global;
use std::marker::Model;
use vfs_files::{ZeroCopyReader, ZeroCopyWriter};
use vfs_flags::{Fault, MAX_REPLY_DATA};

/// The bit of the mode of FALLOCATE by which a file stays as long as it is.
pub const KEEP_SIZE: u32 = 1;

/// The mode by which it has a hole, and stays as long.
pub const PUNCH_HOLE: u32 = 3;

/// The bit by which its bytes become zeros.
pub const ZERO_RANGE: u32 = 16;

/// Whether FALLOCATE can be done by this mode.
pub fn is_mode(mode: u32) -> bool
    ensures { result ≡ list_any (nat_eq mode) (0 ∷ 1 ∷ 3 ∷ 16 ∷ 17 ∷ []) }
{
    mode == 0
        || mode == KEEP_SIZE
        || mode == PUNCH_HOLE
        || mode == ZERO_RANGE
        || mode == ZERO_RANGE | KEEP_SIZE
}

/// The bytes of a file.
#[derive(Drop)]
pub struct Contents {
    pages: Pages,
    size: u64,
}

impl Model for Contents {
    ghost use Rattle.fs_nodes.specs.Contents.{Contents, contents_of, AreZeroAfter};

    ghost Value = { Contents };

    ghost view = { λ contents. contents_of contents.pages contents.size };

    ghost invariant = { λ contents. AreZeroAfter contents.pages contents.size };
}

impl Contents {
    /// No bytes.
    pub fn new(alloc: Global) -> Contents
        ensures { result ≡ no_contents }
    {
        Contents {
            pages: Pages::new(alloc),
            size: 0,
        }
    }

    /// How many bytes there are.
    pub fn len(&self) -> u64
        ensures { result ≡ length self.now.bytes }
    {
        self.size
    }

    /// How many pages are held.
    pub fn held(&self) -> u64
        ensures held { result ≡ length self.now.held }
        ensures few { result ≤ 2 ^ 50 }
    {
        self.pages.count() as u64
    }

    /// How many of the pages that that many bytes from `offset` on lie in are not held.
    pub fn lacking(&self, offset: u64, length: u64) -> u64
        requires { offset + length < 2 ^ 64 }
        ensures { result ≡ lacking self.now offset length }
    {
        let (first, end) = span(offset, length);
        let mut missing = 0;
        'count: for page in first..end {
            if !self.pages.holds(page) {
                missing += 1;
            }
        }
        missing
    }

    /// Up to which place bytes from `offset` on can be written, at most `length`, where that many
    /// pages more can be held.
    pub fn reach(&self, offset: u64, length: u64, free: u64) -> u64
        requires { offset + length < 2 ^ 64 - 4096 }
        ensures { result ≡ 4096 * reach self.now.held free (offset / 4096) (pages_over offset length) }
    {
        let (first, end) = span(offset, length);
        self.stop(first, end, free) * PAGE as u64
    }

    // The first of these pages that can't be held where that many more can be, or the end.
    fn stop(&self, first: u64, end: u64, free: u64) -> u64
        requires { first ≤ end }
        ensures stop { result ≡ reach self.now.held free first (end - first) }
        ensures within { result ≤ end }
    {
        if end - first <= free {
            return end;
        }
        let mut left = free;
        'go: for page in first..end {
            if self.pages.holds(page) {
                continue;
            }
            if left == 0 {
                return page;
            }
            left -= 1;
        }
        end
    }

    /// Cuts off what is after that many bytes, and lets its pages go, or adds zeros, which take none.
    pub fn resize(&mut self, size: u64)
        ensures { self.new ≡ resized self.old size }
    {
        if size > self.size {
            self.size = size;
            return;
        }
        self.pages.cut(size.div_ceil(PAGE as u64));
        self.pages.zero(size, PAGE as u64 - size % PAGE as u64);
        self.size = size;
    }

    /// The first place from `offset` on, before the end, that lies in a page that is held.
    pub fn data_from(&self, offset: u64) -> Option<u64>
        ensures { result ≡ data_from self.now offset }
    {
        let page = self.pages.first_from(offset / PAGE as u64)?;
        let place = page.saturating_mul(PAGE as u64).max(offset);
        if place < self.len() {
            Some(place)
        } else {
            None
        }
    }

    /// The first place from `offset` on that lies in no page that is held, or the end.
    pub fn hole_from(&self, offset: u64) -> u64
        requires { offset ≤ length self.now.bytes }
        ensures { result ≡ hole_from self.now offset }
    {
        let size = self.len();
        let page = self.stop(offset / PAGE as u64, size.div_ceil(PAGE as u64), 0);
        page.saturating_mul(PAGE as u64).max(offset).min(size)
    }

    /// FALLOCATE of that many bytes from `offset` on: makes a hole of them by `PUNCH_HOLE`; else holds their pages,
    /// makes the file reach to their end, unless by `KEEP_SIZE`, and makes zeros of them by `ZERO_RANGE`.
    /// ENOMEM where a page is not held and there is no memory for it, and all stays.
    pub fn fallocate(
        &mut self,
        alloc: Global,
        mode: u32,
        offset: u64,
        length: u64,
    ) -> Result<(), Fault>
        requires { offset + length < 2 ^ 64 }
        ensures ok { OnOk result (self.new ≡ fallocated mode offset length self.old) }
        ensures err { IfErr result (λ fault. (fault ≡ Some enomem) × (self.new ≡ self.old)
            × (mode ≢ 3) × (0 < lacking self.old offset length)) }
    {
        if mode == PUNCH_HOLE {
            self.punch(offset, length);
            return Ok(());
        }
        let keeps = mode & KEEP_SIZE == KEEP_SIZE;
        let least = if keeps { 0 } else { offset + length };
        self.allocate(alloc, offset, length, least)?;
        if mode & ZERO_RANGE == ZERO_RANGE {
            self.zero(offset, length);
        }
        Ok(())
    }

    // Holds the pages that that many bytes from `offset` on lie in, and adds zeros where there are fewer
    // bytes than `least`. ENOMEM where a page is not held and there is no memory for it, and all stays.
    fn allocate(&mut self, alloc: Global, offset: u64, length: u64, least: u64) -> Result<(), Fault>
        requires { offset + length < 2 ^ 64 }
        ensures ok { OnOk result (self.new ≡ allocated self.old offset length least) }
        ensures err { IfErr result (λ fault. (fault ≡ Some enomem) × (self.new ≡ self.old)
            × (0 < lacking self.old offset length)) }
    {
        let (first, end) = span(offset, length);
        self.pages.hold(alloc, first, end - first)?;
        self.size = self.size.max(least);
        Ok(())
    }

    // Makes zeros of that many bytes from `offset` on, as far as there are bytes, and lets the pages go
    // that lie in them whole.
    fn punch(&mut self, offset: u64, length: u64)
        requires { offset + length < 2 ^ 64 }
        ensures { self.new ≡ punched self.old offset length }
    {
        let end = offset + length;
        let (first, last) = (offset.div_ceil(PAGE as u64), end / PAGE as u64);
        self.pages.cut_out(first, last);
        if last < first {
            self.pages.zero(offset, length);
            return;
        }
        self.pages.zero(offset, first * PAGE as u64 - offset);
        self.pages.zero(last * PAGE as u64, end % PAGE as u64);
    }

    // Makes zeros of that many bytes from `offset` on, as far as there are bytes. Their pages stay.
    fn zero(&mut self, offset: u64, length: u64)
        requires { offset + length < 2 ^ 64 }
        ensures { self.new ≡ zeroed self.old offset length }
    {
        self.pages.zero_all(offset, length);
    }

    /// Puts bytes from `offset` on into `w`, at most `size`, and answers how many.
    pub fn read_into<W: ZeroCopyWriter>(
        &self,
        w: &mut W,
        size: u32,
        offset: u64,
    ) -> Result<usize, Fault>
        ensures { (moved : List ℕ) × W.puts w.old moved w.new
            × PutsPart self.now.bytes (W.room w.old) size offset result moved }
    {
        let rest = self.len().saturating_sub(offset);
        let count = rest.min(size.min(MAX_REPLY_DATA) as u64);
        let mut file = Reading { pages: &self.pages };
        w.read_from_file_at(&mut file, count as usize, offset)
    }

    /// Writes up to `size` bytes of `r` from `offset` on, as far as they end within `most`, and
    /// answers how many. ENOMEM where a page is not held and there is no memory for it, and all
    /// stays.
    pub fn write_from<R: ZeroCopyReader>(
        &mut self,
        alloc: Global,
        r: &mut R,
        size: u32,
        offset: u64,
        most: u64,
    ) -> Result<u32, Fault>
        ensures { (taken : List ℕ) × R.takes r.old taken r.new
            × Writes most self.old (take size (R.left r.old)) offset result self.new }
    {
        let left = count_left(r, size as usize) as u64;
        let count = left.min(most.saturating_sub(offset));
        if count == 0 {
            return Ok(0);
        }
        let end = offset + count;
        let (first, last) = span(offset, count);
        self.pages.hold(alloc, first, last - first)?;
        fill(&mut self.pages, r, count as usize, offset);
        self.size = self.size.max(end);
        Ok(count as u32)
    }
}

// The first page that that many bytes from `offset` on lie in, and the one after the last.
fn span(offset: u64, length: u64) -> (u64, u64)
    requires { offset + length < 2 ^ 64 }
    ensures first { result.0 ≡ offset / 4096 }
    ensures end { result.1 ≡ div_ceil (offset + length) 4096 }
{
    (
        offset / PAGE as u64,
        (offset + length).div_ceil(PAGE as u64),
    )
}
