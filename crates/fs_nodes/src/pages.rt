//! Pages of bytes, by their numbers.

ghost use Rattle.std.specs.Prelude.{◌≡◌, ◌≤◌, ◌<◌, ◌+◌, ◌-◌, ◌/◌, ◌%◌, ◌^◌, min, max, ℕ, [], ◌∷◌, true, false, nat_lt, length, take, slice_index, replicate, is_some, Some, IfErr, OnOk, MatchOption, Vec, vec_capacity, if◌then◌else◌};
ghost use Rattle.std.specs.List.{filter};
ghost use Rattle.std.specs.Ordering.{nat_cmp};
ghost use Rattle.std.specs.Map.{keys_of, remove_entry};
ghost use Rattle.std.specs.BTreeMap.{is_at};
ghost use Rattle.std.specs.BTreeSet.{insert_key};
ghost use Rattle.vfs_flags.specs.Numbers.{enomem};
ghost use Rattle.std.specs.declared.alloc.Global.{Global};
ghost use Rattle.fs_nodes.specs.Pages.{Pages, byte_at, byte_over, first_from, holds, is_outside, with_pages, missing, undone};

use std::alloc::Global;
use std::collections::BTreeMap;
use std::collections::btree_map::Range;
use std::marker::Model;
use vfs_flags::{Errno, Fault};

/// How many bytes a page has.
pub(crate) const PAGE: usize = 4096;

/// How many pages are held at most: as many as no memory has room for.
const MOST_PAGES: usize = 1 << 50;

/// The bytes of a page that is not held.
static ZEROS: [u8; PAGE] = [0; PAGE];

/// Pages by their numbers.
#[derive(Drop)]
pub(crate) struct Pages {
    pages: BTreeMap<u64, Vec<u8>>,
}

impl Model for Pages {
    ghost use Rattle.fs_nodes.specs.Pages.{Pages, AreSound};

    ghost Value = { Pages };

    ghost view = { λ pages. pages.pages.entries };

    ghost invariant = { λ pages. AreSound pages.pages.entries };
}

impl Pages {
    /// No pages.
    pub(crate) fn new(alloc: Global) -> Pages
        ensures { result ≡ [] }
    {
        Pages {
            pages: BTreeMap::new(alloc),
        }
    }

    /// How many pages are held.
    pub(crate) fn count(&self) -> usize
        ensures count { result ≡ length self.now }
        ensures few { result ≤ 2 ^ 50 }
    {
        self.pages.len()
    }

    /// Whether a page is held.
    pub(crate) fn holds(&self, page: u64) -> bool
        ensures { result ≡ holds (keys_of self.now) page }
    {
        self.pages.contains_key(&page)
    }

    /// The first page that is held, from one on.
    pub(crate) fn first_from(&self, page: u64) -> Option<u64>
        ensures { result ≡ first_from (keys_of self.now) page }
    {
        first_key(self.pages.range(page..))
    }

    // Whether a page is held from one on.
    fn holds_from(&self, page: u64) -> bool
        ensures { result ≡ is_some (first_from (keys_of self.now) page) }
    {
        match self.pages.last_key_value() {
            Some((last, _)) => page <= *last,
            None => false,
        }
    }

    /// Holds that many pages from one on, those that were not held with zeros. ENOMEM where there is no
    /// memory for these, and all stays.
    pub(crate) fn hold(&mut self, alloc: Global, page: u64, count: u64) -> Result<(), Fault>
        requires { page + count < 2 ^ 64 }
        ensures held { OnOk result
            (keys_of self.new ≡ with_pages (keys_of self.old) page count) }
        ensures same { (place : ℕ) → byte_at self.new place ≡ byte_at self.old place }
        ensures err { IfErr result (λ fault. (fault ≡ Some enomem) × (self.new ≡ self.old)
            × (0 < missing (keys_of self.old) page count)) }
    {
        let mut added = Vec::new(alloc);
        let some = self.holds_from(page);
        'hold: for n in page..page + count {
            if some && self.holds(n) {
                continue;
            }
            if let Err(fault) = self.add_noted(alloc, n, &mut added) {
                self.take_out(added);
                return Err(fault);
            }
        }
        Ok(())
    }

    // Adds a page of zeros that is not held, and notes its number. ENOMEM where there is no memory
    // for that, and all stays.
    fn add_noted(&mut self, alloc: Global, page: u64, added: &mut Vec<u64>) -> Result<(), Fault>
        requires { holds (keys_of self.old) page ≡ false }
        ensures keys { OnOk result (keys_of self.new ≡ insert_key nat_cmp (keys_of self.old) page) }
        ensures same { (place : ℕ) → byte_at self.new place ≡ byte_at self.old place }
        ensures noted { undone added.new.items self.new ≡ undone added.old.items self.old }
        ensures err { IfErr result (λ fault. fault ≡ Some enomem) }
    {
        match added.push(page) {
            Ok(()) => {}
            Err(_) => return Err(Some(Errno::ENOMEM)),
        }
        match self.add(alloc, page) {
            Ok(()) => Ok(()),
            Err(fault) => {
                let _ = added.pop();
                Err(fault)
            }
        }
    }

    // Takes pages out again, the last first.
    fn take_out(&mut self, mut added: Vec<u64>)
        ensures { self.new ≡ undone added.items self.old }
    {
        'out: while let Some(page) = added.pop() {
            self.pages.remove(&page);
        }
    }

    // Adds a page that is not held, with no bytes yet. ENOMEM where there is no memory for it, and all stays.
    fn add(&mut self, alloc: Global, page: u64) -> Result<(), Fault>
        requires { holds (keys_of self.old) page ≡ false }
        ensures keys { OnOk result (keys_of self.new ≡ insert_key nat_cmp (keys_of self.old) page) }
        ensures same { (place : ℕ) → byte_at self.new place ≡ byte_at self.old place }
        ensures undone { OnOk result
            (remove_entry (is_at (nat_cmp page)) self.new ≡ self.old) }
        ensures err { IfErr result (λ fault. (fault ≡ Some enomem) × (self.new ≡ self.old)) }
    {
        if self.pages.len() >= MOST_PAGES {
            return Err(Some(Errno::ENOMEM));
        }
        let Ok(bytes) = Vec::with_capacity(alloc, PAGE) else {
            return Err(Some(Errno::ENOMEM));
        };
        match self.pages.insert(page, bytes) {
            Ok(_) => Ok(()),
            Err(_) => Err(Some(Errno::ENOMEM)),
        }
    }

    /// The bytes from a place on, of its page and at most that many.
    pub(crate) fn part(&self, at: u64, most: usize) -> &[u8]
        ensures some { 0 < most → 0 < length result.now }
        ensures within { length result.now ≤ most }
        ensures bytes { (i : ℕ) → i < length result.now
            → slice_index result.now i ≡ byte_at self.now (at + i) }
    {
        let from = (at % PAGE as u64) as usize;
        let count = most.min(PAGE - from);
        match self.pages.get(&(at / PAGE as u64)) {
            Some(page) => piece(page, from, count),
            None => zeros(count),
        }
    }

    /// Writes the front of these bytes over those from a place on, as many as its page has, and
    /// answers how many: none where the page is not held.
    pub(crate) fn put(&mut self, at: u64, bytes: &[u8]) -> usize
        ensures count { result ≡ (if holds (keys_of self.old) (at / 4096)
            then min (length bytes.now) (4096 - at % 4096) else 0) }
        ensures keys { keys_of self.new ≡ keys_of self.old }
        ensures bytes { (place : ℕ) → byte_at self.new place
            ≡ byte_over at (take result bytes.now) (byte_at self.old) place }
    {
        let from = (at % PAGE as u64) as usize;
        let count = bytes.len().min(PAGE - from);
        let Some(page) = self.pages.get_mut(&(at / PAGE as u64)) else {
            return 0;
        };
        write_over(page, from, &bytes[..count]);
        count
    }

    /// Writes the front of these bytes over those from a place on, as far as their pages are held, and
    /// answers how many.
    pub(crate) fn put_all(&mut self, at: u64, bytes: &[u8]) -> usize
        ensures within { result ≤ length bytes.now }
        ensures some { holds (keys_of self.old) (at / 4096) ≡ true → 0 < length bytes.now → 0 < result }
        ensures all { ((place : ℕ) → at ≤ place → place < at + length bytes.now
            → holds (keys_of self.old) (place / 4096) ≡ true)
            → at + length bytes.now ≤ 2 ^ 64 → result ≡ length bytes.now }
        ensures keys { keys_of self.new ≡ keys_of self.old }
        ensures bytes { (place : ℕ) → byte_at self.new place
            ≡ byte_over at (take result bytes.now) (byte_at self.old) place }
    {
        let mut done = 0;
        'fill: while done < bytes.len() {
            let Some(place) = at.checked_add(done as u64) else {
                return done;
            };
            let count = self.put(place, &bytes[done..]);
            if count == 0 {
                return done;
            }
            done += count;
        }
        done
    }

    /// Writes that many zeros from a place on, within its page.
    pub(crate) fn zero(&mut self, at: u64, count: u64)
        requires { at % 4096 + count ≤ 4096 }
        ensures keys { keys_of self.new ≡ keys_of self.old }
        ensures bytes { (place : ℕ) → byte_at self.new place
            ≡ byte_over at (replicate count 0) (byte_at self.old) place }
    {
        if self.holds(at / PAGE as u64) {
            self.put(at, zeros(count as usize));
        }
    }

    /// Writes that many zeros from a place on, whatever pages they lie in.
    pub(crate) fn zero_all(&mut self, at: u64, count: u64)
        requires { at + count < 2 ^ 64 }
        ensures keys { keys_of self.new ≡ keys_of self.old }
        ensures bytes { (place : ℕ) → byte_at self.new place
            ≡ byte_over at (replicate count 0) (byte_at self.old) place }
    {
        let page_size = PAGE as u64;
        let end = at + count;
        'write: for page in at / page_size..end.div_ceil(page_size) {
            let from = at.max(page * page_size);
            self.zero(from, (end - from).min(page_size - from % page_size));
        }
    }

    /// Lets the pages from one on go, as far as one that stays.
    pub(crate) fn cut_out(&mut self, page: u64, end: u64)
        ensures keys { keys_of self.new ≡ filter (is_outside page end) (keys_of self.old) }
        ensures bytes { (place : ℕ) → byte_at self.new place
            ≡ (if is_outside page end (place / 4096) then byte_at self.old place else 0) }
    {
        if end <= page {
            return;
        }
        'out: while let Some(n) = first_key(self.pages.range(page..end)) {
            self.pages.remove(&n);
        }
    }

    /// Lets the pages from one on go.
    pub(crate) fn cut(&mut self, page: u64)
        ensures keys { keys_of self.new ≡ filter (λ n. nat_lt n page) (keys_of self.old) }
        ensures bytes { (place : ℕ) → byte_at self.new place
            ≡ (if nat_lt (place / 4096) page then byte_at self.old place else 0) }
    {
        'cut: while let Some((last, _)) = self.pages.last_key_value() {
            let last = *last;
            if last < page {
                break;
            }
            self.pages.remove(&last);
        }
    }
}

// The first of these keys.
fn first_key(mut pages: Range<'_, u64, Vec<u8>>) -> Option<u64>
    ensures { MatchOption result (pages.entry ≡ []) (λ n.
        (page : Vec ℕ Global) × (rest : Pages) × (pages.entry ≡ (n, page) ∷ rest)) }
{
    match pages.next() {
        Some((n, _)) => Some(*n),
        None => None,
    }
}

// The bytes of a page from a place on, at most that many, or zeros where there are none.
fn piece(page: &[u8], from: usize, most: usize) -> &[u8]
    requires { most ≤ 4096 }
    ensures some { 0 < most → 0 < length result.now }
    ensures within { length result.now ≤ most }
    ensures bytes { (i : ℕ) → i < length result.now
        → slice_index result.now i ≡ slice_index page.now (from + i) }
{
    if page.len() <= from {
        return zeros(most);
    }
    let count = most.min(page.len() - from);
    &page[from..from + count]
}

// Writes these bytes over those of a page from a place on, with zeros before them where it has fewer
// bytes. It has room for them, so that no memory is needed.
fn write_over(page: &mut Vec<u8>, from: usize, bytes: &[u8])
    requires { from + length bytes.now ≤ vec_capacity page.old }
    ensures bytes { (i : ℕ) → slice_index page.new.items i
        ≡ byte_over from bytes.now (slice_index page.old.items) i }
    ensures len { length page.new.items ≡ max (length page.old.items) (from + length bytes.now) }
    ensures room { vec_capacity page.old ≤ vec_capacity page.new }
{
    if from + bytes.len() <= page.len() {
        page.slice_mut(from..from + bytes.len())
            .copy_from_slice(bytes);
        return;
    }
    let _ = page.resize(from, 0);
    let _ = page.extend_from_slice(bytes);
}

// `count` zeros.
fn zeros(count: usize) -> &'static [u8]
    requires { count ≤ 4096 }
    ensures { result.now ≡ replicate count 0 }
{
    &ZEROS[..count]
}
