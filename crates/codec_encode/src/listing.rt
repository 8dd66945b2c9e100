//! The records of a directory, from the items that were offered.

ghost use Rattle.std.specs.Prelude.{◌≡◌, ◌≤◌, length, Ok, Err, Some};
ghost use Rattle.vfs_files.specs.Values.{item, name_of, name_text};
ghost use Rattle.vfs_grammar.specs.Listing.{answer_at, Fails};
ghost use Rattle.codec_encode.specs.Offered.{item_told, taken_by, AddsItem, ReadsOffered};

use codec_calls::{ItemData, fault_of};
use vfs_files::{CStr, DirEntry};
use vfs_flags::Fault;
use vfs_listings::{add_dirent, dot_entry, is_dot, record_len};
use vfs_segments::Writer;

/// What was put of a directory.
#[derive(Drop)]
pub(crate) struct Listed {
    /// How many bytes of records there are, or the fault that is replied in their place.
    pub answer: Result<usize, Fault>,
    /// How many items are in the reply.
    pub taken: usize,
}

impl Listed {
    /// `written` bytes of records, of `taken` items.
    fn of(written: usize, taken: usize) -> Listed
        ensures { result ≡ record { answer = Ok written; taken = taken } }
    {
        Listed {
            answer: Ok(written),
            taken,
        }
    }

    /// The fault in place of records: no item is in the reply.
    pub(crate) fn failed(fault: Fault) -> Listed
        ensures { result ≡ record { answer = Err fault; taken = 0 } }
    {
        Listed {
            answer: Err(fault),
            taken: 0,
        }
    }
}

/// An item with this name.
fn named<'a>(offered: &ItemData<'_>, name: CStr<'a>) -> DirEntry<'a>
    ensures { item result ≡ item_told offered.now (name_text name.entry) }
{
    DirEntry {
        ino: offered.ino,
        offset: offered.offset,
        type_: offered.type_,
        name,
    }
}

/// Whether the first segment has the next `len` bytes. No promise rests on it: what is put is the same.
#[inline(always)]
pub(crate) fn has_left(w: &Writer, len: usize) -> bool {
    match w.segments().first() {
        Some(first) => { w.bytes_written() < first.len() && len <= first.len() - w.bytes_written() }
        None => false,
    }
}

/// Adds the record of an item with this name, where `plus` with its entry. A fault of its lookup is the
/// answer.
#[cold]
#[inline(never)]
fn add_anywhere(
    offered: &ItemData<'_>,
    name: CStr<'_>,
    plus: bool,
    max: usize,
    w: &mut Writer,
) -> Result<usize, Fault>
    requires { name_of offered.now.name.now ≡ Some (name_text name) }
    ensures { AddsItem plus max offered.now w.old result w.new }
{
    let item = named(offered, name);
    if !plus {
        return add_dirent(w, max, item, None);
    }
    if is_dot(name.to_bytes()) {
        return add_dirent(w, max, item, Some(dot_entry(item)));
    }
    if offered.error != 0 {
        return Err(fault_of(offered.error));
    }
    add_dirent(w, max, item, Some(offered.entry.entry()))
}

/// The same. Most records lie in the first segment: those are spelled right from the item into the room. For
/// one over a cut the entry is put together in memory, so that is apart, with what is rare.
#[inline(always)]
fn add_item(
    offered: &ItemData<'_>,
    name: CStr<'_>,
    plus: bool,
    max: usize,
    w: &mut Writer,
) -> Result<usize, Fault>
    requires { name_of offered.now.name.now ≡ Some (name_text name) }
    ensures { AddsItem plus max offered.now w.old result w.new }
{
    let bytes = name.to_bytes();
    if !plus && has_left(w, record_len(bytes, false)) {
        return add_dirent(w, max, named(offered, name), None);
    }
    if plus && offered.error == 0 && !is_dot(bytes) && has_left(w, record_len(bytes, true)) {
        return add_dirent(w, max, named(offered, name), Some(offered.entry.entry()));
    }
    add_anywhere(offered, name, plus, max, w)
}

/// What is answered where an item fails after that many bytes of records, of that many items.
fn tell(plus: bool, written: usize, taken: usize, fault: Fault) -> Listed
    ensures answer { result.answer ≡ answer_at plus written (Fails fault) }
    ensures taken { result.taken ≡ taken_by result.answer taken }
    ensures within { result.taken ≤ taken }
{
    if plus && written > 0 {
        Listed::of(written, taken)
    } else {
        Listed::failed(fault)
    }
}

/// Puts the records of items, at most `size` bytes of them, where `plus` with their entries, up to
/// the first item that isn't written, or whose name is none.
pub(crate) fn put_items(items: &[ItemData<'_>], plus: bool, size: usize, w: &mut Writer) -> Listed
    ensures reads { ReadsOffered plus size items.now w.old result.answer result.taken w.new }
    ensures within { result.taken ≤ length items.now }
{
    let mut written = 0;
    let mut taken = 0;
    'items: for offered in items {
        match CStr::from_bytes_with_nul(offered.name) {
            None => return Listed::of(written, taken),
            Some(name) => match add_item(offered, name, plus, size - written, w) {
                Ok(0) => return Listed::of(written, taken),
                Ok(len) => {
                    written += len;
                    taken += 1;
                }
                Err(fault) => return tell(plus, written, taken, fault),
            },
        }
    }
    Listed::of(written, taken)
}
