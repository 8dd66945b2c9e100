//! A device that reads chains by hand: these are its pieces, and what it refuses.

ghost use Rattle.std.specs.Prelude.{◌≡◌, ◌≢◌, ◌≤◌, ◌<◌, ◌+◌, ◌-◌, ◌*◌, ◌%◌, ℕ, List, [], ◌∷◌, pos, true, false, length, drop, is_some, Some, None};
ghost use Rattle.vfs_wire.specs.Fields.{AreBytes, number};
ghost use Rattle.vhost_protocol.specs.Chains.{GoesThrough, entry};
ghost use Rattle.vhost_protocol.specs.Descriptors.{descriptor_from, is_table, is_writable, of_words};
ghost use Rattle.vhost_protocol.specs.Regions.{place_of};
ghost use Rattle.vhost_protocol.specs.Rings.{index_of};
ghost use Rattle.vhost_protocol.specs.Walks.{begun, step_at};
ghost use Rattle.vhost_protocol.specs.declared.chains.descriptor.Descriptor.{Descriptor};
ghost use Rattle.vhost_protocol.specs.declared.chains.regions.Place.{Place};
ghost use Rattle.vhost_protocol.specs.declared.chains.regions.Region.{Region};
ghost use Rattle.vhost_protocol.specs.declared.chains.walk.Piece.{Piece};
ghost use Rattle.vhost_protocol.specs.declared.chains.walk.Walk.{Walk};
ghost use Rattle.vhost_protocol.specs.declared.numbers.ChainRefusal.TheVariants.{Outside, PastEnd};
ghost use Rattle.vhost_protocol.specs.declared.chains.walk.Step.TheVariants.{Last, More, Table, Refused};

use crate::chains::laws::{steps_are_within, walks_are_chains, words_are_bytes};
use crate::chains::regions::Region;
use crate::chains::rings::{needs_event, slot, waiting};
use crate::chains::walk::{Piece, Walk, begin, take_step};

// A page at 4096, and one at 65536.
const PAGES: [Region; 2] = [
    Region {
        address: 4096,
        size: 4096,
    },
    Region {
        address: 65536,
        size: 4096,
    },
];

/// The last 8 bytes of the second page are the request, to which there is no reply.
fn last_bytes(walk: &mut Walk, piece: &mut Piece) -> i32
    requires kind { walk.old.writable ≡ false }
    requires rest { walk.old.rest ≡ 8 }
    ensures last { result ≡ pos 0 }
    ensures region { piece.new.place.region ≡ 1 }
    ensures offset { piece.new.place.offset ≡ 4088 }
    ensures len { piece.new.len ≡ 8 }
{
    take_step(walk, 65536 + 4088, 8, &PAGES, piece)
}

/// A byte more is past the end.
fn a_byte_more(walk: &mut Walk, piece: &mut Piece) -> i32
    requires kind { walk.old.writable ≡ false }
    requires rest { walk.old.rest ≡ 9 }
    ensures refused { result ≡ pos 6 }
    ensures same { piece.new ≡ piece.old }
{
    take_step(walk, 65536 + 4088, 9, &PAGES, piece)
}

/// A queue of four has no descriptor 4.
fn no_fifth() -> Option<Walk>
    ensures { result ≡ None }
{
    begin(4, 128, 4)
}

/// Four chains wait where the index has wrapped, in a queue of eight, and none where it jumps by nine.
fn over_the_wrap() -> (Option<u16>, Option<u16>, u32)
    ensures four { result.0 ≡ Some 4 }
    ensures none { result.1 ≡ None }
    ensures slot { result.2 ≡ 7 }
{
    (waiting(2, 65534, 8), waiting(7, 65534, 8), slot(65535, 8))
}

/// By counts that never wrap, of which the indices are the last 16 bits: as many chains wait as were made and not
/// taken, and the next one's slot is that of its count.
fn by_counts(index: u16, next: u16, size: u32) -> (Option<u16>, u32)
    requires size { size ≢ 0 }
    requires small { size ≤ 32768 }
    requires power { 65536 % size ≡ 0 }
    ensures waiting { (made taken : ℕ) → index ≡ index_of made → next ≡ index_of taken →
        taken ≤ made → made ≤ taken + size → result.0 ≡ Some (made - taken) }
    ensures slot { (taken : ℕ) → next ≡ index_of taken → result.1 ≡ taken % size }
{
    (waiting(index, next, size), slot(next, size))
}

/// The other side is told where the entry of which it wants to be told is one of those that were added, and not
/// where none was.
fn told_by_counts(event: u16, new: u16, old: u16) -> bool
    ensures told { (before count after : ℕ) → old ≡ index_of before → event ≡ index_of count →
        new ≡ index_of after → before ≤ count → count < after → after < before + 65536 →
        result ≡ true }
    ensures not_told { (count : ℕ) → old ≡ index_of count → new ≡ index_of count → result ≢ true }
{
    needs_event(event, new, old)
}

/// Whatever a guest writes: a last piece in the second of two regions is all of it there, at the descriptor's address.
fn a_piece_lies_in_its_region()
    ensures { (first second : Region) (w : Walk) (d : Descriptor) (piece : Piece) →
        step_at w d (first ∷ second ∷ []) ≡ Last piece → piece.place.region ≡ 1 →
        (second.address + piece.place.offset ≡ d.addr)
        × (piece.place.offset + d.len ≤ second.size) × (piece.len ≡ d.len) }
{
    steps_are_within();
}

/// A last piece where there are two regions is in one of them.
fn a_piece_has_one_of_two_regions()
    ensures { (first second : Region) (w : Walk) (d : Descriptor) (piece : Piece) →
        step_at w d (first ∷ second ∷ []) ≡ Last piece → piece.place.region ≤ 1 }
{
    steps_are_within();
}

/// A piece that others follow, and an indirect table, are all in the only region, at the descriptor's address.
fn all_lies_in_the_only_region()
    ensures piece { (only : Region) (w next : Walk) (d : Descriptor) (piece : Piece) →
        step_at w d (only ∷ []) ≡ More piece next → (piece.place.region ≡ 0)
        × (only.address + piece.place.offset ≡ d.addr) × (piece.place.offset + d.len ≤ only.size) }
    ensures table { (only : Region) (w next : Walk) (d : Descriptor) (place : Place) →
        step_at w d (only ∷ []) ≡ Table place next → (place.region ≡ 0)
        × (only.address + place.offset ≡ d.addr)
        × (place.offset + next.entries * 16 ≤ only.size) }
{
    steps_are_within();
}

/// A descriptor that is refused as past the end begins in a region, and one that is outside begins in none.
fn where_what_is_refused_begins()
    ensures past_end { (regions : List Region) (w : Walk) (d : Descriptor) →
        step_at w d regions ≡ Refused PastEnd → is_some (place_of regions d.addr 1) ≡ true }
    ensures outside { (regions : List Region) (w : Walk) (d : Descriptor) →
        step_at w d regions ≡ Refused Outside → is_some (place_of regions d.addr 1) ≡ false }
{
    steps_are_within();
}

/// Nothing lies in a region that is not there.
fn nothing_lies_nowhere()
    ensures { (w : Walk) (d : Descriptor) (piece : Piece) → step_at w d [] ≡ Last piece → ⊥ }
{
    steps_are_within();
}

/// A step that goes on leaves a walk in its table, and shorter.
fn a_walk_gets_shorter()
    ensures { (regions : List Region) (w next : Walk) (d : Descriptor) (piece : Piece) →
        step_at w d regions ≡ More piece next →
        (piece.len ≡ d.len) × (next.at < w.entries) × (next.left < w.left)
        × (next.indirect ≡ w.indirect) }
{
    steps_are_within();
}

/// There is one indirect table, of no more entries than there may be, and a walk begins within it.
fn a_table_is_entered_once()
    ensures { (regions : List Region) (w next : Walk) (d : Descriptor) (place : Place) →
        step_at w d regions ≡ Table place next →
        (next.at < next.entries) × (next.left ≤ w.most)
        × (w.indirect ≡ false) × (next.indirect ≡ true) }
{
    steps_are_within();
}

/// A walk through two descriptors, neither of which is a table: the second is where the first says, in a queue of two
/// at least; it is written if the first one is; both have no more bytes than there may be, and a piece each.
fn two_descriptors()
    ensures { (regions : List Region) (indirect table : List ℕ) (size most head : ℕ) (w : Walk)
        (a b : Descriptor) (pieces : List Piece) → begun size most head ≡ Some w →
        is_table a ≡ false → is_table b ≡ false →
        GoesThrough regions indirect table w (a ∷ b ∷ []) pieces →
        (a ≡ entry table head) × (b ≡ entry table a.next) × (a.next < size) × (2 ≤ size)
        × (is_writable a ≡ true → is_writable b ≡ true)
        × (a.len + b.len ≤ 4294967296) × (length pieces ≡ 2) }
{
    walks_are_chains();
}

/// The second descriptor of a table of two, from its two words.
fn a_second_descriptor()
    ensures { (table : List ℕ) → AreBytes table → length table ≡ 32 →
        of_words (number 8 (drop 16 table)) (number 8 (drop 24 table)) ≡ descriptor_from 16 table }
{
    words_are_bytes();
}
