//! The room of a reply. Its memory never gets shorter, so that a room as long as an earlier one
//! costs nothing: the last room is its end.

ghost use Rattle.std.specs.Prelude.{◌≡◌, ◌≤◌, ◌++◌, [], None, false, true, length, take, drop, min, vec_len, IfSome, IsSome};
ghost use Rattle.vfs_segments.specs.Segments.{contents, flat_bytes, lengths_of};
ghost use Rattle.vfs_segments.specs.Written.{whole};
ghost use Rattle.c_rooms.specs.Parts.{part_from};
ghost use Rattle.c_rooms.specs.Places.{HasPlace, Lends};

use std::alloc::Global;
use std::mem;
use vfs_segments::Writer;

// Makes the room longer where it has less than `total` bytes. False where there is no memory: then it is as it was.
fn grow(room: &mut Vec<u8>, total: usize) -> bool
    ensures enough { result ≡ true → total ≤ vec_len room.new }
    ensures has { total ≤ vec_len room.old → result ≡ true }
    ensures keeps { vec_len room.old ≤ vec_len room.new }
    ensures same { result ≡ false → room.new.items ≡ room.old.items }
{
    total <= room.len() || room.resize(total, 0).is_ok()
}

// Empties the list, and sees to it that a room has a place there. False where there is no memory.
fn make_place(list: &mut Vec<Vec<u8>>) -> bool
    ensures none { list.new.items ≡ [] }
    ensures place { result ≡ true → HasPlace list.new }
    ensures has { HasPlace list.old → result ≡ true }
{
    list.clear();
    list.reserve(1).is_ok()
}

// A writer with the last `total` bytes of the room left.
#[tactic(auto, using(crate::proofs::Rooms::end_left))]
fn end_of(alloc: Global, mut list: Vec<Vec<u8>>, room: Vec<u8>, total: usize) -> Writer
    requires none { list.items ≡ [] }
    requires place { HasPlace list }
    requires room { total ≤ vec_len room }
    ensures left { length result.left ≡ total }
    ensures one { length result.lengths ≡ 1 }
    ensures all { length (whole result) ≡ vec_len room }
{
    let before = room.len() - total;
    let Ok(()) = list.push(room) else {
        unreachable!()
    };
    let Ok(mut writer) = Writer::new(alloc, list) else {
        unreachable!()
    };
    let Ok(()) = writer.hold(before) else {
        unreachable!()
    };
    writer
}

/// A writer with `total` bytes left, the last ones of this memory, which grows where it has less;
/// the list is what the memory is in. `None` where there is no memory: then the room is as it was.
pub fn lend(
    alloc: Global,
    list: &mut Vec<Vec<u8>>,
    room: &mut Vec<u8>,
    total: usize,
) -> Option<Writer>
    ensures left { IfSome result (λ w. length w.left ≡ total) }
    ensures one { IfSome result (λ w. length w.lengths ≡ 1) }
    ensures has { Lends total list.old room.old → IsSome result }
    ensures keeps { IfSome result (λ w. vec_len room.old ≤ length (whole w)) }
    ensures same { result ≡ None → room.new.items ≡ room.old.items }
    ensures place { result ≡ None → HasPlace list.old → HasPlace list.new }
{
    if !make_place(list) || !grow(room, total) {
        return None;
    }
    let list = mem::replace(list, Vec::new(alloc));
    let room = mem::replace(room, Vec::new(alloc));
    Some(end_of(alloc, list, room, total))
}

/// Takes the room out of the list that a writer of [`lend`] came back as, which has a place for it still.
#[tactic(auto, using(crate::proofs::Rooms::only_room))]
pub fn only_room(alloc: Global, rooms: &mut Vec<Vec<u8>>) -> Vec<u8>
    ensures room { length (lengths_of (contents rooms.old.items)) ≡ 1 →
        result.items ≡ flat_bytes (contents rooms.old.items) }
    ensures place { length (lengths_of (contents rooms.old.items)) ≡ 1 → HasPlace rooms.new }
{
    match rooms.pop() {
        Some(room) => room,
        None => Vec::new(alloc),
    }
}

// The first `shown` bytes, without those before place `at`.
fn part(room: &[u8], shown: usize, at: usize) -> &[u8]
    ensures { result.now ≡ part_from at room.now shown }
{
    let front = &room[..shown.min(room.len())];
    &front[at.min(front.len())..]
}

// Copies as many bytes as both have, and answers how many.
fn copy_first(from: &[u8], to: &mut [u8]) -> usize
    ensures count { result ≡ min (length from.now) (length to.old) }
    ensures copied { to.new ≡ take result from.now ++ drop result to.old }
{
    let count = from.len().min(to.len());
    to[..count].copy_from_slice(&from[..count]);
    count
}

/// Copies bytes of the last room, which begins at `start` and of which the first `shown` are there
/// to be copied out, from place `at` on, over the first ones of a piece, as many as both have.
/// Answers how many.
pub fn copy_part(memory: &[u8], start: usize, shown: usize, at: usize, piece: &mut [u8]) -> usize
    ensures count { result ≡ min (length (part_from at (drop start memory.now) shown))
        (length piece.old) }
    ensures copied { piece.new ≡ take result (part_from at (drop start memory.now) shown)
        ++ drop result piece.old }
{
    let room = &memory[start.min(memory.len())..];
    copy_first(part(room, shown, at), piece)
}
