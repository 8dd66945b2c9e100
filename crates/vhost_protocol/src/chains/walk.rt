//! A walk along a chain of descriptors: one step for each that was copied.

ghost use Rattle.std.specs.Prelude.{◌≡◌, ◌≤◌, pos};
ghost use Rattle.vhost_protocol.specs.Descriptors.{of_words};
ghost use Rattle.vhost_protocol.specs.Numbers.{chain_refusal_number};
ghost use Rattle.vhost_protocol.specs.Walks.{begun, code_of, gone_on, piece_after, piece_at, piece_step as piece_step_in, step_at, table_step as table_step_in, unplaced as unplaced_in, walk_after};

use crate::chains::descriptor::Descriptor;
use crate::chains::regions::{Place, Region, find};
use crate::numbers::ChainRefusal;

/// Most bytes of all descriptors of a chain.
pub const MOST_BYTES: u64 = 1 << 32;

/// Bytes of a request, or of the room for its reply (`nizwarf_piece`).
#[repr(C)]
#[derive(Clone, Copy)]
pub struct Piece {
    /// Where they lie.
    pub place: Place,
    /// How many they are.
    pub len: u32,
    /// Whether they are of the room, which is written, and not of the request, which is read.
    pub writable: bool,
}

/// How far a chain was walked, and what may still come (`nizwarf_walk`).
#[repr(C)]
#[derive(Clone, Copy)]
pub struct Walk {
    /// How many bytes the descriptors to come may have.
    pub rest: u64,
    /// The number of the descriptor to be copied next, in its table.
    pub at: u32,
    /// How many that table has.
    pub entries: u32,
    /// How many of it may still come.
    pub left: u32,
    /// How many an indirect table may have.
    pub most: u32,
    /// The table is an indirect one.
    pub indirect: bool,
    /// A piece of the room has come.
    pub writable: bool,
}

/// What a descriptor comes to.
pub enum Step {
    /// The last piece.
    Last(Piece),
    /// A piece, and the walk to go on with.
    More(Piece, Walk),
    /// A table that lies here, and the walk to go on with in it.
    Table(Place, Walk),
    /// There is no chain.
    Refused(ChainRefusal),
}

/// The number of [`Step::Last`].
pub const LAST: i32 = 0;

/// The number of [`Step::More`].
pub const MORE: i32 = 1;

/// The number of [`Step::Table`].
pub const TABLE: i32 = 2;

/// A walk that begins with the descriptor `head` of a queue's table, of `size` descriptors. `None` where that
/// is none of the table. Indirect tables may have `most` descriptors.
pub fn begin(size: u32, most: u32, head: u32) -> Option<Walk>
    ensures { result ≡ begun size most head }
{
    if head < size {
        Some(Walk {
            rest: MOST_BYTES,
            at: head,
            entries: size,
            left: size,
            most,
            indirect: false,
            writable: false,
        })
    } else {
        None
    }
}

/// Takes the step at the descriptor of these two words, which were copied once from where the walk is. Tells the
/// walk to go on with, and the piece, of a table its place alone, and answers the number of the [`Step`]: [`LAST`],
/// [`MORE`], [`TABLE`], or that of the refusal; then all stays.
pub fn take_step(
    walk: &mut Walk,
    first: u64,
    second: u64,
    regions: &[Region],
    piece: &mut Piece,
) -> i32
    ensures code { result ≡ code_of (step_at walk.old (of_words first second) regions.now) }
    ensures walk { walk.new ≡
        walk_after (step_at walk.old (of_words first second) regions.now) walk.old }
    ensures piece { piece.new ≡
        piece_after (step_at walk.old (of_words first second) regions.now) piece.old }
{
    let d = Descriptor::of_words(first, second);
    if d.is_table() {
        return table_step(walk, d, regions, piece);
    }
    let Some(place) = find(regions, d.addr, u64::from(d.len)) else {
        return piece_step(walk, d, regions, piece);
    };
    if walk.rest < u64::from(d.len) || (walk.writable && !d.is_writable()) {
        return piece_step(walk, d, regions, piece);
    }
    if !d.goes_on() {
        put_piece(piece, &d, place);
        return LAST;
    }
    if walk.left <= 1 || walk.entries <= u32::from(d.next) {
        return piece_step(walk, d, regions, piece);
    }
    put_piece(piece, &d, place);
    go_on(walk, &d);
    MORE
}

// The step at a descriptor of bytes: by its tests in their order, so that the first of them names why there is none.
#[cold]
#[inline(never)]
fn piece_step(walk: &mut Walk, d: Descriptor, regions: &[Region], piece: &mut Piece) -> i32
    ensures code { result ≡ code_of (piece_step_in walk.old d regions.now) }
    ensures walk { walk.new ≡ walk_after (piece_step_in walk.old d regions.now) walk.old }
    ensures piece { piece.new ≡ piece_after (piece_step_in walk.old d regions.now) piece.old }
{
    if walk.writable && !d.is_writable() {
        return ChainRefusal::ReadableAfterWritable as i32;
    }
    if walk.rest < u64::from(d.len) {
        return ChainRefusal::TooManyBytes as i32;
    }
    if d.goes_on() && walk.left <= 1 {
        return ChainRefusal::LongerThanTable as i32;
    }
    if d.goes_on() && walk.entries <= u32::from(d.next) {
        return ChainRefusal::OutsideTable as i32;
    }
    let Some(place) = find(regions, d.addr, u64::from(d.len)) else {
        return unplaced(regions, d.addr);
    };
    put_piece(piece, &d, place);
    if !d.goes_on() {
        return LAST;
    }
    go_on(walk, &d);
    MORE
}

// Tells the piece of a descriptor.
fn put_piece(piece: &mut Piece, d: &Descriptor, place: Place)
    ensures { piece.new ≡ piece_at d.now place }
{
    piece.place = place;
    piece.len = d.len;
    piece.writable = d.is_writable();
}

// Goes on after a descriptor.
fn go_on(walk: &mut Walk, d: &Descriptor)
    requires left { 1 ≤ walk.old.left }
    requires rest { d.now.len ≤ walk.old.rest }
    ensures { walk.new ≡ gone_on walk.old d.now }
{
    walk.rest -= u64::from(d.len);
    walk.at = u32::from(d.next);
    walk.left -= 1;
    walk.writable = d.is_writable();
}

// The step at a descriptor of a table.
#[inline(never)]
fn table_step(walk: &mut Walk, d: Descriptor, regions: &[Region], piece: &mut Piece) -> i32
    ensures code { result ≡ code_of (table_step_in walk.old d regions.now) }
    ensures walk { walk.new ≡ walk_after (table_step_in walk.old d regions.now) walk.old }
    ensures piece { piece.new ≡ piece_after (table_step_in walk.old d regions.now) piece.old }
{
    if walk.indirect {
        return ChainRefusal::TableInTable as i32;
    }
    if d.goes_on() {
        return ChainRefusal::TableGoesOn as i32;
    }
    if d.len == 0 || d.len % 16 != 0 {
        return ChainRefusal::TableSize as i32;
    }
    let entries = d.len / 16;
    if walk.most < entries {
        return ChainRefusal::TooManyEntries as i32;
    }
    let Some(place) = find(regions, d.addr, u64::from(d.len)) else {
        return unplaced(regions, d.addr);
    };
    piece.place = place;
    walk.at = 0;
    walk.entries = entries;
    walk.left = entries;
    walk.indirect = true;
    TABLE
}

// Why there is no place for bytes from this address on.
#[cold]
#[inline(never)]
fn unplaced(regions: &[Region], addr: u64) -> i32
    ensures { result ≡ pos (chain_refusal_number (unplaced_in regions.now addr)) }
{
    if find(regions, addr, 1).is_some() {
        ChainRefusal::PastEnd as i32
    } else {
        ChainRefusal::Outside as i32
    }
}
