//! Chains of a virtio queue, for C: see the functions of `vhost_protocol::chains` that are called.

ghost use Rattle.std.specs.Prelude.{◌≡◌, ◌≢◌, ◌%◌, pos, negsuc, if◌then◌else◌, MatchOption};
ghost use Rattle.vhost_protocol.specs.Descriptors.{of_words};
ghost use Rattle.vhost_protocol.specs.Rings.{needs_event_at, waiting_of};
ghost use Rattle.vhost_protocol.specs.Walks.{begun, code_of, piece_after, step_at, walk_after};

use vhost_protocol::chains::{
    ChainRefusal, MORE, Piece, Region, Walk, begin, needs_event, slot, take_step, waiting,
};

/// Begins a walk at the descriptor `head`: 1, or the number of the refusal, and then `walk` stays. See [`begin`].
#[unsafe(no_mangle)]
pub extern "C" fn nizwarf_chain_begin_at(size: u32, most: u32, head: u32, walk: &mut Walk) -> i32
    ensures { MatchOption (begun size most head)
        ((result ≡ pos 3) × (walk.new ≡ walk.old))
        (λ begun. (result ≡ pos 1) × (walk.new ≡ begun)) }
{
    let Some(begun) = begin(size, most, head) else {
        return ChainRefusal::OutsideTable as i32;
    };
    *walk = begun;
    MORE
}

/// Takes the next step of a walk, at the descriptor of these two words: see [`take_step`].
#[unsafe(no_mangle)]
pub extern "C" fn nizwarf_chain_step_at(
    walk: &mut Walk,
    first: u64,
    second: u64,
    regions: &[Region],
    piece: &mut Piece,
) -> i32
    ensures code { result ≡ code_of (step_at walk.old (of_words first second) regions.now) }
    ensures walk { walk.new ≡
        walk_after (step_at walk.old (of_words first second) regions.now) walk.old }
    ensures piece { piece.new ≡
        piece_after (step_at walk.old (of_words first second) regions.now) piece.old }
{
    take_step(walk, first, second, regions, piece)
}

/// How many chains wait, or -1: see [`waiting`].
#[unsafe(no_mangle)]
pub extern "C" fn nizwarf_ring_waiting_at(index: u16, next: u16, size: u32) -> i32
    ensures { MatchOption (waiting_of index next size) (result ≡ negsuc 0) (λ count. result ≡ pos count) }
{
    match waiting(index, next, size) {
        Some(count) => i32::from(count),
        None => -1,
    }
}

/// The place of an index in a ring: see [`slot`].
#[unsafe(no_mangle)]
pub extern "C" fn nizwarf_ring_slot_at(index: u16, size: u32) -> u32
    requires { size ≢ 0 }
    ensures { result ≡ index % size }
{
    slot(index, size)
}

/// Whether the other side wants to be told of new entries of a ring, 1 or 0: see [`needs_event`].
#[unsafe(no_mangle)]
pub extern "C" fn nizwarf_ring_needs_event_at(event: u16, new: u16, old: u16) -> u32
    ensures { result ≡ (if needs_event_at event new old then 1 else 0) }
{
    u32::from(needs_event(event, new, old))
}
