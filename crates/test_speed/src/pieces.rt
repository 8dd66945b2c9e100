//! Requests and rooms in pieces.

use std::alloc::Global;

/// The bytes of a request that cutting 1 sets apart: the header.
pub const REQUEST_HEAD: usize = 40;

/// The bytes of a room that cutting 1 sets apart: the reply's header.
pub const ROOM_HEAD: usize = 16;

/// The bytes in pieces, none of them empty: 0 all in one, 1 the first `head` and the others, 2
/// 4,096 each, 3 64 each, 4 one each.
pub fn cut<'a>(alloc: Global, bytes: &'a [u8], head: usize, cutting: u32) -> Option<Vec<&'a [u8]>> {
    let (first, each) = match cutting {
        1 => (head, usize::MAX),
        2 => (4096, 4096),
        3 => (64, 64),
        4 => (1, 1),
        _ => (usize::MAX, usize::MAX),
    };
    pieces_of(alloc, bytes, first, each)
}

/// The bytes in pieces, none of them empty: the first one of `first` bytes, the others of `each`,
/// as far as there are that many. Neither is 0.
pub fn pieces_of<'a>(
    alloc: Global,
    bytes: &'a [u8],
    first: usize,
    each: usize,
) -> Option<Vec<&'a [u8]>> {
    let mut pieces = Vec::new(alloc);
    let mut size = first;
    let mut rest = bytes;
    for _ in 0..bytes.len() {
        if rest.is_empty() {
            break;
        }
        let (piece, others) = rest.split_at_checked(size.min(rest.len()))?;
        pieces.push(piece).ok()?;
        size = each;
        rest = others;
    }
    Some(pieces)
}

/// A copy of each piece.
pub fn copies(alloc: Global, pieces: &[&[u8]]) -> Option<Vec<Vec<u8>>> {
    let mut all = Vec::new(alloc);
    for piece in pieces {
        all.push(Vec::from_slice(alloc, piece).ok()?).ok()?;
    }
    Some(all)
}

/// A room of that many zeros in pieces.
pub fn room(alloc: Global, len: usize, cutting: u32) -> Option<Vec<Vec<u8>>> {
    let zeros = vec![in alloc; 0u8; len].ok()?;
    copies(alloc, &cut(alloc, &zeros, ROOM_HEAD, cutting)?)
}
