//! Serves batches of requests over file systems in memory, for a benchmark that is written in C or
//! Rust and links this library. It claims nothing of the replies: what the server answers is
//! promised where the server is.
#![tactic(auto)]

mod batch;
mod null;
mod pieces;
mod round;

use crate::batch::{Batch, Files, parse};
use crate::null::NullFs;
use crate::round::{Side, drive};
use fs_small::MemFs;
use std::alloc::Global;

/// Serves the requests of a batch: its setup requests once, all others `rounds` times over, in
/// order, by one new server over a new file system.
///
/// `cutting` says into which pieces each request and its room are cut. Each reply of the last round
/// goes to its place in `replies`. Answers the digest of the last round's outcomes and replies, and
/// 0 for a batch that is not whole or where there is no memory.
#[unsafe(no_mangle)]
pub extern "C" fn nizwarf_batch(
    alloc: Global,
    requests: &[u8],
    replies: &mut [u8],
    rounds: u32,
    cutting: u32,
) -> u64 {
    serve_batch(alloc, requests, replies, rounds, cutting).unwrap_or(0)
}

// The digest of a batch that is whole.
fn serve_batch(
    alloc: Global,
    requests: &[u8],
    replies: &mut [u8],
    rounds: u32,
    cutting: u32,
) -> Option<u64> {
    let batch = parse(alloc, requests)?;
    let side = Side {
        alloc,
        rounds,
        cutting,
    };
    match batch.files {
        Files::Memory => {
            let fs = MemFs::new(alloc).ok()?;
            drive(side, fs, &batch, replies)
        }
        Files::Null => drive(side, NullFs {}, &batch, replies),
    }
}
