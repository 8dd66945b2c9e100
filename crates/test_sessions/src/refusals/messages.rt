//! The messages of the corpus, over the scripted file system.

use crate::cuttings::{Asked, Cut, Cutting, Way, serve};
use crate::refusals::parts::Parts;
use crate::table::{Message, messages};
use std::alloc::Global;
use std::io;
use vfs_run::RunError;

/// How many bytes the header of a request has.
const HEADER: usize = 40;

/// Request and room in single bytes.
const BYTES: Cutting = (Cut::Bytes, Cut::Bytes);

/// Handles each message of the corpus, whole and cut, and then three times in a session.
pub fn try_all<W: io::Write + Drop>(alloc: Global, parts: &mut Parts<W>) -> Result<(), RunError> {
    for message in &messages(alloc)? {
        try_each_cutting(alloc, parts, message)?;
        let how = "three times in a session";
        try_cut(alloc, parts, message, how, &[BYTES; 3], Way::Session)?;
    }
    Ok(())
}

// Handles a message in each way to cut it.
fn try_each_cutting<W: io::Write + Drop>(
    alloc: Global,
    parts: &mut Parts<W>,
    message: &Message,
) -> Result<(), RunError> {
    let last = message.request(alloc)?.0.len().saturating_sub(1);
    for (how, cutting) in &[
        ("whole", (Cut::Whole, Cut::Whole)),
        ("cut after its header", (Cut::At(HEADER), Cut::Whole)),
        ("cut before its last byte", (Cut::At(last), Cut::Whole)),
        ("in single bytes", BYTES),
    ] {
        try_cut(alloc, parts, message, how, &[*cutting], Way::Messages)?;
    }
    Ok(())
}

// Handles a message in these cuttings.
fn try_cut<W: io::Write + Drop>(
    alloc: Global,
    parts: &mut Parts<W>,
    message: &Message,
    how: &str,
    cuttings: &[Cutting],
    way: Way,
) -> Result<(), RunError> {
    let name = message.name;
    parts.call_next(format!(in alloc; "{name}, {how}")?);
    let (bytes, room) = message.request(alloc)?;
    let asked = Asked {
        bytes: &bytes,
        room,
        cuttings,
        way,
    };
    let served = serve(alloc, message, asked, parts)?;
    parts.tell_served(&served)
}
