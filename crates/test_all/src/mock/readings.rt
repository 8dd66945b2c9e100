//! Readings of a directory of one item: what is taken, looked up and given back.

use crate::mock::{directory, entry_of};
use crate::support::{ScriptServer, holds, reply_by_script, script_server};
use std::alloc::{AllocError, Global};
use std::test::Fail;
use vfs_bench::{Note, NoteKind, Recorder, Script};

/// A reading of a directory of one item, and what comes of it.
struct Reading {
    opcode: u8,
    /// How many bytes the item's name has.
    name: usize,
    /// Whether the directory has no end.
    endless: bool,
    /// How many bytes are asked for.
    size: u32,
    /// How long the reply is.
    length: usize,
    /// How often an entry is asked for.
    entries: u64,
    lookups: u16,
    forgets: u16,
}

static READINGS: [Reading; 5] = [
    // READDIR: ten records of 24 bytes, and one entry that doesn't fit.
    Reading {
        opcode: 28,
        name: 0,
        endless: true,
        size: 240,
        length: 256,
        entries: 11,
        lookups: 0,
        forgets: 0,
    },
    // One record, and the end.
    Reading {
        opcode: 28,
        name: 0,
        endless: false,
        size: 240,
        length: 40,
        entries: 2,
        lookups: 0,
        forgets: 0,
    },
    // The largest size: 43,690 records, and one entry that doesn't fit.
    Reading {
        opcode: 28,
        name: 0,
        endless: true,
        size: 1_048_576,
        length: 1_048_576,
        entries: 43_691,
        lookups: 0,
        forgets: 0,
    },
    // READDIRPLUS: 6,898 records of 152 bytes, and one entry that doesn't fit and is given back.
    Reading {
        opcode: 44,
        name: 0,
        endless: true,
        size: 1_048_576,
        length: 1_048_512,
        entries: 6_899,
        lookups: 6_899,
        forgets: 1,
    },
    // An entry with a name that is longer than the largest size.
    Reading {
        opcode: 44,
        name: 1_048_600,
        endless: false,
        size: 1_048_576,
        length: 16,
        entries: 1,
        lookups: 1,
        forgets: 1,
    },
];

/// The calls of a reading of node 1, in which lookups find node 5, and entries of it are given back
/// one by one.
static READ: Note = Note {
    call: 28,
    node: 1,
    count: 0,
    kind: NoteKind::Ok,
    value: 0,
};

static LOOKED_UP: Note = Note {
    call: 1,
    node: 1,
    count: 0,
    kind: NoteKind::Ok,
    value: 5,
};

static GIVEN_BACK: Note = Note {
    call: 2,
    node: 5,
    count: 1,
    kind: NoteKind::Nothing,
    value: 0,
};

/// A server over a directory of one item, whose lookups find node 5, with places for that many notes.
fn server_of_directory(
    alloc: Global,
    name: usize,
    endless: bool,
    places: usize,
) -> Result<ScriptServer, AllocError> {
    let mut script = Script::new();
    script.entry = Ok(entry_of(5));
    script.directory = directory(alloc, 1, name, endless);
    script_server(alloc, script, places)
}

/// How often an entry of a script's directory was asked for.
fn takings(script: &Script) -> Option<u64> {
    match &script.directory {
        Ok(directory) => Some(directory.takings()),
        Err(_) => None,
    }
}

/// Whether the calls are a `readdir`, that many lookups, and that many forgets.
fn are_calls(recorder: &Recorder<Script>, lookups: u16, forgets: u16) -> bool {
    let lookups = usize::from(lookups);
    let mut place = 0usize;
    for noted in recorder.notes() {
        let want = if place == 0 {
            &READ
        } else if place <= lookups {
            &LOOKED_UP
        } else {
            &GIVEN_BACK
        };
        if noted != want {
            return false;
        }
        place = place.saturating_add(1);
    }
    place == 1 + lookups + usize::from(forgets) && !recorder.missed()
}

/// The header of a successful reply of that many bytes.
fn header_of(length: usize) -> [u8; 16] {
    let mut header = [0; 16];
    header[..8].copy_from_slice(&length.to_le_bytes());
    header[8] = 9;
    header
}

/// Whether a reply succeeds and has that many bytes.
fn is_success(reply: &[u8], length: usize) -> bool {
    reply.len() == length && reply.starts_with(&header_of(length))
}

/// What comes after the header of a request for a reading of that many bytes.
fn reading_of(size: u32) -> [u8; 40] {
    let mut record = [0; 40];
    record[16..20].copy_from_slice(&size.to_le_bytes());
    record
}

/// The reply to a request for a reading.
fn reply_to(alloc: Global, server: &mut ScriptServer, reading: &Reading) -> Result<Vec<u8>, Fail> {
    let record = reading_of(reading.size);
    let room = reading.size as usize + 16;
    reply_by_script(alloc, server, (reading.opcode, 1, &record), room)
}

/// Whether a reading has taken, looked up and given back what is said of it.
fn has_taken(recorder: &Recorder<Script>, reading: &Reading) -> bool {
    takings(recorder.inner()) == Some(reading.entries)
        && are_calls(recorder, reading.lookups, reading.forgets)
}

/// Whether a reading comes to what is said of it.
fn is_read(alloc: Global, reading: &Reading) -> Result<bool, Fail> {
    let mut server = server_of_directory(alloc, reading.name, reading.endless, 7000)?;
    let is_replied = is_success(&reply_to(alloc, &mut server, reading)?, reading.length);
    Ok(is_replied && has_taken(server.fs(), reading))
}

#[test]
fn readings_of_a_directory_take_what_fits_and_one_more(rt: HostRuntime) -> Result<(), Fail> {
    for reading in &READINGS {
        holds(is_read(rt.alloc(), reading))?;
    }
    Ok(())
}
