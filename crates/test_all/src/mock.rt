//! Each call once through a recorder, and what a script answers.

mod readings;
mod rows;

use crate::mock::rows::{Noted, Row, rows};
use crate::support::{
    ScriptServer, holds, none_is_wrong, reply, reply_by_script, script_server, server_over,
};
use bitflags::Flags;
use fs_small::Unserved;
use std::alloc::{AllocError, Global};
use std::test::Fail;
use std::time::Duration;
use vfs_bench::{Note, Recorder, Script, ScriptDirectory, ScriptFile, ScriptItem};
use vfs_files::{CStr, CString, Entry, FileSystem, GetxattrReply, ListxattrReply};
use vfs_flags::{Errno, Fault, FsOptions, OpenOptions};
use vfs_server::server::Server;
use vfs_wire::Attr;

/// An entry of this node.
fn entry_of(inode: u64) -> Entry {
    Entry {
        inode,
        generation: 3,
        attr: Attr {
            ino: 500,
            ..Attr::default()
        },
        attr_timeout: Duration::from_secs(1),
        entry_timeout: Duration::from_secs(2),
    }
}

/// A name of that many bytes.
fn name_of(alloc: Global, length: usize) -> Result<CString, Fault> {
    match vec![in alloc; b'n'; length] {
        Ok(bytes) => terminated(alloc, bytes),
        Err(_) => Err(Some(Errno::ENOMEM)),
    }
}

/// The name with these bytes.
fn terminated(alloc: Global, mut bytes: Vec<u8>) -> Result<CString, Fault> {
    bytes.push(0).map_err(|_| Some(Errno::ENOMEM))?;
    match CStr::from_bytes_with_nul(&bytes) {
        Some(name) => CString::new(alloc, name),
        None => Err(None),
    }
}

/// A directory of one item, which has this node and a name of that many bytes: it ends after it, or
/// gives it again and again.
fn directory(
    alloc: Global,
    ino: u64,
    name: usize,
    endless: bool,
) -> Result<ScriptDirectory, Fault> {
    let item = ScriptItem {
        ino,
        offset: 1,
        type_: 4,
        name: name_of(alloc, name)?,
    };
    let mut items = Vec::new(alloc);
    items.push(item).map_err(|_| Some(Errno::ENOMEM))?;
    if endless {
        ScriptDirectory::endless(alloc, items)
    } else {
        ScriptDirectory::new(alloc, items)
    }
}

/// A file that moves two bytes a call, and fails at the fourth.
fn slow_file() -> ScriptFile {
    ScriptFile {
        most: 2,
        fails_at: Some(4),
        fault: Some(Errno::EIO),
        byte: b'f',
        calls: 0,
    }
}

/// A script that answers something else than the default to each call but INIT.
fn script_of_answers(alloc: Global) -> Result<Script, AllocError> {
    let text = vec![in alloc; b't', b'o']?;
    let value = vec![in alloc; b'v']?;
    Ok(Script {
        options: Ok(FsOptions::empty()),
        entry: Ok(entry_of(77)),
        attributes: Ok((entry_of(77).attr, Duration::from_secs(4))),
        opening: Ok((Some(6), OpenOptions::DIRECT_IO)),
        creation: Ok((entry_of(78), Some(7), OpenOptions::empty())),
        statistics: Err(Some(Errno::EIO)),
        text: Ok(text),
        value: Ok(GetxattrReply::Value(value)),
        names: Ok(ListxattrReply::Count(9)),
        offset: Ok(4096),
        file: Some(slow_file()),
        directory: directory(alloc, 500, 0, true),
        written: Ok(100),
        done: Err(None),
        tmpfile: Errno::new(11),
    })
}

/// A server over that script, with a place for the note of each row's call.
fn answering_server(alloc: Global) -> Result<ScriptServer, AllocError> {
    script_server(alloc, script_of_answers(alloc)?, rows().len())
}

/// The note of a call, of this kind and value.
fn note_of(row: &Row, (kind, value): Noted) -> Note {
    let (opcode, node, _) = row.message;
    Note {
        call: u32::from(opcode),
        node: u64::from(node),
        count: row.count,
        kind,
        value,
    }
}

/// Whether this is the last note, and no call was missed.
fn is_last<F>(recorder: &Recorder<F>, note: &Note) -> bool {
    match recorder.notes().last() {
        Some(last) => last == note && !recorder.missed(),
        None => false,
    }
}

/// Whether a script answers a row so, and its call is noted.
fn is_answered(alloc: Global, server: &mut ScriptServer, row: &Row) -> Result<bool, Fail> {
    let reply = reply_by_script(alloc, server, row.message, 160)?;
    Ok(reply.as_slice() == row.reply && is_last(server.fs(), &note_of(row, row.by_script)))
}

/// The opcode of the first message that a script answers otherwise, or whose note is another.
fn wrongly_answered(alloc: Global, server: &mut ScriptServer) -> Result<Option<u8>, Fail> {
    for row in rows() {
        if !is_answered(alloc, server, row)? {
            return Ok(Some(row.message.0));
        }
    }
    Ok(None)
}

#[test]
fn a_recorder_notes_each_call_that_a_script_answers(rt: HostRuntime) -> Result<(), Fail> {
    let mut server = answering_server(rt.alloc())?;
    none_is_wrong(wrongly_answered(rt.alloc(), &mut server))
}

/// A server over a file system that serves nothing, with a note of each call.
type UnservedServer = Server<Recorder<Unserved>>;

/// Whether the call of a row is the last note of such a server.
fn is_noted_unserved(server: &UnservedServer, row: &Row) -> bool {
    is_last(server.fs(), &note_of(row, row.unserved))
}

/// The opcode of the first message whose note is another where nothing is served.
fn wrongly_noted(alloc: Global, server: &mut UnservedServer) -> Result<Option<u8>, Fail> {
    for row in rows() {
        reply(alloc, server, row.message, 160)?;
        if !is_noted_unserved(server, row) {
            return Ok(Some(row.message.0));
        }
    }
    Ok(None)
}

#[test]
fn a_recorder_notes_each_call_that_is_not_served(rt: HostRuntime) -> Result<(), Fail> {
    let mut server = server_over(rt.alloc(), Unserved {}, rows().len())?;
    none_is_wrong(wrongly_noted(rt.alloc(), &mut server))
}

/// Whether a GETLK succeeds, and that many calls are noted and missed afterwards.
fn is_noted(recorder: &mut Recorder<Script>, noted: usize, missed: bool) -> bool {
    recorder.getlk().is_ok() && recorder.notes().len() == noted && recorder.missed() == missed
}

/// How many calls are noted in two places after each of four calls, and whether one was missed.
static NOTED_AND_MISSED: [(usize, bool); 4] = [(1, false), (2, false), (2, true), (2, true)];

/// Whether that many calls are noted and missed, and the script stays as it was.
fn are_missed(recorder: &mut Recorder<Script>) -> bool {
    for (noted, missed) in &NOTED_AND_MISSED {
        if !is_noted(recorder, *noted, *missed) {
            return false;
        }
    }
    recorder.inner().done.is_ok()
}

/// A recorder of two places, over a script whose calls succeed.
fn small_recorder(alloc: Global) -> Result<Recorder<Script>, AllocError> {
    let mut script = Script::new();
    script.done = Ok(());
    Ok(script_server(alloc, script, 2)?.into_fs())
}

/// Whether they are by such a recorder.
fn misses_calls(alloc: Global) -> Result<bool, AllocError> {
    let mut recorder = small_recorder(alloc)?;
    Ok(are_missed(&mut recorder))
}

#[test]
fn a_call_without_a_place_is_missed_and_answered(rt: HostRuntime) -> Result<(), Fail> {
    holds(misses_calls(rt.alloc()))
}
