//! What no clause says: that there is memory for long requests, also where they are cut in their
//! tails. The calls are then those of the uncut request, with all that stood in it.

use crate::support::{holds, request};
use std::alloc::{AllocError, Global};
use std::cell::RefCell;
use std::collections::VecDeque;
use std::test::Fail;
use vfs_bench::seeded::SeededFs;
use vfs_run::{PAGE_SIZE, answer_to, parse_line};
use vfs_segments::{Reader, Writer};
use vfs_server::server::Server;

/// A server over the seeded file system, which shows with what each call came.
type SeededServer<'a> = Server<SeededFs<'a>>;

/// How long the reply to a request in these pieces is, with a room of that many bytes.
fn reply_to(
    alloc: Global,
    server: &mut SeededServer<'_>,
    pieces: &[&[u8]],
    room: usize,
) -> Result<usize, Fail> {
    let reader = Reader::new(alloc, pieces)?;
    let mut rooms = Vec::new(alloc);
    rooms.push(vec![in alloc; 0u8; room]?)?;
    let mut writer = Writer::new(alloc, rooms)?;
    Ok(server.handle_message(alloc, reader, &mut writer)?)
}

/// Agrees on what a request needs, by the requests of these lines.
fn agree(alloc: Global, server: &mut SeededServer<'_>, before: &[&str]) -> Result<(), Fail> {
    for line in before {
        if let Some(line) = parse_line(alloc, line.as_bytes())? {
            answer_to(alloc, server, &line)?;
        }
    }
    Ok(())
}

/// Whether a request is answered by that many bytes, whole and cut in its middle.
fn is_answered(
    alloc: Global,
    server: &mut SeededServer<'_>,
    bytes: &[u8],
    reply: usize,
) -> Result<bool, Fail> {
    let (first, rest) = bytes.split_at(bytes.len() / 2);
    Ok(
        reply_to(alloc, server, &[bytes], reply)? == reply
            && reply_to(alloc, server, &[first, rest], reply)? == reply,
    )
}

/// Whether a request is answered by that many bytes and makes this call, whole and cut in its middle,
/// once the lines before it agreed on what it needs.
fn makes_its_call(
    alloc: Global,
    before: &[&str],
    bytes: &[u8],
    reply: usize,
    call: &str,
) -> Result<bool, Fail> {
    let told = RefCell::new(VecDeque::new(alloc));
    let mut server = Server::new(SeededFs::new(alloc, &told), PAGE_SIZE);
    agree(alloc, &mut server, before)?;
    let noted = server.fs().notes().text().len();
    let answered = is_answered(alloc, &mut server, bytes, reply)?;
    let notes = server.fs().notes().text().as_bytes();
    let calls = notes.get(noted..).unwrap_or(b"");
    let (uncut, cut) = calls.split_at(calls.len() / 2);
    Ok(answered && uncut == cut && uncut.starts_with(call.as_bytes()))
}

/// `count` bytes, each one more than that before it, from 0 on and again after 255.
fn rising(alloc: Global, count: u32) -> Result<Vec<u8>, AllocError> {
    let mut bytes = Vec::new(alloc);
    let mut byte = 0u8;
    for _ in 0..count {
        bytes.push(byte)?;
        byte = byte.wrapping_add(1);
    }
    Ok(bytes)
}

/// The line of a call with these bytes in hex between its other arguments.
fn line_with(
    alloc: Global,
    before: &str,
    bytes: &[u8],
    following: &str,
) -> Result<String, AllocError> {
    let mut line = String::from_str(alloc, before)?;
    for byte in bytes {
        write!(line, "{byte:02x}")?;
    }
    line.push_str(following)?;
    Ok(line)
}

/// Whether a SETXATTR of opcode 21 arrives with a value of that many bytes.
fn sets_a_value(alloc: Global, count: u32) -> Result<bool, Fail> {
    let value = rising(alloc, count)?;
    let mut following = Vec::from_slice(alloc, &count.to_le_bytes())?;
    following.extend_from_slice(b"\0\0\0\0user.x\0")?;
    following.extend_from_slice(&value)?;
    let call = line_with(
        alloc,
        "  call setxattr ctx=0,0,0 inode=1 name=757365722e78 value=",
        &value,
        " flags=0 extra=0\n",
    )?;
    let request = request(alloc, 21, 1, &following)?;
    makes_its_call(alloc, &[], &request, 16, call.as_str())
}

/// As long as Linux lets a value be, and as long as the largest payload by default.
static VALUES: [u32; 2] = [65_536, 1_048_576];

#[test]
fn a_long_value_arrives(rt: HostRuntime) -> Result<(), Fail> {
    for count in &VALUES {
        holds(sets_a_value(rt.alloc(), *count))?;
    }
    Ok(())
}

/// Whether a BATCH_FORGET of opcode 42 arrives with as many pairs as the largest payload by default
/// has place for: one lookup each of the nodes from 1 on.
fn forgets_each(alloc: Global) -> Result<bool, Fail> {
    let mut following = Vec::from_slice(alloc, b"\0\0\x01\0\0\0\0\0")?;
    let mut call = String::from_str(alloc, "  call batch_forget ctx=0,0,0 requests=")?;
    let mut between = "";
    for node in 1..=65_536u64 {
        following.extend_from_slice(&node.to_le_bytes())?;
        following.extend_from_slice(b"\x01\0\0\0\0\0\0\0")?;
        write!(call, "{between}{node}:1")?;
        between = ",";
    }
    call.push('\n')?;
    let request = request(alloc, 42, 0, &following)?;
    makes_its_call(alloc, &[], &request, 0, call.as_str())
}

#[test]
fn a_payload_of_pairs_arrives(rt: HostRuntime) -> Result<(), Fail> {
    holds(forgets_each(rt.alloc()))
}

/// The lines that agree on SECURITY_CTX: a FORGET, by whose process the scripted file system wants
/// all options, and an INIT that offers this one.
static AGREED: [&str; 2] = [
    "0 300000000200000009000000000000000000000000000000000000000000000010000000000000000100000000000000",
    "80 680000001a00000009000000000000000000000000000000000000000000000000000000000000000700000026000000000002000000004001000000000000000000000000000000000000000000000000000000000000000000000000000000000000000000000000",
];

/// What comes after the header of a CREATE of `n` with a context of the name `s` and this value:
/// its record, the name, and the context with its two headers.
fn create_with(alloc: Global, value: &[u8], count: u32) -> Result<Vec<u8>, AllocError> {
    let mut following = Vec::from_slice(alloc, b"\x02\0\0\0\xa4\x81\0\0\x12\0\0\0\0\0\0\0n\0")?;
    following.extend_from_slice(&count.saturating_add(18).to_le_bytes())?;
    following.extend_from_slice(b"\x01\0\0\0")?;
    following.extend_from_slice(&count.to_le_bytes())?;
    following.extend_from_slice(b"\0\0\0\0s\0")?;
    following.extend_from_slice(value)?;
    Ok(following)
}

/// Whether a CREATE of opcode 35 arrives with a context of that many bytes.
fn creates_with_context(alloc: Global, count: u32) -> Result<bool, Fail> {
    let value = rising(alloc, count)?;
    let call = line_with(
        alloc,
        "  call create ctx=0,0,0 parent=1 name=6e mode=33188 kill_priv=false flags=2 umask=18 \
         secctx=73:",
        &value,
        " group=none\n",
    )?;
    let request = request(alloc, 35, 1, &create_with(alloc, &value, count)?)?;
    makes_its_call(alloc, &AGREED, &request, 160, call.as_str())
}

#[test]
fn a_long_context_arrives(rt: HostRuntime) -> Result<(), Fail> {
    holds(creates_with_context(rt.alloc(), 60_000))
}
