//! Parts of requests, and replies.

mod versions;

ghost use Rattle.std.specs.Prelude.{◌≡◌, ◌<◌, ◌≤◌, ◌++◌, length, drop, Ok, Err, Some, None, MatchResult, codes};
ghost use Rattle.vfs_segments.specs.Segments.{with_bytes_at};
ghost use Rattle.vfs_segments.specs.Written.{whole};
ghost use Rattle.vfs_files.specs.Values.{extension_values_of};
ghost use Rattle.vfs_grammar.specs.Samples.{not_served_reply, ten_of_done_reply};
ghost use Rattle.vfs_grammar.specs.declared.error.Error.{Error};

use std::alloc::Global;
use vfs_files::{Extensions, SecContext};
use vfs_flags::{Errno, FsOptions, GuestGid};
use vfs_grammar::Result;
use vfs_messages::{
    Tail, get_extensions, parse_security_context, parse_sup_groups, read_record, read_tail,
    reply_error, reply_failed, reply_ok,
};
use vfs_segments::{Reader, Writer};
use vfs_wire::{GetattrIn, InHeader};

/// Says to request 9 that it is not served. Sixteen bytes are put into the room; those after
/// them, and those that the writer had passed, are as they were, and so are the lengths of its
/// segments.
fn say_not_served(w: &mut Writer) -> Result<usize>
    requires { 16 ≤ length w.old.left }
    ensures outcome { result ≡ Ok 16 }
    ensures bytes { whole w.new ≡ w.old.passed ++ (not_served_reply ++ drop 16 w.old.left) }
    ensures segments { w.new.lengths ≡ w.old.lengths }
{
    reply_failed(Some(Errno::ENOSYS), 9, w)
}

/// Says to request 9 that it was done, in a room of ten bytes: they hold the beginning of the
/// reply.
fn say_done_in_ten_bytes(w: &mut Writer) -> Result<usize>
    requires { length w.old.left ≡ 10 }
    ensures outcome { result ≡ Err Error.EncodeMessage }
    ensures bytes { whole w.new ≡ w.old.passed ++ ten_of_done_reply }
{
    reply_ok::<u8>(None, None, 9, w)
}

/// Says to request 9 that it is not served, with a writer that holds sixteen bytes in front of
/// others: they hold the reply then, what comes after them stays, and nothing is held.
fn say_not_served_in_front(w: &mut Writer) -> Result<usize>
    requires { w.old.held ≡ 16 }
    ensures outcome { result ≡ Ok 16 }
    ensures bytes { w.new.passed ≡ with_bytes_at w.old.held_at not_served_reply w.old.passed }
    ensures left { w.new.left ≡ w.old.left }
    ensures held { w.new.held ≡ 0 }
{
    reply_error(Some(Errno::ENOSYS), 9, w)
}

/// Reads the tail of a request whose `len` is less than its header: it is refused before a byte is
/// looked for, and before memory is asked for.
fn tail_of_a_short_len<'a>(alloc: Global, header: &InHeader, r: &mut Reader<'a>) -> Result<Tail<'a>>
    requires { header.now.len < 40 }
    ensures { result ≡ Err Error.InvalidHeaderLength }
{
    read_tail(alloc, header, 0, r)
}

/// Reads the record of a GETATTR from fifteen bytes, one too few.
fn getattr_of_fifteen_bytes(r: &mut Reader<'_>) -> Result<GetattrIn>
    requires { length r.old.left ≡ 15 }
    ensures { result ≡ Err Error.DecodeMessage }
{
    read_record::<GetattrIn>(r)
}

/// Reads the extensions of a MKDIR after the name `d`, where groups were agreed on: the group
/// 1000, for which no memory is wanted.
fn group_after_a_name(alloc: Global) -> Result<Extensions>
    ensures { MatchResult result
        (λ ext. extension_values_of ext ≡ record { context = None; group = Some 1000 })
        (λ error. ⊥) }
{
    let tail = b"d\0\x10\0\0\0\x20\0\0\0\x01\0\0\0\xe8\x03\0\0";
    get_extensions(alloc, FsOptions::CREATE_SUPP_GROUP, 2, tail)
}

/// Reads the extensions of a MKDIR after the name `d`, where a context was agreed on: one named
/// `s`, whose value is `v`.
fn context_after_a_name(alloc: Global) -> Result<Extensions>
    ensures { MatchResult result
        (λ ext. extension_values_of ext
        ≡ record { context = Some (codes "s", codes "v"); group = None })
        (λ error. error ≡ Error.OutOfMemory) }
{
    let tail = b"d\0\x13\0\0\0\x01\0\0\0\x01\0\0\0\0\0\0\0s\0v";
    get_extensions(alloc, FsOptions::SECURITY_CTX, 2, tail)
}

/// Two contexts are refused, whatever they are, and a context whose value has no byte: for neither
/// memory is wanted.
fn contexts_that_are_refused(
    alloc: Global,
    body: &[u8],
) -> (Result<Option<SecContext>>, Result<Option<SecContext>>)
    ensures two { result.0 ≡ Err Error.DecodeMessage }
    ensures no_value { result.1 ≡ Err Error.DecodeMessage }
{
    let two = parse_security_context(alloc, 2, body);
    let no_value = parse_security_context(alloc, 1, b"\0\0\0\0\0\0\0\0s\0");
    (two, no_value)
}

/// The body of an extension of one group, 1000.
fn group_of_a_body() -> Result<GuestGid>
    ensures { result ≡ Ok 1000 }
{
    parse_sup_groups(b"\x01\0\0\0\xe8\x03\0\0")
}
