//! Parts of requests, for which memory is wanted or not, and replies by their outcomes.

ghost use Rattle.std.specs.Prelude.{◌≡◌, ◌≢◌, ◌≤◌, [], ◌∷◌, Ok, Err, true, length, take, IfErr, IfOk, IsOk, MatchResult, OnSome};
ghost use Rattle.vfs_flags.specs.Flags.{setattr_valid_bits, setxattr_flags_bits};
ghost use Rattle.vfs_segments.specs.Lengths.{lie_together};
ghost use Rattle.vfs_wire.specs.Fields.{bytes_of};
ghost use Rattle.vfs_grammar.specs.declared.error.Error.{Error};

use std::alloc::Global;
use vfs_files::{Extensions, GetxattrReply, SecContext};
use vfs_flags::{Errno, FsOptions, SetattrValid, SetxattrFlags};
use vfs_grammar::Result;
use vfs_messages::{
    Name, Request, Tail, further_flags, get_extensions, known_valid, name_of_tail,
    parse_security_context, read_pairs, read_tail, reply_error, reply_ok, reply_value,
};
use vfs_segments::{Reader, Writer};
use vfs_wire::{ByteValued, GetattrIn, InHeader, bytes_have_size};

/// The tail of a request with three bytes after its header, which are there: only memory can be wanting, and not where
/// they lie in one segment.
fn tail_of_three_bytes<'a>(alloc: Global, header: &InHeader, r: &mut Reader<'a>) -> Result<Tail<'a>>
    requires len { header.now.len ≡ 43 }
    requires three { length r.old.left ≡ 3 }
    ensures tail { IfOk result (λ tail. tail ≡ take 3 r.old.left) }
    ensures memory { IfErr result (λ e. e ≡ Error.OutOfMemory) }
    ensures one { lie_together 0 3 r.old.pieces ≡ true → IsOk result }
{
    read_tail(alloc, header, 0, r)
}

/// A tail of which a byte is missing is refused, and never for want of memory.
fn tail_of_two_bytes<'a>(alloc: Global, header: &InHeader, r: &mut Reader<'a>) -> Result<Tail<'a>>
    requires len { header.now.len ≡ 43 }
    requires two { length r.old.left ≡ 2 }
    ensures { result ≡ Err Error.DecodeMessage }
{
    read_tail(alloc, header, 0, r)
}

/// The name `a`, which a request's tail is: only memory can be wanting, and not where it lies in one segment.
fn name_of_two_bytes<'r>(request: &mut Request<'_, 'r>) -> Result<Name<'r>>
    requires len { request.old.header.now.len ≡ 42 }
    requires a { request.old.r.now.left ≡ 0x61 ∷ 0 ∷ [] }
    ensures name { IfOk result (λ name. name ≡ 0x61 ∷ []) }
    ensures memory { IfErr result (λ e. e ≡ Error.OutOfMemory) }
    ensures one { lie_together 0 2 request.old.r.now.pieces ≡ true → IsOk result }
{
    request.name(0)
}

/// Two pairs that are there: only memory can be wanting.
fn two_pairs(alloc: Global, r: &mut Reader<'_>) -> Result<Vec<(u64, u64)>>
    requires { length r.old.left ≡ 32 }
    ensures { IfErr result (λ e. e ≡ Error.OutOfMemory) }
{
    read_pairs(alloc, 2, r)
}

/// Two pairs of which a byte is missing are refused, and never for want of memory.
fn pairs_of_31_bytes(alloc: Global, r: &mut Reader<'_>) -> Result<Vec<(u64, u64)>>
    requires { length r.old.left ≡ 31 }
    ensures { result ≡ Err Error.DecodeMessage }
{
    read_pairs(alloc, 2, r)
}

/// Where groups alone were agreed on no memory is wanted for extensions, whatever the bytes.
fn groups_want_no_memory(alloc: Global, skip: usize, bytes: &[u8]) -> Result<Extensions>
    ensures { result ≢ Err Error.OutOfMemory }
{
    get_extensions(alloc, FsOptions::CREATE_SUPP_GROUP, skip, bytes)
}

/// A body without a byte is no context, and never refused for want of memory.
fn no_body_is_no_context(alloc: Global, body: &[u8]) -> Result<Option<SecContext>>
    requires { body.now ≡ [] }
    ensures { result ≡ Err Error.DecodeMessage }
{
    parse_security_context(alloc, 1, body)
}

/// After a record of sixteen bytes in a segment of its own, the next segment is left.
fn segment_after_a_record(request: &mut Request<'_, '_>) -> Option<GetattrIn>
    requires { request.old.r.now.pieces ≡ 16 ∷ 4 ∷ [] }
    ensures { OnSome result (request.new.r.now.pieces ≡ 4 ∷ []) }
{
    match request.record::<GetattrIn>() {
        Ok(record) => Some(record),
        Err(_) => None,
    }
}

/// A record that is replied has as many bytes as its type says.
fn size_of_a_replied<T: ByteValued + Drop>(x: T, w: &mut Writer) -> Result<usize>
    ensures { length (bytes_of T.table x) ≡ T.SIZE }
{
    bytes_have_size::<T>();
    reply_ok(Some(x), None, 9, w)
}

/// Says to request 9 that it is not served, where nothing is held: sixteen bytes.
fn say_not_served_alone(w: &mut Writer) -> Result<usize>
    requires none { w.old.held ≡ 0 }
    requires room { 16 ≤ length w.old.left }
    ensures { result ≡ Ok 16 }
{
    reply_error(Some(Errno::ENOSYS), 9, w)
}

/// Says to request 9 that an attribute has seven bytes: eight bytes after a header.
fn say_seven_bytes(w: &mut Writer) -> Result<usize>
    requires { 24 ≤ length w.old.left }
    ensures { result ≡ Ok 24 }
{
    reply_value(Ok(GetxattrReply::Count(7)), 9, w)
}

/// A tail of a letter and a 0 is its name.
fn name_of_a(tail: Tail<'_>) -> Result<Name<'_>>
    requires { tail ≡ 0x61 ∷ 0 ∷ [] }
    ensures { MatchResult result (λ name. name ≡ 0x61 ∷ []) (λ error. ⊥) }
{
    name_of_tail(tail)
}

/// A tail without a 0 is no name.
fn name_without_an_end(tail: Tail<'_>) -> Result<Name<'_>>
    requires { tail ≡ 0x61 ∷ [] }
    ensures { result ≡ Err Error.InvalidCString }
{
    name_of_tail(tail)
}

/// Of the flags 1 and 2 of a SETXATTR the first is known; of a SETATTR's mode, handle and owner of locks the mode alone
/// is an attribute.
fn known_bits() -> (SetxattrFlags, SetattrValid)
    ensures setting { setxattr_flags_bits result.0 ≡ 1 }
    ensures valid { setattr_valid_bits result.1 ≡ 1 }
{
    (further_flags(3), known_valid(0x241))
}
