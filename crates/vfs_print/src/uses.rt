//! What who prints bytes may rely on, by the laws and the public clauses alone.

ghost use Rattle.std.specs.Prelude.{◌≡◌, ◌≢◌, ◌+◌, ◌<◌, ◌∷◌, [], ℕ, List, All, IfSome, codes, length, slice_index_or, take};
ghost use Rattle.vfs_print.specs.Text.{quoted};

use crate::laws::{texts_are_printable, texts_differ};
use crate::part::Part;
use crate::reply::print_reply;
use crate::request::print_request;
use crate::take::take_name;
use vfs_flags::FsOptions;

/// Whatever the bytes, an escape (27), on which a terminal acts, is nowhere in their text.
fn no_escape_is_shown()
    ensures { (bytes : List ℕ) → All (λ b. b < 256) bytes →
        (k : ℕ) → k < length (quoted bytes) → slice_index_or (quoted bytes) k 32 ≢ 27 }
{
    texts_are_printable();
}

/// Bytes whose text is that of the letter `a` (97) are that letter.
fn only_a_is_told_as_a()
    ensures { (bytes : List ℕ) → All (λ b. b < 256) bytes → quoted bytes ≡ quoted (97 ∷ []) →
        bytes ≡ 97 ∷ [] }
{
    texts_differ();
}

/// Three bytes are no request: the line says so, and begins where it did.
fn three_bytes_are_no_request(part: &mut Part, bytes: &[u8], options: FsOptions) -> Option<usize>
    requires from { part.old.from ≡ 0 }
    requires empty { part.old.len ≡ 0 }
    requires three { length bytes.now ≡ 3 }
    ensures from { IfSome result (λ _. part.new.from ≡ 0) }
    ensures line { IfSome result (λ len.
        take len part.new.bytes ≡ codes "refused=DecodeMessage") }
{
    match print_request(part, bytes, options) {
        Ok(()) => Some(part.len),
        Err(_) => None,
    }
}

/// No byte is no reply, and three are none that is whole.
fn three_bytes_are_no_reply(part: &mut Part, request: &[u8], reply: &[u8]) -> Option<usize>
    requires from { part.old.from ≡ 0 }
    requires empty { part.old.len ≡ 0 }
    ensures none { length reply.now ≡ 0 → IfSome result (λ len.
        take len part.new.bytes ≡ codes "-> no reply") }
    ensures three { length reply.now ≡ 3 → IfSome result (λ len.
        take len part.new.bytes ≡ codes "-> refused=DecodeMessage") }
{
    match print_reply(part, request, reply) {
        Ok(()) => Some(part.len),
        Err(_) => None,
    }
}

/// A name and what comes after it have fewer bytes than both with the 0 between them.
fn a_name_has_an_end(bytes: &[u8]) -> Option<usize>
    ensures { IfSome result (λ n. n + 1 ≡ length bytes.now) }
{
    match take_name(bytes) {
        Some((name, following)) => Some(name.len() + following.len()),
        None => None,
    }
}
