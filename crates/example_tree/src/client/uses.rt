//! Small callers: what the clauses of the client say of two requests and of a reply.

ghost use Rattle.std.specs.Prelude.{◌≡◌, ◌+◌, ◌≤◌, [], ◌∷◌, ◌++◌, drop, replicate, length, negsuc, pos, IfOk, IsNone};
ghost use Rattle.vfs_wire.specs.Fields.{number, value_of};
ghost use Rattle.vfs_wire.specs.Records.{out_header};

use crate::client::{data, lookup, read, said};
use std::alloc::{AllocError, Global};
use vfs_wire::EntryOut;

/// Request 3, a LOOKUP of `a` in node 1: 42 bytes.
#[tactic(auto, unfolding(vfs_wire::specs::Fields::little))]
fn lookup_of_a(alloc: Global) -> Result<Vec<u8>, AllocError>
    ensures { IfOk result (λ bytes. bytes.items ≡
        (42 ∷ 0 ∷ 0 ∷ 0 ∷ 1 ∷ 0 ∷ 0 ∷ 0 ∷ 3 ∷ []) ++ (replicate 7 0 ++ (1 ∷ []))
        ++ (replicate 23 0 ++ (97 ∷ 0 ∷ []))) }
{
    lookup(alloc, 3, 1, b"a")
}

/// Request 9, a READ of 3 bytes of node 2: 80 bytes.
#[tactic(auto, unfolding(vfs_wire::specs::Fields::little))]
fn read_of_three_bytes() -> [u8; 80]
    ensures { result ≡
        (80 ∷ 0 ∷ 0 ∷ 0 ∷ 15 ∷ 0 ∷ 0 ∷ 0 ∷ 9 ∷ []) ++ (replicate 7 0 ++ (2 ∷ []))
        ++ (replicate 39 0 ++ (3 ∷ replicate 23 0)) }
{
    read(9, 2, 0, 3)
}

/// What a LOOKUP is told of a name that is not there: ENOENT, 2, negated.
#[tactic(auto, unfolding(vfs_wire::specs::Fields::number))]
fn no_entry() -> Option<Result<EntryOut, i32>>
    ensures { result ≡ Some (Err (negsuc 1)) }
{
    said(&[16, 0, 0, 0, 0xfe, 0xff, 0xff, 0xff, 3, 0, 0, 0, 0, 0, 0, 0])
}

/// Fifteen bytes are no reply: neither to a LOOKUP nor to a READ.
fn no_whole_header(reply: &[u8]) -> (Option<Result<EntryOut, i32>>, Option<Result<&[u8], i32>>)
    requires { length reply.now ≡ 15 }
    ensures said { IsNone result.0 }
    ensures data { IsNone result.1 }
{
    (said(reply), data(reply))
}

/// Three of the four bytes of a number are none.
fn no_whole_number(reply: &[u8]) -> Option<Result<u32, i32>>
    requires three { length reply.now ≡ 19 }
    requires fine { (value_of out_header reply.now).error ≡ pos 0 }
    ensures { IsNone result }
{
    said(reply)
}

/// The number that a reply says is in the four bytes after its header.
fn whole_number(reply: &[u8]) -> Option<Result<u32, i32>>
    requires four { length reply.now ≡ 20 }
    requires fine { (value_of out_header reply.now).error ≡ pos 0 }
    ensures { result ≡ Some (Ok (number 4 (drop 16 reply.now))) }
{
    said(reply)
}

/// A READ of a node that is gone is answered ESTALE, 116, negated.
fn no_data(reply: &[u8]) -> Option<Result<&[u8], i32>>
    requires { length reply.now ≡ 16 }
    ensures { (value_of out_header reply.now).error ≡ negsuc 115 → result ≡ Some (Err (negsuc 115)) }
{
    data(reply)
}

/// How many bytes a READ was answered: those after the header.
fn len_of_data(reply: &[u8]) -> usize
    requires header { 16 ≤ length reply.now }
    requires fine { (value_of out_header reply.now).error ≡ pos 0 }
    ensures { result + 16 ≡ length reply.now }
{
    match data(reply) {
        Some(Ok(bytes)) => bytes.len(),
        _ => 0,
    }
}
