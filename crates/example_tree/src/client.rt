//! An example: a client in the guest. It makes the bytes of two requests, LOOKUP and READ, and reads
//! what a reply says; what it makes and reads is stated by the field tables of the records.
//!
//! A record is put into a part of some bytes by `split_at_mut`, which the prover follows by itself. It
//! does not follow a `put` into `&mut bytes[..40]`.

ghost use Rattle.std.specs.Prelude.{◌≡◌, ◌≢◌, ◌+◌, ◌<◌, ◌≤◌, ◌^◌, pos, length, drop, IfOk, IfSome, IsNone, IsOk, IsSomeAnd};
ghost use Rattle.vfs_wire.specs.Fields.{numbers_at, value_of};
ghost use Rattle.vfs_wire.specs.Records.{out_header};
ghost use Rattle.example_tree.specs.Requests.{lookup_request, read_request};

mod uses;

use std::alloc::{AllocError, Global};
use vfs_flags::Opcode;
use vfs_wire::parts::part_at;
use vfs_wire::{ByteValued, InHeader, OutHeader};
use vfs_wire_more::ReadIn;

/// A LOOKUP of a name, which has no nul in it, in the directory `parent`.
pub fn lookup(alloc: Global, unique: u64, parent: u64, name: &[u8]) -> Result<Vec<u8>, AllocError>
    requires { 41 + length name.now < 2 ^ 32 }
    ensures { IfOk result (λ v. v.items ≡ lookup_request unique parent name.now) }
{
    let mut bytes = vec![in alloc; 0u8; 40]?;
    let len = 41 + name.len() as u32;
    InHeader::new(len, Opcode::Lookup, unique, parent).put(&mut bytes);
    bytes.extend_from_slice(name)?;
    bytes.push(0)?;
    Ok(bytes)
}

/// A READ of at most `size` bytes of a file, from place `offset` on.
pub fn read(unique: u64, node: u64, offset: u64, size: u32) -> [u8; 80]
    ensures { result ≡ read_request unique node offset size }
{
    let mut bytes = [0; 80];
    let (header, record) = bytes.split_at_mut(40);
    InHeader::new(80, Opcode::Read, unique, node).put(header);
    let asked = ReadIn {
        offset,
        size,
        ..ReadIn::default()
    };
    asked.put(record);
    bytes
}

/// What a reply says that is a record: that record, or the negated error number of a refusal.
/// `None` where the reply is cut short.
pub fn said<T: ByteValued + Drop>(reply: &[u8]) -> Option<Result<T, i32>>
    ensures no_header { length reply.now < 16 → IsNone result }
    ensures refused { 16 ≤ length reply.now → (value_of out_header reply.now).error ≢ pos 0
        → result ≡ Some (Err (value_of out_header reply.now).error) }
    ensures no_record { length reply.now < 16 + T.SIZE
        → (value_of out_header reply.now).error ≡ pos 0 → IsNone result }
    ensures record { 16 + T.SIZE ≤ length reply.now
        → (value_of out_header reply.now).error ≡ pos 0
        → result ≡ Some (Ok (T.table.made (numbers_at 16 T.table.widths reply.now))) }
{
    if reply.len() < OutHeader::SIZE {
        return None;
    }
    let header: OutHeader = part_at(reply, 0);
    if header.error != 0 {
        return Some(Err(header.error));
    }
    if reply.len() - OutHeader::SIZE < T::SIZE {
        return None;
    }
    Some(Ok(part_at(reply, OutHeader::SIZE)))
}

/// The bytes that a READ is answered, or the negated error number of a refusal. `None` where the
/// reply is cut short.
pub fn data(reply: &[u8]) -> Option<Result<&[u8], i32>>
    ensures no_header { length reply.now < 16 → IsNone result }
    ensures refused { 16 ≤ length reply.now → (value_of out_header reply.now).error ≢ pos 0
        → result ≡ Some (Err (value_of out_header reply.now).error) }
    ensures bytes { 16 ≤ length reply.now → (value_of out_header reply.now).error ≡ pos 0
        → IfSome result (λ said. IfOk said (λ bytes. bytes.now ≡ drop 16 reply.now)) }
    ensures answered { 16 ≤ length reply.now → (value_of out_header reply.now).error ≡ pos 0
        → IsSomeAnd result IsOk }
{
    if reply.len() < OutHeader::SIZE {
        return None;
    }
    let header: OutHeader = part_at(reply, 0);
    if header.error != 0 {
        return Some(Err(header.error));
    }
    Some(Ok(&reply[OutHeader::SIZE..]))
}
