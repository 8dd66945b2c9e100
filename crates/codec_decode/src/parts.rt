//! Where the names and values of a call are in its request.

ghost use Rattle.std.specs.Prelude.{◌≡◌, ◌+◌, ◌≤◌};
ghost use Rattle.vfs_flags.specs.Flags.{fs_options_bits};
ghost use Rattle.vfs_segments.specs.declared.record.TheConstants.{LARGEST_RECORD};
ghost use Rattle.vfs_wire.specs.Records.{in_header};
ghost use Rattle.vfs_grammar.specs.Records.{size_of};
ghost use Rattle.codec_decode.specs.Parts.{parts_of, place_after, with_parts};

use bitflags::Flags;
use codec_calls::{CallData, Range};
use vfs_flags::{FsOptions, Opcode};
use vfs_messages::setxattr_size;
use vfs_wire::{BatchForgetIn, ByteValued, ForgetOne, InHeader, OutHeader};
use vfs_wire_more::{CreateIn, GetxattrIn, LinkIn, MkdirIn, MknodIn, Rename2In, RenameIn, WriteIn};

/// The parts of a request that a call takes as they are, each from a place of the request on.
#[derive(Clone, Copy)]
pub enum Parts {
    /// None.
    Nowhere,
    /// A name.
    Name(u64),
    /// A name, and another after it.
    Names(u64),
    /// A name, and a value after it.
    NameAndValue(u64),
    /// Pairs of a node and a count.
    Pairs(u64),
    /// All bytes up to the end.
    Rest(u64),
    /// None, but data are put into the room for the reply.
    Room,
}

// Where the parts after a record of this size begin.
fn following(size: usize) -> u64
    requires { size ≤ LARGEST_RECORD }
    ensures { result ≡ size_of in_header + size }
{
    (InHeader::SIZE + size) as u64
}

impl Parts {
    /// The parts of a request of this opcode, where these options are agreed on.
    #[inline(always)]
    pub fn of(opcode: Opcode, options: FsOptions) -> Parts
        ensures { result ≡ parts_of (fs_options_bits options) opcode }
    {
        match opcode {
            Opcode::Lookup | Opcode::Unlink | Opcode::Rmdir | Opcode::Removexattr => {
                Parts::Name(following(0))
            }
            Opcode::Mknod => Parts::Name(following(MknodIn::SIZE)),
            Opcode::Mkdir => Parts::Name(following(MkdirIn::SIZE)),
            Opcode::Link => Parts::Name(following(LinkIn::SIZE)),
            Opcode::Getxattr => Parts::Name(following(GetxattrIn::SIZE)),
            Opcode::Create => Parts::Name(following(CreateIn::SIZE)),
            Opcode::Symlink => Parts::Names(following(0)),
            Opcode::Rename => Parts::Names(following(RenameIn::SIZE)),
            Opcode::Rename2 => Parts::Names(following(Rename2In::SIZE)),
            Opcode::Setxattr => Parts::NameAndValue(following(setxattr_size(options))),
            Opcode::BatchForget => Parts::Pairs(following(BatchForgetIn::SIZE)),
            Opcode::Write => Parts::Rest(following(WriteIn::SIZE)),
            Opcode::Read => Parts::Room,
            _ => Parts::Nowhere,
        }
    }

    /// Tells the places of these parts of a call, whose names and values are told by their lengths, in
    /// a request of `len` bytes with a room of `room` bytes.
    #[inline(always)]
    pub fn place(self, len: u64, room: u64, call: &mut CallData)
        ensures { call.new ≡ with_parts len room self call.old }
    {
        match self {
            Parts::Nowhere => {}
            Parts::Name(at) => call.name.at = at,
            Parts::Names(at) => {
                call.name.at = at;
                call.other_name.at = place_after(call.name);
            }
            Parts::NameAndValue(at) => {
                call.name.at = at;
                call.data.at = place_after(call.name);
            }
            Parts::Pairs(at) => {
                let len = call.length.saturating_mul(ForgetOne::SIZE as u64);
                call.data = Range { at, len };
            }
            Parts::Rest(at) => {
                let len = len.saturating_sub(at);
                call.data = Range { at, len };
            }
            Parts::Room => call.length = room.saturating_sub(OutHeader::SIZE as u64),
        }
    }
}

/// The place after a name and its 0.
pub fn place_after(name: Range) -> u64
    ensures { result ≡ place_after name.at name }
{
    name.at.saturating_add(name.len).saturating_add(1)
}
