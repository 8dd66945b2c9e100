//! Noting the calls that are asked for most, without the handler of a file system: no reply is put that
//! nobody sees.

ghost use Rattle.std.specs.Prelude.{◌≡◌, [], ℕ};
ghost use Rattle.vfs_flags.specs.Flags.{has_flag};
ghost use Rattle.vfs_flags.specs.declared.constants.TheConstants as flag;
ghost use Rattle.vfs_segments.specs.Written.{Written};
ghost use Rattle.vfs_files.specs.Calls as any;
ghost use Rattle.vfs_files.specs.Values.{context_of, name_text};
ghost use Rattle.vfs_messages.specs.Parts.{TailIsCut};
ghost use Rattle.codec_calls.specs.Shapes.{nothing, shape_of};
ghost use Rattle.vfs_grammar.specs.Ask.{if_set};
ghost use Rattle.vfs_grammar.specs.Words.{ask_opcode};
ghost use Rattle.vfs_grammar.specs.declared.limits.Limits.{Limits as AnyLimits};
ghost use Rattle.codec_decode.specs.Noting.{IsNoted};

use codec_calls::{Asking, CallData};
use vfs_files::{CStr, Context, FileSystem};
use vfs_flags::{
    GETATTR_FH, Opcode, READ_LOCKOWNER, WRITE_CACHE, WRITE_KILL_PRIV, WRITE_LOCKOWNER,
};
use vfs_grammar::{Error, Result};
use vfs_messages::{Request, handle_if, is_set, number_if};
use vfs_wire::{ByteValued, GetattrIn, InHeader, OutHeader};
use vfs_wire_more::{ReadIn, WriteIn};

/// Notes the LOOKUP of this name.
#[inline(always)]
pub fn put_lookup(header: &InHeader, name: CStr<'_>, call: &mut CallData)
    requires { call.old ≡ nothing }
    ensures { call.new ≡ shape_of
        (any.Lookup (context_of header.now) header.now.nodeid (name_text name.entry)) }
{
    let _held_back = Asking { call }.lookup(Context::from(*header), header.nodeid, name);
}

/// Notes the GETATTR with this record.
#[inline(always)]
pub fn put_getattr(header: &InHeader, r: GetattrIn, call: &mut CallData)
    requires { call.old ≡ nothing }
    ensures { call.new ≡ shape_of (any.Getattr (context_of header.now) header.now.nodeid
        (if_set r.flags flag.GETATTR_FH r.fh)) }
{
    let handle = handle_if::<u64>(r.flags, GETATTR_FH, r.fh);
    let _held_back = Asking { call }.getattr(Context::from(*header), header.nodeid, handle);
}

/// Notes the READ with this record.
#[inline(always)]
pub fn put_read(header: &InHeader, r: ReadIn, call: &mut CallData)
    requires { call.old ≡ nothing }
    ensures { call.new ≡ shape_of (any.Read (context_of header.now) header.now.nodeid r.fh 0 r.size
        r.offset (if_set r.read_flags flag.READ_LOCKOWNER r.lock_owner) r.flags) }
{
    let owner = number_if(r.read_flags, READ_LOCKOWNER, r.lock_owner);
    call.note_read(
        Context::from(*header),
        header.nodeid,
        r.fh,
        r.size,
        r.offset,
        owner,
        r.flags,
    );
}

/// Notes the WRITE with this record.
#[inline(always)]
pub fn put_write(header: &InHeader, r: WriteIn, call: &mut CallData)
    requires { call.old ≡ nothing }
    ensures { call.new ≡ shape_of (any.Write (context_of header.now) header.now.nodeid r.fh [] r.size
        r.offset (if_set r.write_flags flag.WRITE_LOCKOWNER r.lock_owner)
        (has_flag r.write_flags flag.WRITE_CACHE) (has_flag r.write_flags flag.WRITE_KILL_PRIV)
        r.flags) }
{
    let owner = number_if(r.write_flags, WRITE_LOCKOWNER, r.lock_owner);
    call.note_write(
        Context::from(*header),
        header.nodeid,
        r.fh,
        r.size,
        r.offset,
        owner,
        is_set(r.write_flags, WRITE_CACHE),
        is_set(r.write_flags, WRITE_KILL_PRIV),
        r.flags,
    );
}

/// Notes the LOOKUP that a request asks for, or says why it asks for none.
pub fn note_lookup(mut q: Request<'_, '_>, call: &mut CallData) -> Result<usize>
    requires { call.old ≡ nothing }
    ensures { (limits : AnyLimits) (options room : ℕ) (w : Written) →
        IsNoted (TailIsCut q.entry.header.now 0 q.entry.r.now.pieces)
        (ask_opcode limits options room Opcode.Lookup q.entry.header.now q.entry.r.now.left)
        w result w call.new }
{
    let name = q.name(0)?;
    put_lookup(q.header, name.as_c_str(), call);
    Ok(0)
}

/// Notes the GETATTR that a request asks for, or says why it asks for none.
pub fn note_getattr(mut q: Request<'_, '_>, call: &mut CallData) -> Result<usize>
    requires { call.old ≡ nothing }
    ensures { (limits : AnyLimits) (options room : ℕ) (w : Written) →
        IsNoted ⊥
        (ask_opcode limits options room Opcode.Getattr q.entry.header.now q.entry.r.now.left)
        w result w call.new }
{
    let getattr_in = q.record::<GetattrIn>()?;
    put_getattr(q.header, getattr_in, call);
    Ok(0)
}

/// Notes the READ that a request asks for, with that much room for its reply, or says why it asks for
/// none.
pub fn note_read(room: usize, mut q: Request<'_, '_>, call: &mut CallData) -> Result<usize>
    requires { call.old ≡ nothing }
    ensures { (limits : AnyLimits) (options : ℕ) (w : Written) →
        IsNoted ⊥
        (ask_opcode limits options room Opcode.Read q.entry.header.now q.entry.r.now.left)
        w result w call.new }
{
    let read_in = q.record::<ReadIn>()?;
    if room < OutHeader::SIZE {
        return Err(Error::EncodeMessage);
    }
    put_read(q.header, read_in, call);
    Ok(0)
}

/// Notes the WRITE that a request asks for, or says why it asks for none.
pub fn note_write(mut q: Request<'_, '_>, call: &mut CallData) -> Result<usize>
    requires { call.old ≡ nothing }
    ensures { (limits : AnyLimits) (options room : ℕ) (w : Written) →
        IsNoted ⊥
        (ask_opcode limits options room Opcode.Write q.entry.header.now q.entry.r.now.left)
        w result w call.new }
{
    let write_in = q.record::<WriteIn>()?;
    put_write(q.header, write_in, call);
    Ok(0)
}
