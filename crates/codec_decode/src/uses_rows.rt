//! Small callers, of requests of rows.

ghost use Rattle.std.specs.Prelude.{◌≡◌};
ghost use Rattle.vfs_flags.specs.Flags.{fs_options_bits};
ghost use Rattle.vfs_segments.specs.Segments.{segments_of, flat_bytes};
ghost use Rattle.codec_decode.specs.RowUses.{bmap, bmap_asked, copy_64, copy_64_asked, notify_reply, notify_reply_asked, poll, poll_asked, statx, statx_asked, tmpfile};
ghost use Rattle.codec_decode.specs.declared.row.Further.TheVariants.{Row, Unnamed as IsUnnamed};

use crate::offers;
use crate::row::{Further, what};
use codec_calls::CallData;
use vfs_flags::{DEFAULT_MAX_BUFFER, FsOptions};
use vfs_grammar::Limits;

const LIMITS: Limits = Limits {
    page_size: 4096,
    max_buffer: DEFAULT_MAX_BUFFER,
};

/// A BMAP of real bytes tells its block, and how long blocks are.
fn ask_bmap(options: FsOptions, request: &[&[u8]], room: usize, call: &mut CallData) -> Further
    requires { flat_bytes (segments_of request.now) ≡ bmap }
    ensures { (result ≡ Row) × (call.new ≡ bmap_asked (fs_options_bits options) room) }
{
    what(offers::BMAP, LIMITS, options, request, room, call)
}

/// A POLL tells its events, and the number of its notice.
fn ask_poll(options: FsOptions, request: &[&[u8]], room: usize, call: &mut CallData) -> Further
    requires { flat_bytes (segments_of request.now) ≡ poll }
    ensures { (result ≡ Row) × (call.new ≡ poll_asked (fs_options_bits options) room) }
{
    what(offers::POLL, LIMITS, options, request, room, call)
}

/// The reply to a notice tells where its bytes are.
fn ask_notify_reply(
    options: FsOptions,
    request: &[&[u8]],
    room: usize,
    call: &mut CallData,
) -> Further
    requires { flat_bytes (segments_of request.now) ≡ notify_reply }
    ensures { (result ≡ Row) × (call.new ≡ notify_reply_asked (fs_options_bits options) room) }
{
    what(offers::NOTIFY_REPLY, LIMITS, options, request, room, call)
}

/// A STATX tells its open file, its flags and its mask.
fn ask_statx(options: FsOptions, request: &[&[u8]], room: usize, call: &mut CallData) -> Further
    requires { flat_bytes (segments_of request.now) ≡ statx }
    ensures { (result ≡ Row) × (call.new ≡ statx_asked (fs_options_bits options) room) }
{
    what(offers::STATX, LIMITS, options, request, room, call)
}

/// A COPY_FILE_RANGE_64 tells from where and to where, how much, and its flags.
fn ask_copy_64(options: FsOptions, request: &[&[u8]], room: usize, call: &mut CallData) -> Further
    requires { flat_bytes (segments_of request.now) ≡ copy_64 }
    ensures { (result ≡ Row) × (call.new ≡ copy_64_asked (fs_options_bits options) room) }
{
    what(offers::COPY_64, LIMITS, options, request, room, call)
}

/// A TMPFILE is asked as a CREATE, where it is offered.
fn ask_tmpfile(options: FsOptions, request: &[&[u8]], room: usize, call: &mut CallData) -> Further
    requires { flat_bytes (segments_of request.now) ≡ tmpfile }
    ensures { result ≡ IsUnnamed }
{
    what(offers::TMPFILE, LIMITS, options, request, room, call)
}
