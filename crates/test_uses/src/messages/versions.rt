//! Small callers: what comes of an INIT by its version.

ghost use Rattle.std.specs.Prelude.{◌≡◌, ◌≤◌, length, None, Some, Ok};

use vfs_grammar::Result;
use vfs_messages::reply_unserved;
use vfs_segments::Writer;
use vfs_wire::{InHeader, InitInCompat};

/// Of version 7.26 it is answered a fault, EPROTO, in sixteen bytes.
fn reply_to_minor_26(header: &InHeader, w: &mut Writer) -> Option<Result<usize>>
    requires { 16 ≤ length w.old.left }
    ensures { result ≡ Some (Ok 16) }
{
    let init_in = InitInCompat {
        major: 7,
        minor: 26,
        max_readahead: 0,
        flags: 0,
    };
    reply_unserved(header, &init_in, w)
}

/// Of version 7.27 it is served, and nothing is put.
fn reply_to_minor_27(header: &InHeader, w: &mut Writer) -> Option<Result<usize>>
    ensures none { result ≡ None }
    ensures same { w.new ≡ w.old }
{
    let init_in = InitInCompat {
        major: 7,
        minor: 27,
        max_readahead: 0,
        flags: 0,
    };
    reply_unserved(header, &init_in, w)
}

/// Of version 8.0 it is told that the server speaks 7.38, in a record after the header.
fn reply_to_major_8(header: &InHeader, w: &mut Writer) -> Option<Result<usize>>
    requires { 80 ≤ length w.old.left }
    ensures { result ≡ Some (Ok 80) }
{
    let init_in = InitInCompat {
        major: 8,
        minor: 0,
        max_readahead: 0,
        flags: 0,
    };
    reply_unserved(header, &init_in, w)
}
