//! The file system after the server. A library over another one has another file in the place of
//! this, and other values in `specs/Files.antt`.

ghost use Rattle.std.specs.Prelude.{◌≡◌, ◌≤◌, true, replicate, take, IfErr, IfOk, IfSome};
ghost use Rattle.vfs_files.specs.Calls.{Failed, Text};
ghost use Rattle.codec_encode.specs.Fitting.{fits};
ghost use Rattle.nizwarf_tree.specs.Files.{new_state, at_time, row_answer};

use crate::settings::{Settings, WRITEBACK};
use codec_calls::{CallData, number};
use codec_decode::offers;
use fs_tree::{Capacity, Time, TreeFs};
use std::alloc::Global;
use vfs_flags::{Errno, GuestGid, GuestUid};

/// The file system.
pub type Files = TreeFs;

/// The rows that it offers beyond virtiofsd's table. A TMPFILE is handed to it as a CREATE; the others, each of
/// which is answered a text, to [`answer_row`].
pub const OFFERS: u32 = offers::IOCTL + offers::STATX + offers::TMPFILE;

/// The most bytes of such a text.
pub const MOST_TEXT: usize = fs_tree::MOST_TEXT;

/// A new one. `None` where there is no memory.
pub fn new_files(alloc: Global, settings: &Settings) -> Option<Files>
    ensures { IfSome result (λ files. files ≡ new_state settings.now) }
{
    let limits = Capacity {
        nodes: settings.nodes,
        bytes: settings.bytes,
        file: settings.file,
    };
    let now = Time {
        seconds: settings.seconds,
        nanoseconds: settings.nanoseconds,
    };
    let uid = GuestUid::from(settings.uid);
    let gid = GuestGid::from(settings.gid);
    let writeback = settings.flags & WRITEBACK == WRITEBACK;
    match TreeFs::new(alloc, uid, gid, settings.mode, limits, writeback, now) {
        Ok(files) => Some(files),
        Err(_) => None,
    }
}

/// Tells it the time.
pub fn tell_time(files: &mut Files, seconds: u64, nanoseconds: u32)
    ensures { files.new ≡ at_time files.old seconds nanoseconds }
{
    files.set_time(Time {
        seconds,
        nanoseconds,
    });
}

/// Answers a call of a row: how many bytes of `text`, all 0 before, are the text, which fits; or the error.
pub fn answer_row(files: &Files, call: &CallData, text: &mut [u8]) -> Result<usize, Errno>
    requires { text.old ≡ replicate MOST_TEXT 0 }
    ensures text { IfOk result (λ len. row_answer files.entry.now call.now ≡ Text (take len text.new)) }
    ensures fits { IfOk result (λ len. fits call.now (take len text.new) ≡ true) }
    ensures within { IfOk result (λ len. len ≤ MOST_TEXT) }
    ensures err { IfErr result (λ errno. row_answer files.entry.now call.now ≡ Failed (Some errno)) }
{
    match call.call {
        number::IOCTL => files.ioctl(call.node, call.more, call.size),
        number::STATX => {
            files.statx(call.node, text)?;
            Ok(MOST_TEXT)
        }
        _ => Err(Errno::ENOSYS),
    }
}
