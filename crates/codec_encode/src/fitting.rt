//! The answers of rows.

ghost use Rattle.std.specs.Prelude.{◌≡◌, ◌≤◌, length, IfSome};
ghost use Rattle.vfs_grammar.specs.Limits.{AreLimits};
ghost use Rattle.codec_encode.specs.Answering.{Answers};
ghost use Rattle.codec_encode.specs.Kinds.{kind_told};
ghost use Rattle.codec_encode.specs.Told.{AnswersEachCall, AnswersEachListing};
ghost use Rattle.codec_encode.specs.Fitting.{answer_offered as as_offered, fits as fits_call, fits_ioctl as fits_ioctl_of, is_unfit as unfit_is};

use crate::answered::Answered;
use crate::call::answer;
use codec_calls::{AnswerData, CallData, ItemData, kind, number};
use vfs_grammar::Limits;
use vfs_segments::Writer;
use vfs_wire::ByteValued;
use vfs_wire::parts::part_at;
use vfs_wire_more::{IoctlIovec, IoctlOut, LkOut};

/// How many bytes the record of the reply to STATX has (`struct fuse_statx_out`).
pub const STATX_OUT_SIZE: usize = 288;

/// Flag of `IoctlOut`: the IOCTL is to be asked again, with other input and output.
pub const IOCTL_RETRY: u32 = 1 << 2;

/// How many places of input and output together such a reply may have.
pub const IOCTL_MAX_IOV: u64 = 256;

/// The number of EIO.
pub const EIO: i32 = 5;

// Whether a text answers an IOCTL that may have that much output.
fn fits_ioctl(out_size: u32, text: &[u8]) -> bool
    ensures { result ≡ fits_ioctl_of out_size text.now }
{
    if text.len() < IoctlOut::SIZE {
        return false;
    }
    let out: IoctlOut = part_at(text, 0);
    let len = text.len() as u64;
    if out.flags & IOCTL_RETRY == 0 {
        return len <= IoctlOut::SIZE as u64 + u64::from(out_size);
    }
    let iovs = u64::from(out.in_iovs) + u64::from(out.out_iovs);
    iovs <= IOCTL_MAX_IOV && len == IoctlOut::SIZE as u64 + iovs * IoctlIovec::SIZE as u64
}

// Whether a text answers a call.
fn fits(call: &CallData, text: &[u8]) -> bool
    ensures { result ≡ fits_call call.now text.now }
{
    match call.call {
        number::GETLK => text.len() == LkOut::SIZE,
        number::STATX => text.len() == STATX_OUT_SIZE,
        number::IOCTL => fits_ioctl(call.size, text),
        _ => true,
    }
}

/// Whether a call whose answer is a text is answered one that it can't have: of GETLK another than 24 bytes, of
/// STATX another than 288, of IOCTL one without its record, with more output than was asked for, or, if it is
/// to be asked again, without just the places of its input and its output.
pub fn is_unfit(call: &CallData, answer: &AnswerData, text: &[u8]) -> bool
    ensures { result ≡ unfit_is call.now answer.now text.now }
{
    call.answer == kind::BYTES && answer.error == 0 && !fits(call, text)
}

/// Answers a call of a row or of virtiofsd's table, as [`answer`] does. A text that is unfit is EIO.
pub fn answer_offered(
    limits: Limits,
    call: &CallData,
    a: &AnswerData,
    text: &[u8],
    items: &[ItemData<'_>],
    w: &mut Writer,
) -> Option<Answered>
    requires { AreLimits limits }
    ensures by_kind { Answers limits (kind_told call.now.answer call.now.size) call.now
        (as_offered call.now a.now text.now) text.now items.now w.old result w.new }
    ensures calls { AnswersEachCall limits call.now (as_offered call.now a.now text.now) text.now w.old
        result w.new }
    ensures listings { AnswersEachListing limits call.now (as_offered call.now a.now text.now) items.now
        w.old result w.new }
    ensures within { IfSome result (λ came. came.taken ≤ length items.now) }
{
    if is_unfit(call, a, text) {
        return answer(
            limits,
            call,
            &AnswerData { error: EIO, ..*a },
            text,
            items,
            w,
        );
    }
    answer(limits, call, a, text, items, w)
}
