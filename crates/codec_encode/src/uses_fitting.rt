//! Small callers, of texts that fit or don't.

ghost use Rattle.std.specs.Prelude.{◌≡◌, ◌≤◌, length, pos, true, IfSome, MatchOption, Ok};
ghost use Rattle.codec_encode.specs.Uses.{SaysAgain, getlk_asked, ioctl_asked};

use crate::answered::Answered;
use crate::fitting::{answer_offered, is_unfit};
use codec_calls::{AnswerData, CallData, ItemData};
use vfs_flags::DEFAULT_MAX_BUFFER;
use vfs_grammar::Limits;
use vfs_segments::Writer;

const LIMITS: Limits = Limits {
    page_size: 4096,
    max_buffer: DEFAULT_MAX_BUFFER,
};

/// A lock of 25 bytes doesn't answer that GETLK.
fn is_long_lock_unfit(call: &CallData, a: &AnswerData, lock: &[u8]) -> bool
    requires asked { call.now ≡ getlk_asked 0 4096 }
    requires fine { a.now.error ≡ pos 0 }
    requires lock { length lock.now ≡ 25 }
    ensures { result ≡ true }
{
    is_unfit(call, a, lock)
}

/// A lock of 24 bytes answers that GETLK: its reply has 40.
fn answer_getlk(call: &CallData, a: &AnswerData, lock: &[u8], w: &mut Writer) -> Option<Answered>
    requires asked { call.now ≡ getlk_asked 0 4096 }
    requires fine { a.now.error ≡ pos 0 }
    requires lock { length lock.now ≡ 24 }
    requires room { length w.old.left ≡ 4096 }
    ensures { MatchOption result ⊥ (λ came. came.outcome ≡ Ok 40) }
{
    answer_offered(LIMITS, call, a, lock, &[], w)
}

/// An IOCTL is not asked again with 128 places of input and 129 of output: that is one more than Linux takes.
fn are_257_places_unfit(call: &CallData, a: &AnswerData, text: &[u8]) -> bool
    requires asked { call.now ≡ ioctl_asked 0 65536 }
    requires fine { a.now.error ≡ pos 0 }
    requires places { SaysAgain text.now 128 129 }
    ensures { result ≡ true }
{
    is_unfit(call, a, text)
}

/// Of two items at most two are in a reply.
fn answer_two_items(
    call: &CallData,
    a: &AnswerData,
    items: &[ItemData<'_>],
    w: &mut Writer,
) -> Option<Answered>
    requires { length items.now ≡ 2 }
    ensures { IfSome result (λ came. came.taken ≤ 2) }
{
    answer_offered(LIMITS, call, a, &[], items, w)
}
