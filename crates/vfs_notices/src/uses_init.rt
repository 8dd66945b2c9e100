//! A server that agrees on more than virtiofsd does.

ghost use Rattle.std.specs.Prelude.{◌≡◌, ◌^◌, true, false};
ghost use Rattle.vfs_notices.specs.Samples.{agreed_on_init_ext, agreed_on_passthrough, agreed_on_timeout, init_7_45, no_such_name, opened_3, opened_3_by_258, version_alone};

use crate::backing::add_backing;
use crate::init::{InitMore, add_to_init, further, further_offered};

/// An INIT that offers bits 32 to 44 offers all further options.
#[tactic(auto, unfolding(vfs_wire::specs::Fields::number))]
fn offers_all(request: &[u8]) -> u64
    requires { request.now ≡ init_7_45 }
    ensures { result ≡ 0x6e8_0000_0000 }
{
    further_offered(request)
}

/// PASSTHROUGH is agreed on, and REQUEST_TIMEOUT isn't, which is wanted but not offered; numbers are less.
#[tactic(auto, unfolding(vfs_wire::specs::Fields::little, vfs_wire::specs::Fields::number))]
fn agree_on_passthrough(reply: &mut [u8]) -> u64
    requires { reply.old ≡ agreed_on_init_ext }
    ensures agreed { result ≡ 2 ^ 37 }
    ensures bytes { reply.new ≡ agreed_on_passthrough }
{
    let more = InitMore {
        want: further::PASSTHROUGH | further::REQUEST_TIMEOUT,
        max_readahead: 65536,
        max_write: 1,
        max_stack_depth: 2,
        request_timeout: 60,
        max_background: 12,
        ..InitMore::default()
    };
    add_to_init(reply, further::PASSTHROUGH, &more)
}

/// REQUEST_TIMEOUT is agreed on, with more seconds than there can be, and no number is more than it was.
#[tactic(auto, unfolding(vfs_wire::specs::Fields::little, vfs_wire::specs::Fields::number))]
fn agree_on_timeout(reply: &mut [u8]) -> u64
    requires { reply.old ≡ agreed_on_init_ext }
    ensures agreed { result ≡ 2 ^ 42 }
    ensures bytes { reply.new ≡ agreed_on_timeout }
{
    let more = InitMore {
        want: further::REQUEST_TIMEOUT,
        max_readahead: u32::MAX,
        max_write: u32::MAX,
        request_timeout: 100_000,
        ..InitMore::default()
    };
    add_to_init(reply, further::ALL, &more)
}

/// A version alone agrees on nothing.
#[tactic(auto, unfolding(vfs_wire::specs::Fields::number))]
fn agree_on_no_version(reply: &mut [u8]) -> u64
    requires { reply.old ≡ version_alone }
    ensures nothing { result ≡ 0 }
    ensures same { reply.new ≡ version_alone }
{
    let more = InitMore {
        want: further::ALL,
        max_background: 12,
        ..InitMore::default()
    };
    add_to_init(reply, further::ALL, &more)
}

/// With nothing to add, any reply stays as it is, whatever is offered.
fn add_nothing(reply: &mut [u8]) -> u64
    ensures nothing { result ≡ 0 }
    ensures same { reply.new ≡ reply.old }
{
    add_to_init(reply, further::ALL, &InitMore::default())
}

/// An open file is read by the client itself.
#[tactic(auto, unfolding(vfs_wire::specs::Fields::little, vfs_wire::specs::Fields::number))]
fn pass_through(reply: &mut [u8]) -> bool
    requires { reply.old ≡ opened_3 }
    ensures named { result ≡ true }
    ensures bytes { reply.new ≡ opened_3_by_258 }
{
    add_backing(reply, 258)
}

/// A file that could not be opened has no backing.
#[tactic(auto, unfolding(vfs_wire::specs::Fields::number))]
fn pass_no_fault(reply: &mut [u8]) -> bool
    requires { reply.old ≡ no_such_name }
    ensures none { result ≡ false }
    ensures same { reply.new ≡ no_such_name }
{
    add_backing(reply, 258)
}
