//! A program that says a notice, and one that agrees on more.

ghost use Rattle.std.specs.Prelude.{◌≡◌, ◌^◌, length, pos};
ghost use Rattle.vfs_notices.specs.Samples.{a_is_old, agreed_on_init_ext, agreed_on_passthrough, init_7_45, opened_3, opened_3_by_258, two_nodes_follow};

use crate::further_init::{
    nizwarf_add_backing_at, nizwarf_add_to_init_at, nizwarf_init_capable_at,
};
use crate::notices::{nizwarf_notice_inval_entry_at, nizwarf_notice_prune_at};
use vfs_notices::{InitMore, further};

/// The name `a` in node 1 is to be looked up again.
#[tactic(auto, unfolding(vfs_wire::specs::Fields::little))]
fn name_is_old(out: &mut [u8]) -> usize
    requires { length out.old ≡ 34 }
    ensures len { result ≡ 34 }
    ensures bytes { out.new ≡ a_is_old }
{
    nizwarf_notice_inval_entry_at(1, 1, b"a", out)
}

/// Two nodes may be dropped, whose numbers follow.
#[tactic(auto, unfolding(vfs_wire::specs::Fields::little))]
fn nodes_follow(out: &mut [u8]) -> usize
    requires { length out.old ≡ 32 }
    ensures len { result ≡ 32 }
    ensures bytes { out.new ≡ two_nodes_follow }
{
    nizwarf_notice_prune_at(2, out)
}

/// An INIT offers all further options, and PASSTHROUGH is agreed on.
#[tactic(auto, unfolding(vfs_wire::specs::Fields::little, vfs_wire::specs::Fields::number))]
fn agree_on_passthrough(request: &[u8], reply: &mut [u8]) -> u64
    requires request { request.now ≡ init_7_45 }
    requires reply { reply.old ≡ agreed_on_init_ext }
    ensures agreed { result ≡ 2 ^ 37 }
    ensures bytes { reply.new ≡ agreed_on_passthrough }
{
    let more = InitMore {
        want: further::PASSTHROUGH,
        max_readahead: 65536,
        max_write: 1,
        max_stack_depth: 2,
        max_background: 12,
        ..InitMore::default()
    };
    nizwarf_add_to_init_at(reply, nizwarf_init_capable_at(request), &more)
}

/// An open file is read by the client itself.
#[tactic(auto, unfolding(vfs_wire::specs::Fields::little, vfs_wire::specs::Fields::number))]
fn pass_through(reply: &mut [u8]) -> i32
    requires { reply.old ≡ opened_3 }
    ensures named { result ≡ pos 1 }
    ensures bytes { reply.new ≡ opened_3_by_258 }
{
    nizwarf_add_backing_at(reply, 258)
}
