//! A server that says each notice once: these are its bytes.

ghost use Rattle.std.specs.Prelude.{◌≡◌, ◌≤◌, ◌<◌, ◌++◌, length, drop, [], ◌∷◌};
ghost use Rattle.vfs_notices.specs.Samples.{a_is_gone, a_is_old, attributes_of_5_are_old, eight, front, three_of_5_are_wanted, three_of_5_follow, two_nodes_follow};

use crate::notices::{
    put_delete, put_inc_epoch, put_inval_entry, put_inval_inode, put_poll, put_prune, put_resend,
    put_retrieve, put_store,
};
use bitflags::Flags;
use vfs_flags::NotifyInvalEntryOutFlags;

/// The attributes of node 5 are old, and none of its bytes.
#[tactic(auto, unfolding(vfs_wire::specs::Fields::little))]
fn attributes_are_old(out: &mut [u8]) -> usize
    requires { length out.old ≡ 40 }
    ensures len { result ≡ 40 }
    ensures bytes { out.new ≡ attributes_of_5_are_old }
{
    put_inval_inode(5, -1, 0, out)
}

/// The name `a` in node 1 is to be looked up again.
#[tactic(auto, unfolding(vfs_wire::specs::Fields::little))]
fn name_is_old(out: &mut [u8]) -> usize
    requires { length out.old ≡ 34 }
    ensures len { result ≡ 34 }
    ensures bytes { out.new ≡ a_is_old }
{
    put_inval_entry(1, NotifyInvalEntryOutFlags::EXPIRE_ONLY.bits(), b"a", out)
}

/// 3 bytes of node 5 follow, from 4096 on.
#[tactic(auto, unfolding(vfs_wire::specs::Fields::little))]
fn bytes_follow(out: &mut [u8]) -> usize
    requires { length out.old ≡ 40 }
    ensures len { result ≡ 40 }
    ensures bytes { out.new ≡ three_of_5_follow }
{
    put_store(5, 4096, 3, out)
}

/// 3 bytes of node 5 are wanted, from 4096 on.
#[tactic(auto, unfolding(vfs_wire::specs::Fields::little))]
fn bytes_are_wanted(out: &mut [u8]) -> usize
    requires { length out.old ≡ 48 }
    ensures len { result ≡ 48 }
    ensures bytes { out.new ≡ three_of_5_are_wanted }
{
    put_retrieve(7, 5, 4096, 3, out)
}

/// The name `a` in node 1, which was node 5, is gone; what follows in the piece stays.
#[tactic(auto, unfolding(vfs_wire::specs::Fields::little))]
fn name_is_gone(out: &mut [u8]) -> usize
    requires { 42 ≤ length out.old }
    ensures len { result ≡ 42 }
    ensures bytes { out.new ≡ a_is_gone ++ drop 42 out.old }
{
    put_delete(1, 5, b"a", out)
}

/// The numbers of two nodes follow, by what is in the piece already.
#[tactic(auto, unfolding(vfs_wire::specs::Fields::little))]
fn nodes_follow(out: &mut [u8]) -> usize
    requires { 32 ≤ length out.old }
    ensures len { result ≡ 32 }
    ensures bytes { out.new ≡ two_nodes_follow ++ drop 32 out.old }
{
    put_prune(2, out)
}

/// Whoever polled with 7 is to poll again; what follows in the piece stays.
#[tactic(auto, unfolding(vfs_wire::specs::Fields::little))]
fn poll_again(out: &mut [u8]) -> usize
    requires { 24 ≤ length out.old }
    ensures len { result ≡ 24 }
    ensures bytes { out.new ≡ (front 24 1 ++ eight 7) ++ drop 24 out.old }
{
    put_poll(7, out)
}

/// All is to be sent again, and every name looked up again.
#[tactic(auto, unfolding(vfs_wire::specs::Fields::little))]
fn begin_anew(first: &mut [u8], second: &mut [u8]) -> [usize; 2]
    requires first { length first.old ≡ 16 }
    requires second { length second.old ≡ 16 }
    ensures len { result ≡ 16 ∷ 16 ∷ [] }
    ensures resend { first.new ≡ front 16 7 }
    ensures inc_epoch { second.new ≡ front 16 8 }
{
    [put_resend(first), put_inc_epoch(second)]
}

/// A piece of 39 bytes has no room for what has 40.
fn no_room(out: &mut [u8]) -> usize
    requires { length out.old ≡ 39 }
    ensures nothing { result ≡ 0 }
    ensures same { out.new ≡ out.old }
{
    put_inval_inode(5, 0, 0, out)
}

/// No header can tell of 2^32 - 1 bytes that follow it, nor of the numbers of 2^29 nodes.
fn too_long(out: &mut [u8]) -> [usize; 2]
    ensures nothing { result ≡ 0 ∷ 0 ∷ [] }
    ensures same { out.new ≡ out.old }
{
    let stored = put_store(5, 0, u32::MAX, out);
    [stored, put_prune(1 << 29, out)]
}
