//! A server that is taken apart, and what its parts tell of a request.

ghost use Rattle.std.specs.Prelude.{◌≡◌, ◌≢◌, ℕ, Option, Some, None, Result as Outcome};
ghost use Rattle.vfs_flags.specs.Numbers.{opcode_of};
ghost use Rattle.vfs_flags.specs.declared.opcode.Opcode.{Opcode};
ghost use Rattle.vfs_segments.specs.Unread.{Unread};
ghost use Rattle.vfs_segments.specs.Written.{Written};
ghost use Rattle.vfs_files.specs.Calls.{Answer, Call, Done, Forget, Plain};
ghost use Rattle.vfs_files.specs.declared.entry.Context.{Context};
ghost use Rattle.vfs_grammar.specs.Memory.{header_of};
ghost use Rattle.vfs_grammar.specs.declared.error.Error.{Error};
ghost use Rattle.vfs_grammar.specs.declared.limits.Limits.{Limits};
ghost use Rattle.vfs_messages.specs.declared.parts.Request.{Request};
ghost use Rattle.vfs_server.specs.Delivery.{CallsAndGivesBack};
ghost use Rattle.vfs_server.specs.Handling.{ReadsInto, Serves};
ghost use Rattle.vfs_server.specs.Memory.{MayWant};
ghost use Rattle.vfs_server.specs.State.{ServerState};

use vfs_files::FileSystem;
use vfs_server::server::Server;

/// The file system of a server that is no longer wanted is the one that it was made over.
fn file_system_again<F>(fs: F) -> F
    ensures { result ≡ fs }
{
    Server::new(fs, 4096).into_fs()
}

/// What ends a session has no reply.
fn length_of_no_reply<F: FileSystem>(server: &mut Server<F>) -> usize
    ensures { result ≡ 0 }
{
    server.destroy()
}

/// A READ that was passed on leaves the options and the limits as they were.
fn a_read_agrees_on_nothing<F: FileSystem>()
    ensures { (call : Call) (size : ℕ) (old new : ServerState F) (writer writer_after : Written)
        (answer : Outcome ℕ (Option ℕ)) →
        ReadsInto F.allows call size old writer answer writer_after new →
        (new.options ≡ old.options) × (new.limits ≡ old.limits) }
{}

/// A call after which a node is given back is a call and a FORGET.
fn a_call_and_a_forget<F: FileSystem>()
    ensures { (call : Call) (answer : Answer) (ctx : Context) (node : ℕ) (old new : F) →
        CallsAndGivesBack F.allows call answer ctx (Some node) old new →
        (middle : F) × F.allows old call (Plain answer) middle
        × F.allows middle (Forget ctx node 1) (Plain Done) new }
{}

/// Whatever a request asks, the limits stay.
fn limits_stay<F: FileSystem>()
    ensures { (opcode : Opcode) (request : Request) (old new : ServerState F)
        (writer writer_after : Written) (outcome : Outcome ℕ Error) →
        Serves F.allows F.DirIter.gives opcode request old writer outcome writer_after new →
        new.limits ≡ old.limits }
{}

/// A request for which memory may be wanted has an opcode.
fn memory_is_for_opcodes()
    ensures { (limits : Limits) (options room_len : ℕ) (u : Unread) →
        MayWant limits options room_len u → opcode_of (header_of u.left).opcode ≢ None }
{}
