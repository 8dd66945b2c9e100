//! A server of files in memory that is called message by message.

ghost use Rattle.std.specs.Prelude.{◌≡◌, ◌≤◌, ◌++◌, codes, drop, length, Ok, Some};
ghost use Rattle.vfs_segments.specs.Written.{whole};
ghost use Rattle.vfs_grammar.specs.Samples.{lookup_of_a};
ghost use Rattle.vfs_grammar.specs.Turn.{Turn};
ghost use Rattle.laws_history.specs.Calls.{IsSeen};
ghost use Rattle.test_uses.specs.Files.{one_file};
ghost use Rattle.test_uses.specs.History.{file_reply, forget_of_2, LooksUpAndForgets};

use fs_small::MemFs;
use laws_history::laws::{history_goes_on, history_keeps_books};
use std::alloc::Global;
use vfs_grammar::Result;
use vfs_segments::{Reader, Writer};
use vfs_server::server::Server;

/// Request 9, LOOKUP of `a` in node 1: a header and a name, of 42 bytes.
const LOOKUP: [u8; 42] = [
    42, 0, 0, 0, 1, 0, 0, 0, 9, 0, 0, 0, 0, 0, 0, 0, 1, 0, 0, 0, 0, 0, 0, 0, 0, 0, 0, 0, 0, 0, 0,
    0, 0, 0, 0, 0, 0, 0, 0, 0, 97, 0,
];

/// Request 9, FORGET of node 2 by 1: a header and a record, of 48 bytes.
const FORGET: [u8; 48] = [
    48, 0, 0, 0, 2, 0, 0, 0, 9, 0, 0, 0, 0, 0, 0, 0, 2, 0, 0, 0, 0, 0, 0, 0, 0, 0, 0, 0, 0, 0, 0,
    0, 0, 0, 0, 0, 0, 0, 0, 0, 1, 0, 0, 0, 0, 0, 0, 0,
];

/// Has a server of one file, `a`, handle a LOOKUP of it and a FORGET of what that was answered, by
/// two calls, whatever its options and limits are. The LOOKUP is answered by the file's entry for
/// sure, since nothing of it wants memory, and the FORGET is accepted. Both turns are the server's
/// history: their books are kept, and no count falls below zero. The files stay.
fn found_and_forgotten(
    alloc: Global,
    server: &mut Server<MemFs>,
    one: &mut Writer,
    two: &mut Writer,
) -> Option<(Result<usize>, Result<usize>)>
    requires file { server.old.fs ≡ one_file (codes "hello") }
    requires room { 144 ≤ length one.old.left }
    ensures outcomes { result ≡ Some (Ok 144, Ok 0) }
    ensures entry { whole one.new ≡ one.old.passed ++ (file_reply ++ drop 144 one.old.left) }
    ensures silent { whole two.new ≡ whole two.old }
    ensures history { (looked gave : Turn)
        × IsSeen lookup_of_a one.old (Ok 144) one.new looked
        × IsSeen forget_of_2 two.old (Ok 0) two.new gave
        × LooksUpAndForgets server.old looked gave server.new }
    ensures files { server.new.fs ≡ server.old.fs }
{
    history_goes_on::<MemFs>();
    history_keeps_books::<MemFs>();
    let lookup = [LOOKUP.as_slice()];
    let Ok(lookup) = Reader::new(alloc, &lookup) else {
        return None;
    };
    let forget = [FORGET.as_slice()];
    let Ok(forget) = Reader::new(alloc, &forget) else {
        return None;
    };
    let found = server.handle_message(alloc, lookup, one);
    let forgotten = server.handle_message(alloc, forget, two);
    Some((found, forgotten))
}
