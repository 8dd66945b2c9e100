//! Sessions at work.

ghost use Rattle.std.specs.Prelude.{◌≡◌, [], ◌∷◌, length, map, Ok, OnSome};
ghost use Rattle.vfs_segments.specs.Written.{whole};
ghost use Rattle.test_uses.specs.Requests.{init_request, init_reply, lookup_request, lookup_reply, statfs_request, statfs_reply, in_one_segment, AreRooms, SendsThreeBack};

use fs_small::Unserved;
use std::alloc::Global;
use vfs_files::FileSystem;
use vfs_grammar::Result;
use vfs_segments::{Reader, Writer};
use vfs_server::server::Server;

/// Asks a server over a file system that serves nothing for three things in one session: INIT, a
/// LOOKUP of `a` whose bytes lie in one segment, and STATFS. It tells what they are answered, to the
/// byte: the options of bits 0 and 3 are agreed on, of three that were offered, since the server
/// supports these by itself; the LOOKUP isn't served, and not refused for want of memory; and
/// nothing is held.
fn begin_a_session(
    alloc: Global,
    readers: Vec<Reader<'_>>,
    writers: &mut [Writer],
    outcomes: &mut [Result<usize>],
) -> Server<Unserved>
    requires requests { readers.items ≡
        map in_one_segment (init_request ∷ lookup_request ∷ statfs_request ∷ []) }
    requires room { AreRooms (80 ∷ 16 ∷ 96 ∷ []) writers.old }
    requires places { length outcomes.old ≡ 3 }
    ensures outcomes { outcomes.new ≡ Ok 80 ∷ Ok 16 ∷ Ok 96 ∷ [] }
    ensures rooms { map whole writers.new ≡ init_reply ∷ lookup_reply ∷ statfs_reply ∷ [] }
    ensures held { map (λ w. w.held) writers.new ≡ 0 ∷ 0 ∷ 0 ∷ [] }
    ensures segments { map (λ w. w.lengths) writers.new ≡ map (λ w. w.lengths) writers.old }
    ensures options { result.options ≡ 9 }
    ensures limits { result.limits ≡ record { page_size = 4096; max_buffer = 1048576 } }
{
    let mut server = Server::new(Unserved {}, 4096);
    server.handle_session(alloc, readers, writers, outcomes);
    server
}

/// Request 9, FORGET of node 5 by 3: a header and a record, of 48 bytes.
const FORGET: [u8; 48] = [
    48, 0, 0, 0, 2, 0, 0, 0, 9, 0, 0, 0, 0, 0, 0, 0, 5, 0, 0, 0, 0, 0, 0, 0, 0, 0, 0, 0, 0, 0, 0,
    0, 0, 0, 0, 0, 0, 0, 0, 0, 3, 0, 0, 0, 0, 0, 0, 0,
];

/// Hands over a session of one FORGET, of node 5 by 3, to any server. It is answered 0, and by the
/// books of the session the file system was sent three more forgets of node 5 than it answered
/// entries of it; and of node 6, of which nothing was given back, it was never sent more than that.
/// No byte of the room changes, whatever stood there. `None` where there is no memory for the
/// reader.
fn forget_three<F: FileSystem>(
    alloc: Global,
    server: &mut Server<F>,
    writers: &mut [Writer],
    outcomes: &mut [Result<usize>],
) -> Option<()>
    requires room { length writers.old ≡ 1 }
    requires places { length outcomes.old ≡ 1 }
    ensures outcomes { OnSome result (outcomes.new ≡ Ok 0 ∷ []) }
    ensures rooms { OnSome result (map whole writers.new ≡ map whole writers.old) }
    ensures books { OnSome result
        (SendsThreeBack F.allows F.DirIter.gives server.old.fs server.new.fs) }
{
    let segments = [FORGET.as_slice()];
    let Ok(reader) = Reader::new(alloc, &segments) else {
        return None;
    };
    let Ok(readers) = vec![in alloc; reader] else {
        return None;
    };
    server.handle_session(alloc, readers, writers, outcomes);
    Some(())
}
