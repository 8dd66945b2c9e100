//! Entries as replies. A file system counts each entry that it answers, and the client gives the
//! counts back. An entry whose reply doesn't fit never comes to the client, and is given back here.
//! Those of a directory are in the crate `vfs_listings`.

ghost use Rattle.std.specs.Prelude.{length, None, is_err, if◌then◌else◌};
ghost use Rattle.vfs_files.specs.Answers.{Entries, Creations, IsAnswer, entry_answer, created_answer};
ghost use Rattle.vfs_files.specs.Calls.{Call, Plain};
ghost use Rattle.vfs_files.specs.Values.{context_of};
ghost use Rattle.vfs_listings.specs.Reading.{GivesBackNode};
ghost use Rattle.vfs_grammar.specs.Words.{reply_to, counted};
ghost use Rattle.vfs_messages.specs.Rooms.{Replies};
ghost use Rattle.vfs_grammar.specs.Room.{unseen};
ghost use Rattle.vfs_grammar.specs.Turn.{node_answered};
ghost use Rattle.vfs_server.specs.Delivery.{CallsAndGivesBack};

use vfs_files::{Entry, FileSystem, Number};
use vfs_flags::{Fault, OpenOptions};
use vfs_grammar::Result;
use vfs_listings::give_back;
use vfs_messages::{reply_created, reply_entry};
use vfs_segments::Writer;
use vfs_wire::InHeader;

/// Gives back an entry whose reply was refused for want of room. Lookups of node 0 aren't counted.
fn give_back_unfit<F: FileSystem>(fs: &mut F, header: &InHeader, node: u64, outcome: &Result<usize>)
    ensures { GivesBackNode F.allows (context_of header.now)
        (if is_err outcome.now then counted node else None) fs.old fs.new }
{
    let is_counted = node != 0;
    if outcome.is_err() && is_counted {
        give_back(fs, header, node);
    }
}

/// Replies the entry that a file system answered to the request with this header, as to LOOKUP,
/// SYMLINK, MKNOD, MKDIR and LINK, and answers the reply's length: 144 bytes with its header. A
/// fault is replied as a header alone, of 16.
///
/// `EncodeMessage` where the room that `w` has left is smaller: it has the beginning of the reply
/// then. The client never sees the entry, so one lookup of its node is given back, for the caller
/// that the header names, but of node 0, whose lookups aren't counted.
#[inline(always)]
pub fn deliver_entry<F: FileSystem>(
    fs: &mut F,
    header: &InHeader,
    answer: std::result::Result<Entry, Fault>,
    w: &mut Writer,
) -> Result<usize>
    ensures replied { Replies (reply_to header.now.unique Entries (entry_answer answer))
        w.old result w.new }
    ensures gives_back { (old : F) (call : Call) →
        F.allows old call (Plain (entry_answer answer)) fs.old →
        CallsAndGivesBack F.allows call (entry_answer answer) (context_of header.now)
        (unseen (length w.old.left) (reply_to header.now.unique Entries (entry_answer answer))
        (node_answered Entries (entry_answer answer)))
        old fs.new }
{
    let node = match &answer {
        Ok(entry) => entry.inode,
        Err(_) => 0,
    };
    let outcome = reply_entry(answer, header.unique, w);
    give_back_unfit(fs, header, node, &outcome);
    outcome
}

/// The same of an entry and what was opened with it, as to CREATE: a reply of 160 bytes. Where it
/// doesn't fit, the entry is given back, and what was opened stays open.
pub fn deliver_created<F: FileSystem>(
    fs: &mut F,
    header: &InHeader,
    answer: std::result::Result<(Entry, Option<F::Handle>, OpenOptions), Fault>,
    w: &mut Writer,
) -> Result<usize>
    ensures replied { Replies
        (reply_to header.now.unique Creations (created_answer F.Handle.value answer))
        w.old result w.new }
    ensures kind { IsAnswer Creations (created_answer F.Handle.value answer) }
    ensures gives_back { (old : F) (call : Call) →
        F.allows old call (Plain (created_answer F.Handle.value answer)) fs.old →
        CallsAndGivesBack F.allows call (created_answer F.Handle.value answer)
        (context_of header.now) (unseen (length w.old.left)
        (reply_to header.now.unique Creations (created_answer F.Handle.value answer))
        (node_answered Creations (created_answer F.Handle.value answer)))
        old fs.new }
{
    let node = match &answer {
        Ok((entry, _, _)) => entry.inode,
        Err(_) => 0,
    };
    let outcome = reply_created::<F::Handle>(answer, header.unique, w);
    give_back_unfit(fs, header, node, &outcome);
    outcome
}
