//! The server: it reads a request's header, and has the request handled by its opcode: its call of
//! the file system is made, and the reply put into the writer's room. The handlers are in
//! [`crate::handlers`].

mod migration;

ghost use Rattle.std.specs.Prelude.{◌≡◌, ◌≢◌, ◌≤◌, length, vec_len, Err};
ghost use Rattle.std.specs.Borrow.{sem};
ghost use Rattle.vfs_flags.specs.Flags.{fs_options_bits};
ghost use Rattle.vfs_flags.specs.declared.constants.TheConstants.{LEAST_MAX_BUFFER, GREATEST_MAX_BUFFER};
ghost use Rattle.vfs_segments.specs.Written.{held_over};
ghost use Rattle.vfs_files.specs.Calls.{Destroy};
ghost use Rattle.vfs_files.specs.Answers.{Plain, Done};
ghost use Rattle.vfs_grammar.specs.declared.error.Error.{Error};
ghost use Rattle.vfs_server.specs.Lending.{LendsFs};
ghost use Rattle.vfs_server.specs.Memory.{MayWant, WantsNoMemory};
ghost use Rattle.vfs_server.specs.Session.{IsSession};
ghost use Rattle.vfs_server.specs.Sparing.{IsSparing};
ghost use Rattle.vfs_server.specs.Step.{IsStep, ReadsDirectories};

use crate::handlers::Session;
pub use crate::transfers::{ZcReader, ZcWriter};
use bitflags::Flags;
use laws_turns::books::turns_keep_books;
use laws_turns::turns::{directories_are_read, memory_is_wanted_for_copies};
use std::alloc::Global;
use std::marker::Model;
use vfs_files::FileSystem;
use vfs_files::laws::runs_join;
use vfs_flags::{DEFAULT_MAX_BUFFER, FsOptions};
use vfs_grammar::{Limits, Result};
pub use vfs_listings::add_dirent;
use vfs_messages::{Request, read_record};
pub use vfs_messages::{
    get_extensions, parse_security_context, parse_sup_groups, reply_error, reply_ok, reply_readdir,
};
use vfs_segments::laws::together_after_a_place;
use vfs_segments::{Reader, Writer};
use vfs_wire::InHeader;

/// A server of one client over a file system.
///
/// Contracts see the agreed options, the limits, and the state of the file system.
#[derive(Drop)]
pub struct Server<F> {
    session: Session<F>,
}

impl<F> Model for Server<F> {
    ghost use Rattle.vfs_server.specs.Step.{ServerState};

    ghost Value = { ServerState F };

    ghost view = { λ s. s.session };
}

impl<F> Server<F> {
    /// A server over `fs`, with no options agreed, and of the limit [`DEFAULT_MAX_BUFFER`].
    /// `page_size` is that of the machine in bytes, at least 4096.
    pub fn new(fs: F, page_size: u32) -> Server<F>
        requires { 4096 ≤ page_size }
        ensures { result ≡ record {
          options = 0;
          limits = record { page_size = page_size; max_buffer = DEFAULT_MAX_BUFFER };
          fs = fs;
        } }
    {
        Server::with_limit(fs, page_size, DEFAULT_MAX_BUFFER)
    }

    /// A server over `fs`, with no options agreed, whose largest payload is `max_buffer` bytes, from
    /// [`LEAST_MAX_BUFFER`](vfs_flags::LEAST_MAX_BUFFER) to
    /// [`GREATEST_MAX_BUFFER`](vfs_flags::GREATEST_MAX_BUFFER). The reply to INIT tells it to the
    /// client, which keeps its READs and WRITEs within it: the size of these is not checked. ENOMEM
    /// answers a request whose `len` says more than `max_buffer` + 4096 bytes, a READDIR, READDIRPLUS,
    /// GETXATTR or LISTXATTR that asks for more than `max_buffer`, and a BATCH_FORGET of more pairs
    /// than it holds. `page_size` is that of the machine in bytes, at least 4096.
    pub fn with_limit(fs: F, page_size: u32, max_buffer: u32) -> Server<F>
        requires page { 4096 ≤ page_size }
        requires least { LEAST_MAX_BUFFER ≤ max_buffer }
        requires greatest { max_buffer ≤ GREATEST_MAX_BUFFER }
        ensures { result ≡ record {
          options = 0;
          limits = record { page_size = page_size; max_buffer = max_buffer };
          fs = fs;
        } }
    {
        let limits = Limits {
            page_size,
            max_buffer,
        };
        Server {
            session: Session {
                fs,
                options: FsOptions::empty(),
                limits,
            },
        }
    }

    /// The largest payload of a request or a reply, in bytes, as the reply to INIT says it.
    pub fn max_buffer(&self) -> u32
        ensures { result ≡ self.now.limits.max_buffer }
    {
        self.session.limits.max_buffer
    }

    /// The options that the last accepted INIT agreed on; none before, and none after a DESTROY.
    pub fn options(&self) -> FsOptions
        ensures { fs_options_bits result ≡ self.now.options }
    {
        self.session.options
    }

    /// The file system.
    pub fn fs(&self) -> &F
        ensures { result.now ≡ self.now.fs }
    {
        &self.session.fs
    }

    /// The file system, to be changed between requests: what a client does not see of it, as what time
    /// it is. The options and the limits stay.
    pub fn fs_mut(&mut self) -> &mut F
        ensures* writes_back { sem 𝓛 (LendsFs F.row self.entry result) }
        ensures value { result.now ≡ self.old.fs }
    {
        &mut self.session.fs
    }

    /// The file system, of a server that is no longer wanted.
    pub fn into_fs(self) -> F
        ensures { result ≡ self.fs }
    {
        let Session {
            fs,
            options: _,
            limits: _,
        } = self.session;
        fs
    }
}

/// Gives up a hold that the caller left.
fn give_up_hold(w: &mut Writer)
    ensures { w.new ≡ held_over w.old 0 }
{
    let _ = w.hold(0);
}

impl<F: FileSystem> Server<F> {
    /// Ends the session without a request: calls the file system's `destroy`, and no options are
    /// agreed then. Answers 0, the length of the reply to a DESTROY, which has none.
    pub fn destroy(&mut self) -> usize
        ensures called { F.allows self.old.fs Destroy (Plain Done) self.new.fs }
        ensures no_options { self.new.options ≡ 0 }
        ensures same_limits { self.new.limits ≡ self.old.limits }
        ensures length { result ≡ 0 }
    {
        self.session.destroy()
    }

    /// Handles one request: reads it from `r`, makes its call, and puts the reply into the room
    /// that `w` has left. Answers the reply's length in bytes, 0 where there is none.
    ///
    /// `DecodeMessage` where the header, a record, a tail or a list is not whole,
    /// `InvalidHeaderLength` where `len` is less than what is before a tail, or an extension is
    /// smaller than its header, `MissingParameter` where a name or a text that another part may follow
    /// isn't there or, but before extensions, has no end, `InvalidXattrSize` where the value of an extended attribute is not
    /// as long as its record says, the errors of [`get_extensions`](vfs_messages::get_extensions),
    /// `InvalidCString` where a last name or text has no end or another byte after it,
    /// `OutOfMemory` where there is no memory for a list that is whole, a tail that is whole and
    /// cut between two segments, or a context among extensions. After any error but `EncodeMessage`
    /// no call was made, nothing was written, and the options are the old ones.
    /// After `EncodeMessage` the room holds the beginning of a reply that was too long for it; or
    /// the room is below the 16 bytes of a header, and the request was a READ, or a READDIR or
    /// READDIRPLUS of no more bytes than the room has: then too no call was made and nothing was
    /// written.
    ///
    /// A hold that the caller left on `w` is given up first. What `w` had passed before stays, held
    /// bytes too; where it is afterwards isn't said.
    pub fn handle_message(
        &mut self,
        alloc: Global,
        mut r: Reader<'_>,
        w: &mut Writer,
    ) -> Result<usize>
        ensures step { IsStep F.allows F.DirIter.gives
            self.old r.entry.left w.old result w.new self.new }
        ensures hold_given_up { w.new.held ≡ 0 }
        ensures directories { ReadsDirectories F.allows F.DirIter.gives
            self.old r.entry.left w.old result w.new self.new }

        // No memory is taken for a tail that lies in one segment.
        ensures memory { WantsNoMemory self.old.limits self.old.options (length w.old.left) r.entry
            → result ≢ Err Error.OutOfMemory }
    {
        directories_are_read();
        together_after_a_place();
        give_up_hold(w);
        self.handle(alloc, &mut r, w)
    }

    /// Handles requests in order, each by [`handle_message`](Server::handle_message): the k-th from
    /// the k-th reader, with the k-th writer, and its outcome goes to the k-th place of `outcomes`.
    /// [`Reader::new`] and [`Writer::new`] make them of segments, and [`Writer::into_segments`] gives
    /// those of a room back.
    /// An outcome of one request never ends the list, and no writer holds anything afterwards. It takes
    /// no memory of its own: a request that wants none, under the options before it, isn't refused for
    /// want of it.
    ///
    /// For each node number but 0 the books balance over the session: entries answered and forgets
    /// accepted are entries delivered and forgets sent. No entry is lost: one whose reply doesn't fit
    /// is given back.
    pub fn handle_session(
        &mut self,
        alloc: Global,
        readers: Vec<Reader<'_>>,
        writers: &mut [Writer],
        outcomes: &mut [Result<usize>],
    )
        requires writers { length writers.old ≡ vec_len readers }
        requires outcomes { length outcomes.old ≡ vec_len readers }
        ensures session { IsSession F.allows F.DirIter.gives
            self.old readers.entry.items writers.old outcomes.new writers.new self.new }

        // The same session, and no memory is taken for a request that wants none.
        ensures memory { IsSparing F.allows F.DirIter.gives
            self.old readers.entry.items writers.old outcomes.new writers.new self.new }
    {
        runs_join::<F>();
        turns_keep_books();
        let mut at = 0;
        for reader in readers {
            outcomes[at] = self.handle_message(alloc, reader, &mut writers[at]);
            at += 1;
        }
    }

    /// Handles a request with a writer that holds nothing.
    fn handle(&mut self, alloc: Global, r: &mut Reader<'_>, w: &mut Writer) -> Result<usize>
        ensures step { IsStep F.allows F.DirIter.gives
            self.old r.old.left w.old result w.new self.new }
        ensures no_hold { w.old.held ≡ 0 → w.new.held ≡ 0 }
        ensures memory { ¬ (MayWant self.old.limits self.old.options (length w.old.left) r.old)
            → result ≢ Err Error.OutOfMemory }
    {
        memory_is_wanted_for_copies();
        match read_record::<InHeader>(r) {
            Ok(header) => {
                let header = &header;
                self.session.handle_header(Request { alloc, header, r }, w)
            }
            Err(error) => Err(error),
        }
    }
}
