//! The structs that C passes in and that are filled in for it, with the fields in the header's order.

ghost use Rattle.std.specs.Prelude.{◌≡◌, MatchOption};
ghost use Rattle.vfs_flags.specs.Flags.{fs_options_bits};
ghost use Rattle.vfs_grammar.specs.Limits.{AreLimits};
ghost use Rattle.nizwarf_codec.specs.Session.{limits_of, options_of};

use bitflags::Flags;
use vfs_flags::{FsOptions, GREATEST_MAX_BUFFER, LEAST_MAX_BUFFER};
use vfs_grammar::Limits;

/// The parameters of a session with a client (`nizwarf_session`).
#[repr(C)]
#[derive(Clone, Copy)]
pub struct SessionData {
    /// The options: `flags` of INIT are bits 0 to 31, its `flags2` bits 32 to 63. None before an
    /// INIT.
    pub options: u64,
    /// The size of a page of the machine, in bytes.
    pub page_size: u32,
    /// The largest payload of a request or a reply, in bytes.
    pub max_buffer: u32,
}

impl SessionData {
    /// The sizes. `None` where they are none of a server.
    pub fn limits(&self) -> Option<Limits>
        ensures { MatchOption result (AreLimits (limits_of self.now) → ⊥) (λ limits.
            (limits ≡ limits_of self.now) × AreLimits (limits_of self.now)) }
    {
        let (page_size, max_buffer) = (self.page_size, self.max_buffer);
        if page_size < 4096 || max_buffer < LEAST_MAX_BUFFER || max_buffer > GREATEST_MAX_BUFFER {
            return None;
        }
        Some(Limits {
            page_size,
            max_buffer,
        })
    }

    /// The options, without bits that the protocol doesn't have.
    #[tactic(auto, unfolding(bitflags::proofs::OnLiterals::bitflags_on_literals))]
    pub fn options(&self) -> FsOptions
        ensures { fs_options_bits result ≡ options_of self.now }
    {
        FsOptions::from_bits_truncate(self.options)
    }
}

/// A request that is to be decoded, as C passes it in.
#[derive(Clone, Copy)]
pub struct Incoming<'a> {
    /// The session in which it came.
    pub session: &'a SessionData,
    /// The rows that the file system offers.
    pub offers: u32,
    /// Its segments, of which any may be empty.
    pub request: &'a [&'a [u8]],
    /// How many bytes of room there are for the reply.
    pub room: usize,
}

/// The result of decoding and encoding (`nizwarf_result`). Decoding fills in `len`, `put` and
/// `interrupts`, encoding all fields but `interrupts`; the others keep their values.
#[repr(C)]
#[derive(Clone, Copy)]
pub struct ToldData {
    /// The length of the reply in bytes, 0 where there is none.
    pub len: u64,
    /// How many of its bytes are there to be copied out: all, but of a READ the header's 16 at
    /// most.
    pub put: u64,
    /// The options from now on.
    pub options: u64,
    /// The node of which a lookup is to be given back, or 0.
    pub give_back: u64,
    /// How many items of a directory are in the reply.
    pub taken: u64,
    /// The number of the request that an INTERRUPT means, or 0.
    pub interrupts: u64,
}

impl ToldData {
    /// Nothing is told.
    pub const NOTHING: ToldData = ToldData {
        len: 0,
        put: 0,
        options: 0,
        give_back: 0,
        taken: 0,
        interrupts: 0,
    };
}
