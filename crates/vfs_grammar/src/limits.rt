//! What a server is made for.

/// The bytes that a request may have before its payload.
const BEFORE_PAYLOAD: u32 = 4096;

/// The sizes that a server goes by.
#[derive(Clone, Copy, Debug)]
pub struct Limits {
    /// The size of a page of the machine, in bytes: at least 4096.
    pub page_size: u32,
    /// The largest payload of a request or a reply, in bytes: from
    /// [`LEAST_MAX_BUFFER`](vfs_flags::LEAST_MAX_BUFFER) to
    /// [`GREATEST_MAX_BUFFER`](vfs_flags::GREATEST_MAX_BUFFER).
    pub max_buffer: u32,
}

impl Limits {
    ghost use Rattle.std.specs.Prelude.{◌≡◌};
    ghost use Rattle.vfs_grammar.specs.Limits.{AreLimits};
    ghost use Rattle.vfs_grammar.specs.Limits as limit;

    /// The largest `len` of a request: the largest payload, and what may come before it.
    pub fn max_len(self) -> u32
        requires { AreLimits self }
        ensures { result ≡ limit.max_len self }
    {
        self.max_buffer + BEFORE_PAYLOAD
    }

    /// How many pages the largest payload takes.
    pub fn max_pages(self) -> u16
        requires { AreLimits self }
        ensures { result ≡ limit.max_pages self }
    {
        ((self.max_buffer - 1) / self.page_size + 1) as u16
    }
}
