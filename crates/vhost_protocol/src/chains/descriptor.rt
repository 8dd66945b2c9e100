//! A descriptor of a split ring (`struct virtq_desc`).

ghost use Rattle.std.specs.Prelude.{◌≡◌};
ghost use Rattle.vhost_protocol.specs.Descriptors.{of_words as of_words_in, goes_on as goes_on_in, is_table as is_table_in, is_writable as is_writable_in};

/// The bits of `flags`, by the specification's names without their prefix VIRTQ_DESC_F.
pub mod flag {
    /// Another descriptor follows, whose number is `next`.
    pub const NEXT: u16 = 1;

    /// The device may write there, and does not read.
    pub const WRITE: u16 = 2;

    /// What is there is a table of descriptors.
    pub const INDIRECT: u16 = 4;
}

/// A descriptor (`struct virtq_desc`, 16 bytes).
#[derive(Clone, Copy)]
pub struct Descriptor {
    /// An address of the guest.
    pub addr: u64,
    /// How many bytes are there.
    pub len: u32,
    /// What it says besides: [`flag`].
    pub flags: u16,
    /// The number of the next one, if one follows.
    pub next: u16,
}

impl Descriptor {
    /// The descriptor of its two words: of its first 8 bytes, and of the others, each little endian.
    pub fn of_words(first: u64, second: u64) -> Descriptor
        ensures { result ≡ of_words_in first second }
    {
        Descriptor {
            addr: first,
            len: (second % (1 << 32)) as u32,
            flags: (second / (1 << 32) % (1 << 16)) as u16,
            next: (second / (1 << 48)) as u16,
        }
    }

    /// Whether another one follows.
    pub fn goes_on(&self) -> bool
        ensures { result ≡ goes_on_in self.now }
    {
        self.flags & flag::NEXT != 0
    }

    /// Whether the device may write there.
    pub fn is_writable(&self) -> bool
        ensures { result ≡ is_writable_in self.now }
    {
        self.flags & flag::WRITE != 0
    }

    /// Whether it tells of a table of descriptors.
    pub fn is_table(&self) -> bool
        ensures { result ≡ is_table_in self.now }
    {
        self.flags & flag::INDIRECT != 0
    }
}
