//! Numbers of nodes and handles.

ghost use Rattle.std.specs.Prelude.{◌≡◌, ℕ};

/// What a file system names its nodes or its open files by. In requests and replies each is a
/// number of 64 bits, as the `nodeid` of `struct fuse_in_header` and the `fh` of
/// `struct fuse_open_out`: a value is made from any such number, and gives that number back.
pub trait Number: Drop {
    /// The number that a value stands for.
    ghost value: { Self → ℕ };

    /// The value that stands for this number.
    fn from_number(n: u64) -> Self
        ensures { value result ≡ n };

    /// The number that this value stands for.
    fn number(&self) -> u64
        ensures { result ≡ value self.now };
}

impl Number for u64 {
    ghost value = { λ n. n };

    fn from_number(n: u64) -> u64 {
        n
    }

    fn number(&self) -> u64 {
        *self
    }
}
