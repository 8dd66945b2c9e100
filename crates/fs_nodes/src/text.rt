//! The text of a symbolic link.

ghost use Rattle.std.specs.Prelude.{◌≡◌, ◌<◌, ◌^◌, Some, MatchResult, length};
ghost use Rattle.vfs_flags.specs.Numbers.{enomem};

use std::alloc::Global;
use std::marker::Model;
use vfs_files::copy_of;
use vfs_flags::Fault;

/// The text of a symbolic link.
#[derive(Drop)]
pub struct Text {
    bytes: Vec<u8>,
}

impl Model for Text {
    ghost use Rattle.std.specs.Prelude.{List, ℕ};

    ghost Value = { List ℕ };

    ghost view = { λ text. text.bytes.items };
}

impl Text {
    /// A copy of these bytes. ENOMEM where there is no memory for it.
    pub(crate) fn copy_of(alloc: Global, bytes: &[u8]) -> Result<Text, Fault>
        ensures { MatchResult result (λ it. it ≡ bytes.now) (λ fault. fault ≡ Some enomem) }
    {
        match copy_of(alloc, bytes) {
            Ok(bytes) => Ok(Text { bytes }),
            Err(fault) => Err(fault),
        }
    }

    /// The bytes, in memory of their own. ENOMEM where there is no memory for them.
    pub fn copy(&self, alloc: Global) -> Result<Vec<u8>, Fault>
        ensures { MatchResult result (λ v. v.items ≡ self.now) (λ fault. fault ≡ Some enomem) }
    {
        copy_of(alloc, &self.bytes)
    }

    /// How many bytes there are.
    pub fn len(&self) -> u64
        ensures length { result ≡ length self.now }
        ensures most { result < 2 ^ 63 }
    {
        self.bytes.len() as u64
    }
}
