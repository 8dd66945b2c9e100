//! Bytes that are copied, which takes memory.

ghost use Rattle.std.specs.Prelude.{◌≡◌, IfOk, IfErr};
ghost use Rattle.vfs_files.specs.Calls.{out_of_memory};

use std::alloc::Global;
use vfs_flags::{Errno, Fault};

/// The same bytes in memory of their own, or the fault ENOMEM where there is none for them.
pub fn copy_of(alloc: Global, bytes: &[u8]) -> Result<Vec<u8>, Fault>
    ensures same { IfOk result (λ copy. copy.items ≡ bytes.now) }
    ensures memory { IfErr result (λ fault. fault ≡ out_of_memory) }
{
    Vec::from_slice(alloc, bytes).map_err(|_| Some(Errno::ENOMEM))
}
