//! What is asked of a node before its contents change.

ghost use Rattle.std.specs.Prelude.{◌≡◌, ◌<◌, ◌^◌, ◌+◌, ◌-◌, Some, None, IfErr, OnOk};
ghost use Rattle.fs_tree.specs.Outcome.{refusal_of};
ghost use Rattle.fs_tree.specs.State.{node_at};
ghost use Rattle.fs_tree.specs.Tree.{fallocate_refusal, longest, most_size};

use crate::fs::TreeFs;
use fs_nodes::{Node, PUNCH_HOLE, is_mode, no_device, too_big};
use vfs_flags::Errno;

/// How many bytes a page of a file's contents has.
pub(crate) const PAGE: u64 = 4096;

impl TreeFs {
    /// How many bytes a file may have.
    pub(crate) fn longest(&self) -> u64
        ensures longest { result ≡ longest self.entry.now }
        ensures most { result < 2 ^ 63 }
    {
        self.limits.file.min(i64::MAX as u64)
    }

    /// Up to which place a file can have bytes from `offset` on, at most that many, in pages that are
    /// held or can be.
    pub(crate) fn most_size(&self, node: &Node, offset: u64, len: u64) -> u64
        requires { offset < 2 ^ 63 → offset + len < 2 ^ 64 - 4096 }
        ensures { result ≡ most_size self.entry.now offset len node.now }
    {
        let longest = self.longest();
        if offset > i64::MAX as u64 {
            return longest;
        }
        longest.min(node.contents.reach(offset, len, self.room() / PAGE))
    }

    /// Whether a FALLOCATE of this mode can be done.
    pub(crate) fn check_allocate(
        &self,
        inode: u64,
        mode: u32,
        offset: u64,
        len: u64,
    ) -> Result<(), Errno>
        ensures ok { OnOk result (refusal_of (node_at self.entry.now inode)
            (fallocate_refusal self.entry.now mode offset len) ≡ None) }
        ensures end { OnOk result (offset + len < 2 ^ 63) }
        ensures err { IfErr result (λ errno. refusal_of (node_at self.entry.now inode)
            (fallocate_refusal self.entry.now mode offset len) ≡ Some errno) }
    {
        let Some(node) = self.nodes.get(&inode) else {
            return Err(Errno::ENOENT);
        };
        if len == 0 {
            return Err(Errno::EINVAL);
        }
        if !is_mode(mode) {
            return Err(Errno::EOPNOTSUPP);
        }
        if !node.kind.is_file() {
            return Err(no_device());
        }
        let Some(end) = offset.checked_add(len) else {
            return Err(too_big());
        };
        if end > self.longest() {
            return Err(too_big());
        }
        if mode != PUNCH_HOLE && end > self.most_size(node, offset, len) {
            return Err(Errno::ENOSPC);
        }
        Ok(())
    }
}
