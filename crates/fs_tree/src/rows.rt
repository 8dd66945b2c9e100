//! The calls that virtiofsd has not: STATX, and the IOCTLs of `chattr(1)`.

ghost use Rattle.std.specs.Prelude.{◌≡◌, ◌≤◌, ◌+◌, Some, length, replicate, IfErr, IfOk, OnOk};
ghost use Rattle.vfs_files.specs.Calls.{Failed, Text};
ghost use Rattle.fs_nodes.specs.Flags.{output_of};
ghost use Rattle.fs_tree.specs.Rows.{ioctl_answer, statx_answer};

use crate::fs::TreeFs;
use fs_nodes::STATX_LEN;
use vfs_flags::Errno;

/// The most bytes of an answer: those of STATX.
pub const MOST_TEXT: usize = STATX_LEN;

impl TreeFs {
    /// STATX of a node: the answer is in all of `text`. ENOENT where there is no such node.
    pub fn statx(&self, inode: u64, text: &mut [u8]) -> Result<(), Errno>
        requires { length text.old ≡ MOST_TEXT }
        ensures ok { OnOk result (statx_answer self.entry.now inode ≡ Text text.new) }
        ensures err { IfErr result (λ errno. statx_answer self.entry.now inode ≡ Failed (Some errno)) }
    {
        let Some(node) = self.nodes.get(&inode) else {
            return Err(Errno::ENOENT);
        };
        node.put_statx(inode, text);
        Ok(())
    }

    /// IOCTL of a node: how many bytes the answer has, all 0. No node has a flag, and none can be set.
    pub fn ioctl(&self, inode: u64, cmd: u32, out_size: u32) -> Result<usize, Errno>
        ensures ok { IfOk result (λ len. ioctl_answer self.entry.now inode cmd out_size
            ≡ Text (replicate len 0)) }
        ensures len { IfOk result (λ len. len ≡ 16 + output_of cmd) }
        ensures within { IfOk result (λ len. len ≤ 16 + out_size) }
        ensures most { IfOk result (λ len. len ≤ MOST_TEXT) }
        ensures err { IfErr result (λ errno.
            ioctl_answer self.entry.now inode cmd out_size ≡ Failed (Some errno)) }
    {
        match self.nodes.get(&inode) {
            Some(node) => {
                let len = node.ioctl_len(cmd, out_size)?;
                Ok(len as usize)
            }
            None => Err(Errno::ENOENT),
        }
    }
}
