//! The IOCTLs of `chattr(1)`: no node has a flag, and none can be set.

ghost use Rattle.std.specs.Prelude.{◌≡◌, ◌≤◌, ◌+◌, None, Some, IfErr, IfOk, OnOk};
ghost use Rattle.fs_nodes.specs.Flags.{ioctl_refusal, output_of};

use crate::node::Node;
use crate::refusals::no_command;
use vfs_flags::Errno;

/// The commands that get and set the flags of a node.
const GET_FLAGS: u32 = 0x8008_6601;

const GET_XFLAGS: u32 = 0x801c_581f;

const SET_FLAGS: u32 = 0x4008_6602;

const SET_XFLAGS: u32 = 0x401c_5820;

/// How many bytes the record of the reply to an IOCTL has.
const RECORD: u32 = 16;

impl Node {
    /// How many bytes an IOCTL of it is answered, of which that many may be output: its record and its output.
    pub fn ioctl_len(&self, cmd: u32, out_size: u32) -> Result<u32, Errno>
        ensures ok { OnOk result (ioctl_refusal cmd out_size self.now ≡ None) }
        ensures len { IfOk result (λ len. len ≡ 16 + output_of cmd) }
        ensures within { IfOk result (λ len. len ≤ 16 + out_size) }
        ensures most { IfOk result (λ len. len ≤ 44) }
        ensures err { IfErr result (λ errno. ioctl_refusal cmd out_size self.now ≡ Some errno) }
    {
        if !self.kind.is_directory() && !self.kind.is_file() {
            return Err(no_command());
        }
        if cmd == SET_FLAGS || cmd == SET_XFLAGS {
            return Err(Errno::EOPNOTSUPP);
        }
        if cmd != GET_FLAGS && cmd != GET_XFLAGS {
            return Err(no_command());
        }
        let len = if cmd == GET_FLAGS { 4 } else { 28 };
        if out_size < len {
            return Err(Errno::EINVAL);
        }
        Ok(RECORD + len)
    }
}
