//! Numbers of the protocol by name.

ghost use Rattle.std.specs.Prelude.{◌≡◌, ◌↔◌, [], ◌∷◌, pos, ◌-ℤ◌, ◌<ℤ◌, Some, None, IsTrue, map};
ghost use Rattle.vfs_flags.specs.Numbers.{eperm, enoent, eio, ebadf, enomem, eacces, eexist, exdev, enotdir, eisdir, einval, enospc, erofs, erange, enosys, enotempty, enodata, eproto, eoverflow, eopnotsupp};
ghost use Rattle.vfs_flags.specs.Flags.{fs_options_bits, init_ext, setxattr_ext, security_ctx, create_supp_group, supported_fs_options};
ghost use Rattle.vfs_flags.specs.FlagTables.{bits_of_table, ioctl_flags_table, setupmapping_flags_table};

use vfs_flags::laws::{masks_are_of_their_names, masks_have_their_bits};
use vfs_flags::{Errno, FsOptions};

mod ids;
mod opcodes;
mod sets;

/// The named errors, in the order of their numbers.
fn named_errors() -> [Errno; 20]
    ensures { result ≡
        eperm ∷ enoent ∷ eio ∷ ebadf ∷ enomem ∷ eacces ∷ eexist ∷ exdev ∷ enotdir ∷ eisdir ∷
        einval ∷ enospc ∷ erofs ∷ erange ∷ enosys ∷ enotempty ∷ enodata ∷ eproto ∷ eoverflow ∷
        eopnotsupp ∷ [] }
{
    [
        Errno::EPERM,
        Errno::ENOENT,
        Errno::EIO,
        Errno::EBADF,
        Errno::ENOMEM,
        Errno::EACCES,
        Errno::EEXIST,
        Errno::EXDEV,
        Errno::ENOTDIR,
        Errno::EISDIR,
        Errno::EINVAL,
        Errno::ENOSPC,
        Errno::EROFS,
        Errno::ERANGE,
        Errno::ENOSYS,
        Errno::ENOTEMPTY,
        Errno::ENODATA,
        Errno::EPROTO,
        Errno::EOVERFLOW,
        Errno::EOPNOTSUPP,
    ]
}

/// The options that SETXATTR has its longer record, that INIT has a second one, and that a request
/// which creates a node carries its security contexts, or a supplementary group; and those that a
/// server supports by itself.
fn named_options() -> [FsOptions; 5]
    ensures { map fs_options_bits result
        ≡ setxattr_ext ∷ init_ext ∷ security_ctx ∷ create_supp_group ∷ supported_fs_options ∷ [] }
{
    [
        FsOptions::SETXATTR_EXT,
        FsOptions::INIT_EXT,
        FsOptions::SECURITY_CTX,
        FsOptions::CREATE_SUPP_GROUP,
        FsOptions::SUPPORTED,
    ]
}

/// The names of the flags of IOCTL are those of the bits 0 to 5 and 8, and of SETUPMAPPING's those of
/// the bits 0 and 1.
fn named_bits()
    ensures ioctl { bits_of_table ioctl_flags_table ≡ 0x13f }
    ensures setupmapping { bits_of_table setupmapping_flags_table ≡ 3 }
{
    masks_have_their_bits();
    masks_are_of_their_names();
}

/// The error of the number that `open` of the system gives for a name that is not there; 0 is none.
fn not_found() -> [Option<Errno>; 2]
    ensures { result ≡ Some enoent ∷ None ∷ [] }
{
    [Errno::new(2), Errno::new(0)]
}

/// The number of an error, as the header of a reply carries it: below 0.
fn negated(e: Errno) -> i32
    ensures value { result ≡ pos 0 -ℤ pos e }
    ensures below { result <ℤ pos 0 }
{
    -e.get()
}

/// Whether two errors are the same.
fn same_error(a: Errno, b: Errno) -> bool
    ensures { IsTrue result ↔ (a ≡ b) }
{
    a == b
}
