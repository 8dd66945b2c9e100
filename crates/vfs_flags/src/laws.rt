//! The numbers of the protocol as they are written down. Each function here does nothing: its
//! contract is the law, for a caller's proof to cite.

ghost use Rattle.std.specs.Prelude.{◌≡◌, ◌∷◌, []};
ghost use Rattle.vfs_flags.specs.Flags.{create_supp_group, init_ext, known_fs_options, known_setattr_valid, known_open_options, known_ioctl_flags, known_setxattr_flags, known_notify_inval_entry_out_flags, known_setupmapping_flags, supported_fs_options};
ghost use Rattle.vfs_flags.specs.FlagTables.{bits_of_all, bits_of_table, fs_options_table, setattr_valid_table, open_options_table, ioctl_flags_table, setxattr_flags_table, notify_inval_entry_out_flags_table, setupmapping_flags_table, async_read, atomic_o_trunc, big_writes, has_ioctl_dir, auto_inval_data, async_dio, parallel_dirops, max_pages_option, submounts, allow_idmap};

use crate::*;

/// The bits of each flag set that are known, and the options that a server supports by itself.
pub fn masks_have_their_bits()
    ensures fs_options { known_fs_options ≡ 0x117fbffffff }
    ensures setattr_valid { known_setattr_valid ≡ 0xdbf }
    ensures open_options { known_open_options ≡ 0x7f }
    ensures ioctl_flags { known_ioctl_flags ≡ 0x13f }
    ensures setxattr_flags { known_setxattr_flags ≡ 1 }
    ensures notify_inval_entry_out_flags { known_notify_inval_entry_out_flags ≡ 1 }
    ensures setupmapping_flags { known_setupmapping_flags ≡ 3 }
    ensures supported { supported_fs_options ≡ 0x10448449829 }
{}

/// The bits that are known are those of the flags that have a name, and what a server supports are the
/// options of these names.
pub fn masks_are_of_their_names()
    ensures fs_options { known_fs_options ≡ bits_of_table fs_options_table }
    ensures setattr_valid { known_setattr_valid ≡ bits_of_table setattr_valid_table }
    ensures open_options { known_open_options ≡ bits_of_table open_options_table }
    ensures ioctl_flags { known_ioctl_flags ≡ bits_of_table ioctl_flags_table }
    ensures setxattr_flags { known_setxattr_flags ≡ bits_of_table setxattr_flags_table }
    ensures notify_inval_entry_out_flags { known_notify_inval_entry_out_flags ≡ bits_of_table notify_inval_entry_out_flags_table }
    ensures setupmapping_flags { known_setupmapping_flags ≡ bits_of_table setupmapping_flags_table }
    ensures supported { supported_fs_options ≡
        bits_of_all (async_read ∷ atomic_o_trunc ∷ big_writes ∷ has_ioctl_dir ∷ auto_inval_data ∷
        async_dio ∷ parallel_dirops ∷ max_pages_option ∷ submounts ∷ init_ext ∷
        create_supp_group ∷ allow_idmap ∷ []) }
{}

/// The versions and the number of the root.
pub fn versions_have_their_numbers()
    ensures major { KERNEL_VERSION ≡ 7 }
    ensures minor { KERNEL_MINOR_VERSION ≡ 38 }
    ensures lowest_minor { MIN_KERNEL_MINOR_VERSION ≡ 27 }
    ensures root { ROOT_ID ≡ 1 }
{}

/// The single flags of requests, attributes and replies.
pub fn single_flags_have_their_bits()
    ensures attr_submount { ATTR_SUBMOUNT ≡ 1 }
    ensures attr_dax { ATTR_DAX ≡ 2 }
    ensures fattr_fh { FATTR_FH ≡ 64 }
    ensures fattr_lockowner { FATTR_LOCKOWNER ≡ 512 }
    ensures getattr_fh { GETATTR_FH ≡ 1 }
    ensures open_kill_suidgid { OPEN_KILL_SUIDGID ≡ 1 }
    ensures release_flush { RELEASE_FLUSH ≡ 1 }
    ensures release_flock_unlock { RELEASE_FLOCK_UNLOCK ≡ 2 }
    ensures read_lockowner { READ_LOCKOWNER ≡ 2 }
    ensures write_cache { WRITE_CACHE ≡ 1 }
    ensures write_lockowner { WRITE_LOCKOWNER ≡ 2 }
    ensures write_kill_priv { WRITE_KILL_PRIV ≡ 4 }
    ensures fsync_fdatasync { FSYNC_FDATASYNC ≡ 1 }
    ensures rename_noreplace { RENAME_NOREPLACE ≡ 1 }
    ensures rename_exchange { RENAME_EXCHANGE ≡ 2 }
    ensures rename_whiteout { RENAME_WHITEOUT ≡ 4 }
    ensures rename_flags { RENAME_FLAGS ≡ 7 }
    ensures lk_flock { LK_FLOCK ≡ 1 }
    ensures poll_schedule_notify { POLL_SCHEDULE_NOTIFY ≡ 1 }
{}

/// The sizes of records of earlier versions, and the least room for a request.
pub fn sizes_have_their_numbers()
    ensures min_read_buffer { FUSE_MIN_READ_BUFFER ≡ 8192 }
    ensures entry_out { FUSE_COMPAT_ENTRY_OUT_SIZE ≡ 120 }
    ensures attr_out { FUSE_COMPAT_ATTR_OUT_SIZE ≡ 96 }
    ensures mknod_in { FUSE_COMPAT_MKNOD_IN_SIZE ≡ 8 }
    ensures write_in { FUSE_COMPAT_WRITE_IN_SIZE ≡ 24 }
    ensures statfs { FUSE_COMPAT_STATFS_SIZE ≡ 48 }
    ensures init_out { FUSE_COMPAT_INIT_OUT_SIZE ≡ 8 }
    ensures init_out_22 { FUSE_COMPAT_22_INIT_OUT_SIZE ≡ 24 }
    ensures setxattr_in { FUSE_COMPAT_SETXATTR_IN_SIZE ≡ 8 }
{}

/// The kinds of nodes in a mode, and in an item of a directory.
pub fn kinds_have_their_bits()
    ensures all { S_IFMT ≡ 0o170000 }
    ensures pipe { S_IFIFO ≡ 0o010000 }
    ensures character_device { S_IFCHR ≡ 0o020000 }
    ensures directory { S_IFDIR ≡ 0o040000 }
    ensures block_device { S_IFBLK ≡ 0o060000 }
    ensures file { S_IFREG ≡ 0o100000 }
    ensures link { S_IFLNK ≡ 0o120000 }
    ensures socket { S_IFSOCK ≡ 0o140000 }
    ensures directory_item { DT_DIR ≡ 4 }
    ensures file_item { DT_REG ≡ 8 }
    ensures link_item { DT_LNK ≡ 10 }
{}

/// The limits that a server can be made for.
pub fn limits_have_their_numbers()
    ensures least { LEAST_MAX_BUFFER ≡ 4096 }
    ensures default { DEFAULT_MAX_BUFFER ≡ 1_048_576 }
    ensures greatest { GREATEST_MAX_BUFFER ≡ 134_217_728 }
{}
