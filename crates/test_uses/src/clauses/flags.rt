//! The known flags, a server's limits, and its versions.

ghost use Rattle.std.specs.Prelude.{◌≡◌, ◌+◌, ◌^◌, ◌∷◌, []};
ghost use Rattle.vfs_flags.specs.Flags.{create_supp_group, init_ext};
ghost use Rattle.vfs_flags.specs.FlagTables.{bits_of_all, bits_of_table, fs_options_table, setattr_valid_table, open_options_table, setxattr_flags_table, notify_inval_entry_out_flags_table, async_read, atomic_o_trunc, big_writes, has_ioctl_dir, auto_inval_data, async_dio, parallel_dirops, max_pages_option, submounts, allow_idmap};

use vfs_flags::laws::{
    limits_have_their_numbers, masks_are_of_their_names, masks_have_their_bits,
    single_flags_have_their_bits, versions_have_their_numbers,
};
use vfs_flags::{
    DEFAULT_MAX_BUFFER, GREATEST_MAX_BUFFER, KERNEL_MINOR_VERSION, LEAST_MAX_BUFFER,
    MIN_KERNEL_MINOR_VERSION, RENAME_EXCHANGE, RENAME_FLAGS, RENAME_NOREPLACE, RENAME_WHITEOUT,
};

/// The bits of the flags that have a name, and of the options that a server supports.
fn bits_of_names()
    ensures options { bits_of_table fs_options_table ≡ 0x117fbffffff }
    ensures valid { bits_of_table setattr_valid_table ≡ 0xdbf }
    ensures opening { bits_of_table open_options_table ≡ 0x7f }
    ensures setting { bits_of_table setxattr_flags_table ≡ 1 }
    ensures notice { bits_of_table notify_inval_entry_out_flags_table ≡ 1 }
    ensures server { bits_of_all (async_read ∷ atomic_o_trunc ∷ big_writes ∷ has_ioctl_dir ∷
        auto_inval_data ∷ async_dio ∷ parallel_dirops ∷ max_pages_option ∷ submounts ∷
        init_ext ∷ create_supp_group ∷ allow_idmap ∷ []) ≡ 0x10448449829 }
{
    masks_have_their_bits();
    masks_are_of_their_names();
}

/// The limits as powers of two.
fn limits_are_powers()
    ensures page { LEAST_MAX_BUFFER ≡ 2 ^ 12 }
    ensures usual { DEFAULT_MAX_BUFFER ≡ 2 ^ 20 }
    ensures most { GREATEST_MAX_BUFFER ≡ 2 ^ 27 }
{
    limits_have_their_numbers();
}

/// The minor versions that a server speaks are twelve.
fn twelve_versions()
    ensures { KERNEL_MINOR_VERSION ≡ MIN_KERNEL_MINOR_VERSION + 11 }
{
    versions_have_their_numbers();
}

/// The flags of a RENAME2 are those three that have a name.
fn three_flags_of_a_rename()
    ensures { RENAME_FLAGS ≡ RENAME_NOREPLACE + RENAME_EXCHANGE + RENAME_WHITEOUT }
{
    single_flags_have_their_bits();
}
