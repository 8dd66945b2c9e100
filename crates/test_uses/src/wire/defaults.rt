//! Records by default: each field is 0, so each byte is.

ghost use Rattle.std.specs.Prelude.{◌≡◌, replicate};
ghost use Rattle.vfs_wire.specs.Fields.{bytes_of};
ghost use Rattle.vfs_wire.specs.Records.{in_header, out_header, init_in_compat, init_in_ext, init_out, attr, getattr_in, attr_out, setattr_in, entry_out, forget_in, forget_one, batch_forget_in, dirent, direntplus, kstatfs, ext_header, secctx, supp_groups};

use vfs_wire::{
    Attr, AttrOut, BatchForgetIn, Dirent, Direntplus, EntryOut, ExtHeader, ForgetIn, ForgetOne,
    GetattrIn, InHeader, InitInCompat, InitInExt, InitOut, Kstatfs, OutHeader, Secctx, SetattrIn,
    SuppGroups,
};

/// The headers, with nothing set.
#[tactic(auto, unfolding(vfs_wire::specs::Fields::little))]
fn headers() -> (InHeader, OutHeader)
    ensures in_header { bytes_of in_header result.0 ≡ replicate 40 0 }
    ensures out_header { bytes_of out_header result.1 ≡ replicate 16 0 }
{
    (InHeader::default(), OutHeader::default())
}

/// The records of INIT, with nothing set.
#[tactic(auto, unfolding(vfs_wire::specs::Fields::little))]
fn init() -> (InitInCompat, InitInExt, InitOut)
    ensures init_in_compat { bytes_of init_in_compat result.0 ≡ replicate 16 0 }
    ensures init_in_ext { bytes_of init_in_ext result.1 ≡ replicate 48 0 }
    ensures init_out { bytes_of init_out result.2 ≡ replicate 64 0 }
{
    (
        InitInCompat::default(),
        InitInExt::default(),
        InitOut::default(),
    )
}

/// The records with attributes, with nothing set.
#[tactic(auto, unfolding(vfs_wire::specs::Fields::little))]
fn attributes() -> (Attr, GetattrIn, AttrOut, SetattrIn)
    ensures attr { bytes_of attr result.0 ≡ replicate 88 0 }
    ensures getattr_in { bytes_of getattr_in result.1 ≡ replicate 16 0 }
    ensures attr_out { bytes_of attr_out result.2 ≡ replicate 104 0 }
    ensures setattr_in { bytes_of setattr_in result.3 ≡ replicate 88 0 }
{
    (
        Attr::default(),
        GetattrIn::default(),
        AttrOut::default(),
        SetattrIn::default(),
    )
}

/// The records of entries, with nothing set.
#[tactic(auto, unfolding(vfs_wire::specs::Fields::little))]
fn entries() -> (EntryOut, ForgetIn, ForgetOne, BatchForgetIn)
    ensures entry_out { bytes_of entry_out result.0 ≡ replicate 128 0 }
    ensures forget_in { bytes_of forget_in result.1 ≡ replicate 8 0 }
    ensures forget_one { bytes_of forget_one result.2 ≡ replicate 16 0 }
    ensures batch_forget_in { bytes_of batch_forget_in result.3 ≡ replicate 8 0 }
{
    (
        EntryOut::default(),
        ForgetIn::default(),
        ForgetOne::default(),
        BatchForgetIn::default(),
    )
}

/// The records of directories and of counts, with nothing set.
#[tactic(auto, unfolding(vfs_wire::specs::Fields::little))]
fn listings() -> (Dirent, Direntplus, Kstatfs)
    ensures dirent { bytes_of dirent result.0 ≡ replicate 24 0 }
    ensures direntplus { bytes_of direntplus result.1 ≡ replicate 152 0 }
    ensures kstatfs { bytes_of kstatfs result.2 ≡ replicate 80 0 }
{
    (Dirent::default(), Direntplus::default(), Kstatfs::default())
}

/// The headers of extensions, with nothing set.
#[tactic(auto, unfolding(vfs_wire::specs::Fields::little))]
fn extensions() -> (ExtHeader, Secctx, SuppGroups)
    ensures ext_header { bytes_of ext_header result.0 ≡ replicate 8 0 }
    ensures secctx { bytes_of secctx result.1 ≡ replicate 8 0 }
    ensures supp_groups { bytes_of supp_groups result.2 ≡ replicate 4 0 }
{
    (
        ExtHeader::default(),
        Secctx::default(),
        SuppGroups::default(),
    )
}
