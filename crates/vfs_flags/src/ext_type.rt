//! The kinds of an extension.

ghost use Rattle.std.specs.Prelude.{◌≡◌};
ghost use Rattle.std.specs.Result.{result_ok};
ghost use Rattle.vfs_flags.specs.Numbers.{ext_type_of};

/// What an extension of a request that creates a node holds: `type` of `struct fuse_ext_header`.
#[derive(Clone, Copy, Debug)]
pub enum ExtType {
    /// Security contexts, as many as the type says: 0 to 31. Their header, `struct
    /// fuse_secctx_header`, has their number where that of another extension has its type.
    SecCtx(u32),
    /// Supplementary groups, the type 32.
    SupGroups,
}

impl TryFrom<u32> for ExtType {
    type Error = ();

    // The kind of the type, and an error for one past 32.
    ghost try_from_gives = { λ n r. result_ok r ≡ ext_type_of n };

    fn try_from(n: u32) -> Result<ExtType, ()> {
        match n {
            0..=31 => Ok(ExtType::SecCtx(n)),
            32 => Ok(ExtType::SupGroups),
            _ => Err(()),
        }
    }
}
