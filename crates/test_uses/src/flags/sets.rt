//! Sets of options compared, hashed, joined and cut to the known ones: by their bits. The other
//! flag sets come of the same macro.

ghost use Rattle.std.specs.Prelude.{◌≡◌, ◌<◌, ◌↔◌, IsTrue, bit_and, bit_or, fold};
ghost use Rattle.std.specs.Ordering.{nat_cmp};
ghost use Rattle.std.specs.Hash as fed;
ghost use Rattle.std.specs.Hash.DefaultHasher as sip;
ghost use Rattle.vfs_flags.specs.Flags.{fs_options_bits, known_fs_options};

use bitflags::Flags;
use std::cmp::Ordering;
use std::hash::{DefaultHasher, Hash, Hasher};
use vfs_flags::FsOptions;

/// The hash of a set of options.
fn hash_of_options(a: FsOptions) -> u64
    ensures { result ≡ sip.finish (fold sip.write sip.initial (fed.u64 (fs_options_bits a))) }
{
    let mut state = DefaultHasher::new();
    a.hash(&mut state);
    state.finish()
}

/// Whether a set has all options of another.
fn has_options(a: FsOptions, b: FsOptions) -> bool
    ensures { IsTrue result
        ↔ (bit_and (fs_options_bits a) (fs_options_bits b) ≡ fs_options_bits b) }
{
    a.contains(b)
}

/// No option.
fn no_option() -> FsOptions
    ensures { fs_options_bits result ≡ 0 }
{
    FsOptions::empty()
}

/// The union of two sets, their intersection and the known ones among some bits; whether the two are
/// the same, whether the first has lower bits, and their order.
#[tactic(auto, unfolding(bitflags::proofs::OnLiterals::bitflags_on_literals))]
fn joined_fs_options(
    a: FsOptions,
    b: FsOptions,
    bits: u64,
) -> (FsOptions, FsOptions, FsOptions, bool, bool, Ordering)
    ensures either { fs_options_bits result.0 ≡ bit_or (fs_options_bits a) (fs_options_bits b) }
    ensures both { fs_options_bits result.1 ≡ bit_and (fs_options_bits a) (fs_options_bits b) }
    ensures among { fs_options_bits result.2 ≡ bit_and bits known_fs_options }
    ensures same { IsTrue result.3 ↔ (fs_options_bits a ≡ fs_options_bits b) }
    ensures lower { IsTrue result.4 ↔ (fs_options_bits a < fs_options_bits b) }
    ensures order { result.5 ≡ nat_cmp (fs_options_bits a) (fs_options_bits b) }
{
    (
        a | b,
        a & b,
        FsOptions::from_bits_truncate(bits),
        a == b,
        a < b,
        a.cmp(&b),
    )
}
