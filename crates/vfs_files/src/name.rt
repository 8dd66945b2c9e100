//! Names of files as requests carry them.
//!
//! A name travels as its bytes and a 0 after them. Nothing is asked of the bytes but that none
//! of them is 0: they need be no text, and `.`, `..`, a slash and the empty name are names too.

ghost use Rattle.std.specs.Prelude.{◌≡◌, ◌≢◌, ℕ, ◌<◌, ◌==◌, length, slice_index, position};

use crate::memory::copy_of;
use crate::nonzero::all_nonzero;
use memchr::memchr;
use std::alloc::Global;
use std::marker::Model;
use vfs_flags::Fault;

/// Where the first 0 is.
#[tactic(auto, using(crate::proofs::Texts::first_zero_is_place))]
pub fn first_nul(bytes: &[u8]) -> Option<usize>
    ensures { result ≡ position (λ b. b == 0) bytes.now }
{
    memchr(0, bytes)
}

/// A name: bytes with no 0 among them, borrowed from the request that carries them.
///
/// Two names are equal where their bytes are.
#[derive(Clone, Copy, Debug, PartialEq, Eq)]
pub struct CStr<'a> {
    bytes: &'a [u8],
    ghost no_nul: { (k : ℕ) → k < length bytes.now → slice_index bytes.now k ≢ 0 },
}

impl<'a> CStr<'a> {
    ghost use Rattle.std.specs.Prelude.{MatchOption, Some, None, take};
    ghost use Rattle.vfs_files.specs.Values.{name_of, name_text};

    /// The name in these bytes: all but the last, where the last is 0 and no other is. `None`
    /// where there is no 0, where one is before the end, and for no bytes at all. A single 0
    /// is the empty name.
    #[inline(always)]
    pub fn from_bytes_with_nul(bytes: &'a [u8]) -> Option<CStr<'a>>
        ensures { MatchOption result
            (name_of bytes.now ≡ None)
            (λ name. name_of bytes.now ≡ Some (name_text name)) }
    {
        if bytes.is_empty() {
            return None;
        }
        let end = bytes.len() - 1;
        if bytes[end] != 0 || !all_nonzero(&bytes[..end]) {
            return None;
        }
        Some(CStr::before_nul(bytes, end))
    }

    /// The name that runs to the first 0 in these bytes. `None` where there is no 0.
    #[tactic(auto, using(crate::proofs::Texts::text_has_no_nul))]
    pub fn from_bytes_until_nul(bytes: &'a [u8]) -> Option<CStr<'a>>
        ensures { MatchOption result
            (position (λ b. b == 0) bytes.now ≡ None)
            (λ name. position (λ b. b == 0) bytes.now ≡ Some (length (name_text name))
            × name_text name ≡ take (length (name_text name)) bytes.now) }
    {
        let nul = first_nul(bytes)?;
        Some(CStr::before_nul(bytes, nul))
    }

    /// The name before the first 0 in these bytes, which is at `nul`. It is not looked for
    /// again.
    #[tactic(auto, using(crate::proofs::Texts::text_has_no_nul))]
    pub fn before_nul(bytes: &'a [u8], nul: usize) -> CStr<'a>
        requires { position (λ b. b == 0) bytes.now ≡ Some nul }
        ensures { name_text result ≡ take nul bytes.now }
    {
        let bytes = &bytes[..nul];
        CStr { bytes }
    }

    /// The name that has these bytes, of which none is 0.
    pub(crate) fn of_text(bytes: &'a [u8]) -> CStr<'a>
        requires { (k : ℕ) → k < length bytes.now → slice_index bytes.now k ≢ 0 }
        ensures { name_text result ≡ bytes.now }
    {
        CStr { bytes }
    }

    /// The bytes of the name, without the 0 after them.
    pub fn to_bytes(self) -> &'a [u8]
        ensures { result.now ≡ name_text self.entry }
    {
        self.bytes
    }
}

/// A name of its own: bytes with no 0 among them, in memory.
///
/// Two names are equal where their bytes are.
#[derive(Drop, Debug)]
pub struct CString {
    text: Vec<u8>,
}

impl Model for CString {
    ghost use Rattle.std.specs.Prelude.{◌≢◌, ◌<◌, ℕ, List, length, slice_index};

    ghost Value = { List ℕ };

    ghost view = { λ s. s.text.items };

    ghost invariant = { λ s.
        (k : ℕ) → k < length s.text.items → slice_index s.text.items k ≢ 0 };
}

impl CString {
    ghost use Rattle.std.specs.Prelude.{IfOk, IfErr};
    ghost use Rattle.vfs_files.specs.Calls.{out_of_memory};
    ghost use Rattle.vfs_files.specs.Values.{name_text};

    /// The same name, in memory of its own, or the fault ENOMEM where there is none.
    pub fn new(alloc: Global, name: CStr<'_>) -> Result<CString, Fault>
        ensures same { IfOk result (λ owned. owned ≡ name_text name.entry) }
        ensures memory { IfErr result (λ fault. fault ≡ out_of_memory) }
    {
        let text = copy_of(alloc, name.to_bytes())?;
        Ok(CString { text })
    }

    /// The name, borrowed.
    pub fn as_c_str(&self) -> CStr<'_>
        ensures { name_text result ≡ self.now }
    {
        CStr { bytes: &self.text }
    }
}

impl PartialEq for CString {
    ghost use Rattle.std.specs.Prelude.{nat_eq};
    ghost use Rattle.std.specs.Cmp.{partial_equiv_from_equiv};
    ghost use Rattle.std.specs.Cmp.Lexicographic.{nat_list_eq_equiv, pointwise};

    ghost eq = { pointwise nat_eq };

    ghost laws = { partial_equiv_from_equiv nat_list_eq_equiv };

    fn eq(&self, other: &CString) -> bool {
        self.text == other.text
    }
}

impl Eq for CString {
    ghost use Rattle.std.specs.Cmp.Lexicographic.{nat_list_eq_equiv};

    ghost laws = { nat_list_eq_equiv };
}
