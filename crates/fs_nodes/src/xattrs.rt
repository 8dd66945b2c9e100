//! The extended attributes of a node.

ghost use Rattle.std.specs.Prelude.{◌≡◌, ◌≤◌, ◌<◌, ◌++◌, ◌∷◌, [], List, length, Some, None, MatchOption, MatchResult, OnOk, IfErr, IfSome, if◌then◌else◌};
ghost use Rattle.vfs_flags.specs.Numbers.{enomem};
ghost use Rattle.vfs_files.specs.Values.{name_text};
ghost use Rattle.fs_nodes.specs.Xattrs.{AreInOrder, attribute_bytes, xattr_bytes, xattr_named, with_xattr, without_xattr, listed, name_list};

use std::alloc::Global;
use std::collections::BTreeMap;
use std::marker::Model;
use vfs_files::{CStr, copy_of};
use vfs_flags::{Errno, Fault};

/// The most bytes that the extended attributes of a node take.
pub const MOST_BYTES: u64 = 65_536;

/// How many bytes one takes beside those of its name and its value: what its place in the map and two
/// pieces of memory do.
const PLACE_BYTES: u64 = 128;

/// The extended attributes of a node: values by name.
#[derive(Drop)]
pub struct Xattrs {
    values: BTreeMap<Vec<u8>, Vec<u8>>,
    bytes: u64,
}

impl Model for Xattrs {
    ghost use Rattle.std.specs.Prelude.{◌≡◌, ◌≤◌, List};
    ghost use Rattle.fs_nodes.specs.Xattrs.{Xattr, AreInOrder, xattr_bytes, xattrs_of};

    ghost Value = { List Xattr };

    ghost view = { λ xattrs. xattrs_of xattrs.values.entries };

    ghost invariant = { λ xattrs.
        AreInOrder (xattrs_of xattrs.values.entries)
        × (xattrs.bytes ≡ xattr_bytes (xattrs_of xattrs.values.entries))
        × (xattrs.bytes ≤ 65536) };
}

impl Xattrs {
    /// None.
    pub(crate) fn new(alloc: Global) -> Xattrs
        ensures { result ≡ [] }
    {
        Xattrs {
            values: BTreeMap::new(alloc),
            bytes: 0,
        }
    }

    /// How many bytes they take.
    pub fn bytes(&self) -> u64
        ensures bytes { result ≡ xattr_bytes self.now }
        ensures most { result ≤ MOST_BYTES }
    {
        self.bytes
    }

    /// The value of this name.
    pub fn get(&self, name: &[u8]) -> Option<&[u8]>
        ensures value { MatchOption result
            (xattr_named self.now name.now ≡ None)
            (λ value. xattr_named self.now name.now ≡ Some value.now) }
        ensures most { IfSome result (λ value. length value.now ≤ MOST_BYTES) }
    {
        match self.values.get(name) {
            Some(value) => Some(value),
            None => None,
        }
    }

    /// How many bytes they take once one has this value. `None` where these are too many.
    pub fn bytes_with(&self, name: &[u8], value: &[u8]) -> Option<u64>
        ensures { MatchOption result
            (MOST_BYTES < xattr_bytes (with_xattr self.now name.now value.now))
            (λ bytes. (bytes ≡ xattr_bytes (with_xattr self.now name.now value.now))
            × bytes ≤ MOST_BYTES) }
    {
        let bytes = self
            .bytes_without(name)
            .checked_add(name.len() as u64)?
            .checked_add(value.len() as u64)?
            .checked_add(PLACE_BYTES)?;
        if bytes > MOST_BYTES {
            return None;
        }
        Some(bytes)
    }

    // How many bytes the others than this name take.
    fn bytes_without(&self, name: &[u8]) -> u64
        ensures bytes { result ≡ xattr_bytes (without_xattr self.now name.now) }
        ensures most { result ≤ MOST_BYTES }
        ensures order { AreInOrder self.now }
    {
        match self.values.get(name) {
            Some(value) => self.bytes - bytes_of(name, value),
            None => self.bytes,
        }
    }

    /// Gives the value of a name. ENOMEM where there is no memory for it, and all stays.
    pub fn set(&mut self, alloc: Global, name: CStr<'_>, value: &[u8]) -> Result<(), Fault>
        requires { xattr_bytes (with_xattr self.old (name_text name) value.now) ≤ MOST_BYTES }
        ensures ok { OnOk result (self.new ≡
            with_xattr self.old (name_text name.entry) value.now) }
        ensures err { IfErr result (λ fault. (fault ≡ Some enomem) × (self.new ≡ self.old)) }
    {
        let Some(bytes) = self.bytes_with(name.to_bytes(), value) else {
            unreachable!()
        };
        let key = copy_of(alloc, name.to_bytes())?;
        let value = copy_of(alloc, value)?;
        if self.values.insert(key, value).is_err() {
            return Err(Some(Errno::ENOMEM));
        }
        self.bytes = bytes;
        Ok(())
    }

    /// Takes a name away, if it is there.
    pub fn remove(&mut self, name: &[u8])
        ensures { self.new ≡ without_xattr self.old name.now }
    {
        if let Some(gone) = self.values.remove(name) {
            self.bytes -= bytes_of(name, &gone);
        }
    }

    /// How many bytes the names have, with a 0 after each: those of `trusted.` not to others than root.
    pub fn names_len(&self, to_other: bool) -> u32
        ensures length { result ≡ length (name_list to_other self.now) }
        ensures most { result ≤ MOST_BYTES }
    {
        let mut length = 0;
        for (name, _) in &self.values {
            length += listed_len(to_other, name);
        }
        length as u32
    }

    /// The names, with a 0 after each: those of `trusted.` not to others than root. ENOMEM where there
    /// is no memory for them.
    pub fn names(&self, alloc: Global, to_other: bool) -> Result<Vec<u8>, Fault>
        ensures { MatchResult result
            (λ names. names.items ≡ name_list to_other self.now)
            (λ fault. fault ≡ Some enomem) }
    {
        let mut names = Vec::new(alloc);
        for (name, _) in &self.values {
            push_name(&mut names, to_other, name)?;
        }
        Ok(names)
    }
}

// How many bytes one of this name and this value takes.
fn bytes_of(name: &[u8], value: &[u8]) -> u64
    requires { attribute_bytes (name.now, value.now) ≤ MOST_BYTES }
    ensures { result ≡ attribute_bytes (name.now, value.now) }
{
    name.len() as u64 + value.len() as u64 + PLACE_BYTES
}

// Whether a name is listed: one of `trusted.` not to others than root.
fn is_listed(to_other: bool, name: &[u8]) -> bool
    ensures { listed to_other name.now ≡ (if result then name.now ++ 0 ∷ [] else []) }
{
    !to_other || !name.starts_with(b"trusted.")
}

// How many bytes a name has where it is listed, with a 0 after it.
fn listed_len(to_other: bool, name: &[u8]) -> usize
    ensures { result ≡ length (listed to_other name.now) }
{
    if is_listed(to_other, name) {
        name.len() + 1
    } else {
        0
    }
}

// Adds a name where it is listed, and a 0 after it.
fn push_name(names: &mut Vec<u8>, to_other: bool, name: &[u8]) -> Result<(), Fault>
    ensures ok { OnOk result (names.new.items ≡ names.old.items ++ listed to_other name.now) }
    ensures err { IfErr result (λ fault. fault ≡ Some enomem) }
{
    if !is_listed(to_other, name) {
        return Ok(());
    }
    match names.extend_from_slice(name) {
        Ok(()) => {}
        Err(_) => return Err(Some(Errno::ENOMEM)),
    }
    match names.push(0) {
        Ok(()) => Ok(()),
        Err(_) => Err(Some(Errno::ENOMEM)),
    }
}
