//! The names of a directory.

ghost use Rattle.std.specs.Prelude.{◌≡◌, nat_lt, ◌==◌, ◌<◌, length, true, false, Some, None, OnOk, IfErr};
ghost use Rattle.vfs_flags.specs.Numbers.{enomem};
ghost use Rattle.vfs_files.specs.Values.{name_text};
ghost use Rattle.fs_nodes.specs.Children.{no_children, child_named, directories_of, leading};

use crate::kind::Kind;
use std::alloc::Global;
use std::collections::BTreeMap;
use std::marker::Model;
use vfs_files::{CStr, CString, copy_of};
use vfs_flags::{Errno, Fault};

/// Where a name leads.
#[derive(Clone, Copy)]
pub struct Child {
    /// The number of the node.
    pub node: u64,
    /// What it is.
    pub kind: Kind,
}

/// The place of the first name of a directory: the largest that `telldir(3)` can give.
const FIRST_PLACE: u64 = i64::MAX as u64;

/// The places up to this one are those of `.` and `..`.
const LAST_DOT: u64 = 2;

/// A name in a directory.
#[derive(Drop)]
pub(crate) struct Link {
    pub(crate) name: CString,
    pub(crate) child: Child,
}

impl Model for Link {
    ghost use Rattle.fs_nodes.specs.Children.{Link};

    ghost Value = { Link };

    ghost view = { λ link. record { name = link.name; child = link.child } };
}

/// The names of a directory, by their places, and the place of each by its name.
#[derive(Drop)]
pub struct Children {
    links: BTreeMap<u64, Link>,
    places: BTreeMap<Vec<u8>, u64>,
    next: u64,
    directories: u64,
}

impl Model for Children {
    ghost use Rattle.fs_nodes.specs.Children.{Children};
    ghost use Rattle.fs_nodes.specs.Index.{AreIndexed};

    ghost Value = { Children };

    ghost view = { λ children. record { links = children.links.entries; next = children.next } };

    ghost invariant = { λ children.
        AreIndexed children.links.entries children.places children.next children.directories };
}

impl Children {
    /// No names.
    pub(crate) fn new(alloc: Global) -> Children
        ensures { result ≡ no_children }
    {
        Children {
            links: BTreeMap::new(alloc),
            places: BTreeMap::new(alloc),
            next: FIRST_PLACE,
            directories: 0,
        }
    }

    /// Whether there is no name.
    pub fn is_empty(&self) -> bool
        ensures { result ≡ (length self.now.links == 0) }
    {
        self.links.len() == 0
    }

    /// How many of the names are directories'.
    pub(crate) fn directories(&self) -> u64
        ensures { result ≡ directories_of self.now.links }
    {
        self.directories
    }

    /// Whether there is a place for one more name.
    pub fn has_place(&self) -> bool
        ensures { result ≡ nat_lt 2 self.now.next }
    {
        self.next > LAST_DOT
    }

    /// The names after a place, in order of their places.
    pub(crate) fn links(&self) -> &BTreeMap<u64, Link>
        ensures { result.now.entries ≡ self.now.links }
    {
        &self.links
    }

    /// Where a name leads.
    pub fn get(&self, name: &[u8]) -> Option<Child>
        ensures { result ≡ child_named self.now name.now }
    {
        let place = self.places.get(name)?;
        match self.links.get(place) {
            Some(link) => Some(link.child),
            None => None,
        }
    }

    /// Adds a name before the others. ENOMEM where there is no memory for it, and all stays.
    pub fn add(&mut self, alloc: Global, name: CStr<'_>, child: Child) -> Result<(), Fault>
        requires free { child_named self.old (name_text name) ≡ None }
        requires place { 2 < self.old.next }
        ensures ok { OnOk result (self.new ≡ leading (name_text name.entry) false (Some child) self.old) }
        ensures err { IfErr result (λ fault. (fault ≡ Some enomem) × (self.new ≡ self.old)) }
    {
        let place = self.next;
        let link = Link {
            name: CString::new(alloc, name)?,
            child,
        };
        let key = copy_of(alloc, name.to_bytes())?;
        if self.links.insert(place, link).is_err() {
            return Err(Some(Errno::ENOMEM));
        }
        if self.places.insert(key, place).is_err() {
            self.links.remove(&place);
            return Err(Some(Errno::ENOMEM));
        }
        self.next -= 1;
        self.directories += u64::from(child.kind.is_directory());
        Ok(())
    }

    /// Lets a name lead elsewhere, if it is there, or nowhere.
    pub fn set(&mut self, name: &[u8], child: Option<Child>)
        ensures { self.new ≡ leading name.now true child self.old }
    {
        match child {
            Some(child) => self.replace(name, child),
            None => self.remove(name),
        }
    }

    // Takes a name out, if it is there.
    fn remove(&mut self, name: &[u8])
        ensures { self.new ≡ leading name.now true None self.old }
    {
        let Some(place) = self.places.remove(name) else {
            return;
        };
        let Some(link) = self.links.remove(&place) else {
            return;
        };
        self.directories -= u64::from(link.child.kind.is_directory());
    }

    // Lets a name lead elsewhere, if it is there.
    fn replace(&mut self, name: &[u8], child: Child)
        ensures { self.new ≡ leading name.now true (Some child) self.old }
    {
        let Some(place) = self.places.get(name) else {
            return;
        };
        let Some(link) = self.links.get_mut(place) else {
            return;
        };
        let was = link.child.kind.is_directory();
        link.child = child;
        self.directories -= u64::from(was);
        self.directories += u64::from(child.kind.is_directory());
    }
}
