//! A node: a directory, a file, a symbolic link, or what `mknod(2)` makes.

ghost use Rattle.std.specs.Prelude.{◌≡◌, ℕ, List, length, take, if◌then◌else◌, None, Some, IfErr, OnOk, MatchResult};
ghost use Rattle.std.specs.Ordering.{nat_cmp};
ghost use Rattle.std.specs.BTreeMap.{Updates, insert_entry, is_at};
ghost use Rattle.std.specs.Map.{remove_entry};
ghost use Rattle.vfs_flags.specs.Numbers.{enomem};
ghost use Rattle.vfs_flags.specs.Flags.{setattr_valid_bits};
ghost use Rattle.fs_nodes.specs.Children.{is_link};
ghost use Rattle.fs_nodes.specs.Node.{attr_of, nlink_of, entry_of, weight, new_node, opened, set_attr, stripped, rewritten, lasting, is_chown, is_other, takes_ids, truncates, without_set_ids, accessed, is_no_later, ordered_seconds};
ghost use Rattle.fs_nodes.specs.Writing.{Overwrites};

use crate::Contents;
use crate::children::Children;
use crate::kind::Kind;
use crate::text::Text;
use crate::xattrs::Xattrs;
use bitflags::Flags;
use std::alloc::Global;
use std::collections::BTreeMap;
use std::time::Duration;
use vfs_files::{Entry, ZeroCopyReader};
use vfs_flags::{Errno, Fault, GuestGid, GuestUid, SetattrValid};
use vfs_wire::{Attr, SetattrIn};

/// How long a client may rely on an answer: a day, since nobody else changes what it was told.
const TIMEOUT_SECONDS: u64 = 86_400;

/// How old a time of access is that a reading moves, even if nothing was changed since: a day.
const OLD_SECONDS: u64 = 86_400;

/// The flag of `open(2)` that takes the bytes of a file.
const O_TRUNC: u32 = 0o1000;

/// How many bytes a page of a file's contents has.
const PAGE: u64 = 4096;

/// How many blocks of 512 bytes it has.
const PAGE_BLOCKS: u64 = 8;

/// The permission bits by which a file is run as its user and its group.
const SET_IDS: u32 = 0o6000;

/// The permission bit by which the group may run a file.
const GROUP_RUNS: u32 = 0o10;

/// The bits of a SETATTR that give an owner or a group.
const OWNER: u32 = 0x6;

/// Those that give any attribute but `ctime`.
const ATTRIBUTES: u32 = 0x1bf;

/// The user that Linux names where it does not tell who asks.
const UNTOLD: u32 = u32::MAX;

/// A point in time.
#[derive(Clone, Copy, Debug, PartialEq, Eq)]
pub struct Time {
    /// Whole seconds since 1970.
    pub seconds: u64,
    /// Nanoseconds beyond them.
    pub nanoseconds: u32,
}

impl Time {
    // Its seconds in order: those from 2^63 on are before 1970, as Linux takes them.
    fn ordered_seconds(self) -> u64
        ensures { result ≡ ordered_seconds self }
    {
        self.seconds.wrapping_add(1 << 63)
    }

    // Whether it is no later than another.
    fn is_no_later(self, other: Time) -> bool
        ensures { result ≡ is_no_later self other }
    {
        let (own, others) = (self.ordered_seconds(), other.ordered_seconds());
        own < others || own == others && self.nanoseconds <= other.nanoseconds
    }
}

/// A node.
#[derive(Drop)]
pub struct Node {
    /// What it is.
    pub kind: Kind,
    /// Its permission bits.
    pub permissions: u32,
    /// Its owner.
    pub uid: GuestUid,
    /// Its group.
    pub gid: GuestGid,
    /// When it was last read, as far as `relatime` goes: see [`touch_atime`](Node::touch_atime).
    pub atime: Time,
    /// When its bytes or names were last changed.
    pub mtime: Time,
    /// When its attributes were last changed.
    pub ctime: Time,
    /// When it was made.
    pub btime: Time,
    /// Of a directory: the directory that it lies in.
    pub parent: u64,
    /// Of a directory: its names.
    pub children: Children,
    /// The bytes of a file.
    pub contents: Contents,
    /// The text of a symbolic link.
    pub text: Text,
    /// Its extended attributes.
    pub xattrs: Xattrs,
    /// How many names lead to it. The root has one.
    pub names: u32,
    /// Whether a name may lead to it though none does: to a file that was made without one.
    pub is_linkable: bool,
    /// How many lookups of it the guest holds.
    pub lookups: u64,
}

impl Node {
    /// A new node of this owner, in this directory: of one name, held by one lookup, and made now.
    /// ENOMEM where there is no memory for its text.
    pub fn new(
        alloc: Global,
        now: Time,
        uid: GuestUid,
        gid: GuestGid,
        kind: Kind,
        permissions: u32,
        parent: u64,
        text: &[u8],
    ) -> Result<Node, Fault>
        ensures { MatchResult result
            (λ node. node ≡ new_node now uid gid kind permissions parent text.now)
            (λ fault. fault ≡ Some enomem) }
    {
        Ok(Node {
            kind,
            permissions,
            uid,
            gid,
            atime: now,
            mtime: now,
            ctime: now,
            btime: now,
            parent,
            children: Children::new(alloc),
            contents: Contents::new(alloc),
            text: Text::copy_of(alloc, text)?,
            xattrs: Xattrs::new(alloc),
            names: 1,
            is_linkable: false,
            lookups: 1,
        })
    }

    /// How many links it shows.
    pub(crate) fn nlink(&self) -> u32
        ensures { result ≡ nlink_of self.now }
    {
        if !self.kind.is_directory() || self.names == 0 {
            return self.names;
        }
        // (what it holds and the other two are in one file system's memory)
        match self.children.directories().checked_add(2) {
            Some(links) => links.min(u32::MAX as u64) as u32,
            None => u32::MAX,
        }
    }

    // How many bytes it shows.
    fn size(&self) -> u64
        ensures { result ≡ (if is_link self.now.kind then length self.now.text
            else length self.now.contents.bytes) }
    {
        if self.kind.is_link() {
            self.text.len()
        } else {
            self.contents.len()
        }
    }

    /// Its attributes.
    pub fn attr(&self, number: u64) -> Attr
        ensures { result ≡ attr_of number self.now }
    {
        Attr {
            ino: number,
            size: self.size(),
            blocks: self.contents.held() * PAGE_BLOCKS,
            atime: self.atime.seconds,
            mtime: self.mtime.seconds,
            ctime: self.ctime.seconds,
            atimensec: self.atime.nanoseconds,
            mtimensec: self.mtime.nanoseconds,
            ctimensec: self.ctime.nanoseconds,
            mode: self.kind.bits() | (self.permissions & 0o7777),
            nlink: self.nlink(),
            uid: self.uid,
            gid: self.gid,
            rdev: self.kind.device(),
            blksize: 4096,
            flags: 0,
        }
    }

    /// How long a client may rely on its attributes.
    pub fn attr_timeout(&self) -> Duration
        ensures { result ≡ lasting self.now }
    {
        if self.kind.is_file() && self.permissions & SET_IDS != 0 {
            seconds(0)
        } else {
            seconds(TIMEOUT_SECONDS)
        }
    }

    /// Its entry.
    pub fn entry(&self, number: u64) -> Entry
        ensures { result ≡ entry_of number self.now }
    {
        Entry {
            inode: number,
            generation: 0,
            attr: self.attr(number),
            attr_timeout: self.attr_timeout(),
            entry_timeout: seconds(TIMEOUT_SECONDS),
        }
    }

    /// How many bytes of the file system's it takes.
    pub fn weight(&self) -> u64
        ensures { result ≡ weight self.now }
    {
        self.contents.held() * PAGE + self.text.len() + self.xattrs.bytes()
    }

    // Takes its privileges, as far as they are to go: its capabilities, and its set-user-ID and
    // set-group-ID bits.
    fn strip(&mut self, caps: bool, ids: bool)
        ensures { self.new ≡ stripped caps ids self.old }
    {
        if caps {
            self.xattrs.remove(b"security.capability");
        }
        let left = without_set_ids(self.permissions);
        self.permissions = pick(ids, left, self.permissions);
    }

    /// Notes that its contents were changed now, which takes its privileges as far as they are to go.
    pub fn mark_rewritten(&mut self, now: Time, caps: bool, ids: bool)
        ensures { self.new ≡ rewritten now caps ids self.old self.old.contents }
    {
        self.strip(caps, ids);
        self.mtime = now;
        self.ctime = now;
    }

    /// Sets the attributes that the request names, and takes the privileges that it costs. A longer
    /// file takes no memory for that, and the size that a file without pages has moves no time, unless
    /// it is set of a file that is open.
    pub fn set_attr(&mut self, now: Time, attr: SetattrIn, is_open: bool, valid: SetattrValid)
        ensures { self.new ≡ set_attr now self.old attr is_open (setattr_valid_bits valid) }
    {
        let resizes = valid.contains(SetattrValid::SIZE);
        let idle = resizes
            && !is_open
            && attr.size == self.contents.len()
            && self.contents.held() == 0;
        if resizes {
            self.contents.resize(attr.size);
        }
        let atime = Time {
            seconds: attr.atime,
            nanoseconds: attr.atimensec,
        };
        let mtime = Time {
            seconds: attr.mtime,
            nanoseconds: attr.mtimensec,
        };
        let ctime = Time {
            seconds: attr.ctime,
            nanoseconds: attr.ctimensec,
        };
        self.permissions = pick(
            valid.contains(SetattrValid::MODE),
            attr.mode,
            self.permissions,
        );
        self.uid = pick(valid.contains(SetattrValid::UID), attr.uid, self.uid);
        self.gid = pick(valid.contains(SetattrValid::GID), attr.gid, self.gid);
        let read = pick(valid.contains(SetattrValid::ATIME), atime, self.atime);
        self.atime = pick(valid.contains(SetattrValid::ATIME_NOW), now, read);
        let resized = pick(idle, self.mtime, pick(resizes, now, self.mtime));
        let written = pick(valid.contains(SetattrValid::MTIME), mtime, resized);
        self.mtime = pick(valid.contains(SetattrValid::MTIME_NOW), now, written);
        let changed = pick(idle, self.ctime, now);
        self.ctime = pick(valid.contains(SetattrValid::CTIME), ctime, changed);
        let ids = takes_ids(self.kind, valid);
        self.strip(ids || resizes, ids);
    }

    /// Says that it was read now. As with Linux's `relatime`, `atime` moves if it is no later than
    /// `mtime` or `ctime`, or a day ago.
    pub fn touch_atime(&mut self, now: Time)
        ensures { self.new ≡ accessed now self.old }
    {
        let old = self.atime;
        let age = now.ordered_seconds().saturating_sub(old.ordered_seconds());
        if old.is_no_later(self.mtime) || old.is_no_later(self.ctime) || age >= OLD_SECONDS {
            self.atime = now;
        }
    }

    /// Whether an opening with these flags takes the bytes of it.
    pub fn truncates(&self, flags: u32) -> bool
        ensures { result ≡ truncates self.now flags }
    {
        flags & O_TRUNC == O_TRUNC && self.kind.is_file()
    }

    /// Opens it for this user: O_TRUNC takes the bytes and the capabilities of a file, and by another
    /// user than 0, or with `kill_priv`, its set-user-ID and set-group-ID bits.
    pub fn open(&mut self, now: Time, uid: GuestUid, kill_priv: bool, flags: u32)
        ensures { self.new ≡ opened now uid kill_priv self.old flags }
    {
        if self.truncates(flags) {
            self.contents.resize(0);
            self.mark_rewritten(now, true, kill_priv || is_other(uid));
        }
    }

    /// Writes up to `size` bytes of `r` over those of a file, from `offset` on, as far as they end
    /// within `most`, and answers how many. A file that is changed loses its capabilities, unless the
    /// write is delayed, and with `kill_priv` its set-user-ID and set-group-ID bits. ENOMEM where one of
    /// their pages is not held and there is no memory for it, and all stays.
    pub fn write_from<R: ZeroCopyReader>(
        &mut self,
        alloc: Global,
        now: Time,
        r: &mut R,
        size: u32,
        offset: u64,
        most: u64,
        delayed: bool,
        kill_priv: bool,
    ) -> Result<u32, Fault>
        ensures { (taken : List ℕ) × R.takes r.old taken r.new
            × Overwrites most now delayed kill_priv self.old offset (take size (R.left r.old)) result
            self.new }
    {
        let count = self.contents.write_from(alloc, r, size, offset, most)?;
        if count > 0 {
            self.mark_rewritten(now, !delayed, kill_priv);
        }
        Ok(count)
    }
}

// `count` seconds.
fn seconds(count: u64) -> Duration
    ensures { result ≡ record { secs = count; nanos = 0 } }
{
    Duration::from_secs(count)
}

/// Whether this is told, and another user than 0. Linux from 6.12 on tells it of few requests.
pub fn is_other(uid: GuestUid) -> bool
    ensures { result ≡ is_other uid }
{
    uid != GuestUid::from(0) && uid != GuestUid::from(UNTOLD)
}

// Whether a request takes the set-user-ID and set-group-ID bits of what is of this kind.
fn takes_ids(kind: Kind, valid: SetattrValid) -> bool
    ensures { result ≡ takes_ids kind (setattr_valid_bits valid) }
{
    !kind.is_directory() && (is_chown(valid) || valid.contains(SetattrValid::KILL_SUIDGID))
}

// Whether it is a chown: it gives an owner or a group, or sets no attribute.
fn is_chown(valid: SetattrValid) -> bool
    ensures { result ≡ is_chown (setattr_valid_bits valid) }
{
    let bits = valid.bits();
    bits & OWNER != 0 || bits & ATTRIBUTES == 0
}

// Permission bits without set-user-ID, and without set-group-ID where the group may run it.
fn without_set_ids(permissions: u32) -> u32
    ensures { result ≡ without_set_ids permissions }
{
    let kept = if permissions & GROUP_RUNS == GROUP_RUNS {
        0o1777
    } else {
        0o3777
    };
    permissions & kept
}

// The new value where it is set, or else the old one.
fn pick<T: Copy>(set: bool, new: T, old: T) -> T
    ensures { result ≡ (if set then new else old) }
{
    if set { new } else { old }
}

/// Puts a node under a number. ENOMEM where there is no memory for it, and all stays.
pub fn put_node(nodes: &mut BTreeMap<u64, Node>, number: u64, node: Node) -> Result<(), Fault>
    ensures ok { OnOk result (nodes.new.entries
        ≡ insert_entry nat_cmp nodes.old.entries number node) }
    ensures updates { OnOk result (Updates nat_cmp nodes.old nodes.new number (Some node)) }
    ensures err { IfErr result (λ fault.
        (fault ≡ Some enomem) × (nodes.new.entries ≡ nodes.old.entries)) }
{
    match nodes.insert(number, node) {
        Ok(_) => Ok(()),
        Err(_) => Err(Some(Errno::ENOMEM)),
    }
}

/// Takes the node of a number out, if there is one, and lets it go.
pub fn remove_node(nodes: &mut BTreeMap<u64, Node>, number: u64)
    ensures entries { nodes.new.entries
        ≡ remove_entry (is_at (nat_cmp number)) nodes.old.entries }
    ensures updates { Updates nat_cmp nodes.old nodes.new number None }
{
    nodes.remove(&number);
}
