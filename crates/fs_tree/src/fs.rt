//! The file system: its nodes by number.

ghost use Rattle.std.specs.Prelude.{◌≡◌, ◌≤◌, ◌<◌, ◌^◌, ◌+◌, ◌-◌, ◌==◌, ◌||◌, ℕ, true, false, not, nat_eq, option_map, bit_and, option_and_then, IsTrue, IsSome, IfSome, Some, None, is_some, IfErr, OnOk, MatchResult, if◌then◌else◌};
ghost use Rattle.std.specs.Option.{option_map_or};
ghost use Rattle.std.specs.Ordering.{nat_cmp};
ghost use Rattle.std.specs.BTreeMap.{is_at};
ghost use Rattle.std.specs.List.{list_any};
ghost use Rattle.std.specs.Map.{keys_of, remove_entry};
ghost use Rattle.std.specs.List.Sorted.{IsStrictlySortedBy};
ghost use Rattle.vfs_flags.specs.Numbers.{enomem};
ghost use Rattle.vfs_files.specs.Values.{name_text};
ghost use Rattle.vfs_files.specs.Calls.{Plain, Found, entry_answer};
ghost use Rattle.fs_nodes.specs.Held.{may_hold};
ghost use Rattle.fs_nodes.specs.Node.{weight};
ghost use Rattle.fs_tree.specs.Naming.{has_no_number, is_crowded, new_in};
ghost use Rattle.fs_tree.specs.Outcome.{HandsBack};
ghost use Rattle.fs_nodes.specs.declared.node.Node.{Node};
ghost use Rattle.fs_tree.specs.Holding.{first_held, rests};
ghost use Rattle.fs_tree.specs.State.{following, child_at, lead, node_at, room_of, with_new};
ghost use Rattle.fs_tree.specs.Tree.{makes, makes_nameless, make_refusal, first_state, forgotten, all_forgotten, released};

use crate::naming::add_name;
use bitflags::Flags;
use fs_nodes::{
    Child, Held, Kind, Node, Time, directory, first_held, is_idle, put_node, remove_node,
};
use std::alloc::Global;
use std::collections::{BTreeMap, HashSet};
use std::fmt::{self, Debug, Formatter};
use std::marker::Model;
use std::ops::Bound;
use vfs_files::{CStr, Context, Entry};
use vfs_flags::{Errno, Fault, FsOptions, GuestGid, GuestUid, ROOT_ID};

/// How much a file system holds at most.
#[derive(Clone, Copy, Debug, PartialEq, Eq)]
pub struct Capacity {
    /// How many nodes, the root among them. Each further name of a node counts as one more.
    pub nodes: u64,
    /// How many bytes: 4096 for each page of a file that is held, those of the texts of symbolic
    /// links, and those of the names and values of extended attributes with 128 for each.
    pub bytes: u64,
    /// How many bytes a file has at most, up to 2^63 - 1.
    pub file: u64,
}

/// The flag of `open(2)` by which a file without a name never gets one.
const O_EXCL: u32 = 0o200;

/// The permission bit by which a directory hands its group to what is made in it.
const SET_GROUP_ID: u32 = 0o2000;

/// A file system in memory.
///
/// What may be done by whom it leaves to the guest's kernel (the mount option
/// `default_permissions`).
#[derive(Drop)]
pub struct TreeFs {
    pub(crate) alloc: Global,
    pub(crate) nodes: BTreeMap<u64, Node>,
    // (the numbers of those that are not idle)
    pub(crate) held: Held,
    pub(crate) next: u64,
    pub(crate) used: u64,
    pub(crate) inodes: u64,
    pub(crate) limits: Capacity,
    pub(crate) writeback: bool,
    pub(crate) offered: FsOptions,
    pub(crate) now: Time,
}

impl Model for TreeFs {
    ghost use Rattle.vfs_flags.specs.Flags.{fs_options_bits};
    ghost use Rattle.fs_tree.specs.Holding.{IsSound};
    ghost use Rattle.fs_tree.specs.State.{State};

    ghost Value = { State };

    ghost view = { λ fs. record {
      nodes = fs.nodes.entries;
      next = fs.next;
      used = fs.used;
      inodes = fs.inodes;
      limits = fs.limits;
      writeback = fs.writeback;
      offered = fs_options_bits fs.offered;
      now = fs.now;
    } };

    ghost invariant = { λ fs. IsSound fs.next fs.held fs.nodes.entries };
}

/// Shows its limits, and how many nodes it holds.
impl Debug for TreeFs {
    fn fmt<W: fmt::Write>(&self, f: &mut Formatter<W>) -> fmt::Result {
        f.debug_struct("TreeFs")
            .field("limits", &self.limits)
            .field("nodes", &self.nodes.len())
            .finish_non_exhaustive()
    }
}

impl TreeFs {
    /// A new file system within these limits: a root alone, with these permission bits, which belongs
    /// to this owner and was made now. With `writeback` it asks the client to keep what is written and
    /// to write it later. ENOMEM where there is no memory for it.
    pub fn new(
        alloc: Global,
        uid: GuestUid,
        gid: GuestGid,
        permissions: u32,
        limits: Capacity,
        writeback: bool,
        now: Time,
    ) -> Result<TreeFs, Fault>
        ensures { MatchResult result
            (λ fs. fs ≡ first_state uid gid permissions limits writeback now)
            (λ fault. fault ≡ Some enomem) }
    {
        let kind = Kind::Directory;
        let mut root = Node::new(alloc, now, uid, gid, kind, permissions, ROOT_ID, &[])?;
        root.lookups = 0;
        let mut nodes = BTreeMap::new(alloc);
        put_node(&mut nodes, ROOT_ID, root)?;
        Ok(TreeFs {
            alloc,
            nodes,
            held: Held::new(alloc),
            next: ROOT_ID + 1,
            used: 0,
            inodes: 1,
            limits,
            writeback,
            offered: FsOptions::empty(),
            now,
        })
    }

    /// Says what time it is: what is made, changed or read from now on bears it.
    pub fn set_time(&mut self, now: Time)
        ensures { self.new ≡ record self.old { now = now } }
    {
        self.now = now;
    }

    /// How many more bytes the nodes may take.
    pub(crate) fn room(&self) -> u64
        ensures { result ≡ room_of self.entry.now }
    {
        self.limits.bytes.saturating_sub(self.used)
    }

    /// Whether there is no room for one node more.
    pub(crate) fn has_no_number(&self) -> bool
        ensures full { result ≡ has_no_number self.entry.now }
        ensures inodes { result ≡ false → self.entry.now.inodes < 2 ^ 64 - 1 }
        ensures number { result ≡ false → self.entry.now.next < 2 ^ 64 - 1 }
    {
        self.inodes >= self.limits.nodes || self.next == u64::MAX
    }

    // Whether a node with that many bytes can be made under this name.
    fn check_make(&self, parent: u64, name: &[u8], size: u64) -> Result<(), Errno>
        ensures ok { OnOk result (make_refusal self.entry.now parent name.now size ≡ None) }
        ensures inodes { OnOk result (self.entry.now.inodes < 2 ^ 64 - 1) }
        ensures number { OnOk result (self.entry.now.next < 2 ^ 64 - 1) }
        ensures err { IfErr result (λ errno.
            make_refusal self.entry.now parent name.now size ≡ Some errno) }
    {
        let above = self.check_name(parent, name)?;
        if self.has_no_number() || !above.children.has_place() || size > self.room() {
            return Err(Errno::ENOSPC);
        }
        Ok(())
    }

    /// Makes a node of this kind under a name that is free, and counts one lookup of it.
    pub(crate) fn make(
        &mut self,
        ctx: Context,
        kind: Kind,
        permissions: u32,
        parent: u64,
        name: CStr<'_>,
        text: &[u8],
    ) -> Result<Entry, Fault>
        ensures { HandsBack self.old
            (makes self.old ctx Found kind permissions parent (name_text name.entry) text.now)
            (Plain (entry_answer result)) self.new }
    {
        self.check_make(parent, name.to_bytes(), text.len() as u64)?;
        let node = self.new_in(ctx, kind, permissions, parent, text)?;
        let number = self.next;
        let entry = node.entry(number);
        self.add(parent, name, Child { node: number, kind }, node)?;
        Ok(entry)
    }

    /// Makes a file that no name leads to, and counts one lookup of it.
    pub(crate) fn make_nameless(
        &mut self,
        ctx: Context,
        permissions: u32,
        parent: u64,
        name: CStr<'_>,
        flags: u32,
    ) -> Result<Entry, Fault>
        ensures { HandsBack self.old
            (makes_nameless self.old ctx Found permissions parent (name_text name.entry) flags)
            (Plain (entry_answer result)) self.new }
    {
        directory(&self.nodes, parent, name.to_bytes())?;
        if self.has_no_number() {
            return Err(Some(Errno::ENOSPC));
        }
        let mut node = self.new_in(ctx, Kind::File, permissions, parent, &[])?;
        node.names = 0;
        node.is_linkable = flags & O_EXCL == 0;
        let entry = node.entry(self.next);
        self.add_node(node)?;
        Ok(entry)
    }

    /// A new node in a directory, which hands down its group where it has set-group-ID, and that to a
    /// directory too. ENOMEM where there is no memory for its text.
    pub(crate) fn new_in(
        &self,
        ctx: Context,
        kind: Kind,
        permissions: u32,
        parent: u64,
        text: &[u8],
    ) -> Result<Node, Fault>
        ensures { MatchResult result
            (λ node. node ≡ new_in self.entry.now ctx kind permissions parent text.now)
            (λ fault. fault ≡ Some enomem) }
    {
        let group = self.handed_group(parent);
        let permissions = if group.is_some() && kind.is_directory() {
            permissions | SET_GROUP_ID
        } else {
            permissions
        };
        let (alloc, now, gid) = (self.alloc, self.now, group.unwrap_or(ctx.gid));
        Node::new(alloc, now, ctx.uid, gid, kind, permissions, parent, text)
    }

    // The group that a directory hands to what is made in it.
    fn handed_group(&self, number: u64) -> Option<GuestGid>
        ensures { result ≡ option_and_then (λ node.
            if bit_and node.permissions 0o2000 == 0o2000 then Some node.gid else None)
            (node_at self.entry.now number) }
    {
        match self.nodes.get(&number) {
            Some(node) if node.permissions & SET_GROUP_ID == SET_GROUP_ID => Some(node.gid),
            _ => None,
        }
    }

    /// Adds a node under the next number, and a name that leads to a node. ENOMEM where there is no memory
    /// for them, and all stays.
    #[tactic(auto, using(crate::proofs::Nodes::remove_entry_new))]
    pub(crate) fn add(
        &mut self,
        parent: u64,
        name: CStr<'_>,
        child: Child,
        node: Node,
    ) -> Result<(), Fault>
        requires directory { IsSome (node_at self.old parent) }
        requires free { child_at self.old parent (name_text name) ≡ None }
        requires place { is_crowded (node_at self.old parent) ≡ false }
        requires number { self.old.next < 2 ^ 64 - 1 }
        requires inodes { self.old.inodes < 2 ^ 64 - 1 }
        requires room { weight node ≤ room_of self.old }
        ensures ok { OnOk result (self.new ≡
            lead (with_new self.old node) parent (name_text name.entry) false (Some child)) }
        ensures err { IfErr result (λ fault. (fault ≡ Some enomem) × (self.new ≡ self.old)) }
    {
        let number = self.next;
        let (weight, is_held) = (node.weight(), !is_idle(&node));
        put_node(&mut self.nodes, number, node)?;
        if let Err(fault) = add_name(self.alloc, &mut self.nodes, self.now, parent, name, child) {
            remove_node(&mut self.nodes, number);
            return Err(fault);
        }
        self.held.note(number, is_held);
        self.next += 1;
        self.used += weight;
        self.inodes += 1;
        Ok(())
    }

    // Adds a node under the next number. ENOMEM where there is no memory for it, and all stays.
    fn add_node(&mut self, node: Node) -> Result<(), Fault>
        requires number { self.old.next < 2 ^ 64 - 1 }
        requires inodes { self.old.inodes < 2 ^ 64 - 1 }
        requires room { weight node ≤ room_of self.old }
        ensures ok { OnOk result (self.new ≡ with_new self.old node) }
        ensures err { IfErr result (λ fault. (fault ≡ Some enomem) × (self.new ≡ self.old)) }
    {
        let (weight, is_held) = (node.weight(), !is_idle(&node));
        put_node(&mut self.nodes, self.next, node)?;
        self.held.note(self.next, is_held);
        self.next += 1;
        self.used += weight;
        self.inodes += 1;
        Ok(())
    }

    /// Lets a name, which is there or not, lead to a node from now on. Before, a new node is there under the
    /// next number, where one is given. ENOMEM where there is no memory for that, and all stays.
    pub(crate) fn lead_to(
        &mut self,
        new: Option<Node>,
        number: u64,
        name: CStr<'_>,
        is_there: bool,
        child: Child,
    ) -> Result<(), Fault>
        requires directory { IsSome (node_at self.old number) }
        requires free { is_there ≡ false → child_at self.old number (name_text name) ≡ None }
        requires place { is_there ≡ false → is_crowded (node_at self.old number) ≡ false }
        requires number { IsSome new → self.old.next < 2 ^ 64 - 1 }
        requires inodes { IsSome new → self.old.inodes < 2 ^ 64 - 1 }
        requires room { IfSome new (λ node. weight node ≤ room_of self.old) }
        ensures ok { OnOk result (self.new ≡ lead (option_map_or (with_new self.old) new self.old)
            number (name_text name.entry) is_there (Some child)) }
        ensures err { IfErr result (λ fault. (fault ≡ Some enomem) × (self.new ≡ self.old)
            × IsTrue (not is_there || is_some new)) }
    {
        let Some(node) = new else {
            if !is_there {
                return self.add_name(number, name, child);
            }
            self.lead_name(number, name.to_bytes(), Some(child));
            return Ok(());
        };
        if !is_there {
            return self.add(number, name, child, node);
        }
        self.add_node(node)?;
        self.lead_name(number, name.to_bytes(), Some(child));
        Ok(())
    }

    /// Takes back lookups of a node, which is dropped where none is left and no name leads to it.
    pub(crate) fn take_back(&mut self, number: u64, count: u64)
        ensures { self.new ≡ forgotten self.old number count }
    {
        let Some(node) = self.nodes.get(&number) else {
            return;
        };
        let left = node.lookups.saturating_sub(count);
        if node.names == 0 && left == 0 {
            let weight = node.weight();
            self.drop_node(number, weight);
            return;
        }
        self.held.pass(number, left == 0);
        if let Some(node) = self.nodes.get_mut(&number) {
            node.lookups = left;
        }
    }

    /// Drops a node that takes that many bytes.
    pub(crate) fn drop_node(&mut self, number: u64, weight: u64)
        ensures { self.new ≡ record self.old {
          nodes = remove_entry (is_at (nat_cmp number)) self.old.nodes;
          used = self.old.used - weight;
          inodes = self.old.inodes - 1;
        } }
    {
        remove_node(&mut self.nodes, number);
        self.held.pass(number, true);
        self.used = self.used.saturating_sub(weight);
        self.inodes = self.inodes.saturating_sub(1);
    }

    /// Says that a node that took that many bytes takes others now.
    pub(crate) fn reweigh(&mut self, before: u64, after: u64)
        requires { after - before ≤ room_of self.old }
        ensures { self.new ≡ record self.old {
          used = self.old.used + (after - before) - (before - after);
        } }
    {
        if before <= after {
            self.used += after - before;
        } else {
            self.used = self.used.saturating_sub(before - after);
        }
    }

    /// Takes back lookups of many nodes, in order.
    pub(crate) fn take_back_all(&mut self, requests: &[(u64, u64)])
        ensures { self.new ≡ all_forgotten self.old requests.now }
    {
        for i in 0..requests.len() {
            let (number, count) = requests[i];
            self.take_back(number, count);
        }
    }

    /// Takes back every lookup: of a client that has gone away, or before a new one.
    pub(crate) fn release(&mut self)
        ensures { self.new ≡ released self.old }
    {
        let numbers = self.held.take();
        self.release_all(numbers);
        self.held = Held::new(self.alloc);
    }

    // Takes back every lookup, where all that are not idle are of these numbers; or of any, where none are
    // given.
    fn release_all(&mut self, numbers: Option<HashSet<u64>>)
        requires { (n : ℕ) → may_hold (option_map (λ s. s.keys) numbers) n ≡ false
            → rests (node_at self.old n) ≡ true }
        ensures released { self.new ≡ released self.old }
        ensures idle { (n : ℕ) → rests (node_at self.new n) ≡ true }
    {
        let count = self.nodes.len();
        match numbers {
            Some(numbers) if numbers.len() < count => self.release_noted(&numbers),
            _ => self.release_each(),
        }
    }

    // Takes back every lookup, where all nodes that are not idle are of these numbers.
    fn release_noted(&mut self, numbers: &HashSet<u64>)
        requires noted { (n : ℕ) → list_any (nat_eq n) numbers.now.keys ≡ false
            → rests (node_at self.old n) ≡ true }
        requires ordered { IsStrictlySortedBy nat_cmp (keys_of self.old.nodes) }
        ensures { self.new ≡ released self.old }
    {
        for number in numbers {
            self.take_back_each(*number);
        }
    }

    // Takes back every lookup of a node.
    fn take_back_each(&mut self, number: u64)
        ensures { self.new ≡ forgotten self.old number
            (option_map_or (λ node. node.lookups) (node_at self.old number) 0) }
    {
        let Some(node) = self.nodes.get(&number) else {
            return;
        };
        let lookups = node.lookups;
        self.take_back(number, lookups);
    }

    // Takes back every lookup, of one node after another.
    fn release_each(&mut self)
        ensures { self.new ≡ released self.old }
    {
        let mut done = None;
        for _i in 0..self.nodes.len() {
            let Some((number, lookups)) = self.held_after(done) else {
                return;
            };
            self.take_back(number, lookups);
            done = Some(number);
        }
    }

    // The first node that is not idle of those with a greater number than this, or of all, and how many
    // lookups of it are held.
    fn held_after(&self, number: Option<u64>) -> Option<(u64, u64)>
        ensures held { result ≡ first_held (following number self.entry.now.nodes) }
        ensures ordered { IsStrictlySortedBy nat_cmp (keys_of self.entry.now.nodes) }
    {
        match number {
            None => first_held(self.nodes.range(..)),
            Some(number) => first_held(
                self.nodes
                    .range((Bound::Excluded(number), Bound::Unbounded)),
            ),
        }
    }
}
