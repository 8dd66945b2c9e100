//! Names in directories: how they are added, taken out, and made to lead elsewhere.

ghost use Rattle.std.specs.Prelude.{◌≡◌, ℕ, ◌<◌, ◌^◌, ◌+◌, ◌-◌, min, true, false, IsSome, IfSome, Some, None, IfOk, IfErr, OnOk, option_and_then};
ghost use Rattle.std.specs.Ordering.{nat_cmp};
ghost use Rattle.std.specs.Map.{set_value};
ghost use Rattle.std.specs.BTreeMap.{get, is_at};
ghost use Rattle.vfs_flags.specs.Numbers.{enomem};
ghost use Rattle.vfs_files.specs.Values.{name_text};
ghost use Rattle.fs_nodes.specs.Children.{child_named, leading};
ghost use Rattle.fs_nodes.specs.Node.{entry_of};
ghost use Rattle.fs_tree.specs.Holding.{rests};
ghost use Rattle.fs_tree.specs.Naming.{is_directory_at, is_crowded, name_refusal};
ghost use Rattle.fs_tree.specs.Outcome.{refusal_of};
ghost use Rattle.fs_tree.specs.Rename.{moved_into};
ghost use Rattle.fs_tree.specs.State.{child_at, lead, node_at, with_node, unnamed};
ghost use Rattle.fs_tree.specs.Tree.{link_refusal, linked};

use crate::fs::TreeFs;
use fs_nodes::{Child, Node, Time, directory, is_improper};
use std::alloc::Global;
use std::collections::BTreeMap;
use vfs_files::{CStr, Entry};
use vfs_flags::{Errno, Fault};

/// The most names that lead to a file.
const MOST_LINKS: u32 = 65_000;

/// Adds a name to a directory that is there. ENOMEM where there is no memory for it, and all stays.
#[tactic(auto, using(std::proofs::lemmas::Map::Steps::set_value_same, crate::proofs::Nodes::still_free, crate::proofs::Noting::rests_same))]
pub(crate) fn add_name(
    alloc: Global,
    nodes: &mut BTreeMap<u64, Node>,
    now: Time,
    number: u64,
    name: CStr<'_>,
    child: Child,
) -> Result<(), Fault>
    requires directory { IsSome (get nat_cmp nodes.old number) }
    requires free { option_and_then (λ node. child_named node.children (name_text name))
        (get nat_cmp nodes.old number) ≡ None }
    requires place { is_crowded (get nat_cmp nodes.old number) ≡ false }
    ensures ok { OnOk result (IfSome (get nat_cmp nodes.old number) (λ node.
        nodes.new.entries ≡ set_value (is_at (nat_cmp number)) nodes.old.entries (record node {
          children = leading (name_text name.entry) false (Some child) node.children;
          mtime = now;
          ctime = now;
        }))) }
    ensures err { IfErr result (λ fault.
        (fault ≡ Some enomem) × (nodes.new.entries ≡ nodes.old.entries)) }
    ensures free { (n : ℕ) → get nat_cmp nodes.old n ≡ None → get nat_cmp nodes.new n ≡ None }
    ensures idle { (n : ℕ) → rests (get nat_cmp nodes.new n) ≡ rests (get nat_cmp nodes.old n) }
{
    let Some(node) = nodes.get_mut(&number) else {
        unreachable!()
    };
    node.children.add(alloc, name, child)?;
    node.mtime = now;
    node.ctime = now;
    Ok(())
}

impl TreeFs {
    /// Adds a name to a directory. ENOMEM where there is no memory for it, and all stays.
    pub(crate) fn add_name(
        &mut self,
        number: u64,
        name: CStr<'_>,
        child: Child,
    ) -> Result<(), Fault>
        requires directory { IsSome (node_at self.old number) }
        requires free { child_at self.old number (name_text name) ≡ None }
        requires place { is_crowded (node_at self.old number) ≡ false }
        ensures ok { OnOk result (self.new ≡
            lead self.old number (name_text name.entry) false (Some child)) }
        ensures err { IfErr result (λ fault. (fault ≡ Some enomem) × (self.new ≡ self.old)) }
    {
        add_name(self.alloc, &mut self.nodes, self.now, number, name, child)
    }

    /// Lets a name of a directory that is there lead elsewhere, or nowhere.
    #[tactic(auto, using(crate::proofs::Noting::rests_same))]
    pub(crate) fn lead_name(&mut self, number: u64, name: &[u8], child: Option<Child>)
        ensures { self.new ≡ lead self.old number name.now true child }
    {
        let now = self.now;
        let Some(node) = self.nodes.get_mut(&number) else {
            return;
        };
        node.children.set(name, child);
        node.mtime = now;
        node.ctime = now;
    }

    /// One name less leads to a node, which is dropped where none is left and no lookup is held.
    pub(crate) fn lose_name(&mut self, number: u64)
        ensures { self.new ≡ unnamed self.old number }
    {
        let Some(node) = self.nodes.get(&number) else {
            return;
        };
        let left = node.names.saturating_sub(1);
        let (lookups, weight) = (node.lookups, node.weight());
        self.inodes = self.inodes.saturating_sub(u64::from(left.min(1)));
        if lookups == 0 && left == 0 {
            self.drop_node(number, weight);
            return;
        }
        let now = self.now;
        if let Some(node) = self.nodes.get_mut(&number) {
            node.names = left;
            node.ctime = now;
        }
    }

    /// Says in which directory a node lies.
    #[tactic(auto, using(crate::proofs::Noting::rests_same))]
    pub(crate) fn move_into(&mut self, number: u64, directory: u64)
        ensures { self.new ≡ moved_into self.old number directory }
    {
        let now = self.now;
        if let Some(node) = self.nodes.get_mut(&number) {
            node.parent = directory;
            node.ctime = now;
        }
    }

    /// The directory of this number, in which this new name can be made.
    pub(crate) fn check_name(&self, parent: u64, name: &[u8]) -> Result<&Node, Errno>
        ensures found { IfOk result (λ node. node_at self.entry.now parent ≡ Some node.now) }
        ensures ok { OnOk result (name_refusal self.entry.now parent name.now ≡ None) }
        ensures err { IfErr result (λ errno.
            name_refusal self.entry.now parent name.now ≡ Some errno) }
    {
        let above = directory(&self.nodes, parent, name)?;
        if above.names == 0 {
            return Err(Errno::ENOENT);
        }
        if is_improper(name) {
            return Err(Errno::EINVAL);
        }
        if above.children.get(name).is_some() {
            return Err(Errno::EEXIST);
        }
        Ok(above)
    }

    /// Whether one more name can lead to a node, and where it leads.
    pub(crate) fn check_link(&self, number: u64, parent: u64, name: &[u8]) -> Result<Child, Fault>
        ensures child { IfOk result (λ child. IfSome (node_at self.entry.now number) (λ node.
            child ≡ record { node = number; kind = node.kind })) }
        ensures ok { OnOk result (refusal_of (node_at self.entry.now number)
            (link_refusal self.entry.now parent name.now) ≡ None) }
        ensures there { OnOk result (IsSome (node_at self.entry.now number)) }
        ensures file { OnOk result (is_directory_at (node_at self.entry.now number) ≡ false) }
        ensures above { OnOk result (is_directory_at (node_at self.entry.now parent) ≡ true) }
        ensures place { OnOk result (is_crowded (node_at self.entry.now parent) ≡ false) }
        ensures names { OnOk result (IfSome (node_at self.entry.now number) (λ node.
            node.names < MOST_LINKS)) }
        ensures lookups { OnOk result (IfSome (node_at self.entry.now number) (λ node.
            node.lookups < 2 ^ 64 - 1)) }
        ensures inodes { OnOk result (IfSome (node_at self.entry.now number) (λ node.
            self.entry.now.inodes + min node.names 1 < 2 ^ 64)) }
        ensures err { IfErr result (λ fault. IfSome fault (λ errno.
            refusal_of (node_at self.entry.now number)
            (link_refusal self.entry.now parent name.now) ≡ Some errno)) }
        ensures known { IfErr result IsSome }
    {
        let Some(node) = self.nodes.get(&number) else {
            return Err(Some(Errno::ENOENT));
        };
        let above = self.check_name(parent, name)?;
        if node.kind.is_directory() {
            return Err(Some(Errno::EPERM));
        }
        if node.names == 0 && !node.is_linkable {
            return Err(Some(Errno::ENOENT));
        }
        if node.names >= MOST_LINKS {
            return Err(Errno::new(31));
        }
        if node.lookups == u64::MAX {
            return Err(Some(Errno::EOVERFLOW));
        }
        if self.inodes >= self.limits.nodes && node.names != 0 {
            return Err(Some(Errno::ENOSPC));
        }
        if !above.children.has_place() {
            return Err(Some(Errno::ENOSPC));
        }
        Ok(Child {
            node: number,
            kind: node.kind,
        })
    }

    /// Counts one name and one lookup more of a node that is there, and gives its entry. For a further name an
    /// inode is counted.
    pub(crate) fn count_link(&mut self, number: u64) -> Entry
        requires there { IsSome (node_at self.old number) }
        requires names { IfSome (node_at self.old number) (λ node. node.names < MOST_LINKS) }
        requires lookups { IfSome (node_at self.old number) (λ node. node.lookups < 2 ^ 64 - 1) }
        requires inodes { IfSome (node_at self.old number) (λ node.
            self.old.inodes + min node.names 1 < 2 ^ 64) }
        ensures { IfSome (node_at self.old number) (λ node.
            (result ≡ entry_of number (linked self.old.now node))
            × (self.new ≡ with_node (record self.old { inodes = self.old.inodes + min node.names 1 })
            number (linked self.old.now node))) }
    {
        let now = self.now;
        let Some(node) = self.nodes.get_mut(&number) else {
            unreachable!()
        };
        self.inodes += u64::from(node.names.min(1));
        self.held.note(number, node.lookups == 0);
        node.names += 1;
        node.is_linkable = false;
        node.lookups += 1;
        node.ctime = now;
        node.entry(number)
    }
}
