//! RENAME: a name leads elsewhere, in one directory or from one to another.

ghost use Rattle.std.specs.Prelude.{◌≡◌, ◌<◌, nat_le, ◌-◌, ◌^◌, ◌&&◌, ◌||◌, ◌==◌, true, false, length, IsTrue, IsSome, Some, None, is_none, is_some, option_map, IfErr, IfOk, OnOk, if◌then◌else◌};
ghost use Rattle.std.specs.Option.{option_copied, option_map_or};
ghost use Rattle.vfs_flags.specs.Numbers.{enomem};
ghost use Rattle.vfs_files.specs.Values.{name_text};
ghost use Rattle.fs_tree.specs.Naming.{is_crowded};
ghost use Rattle.fs_tree.specs.Rename.{is_below, is_own_child, moved_into, parent_of, rename_refusal, renamed, same_node, whiteout};
ghost use Rattle.fs_tree.specs.State.{child_at, node_at, node_of, unnamed};

use crate::fs::TreeFs;
use fs_nodes::{
    Child, Kind, Node, holds_names, is_directory, is_improper, is_same, is_served, leaves_whiteout,
    replaced,
};
use vfs_files::{CStr, Context};
use vfs_flags::{Errno, Fault, RENAME_EXCHANGE, RENAME_NOREPLACE, ROOT_ID};

impl TreeFs {
    /// Whether a name that leads to `moved` can give it to one of `into` that leads to `target`.
    pub(crate) fn check_rename(
        &self,
        olddir: u64,
        newdir: u64,
        into: &Node,
        newname: &[u8],
        flags: u32,
        moved: Option<Child>,
        target: Option<Child>,
    ) -> Result<(), Errno>
        requires { node_at self.now newdir ≡ Some into.now }
        ensures ok { OnOk result (rename_refusal self.entry.now olddir newdir newname.now flags
            moved target ≡ None) }
        ensures err { IfErr result (λ errno. rename_refusal self.entry.now olddir newdir
            newname.now flags moved target ≡ Some errno) }
        ensures place { OnOk result (target ≡ None
            → is_crowded (node_at self.entry.now newdir) ≡ false) }
        ensures number { OnOk result (nat_le 4 flags ≡ true → same_node moved target ≡ false
            → self.entry.now.next < 2 ^ 64 - 1) }
        ensures inodes { OnOk result (nat_le 4 flags ≡ true → same_node moved target ≡ false
            → self.entry.now.inodes < 2 ^ 64 - 1) }
    {
        let node = self.node_of(moved);
        let old = self.node_of(replaced(flags, moved, target));
        if !is_served(flags) {
            return Err(Errno::EINVAL);
        }
        if node.is_none() || into.names == 0 {
            return Err(Errno::ENOENT);
        }
        if flags & RENAME_NOREPLACE == RENAME_NOREPLACE && target.is_some() {
            return Err(Errno::EEXIST);
        }
        if flags == RENAME_EXCHANGE && self.node_of(target).is_none() {
            return Err(Errno::ENOENT);
        }
        if self.is_own_child(moved, newdir)
            || flags == RENAME_EXCHANGE && self.is_own_child(target, olddir)
        {
            return Err(Errno::EINVAL);
        }
        if target.is_none() && is_improper(newname) {
            return Err(Errno::EINVAL);
        }
        if target.is_none() && !into.children.has_place() {
            return Err(Errno::ENOSPC);
        }
        if is_directory(old) && !is_directory(node) {
            return Err(Errno::EISDIR);
        }
        if is_directory(node) && old.is_some() && !is_directory(old) {
            return Err(Errno::ENOTDIR);
        }
        if holds_names(old) {
            return Err(Errno::ENOTEMPTY);
        }
        if leaves_whiteout(flags) && !is_same(moved, target) && self.has_no_number() {
            return Err(Errno::ENOSPC);
        }
        Ok(())
    }

    // The node that a name leads to.
    fn node_of(&self, child: Option<Child>) -> Option<&Node>
        ensures { option_copied result ≡ node_of self.entry.now child }
    {
        self.nodes.get(&child?.node)
    }

    // Whether a directory would come to lie in itself.
    fn is_own_child(&self, child: Option<Child>, number: u64) -> bool
        ensures { result ≡ is_own_child self.entry.now child number }
    {
        let Some(child) = child else {
            return false;
        };
        match self.nodes.get(&child.node) {
            Some(node) if node.kind.is_directory() => self.is_below(child.node, number),
            _ => false,
        }
    }

    // Whether a directory is a node or lies below it.
    fn is_below(&self, number: u64, start: u64) -> bool
        ensures { result ≡ is_below self.entry.now (length self.entry.now.nodes) number start }
    {
        let mut at = start;
        for _ in 0..self.nodes.len() {
            if at == number {
                return true;
            }
            if at == ROOT_ID {
                return false;
            }
            at = self.parent_of(at);
        }
        true
    }

    // The directory that a directory lies in.
    fn parent_of(&self, number: u64) -> u64
        ensures { result ≡ parent_of (node_at self.entry.now number) }
    {
        match self.nodes.get(&number) {
            Some(node) => node.parent,
            None => ROOT_ID,
        }
    }

    /// Lets a name lead to a node, and the one that led there nowhere, or to `target` by
    /// `RENAME_EXCHANGE`, or to a new whiteout by `RENAME_WHITEOUT`. ENOMEM where there is no memory for
    /// a new name or node, and all stays.
    pub(crate) fn move_child(
        &mut self,
        ctx: Context,
        olddir: u64,
        oldname: CStr<'_>,
        newdir: u64,
        newname: CStr<'_>,
        flags: u32,
        child: Child,
        target: Option<Child>,
    ) -> Result<(), Fault>
        requires directory { IsSome (node_at self.old newdir) }
        requires target { child_at self.old newdir (name_text newname) ≡ target }
        requires place { target ≡ None → is_crowded (node_at self.old newdir) ≡ false }
        requires number { nat_le 4 flags ≡ true → self.old.next < 2 ^ 64 - 1 }
        requires inodes { nat_le 4 flags ≡ true → self.old.inodes < 2 ^ 64 - 1 }
        ensures ok { OnOk result (self.new ≡ renamed self.old ctx olddir
            (name_text oldname.entry) newdir (name_text newname.entry) flags target child) }
        ensures err { IfErr result (λ fault. (fault ≡ Some enomem) × (self.new ≡ self.old)
            × IsTrue (is_none target || nat_le 4 flags)) }
    {
        let white = self.new_whiteout(ctx, olddir, flags)?;
        let back = self.way_back(flags, target, &white);
        self.lead_to(white, newdir, newname, target.is_some(), child)?;
        self.lead_name(olddir, oldname.to_bytes(), back);
        self.move_into(child.node, newdir);
        self.leave_target(olddir, flags, target);
        Ok(())
    }

    // The whiteout that takes the old name, where one does.
    fn new_whiteout(&self, ctx: Context, olddir: u64, flags: u32) -> Result<Option<Node>, Fault>
        ensures ok { IfOk result (λ white. white ≡
            (if nat_le 4 flags then Some (whiteout self.entry.now ctx olddir) else None)) }
        ensures err { IfErr result (λ fault.
            (fault ≡ Some enomem) × IsTrue (nat_le 4 flags)) }
    {
        if !leaves_whiteout(flags) {
            return Ok(None);
        }
        let mut node = self.new_in(ctx, Kind::Character(0), 0, olddir, &[])?;
        node.lookups = 0;
        Ok(Some(node))
    }

    // Where the old name leads then.
    fn way_back(&self, flags: u32, target: Option<Child>, white: &Option<Node>) -> Option<Child>
        ensures { result ≡ (if flags == 2 then target
            else option_map (λ node. record { node = self.entry.now.next; kind = node.kind })
            white.now) }
    {
        if flags == RENAME_EXCHANGE {
            return target;
        }
        match white {
            Some(node) => Some(Child {
                node: self.next,
                kind: node.kind,
            }),
            None => None,
        }
    }

    // What the new name led to lies where the old one is, or has one name less.
    fn leave_target(&mut self, olddir: u64, flags: u32, target: Option<Child>)
        ensures { self.new ≡ option_map_or (λ old. if flags == 2
            then moved_into self.old old.node olddir else unnamed self.old old.node)
            target self.old }
    {
        let Some(old) = target else {
            return;
        };
        if flags == RENAME_EXCHANGE {
            self.move_into(old.node, olddir);
        } else {
            self.lose_name(old.node);
        }
    }
}
