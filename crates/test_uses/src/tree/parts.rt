//! What a tree is made of, at work: the bytes of a file, nodes, the numbers that are held, and values.

ghost use Rattle.std.specs.Prelude.{◌≡◌, ◌≤◌, ◌<◌, ◌+◌, ◌*◌, pos, ℕ, Bool, true, false, List, length, vec_capacity, Option, Some, None, Ok, Err, IfErr, IfOk, IsOk, OnOk, Vec};
ghost use Rattle.std.specs.BTreeMap.{insert_entry, is_at, Updates};
ghost use Rattle.std.specs.Map.{remove_entry};
ghost use Rattle.std.specs.Ordering.{nat_cmp};
ghost use Rattle.std.specs.declared.alloc.Global.{Global as GlobalValue};
ghost use Rattle.vfs_files.specs.Bytes.{fitting};
ghost use Rattle.vfs_files.specs.Calls.{Failed, Handed, Plain};
ghost use Rattle.vfs_files.specs.Values.{Item, name_text};
ghost use Rattle.fs_nodes.specs.Contents.{lacking, pages_over};
ghost use Rattle.fs_nodes.specs.Pages.{IsPage, Pages, reach};
ghost use Rattle.fs_nodes.specs.Reading.{ReadsSome};
ghost use Rattle.fs_nodes.specs.Flags.{ioctl_refusal};
ghost use Rattle.fs_nodes.specs.Held.{may_hold};
ghost use Rattle.fs_nodes.specs.Statx.{statx_of};
ghost use Rattle.fs_nodes.specs.Writing.{Overwrites};
ghost use Rattle.fs_nodes.specs.Xattrs.{with_xattr, xattr_bytes};
ghost use Rattle.fs_nodes.specs.declared.node.Node.{Node as NodeValue};
ghost use Rattle.fs_nodes.specs.declared.node.Time.{Time as TimeValue};
ghost use Rattle.fs_tree.specs.Outcome.{HandsBack, Tried};
ghost use Rattle.fs_tree.specs.State.{State};

use fs_nodes::{Contents, Held, Node, Text, Xattrs, is_mode, no_device, put_node, remove_node};
use fs_tree::{Capacity, Time, TreeFs};
use std::alloc::Global;
use std::collections::BTreeMap;
use vfs_files::CStr;
use vfs_flags::{Errno, Fault, GuestGid, GuestUid};

/// FALLOCATE of zeros that keeps the size is a mode, a hole that doesn't is none.
fn modes_of_fallocate() -> (bool, bool)
    ensures { result ≡ (true, false) }
{
    (is_mode(17), is_mode(2))
}

/// How many of two pages around a border are not held.
fn pages_around_a_border(contents: &Contents) -> u64
    ensures { result ≡ lacking contents.now 4095 2 }
{
    contents.lacking(4095, 2)
}

/// Up to which place 5000 bytes can be written, where one page more can be held.
fn place_by_one_page(contents: &Contents) -> u64
    ensures { result ≡ 4096 * reach contents.now.held 1 0 (pages_over 0 5000) }
{
    contents.reach(0, 5000, 1)
}

/// Place for two bytes may lack memory, ENOMEM, only where their page is not held.
fn place_for_two_bytes(contents: &mut Contents, alloc: Global) -> Result<(), Fault>
    ensures fault { IfErr result (λ fault. fault ≡ Some 12) }
    ensures lacking { IfErr result (λ _. 0 < lacking contents.old 0 2) }
{
    contents.fallocate(alloc, 0, 0, 2)
}

/// A hole lacks no memory.
fn hole_of_two_bytes(contents: &mut Contents, alloc: Global) -> Result<(), Fault>
    ensures { IsOk result }
{
    contents.fallocate(alloc, 3, 0, 2)
}

/// A read of pages moves a byte at least where there is room; and a page has no more bytes than it has room for.
fn reads_of_pages()
    ensures some { (old new : Pages) (offset room : ℕ) (moved : List ℕ) → 0 < room →
        ReadsSome old offset room (Ok 0) moved new → ⊥ }
    ensures page { (page : Vec ℕ GlobalValue) → IsPage page → length page.items ≤ vec_capacity page }
{}

/// A write into a node fails for want of memory alone, where one of its pages is not held.
fn writes_that_fail()
    ensures { (most offset : ℕ) (now : TimeValue) (delayed kill : Bool) (old new : NodeValue)
        (bytes : List ℕ) (fault : Option ℕ) →
        Overwrites most now delayed kill old offset bytes (Err fault) new →
        (fault ≡ Some 12) × (0 < lacking old.contents offset (length (fitting most offset bytes))) }
{}

/// The reply of an IOCTL that asks for the flags of `chattr(1)` has 20 bytes, within its room; of all that are answered
/// none has more than 44, and what is refused has its error.
fn length_of_flags(node: &Node, cmd: u32, out_size: u32) -> Result<u32, Errno>
    ensures flags { cmd ≡ 0x80086601 → IfOk result (λ len. len ≡ 20) }
    ensures within { IfOk result (λ len. len ≤ 16 + out_size) }
    ensures most { IfOk result (λ len. len ≤ 44) }
    ensures served { OnOk result (ioctl_refusal cmd out_size node.now ≡ None) }
    ensures refused { IfErr result (λ errno. ioctl_refusal cmd out_size node.now ≡ Some errno) }
{
    node.ioctl_len(cmd, out_size)
}

/// At first no node is held.
fn none_is_held(alloc: Global) -> Held
    ensures { (n : ℕ) → may_hold result n ≡ false }
{
    Held::new(alloc)
}

/// A node that is put under number 9 is there, and the others stay; where there is no memory for it all stay.
fn node_that_is_put(nodes: &mut BTreeMap<u64, Node>, node: Node) -> Result<(), Fault>
    ensures entries { OnOk result (nodes.new.entries
        ≡ insert_entry nat_cmp nodes.old.entries 9 node) }
    ensures updates { OnOk result (Updates nat_cmp nodes.old nodes.new 9 (Some node)) }
    ensures fault { IfErr result (λ fault. fault ≡ Some 12) }
    ensures same { IfErr result (λ _. nodes.new.entries ≡ nodes.old.entries) }
{
    put_node(nodes, 9, node)
}

/// A node that is taken out is not there, and the others stay.
fn node_that_is_taken_out(nodes: &mut BTreeMap<u64, Node>)
    ensures entries { nodes.new.entries ≡ remove_entry (is_at (nat_cmp 9)) nodes.old.entries }
    ensures updates { Updates nat_cmp nodes.old nodes.new 9 None }
{
    remove_node(nodes, 9);
}

/// The error of a node without contents is ENODEV.
fn error_without_contents() -> i32
    ensures { result ≡ pos 19 }
{
    no_device().get()
}

/// What STATX tells of a node takes the place of 288 bytes.
fn statx_of_number_9(node: &Node, out: &mut [u8])
    requires { length out.old ≡ 288 }
    ensures { out.new ≡ statx_of 9 node.now }
{
    node.put_statx(9, out);
}

/// A copy of a text fails for want of memory alone.
fn copy_of_a_text(text: &Text, alloc: Global) -> Result<Vec<u8>, Fault>
    ensures { IfErr result (λ fault. fault ≡ Some 12) }
{
    text.copy(alloc)
}

/// So does giving an extended attribute, of those that a node may have.
fn value_that_is_given(
    xattrs: &mut Xattrs,
    alloc: Global,
    name: CStr<'_>,
    value: &[u8],
) -> Result<(), Fault>
    requires { xattr_bytes (with_xattr xattrs.old (name_text name) value.now) ≤ 65536 }
    ensures { IfErr result (λ fault. fault ≡ Some 12) }
{
    xattrs.set(alloc, name, value)
}

/// A call that is tried fails by ENOMEM alone, only where it needs memory, and then nothing changes.
fn calls_that_are_tried()
    ensures { (old left new : State) (needs : Bool) (reply : Handed (List Item)) (fault : Option ℕ) →
        HandsBack old (Tried needs reply left) (Plain (Failed fault)) new →
        (fault ≡ Some 12) × (new ≡ old) × (needs ≡ true) }
{}

/// A new tree fails for want of memory alone.
fn tree_or_no_memory(alloc: Global, limits: Capacity, now: Time) -> Result<TreeFs, Fault>
    ensures { IfErr result (λ fault. fault ≡ Some 12) }
{
    TreeFs::new(
        alloc,
        GuestUid::from(0),
        GuestGid::from(0),
        0o755,
        limits,
        false,
        now,
    )
}
