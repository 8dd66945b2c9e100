//! What small file systems answer, at work: one that keeps files in memory, and a tree that is only read.

ghost use Rattle.std.specs.Prelude.{◌≡◌, ◌<◌, ◌≤◌, ◌+◌, ℕ, Bool, List, [], ◌∷◌, length, codes, Option, Some, None, Ok, Err, IfSome, IsTrue};
ghost use Rattle.std.specs.Duration.{as_nanos};
ghost use Rattle.std.specs.declared.time.Duration.{Duration};
ghost use Rattle.vfs_wire.specs.declared.attributes.Attr.{Attr};
ghost use Rattle.vfs_files.specs.Calls.{Answer, Attributes, Create, Created, Done, Failed, Found, Getattr, Iterator, Lookup, Mkdir, Plain, Read, Readdir, Unlink, Write, Wrote};
ghost use Rattle.vfs_files.specs.Values.{ExtensionValues, Item};
ghost use Rattle.vfs_files.specs.declared.entry.Context.{Context};
ghost use Rattle.vfs_files.specs.declared.entry.Entry.{Entry};
ghost use Rattle.fs_small.specs.Index.{AddsWith};
ghost use Rattle.fs_small.specs.MemFs.{MemFsAllows, Stock};
ghost use Rattle.fs_small.specs.ReadOnly.{TreeHands, item_at};
ghost use Rattle.fs_small.specs.Tables.{ItemsAgree, Named, Tables};
ghost use Rattle.test_uses.specs.Files.{one_file, two_files};

use fs_small::{ReadTree, name_position};

/// A file in memory is found by its name, with its number and its length, which hold for a second. Of a name or a number
/// that isn't there the answer is ENOENT, 2; and attributes are answered by nothing else.
fn a_file_is_found()
    ensures entry { (ctx : Context) (entry : Entry) (new : Stock) →
        MemFsAllows (one_file (codes "hello")) (Lookup ctx 1 (codes "a")) (Plain (Found entry)) new →
        (entry.inode ≡ 2) × (entry.generation ≡ 0) × (entry.attr.size ≡ 5) }
    ensures no_name { (ctx : Context) (fault : Option ℕ) (new : Stock) →
        MemFsAllows (one_file (codes "hello")) (Lookup ctx 1 (codes "b")) (Plain (Failed fault)) new →
        fault ≡ Some 2 }
    ensures attributes { (ctx : Context) (handle : Option ℕ) (found : Attr) (timeout : Duration)
        (new : Stock) →
        MemFsAllows (one_file (codes "hello")) (Getattr ctx 2 handle) (Plain (Attributes found timeout))
        new →
        (found.size ≡ 5) × (as_nanos timeout ≡ 1_000_000_000) }
    ensures no_number { (ctx : Context) (handle fault : Option ℕ) (new : Stock) →
        MemFsAllows (one_file (codes "hello")) (Getattr ctx 3 handle) (Plain (Failed fault)) new →
        fault ≡ Some 2 }
    ensures nothing_else { (ctx : Context) (handle : Option ℕ) (new : Stock) →
        MemFsAllows (one_file (codes "hello")) (Getattr ctx 2 handle) (Plain Done) new → ⊥ }
{}

/// A file that is taken out is gone, and where there is none of that name, which is ENOENT, the others stay.
fn a_file_is_taken_out()
    ensures gone { (ctx : Context) (answer : Answer) (new : Stock) →
        MemFsAllows (one_file (codes "hello")) (Unlink ctx 1 (codes "a")) (Plain answer) new →
        (answer ≡ Done) × (new.files ≡ []) }
    ensures missing { (ctx : Context) (answer : Answer) (new : Stock) →
        MemFsAllows (one_file (codes "hello")) (Unlink ctx 1 (codes "b")) (Plain answer) new →
        (answer ≡ Failed (Some 2)) × (new ≡ one_file (codes "hello")) }
{}

/// A file that is made has the next number and no bytes, and is open without a handle. Where there is no memory for it,
/// ENOMEM, 12, or the name is taken, EEXIST, 17, the files stay; and a CREATE is answered by nothing else.
fn a_file_is_made()
    ensures made { (ctx : Context) (mode : ℕ) (kill_priv : Bool) (flags umask : ℕ) (ext : ExtensionValues)
        (entry : Entry) (handle : Option ℕ) (options : ℕ) (new : Stock) →
        MemFsAllows (one_file (codes "hello"))
        (Create ctx 1 (codes "b") mode kill_priv flags umask ext)
        (Plain (Created entry handle options))
        new →
        (entry.inode ≡ 3) × (handle ≡ None) × (options ≡ 0) × (new ≡ two_files) }
    ensures no_memory { (ctx : Context) (mode : ℕ) (kill_priv : Bool) (flags umask : ℕ)
        (ext : ExtensionValues) (fault : Option ℕ) (new : Stock) →
        MemFsAllows (one_file (codes "hello"))
        (Create ctx 1 (codes "b") mode kill_priv flags umask ext)
        (Plain (Failed fault))
        new →
        (fault ≡ Some 12) × (new ≡ one_file (codes "hello")) }
    ensures taken { (ctx : Context) (mode : ℕ) (kill_priv : Bool) (flags umask : ℕ)
        (ext : ExtensionValues) (answer : Answer) (new : Stock) →
        MemFsAllows (one_file (codes "hello"))
        (Create ctx 1 (codes "a") mode kill_priv flags umask ext)
        (Plain answer)
        new →
        (answer ≡ Failed (Some 17)) × (new ≡ one_file (codes "hello")) }
    ensures nothing_else { (ctx : Context) (mode : ℕ) (kill_priv : Bool) (flags umask : ℕ)
        (ext : ExtensionValues) (new : Stock) →
        MemFsAllows (one_file (codes "hello"))
        (Create ctx 1 (codes "b") mode kill_priv flags umask ext)
        (Plain Done)
        new → ⊥ }
{}

/// A file that is added with its bytes has the next number, and the number after it is next; where there is no memory for
/// it, ENOMEM, the files stay.
fn a_file_is_added()
    ensures added { (name contents : List ℕ) (entry : Entry) (old new : Stock) →
        AddsWith old name contents (Ok entry) new →
        (entry.inode ≡ old.next) × (new.next ≡ old.next + 1) }
    ensures no_memory { (name contents : List ℕ) (fault : Option ℕ) (old new : Stock) →
        AddsWith old name contents (Err fault) new → (fault ≡ Some 12) × (new ≡ old) }
{}

/// Bytes that are written over others take their place. What would make a file longer may lack memory, ENOMEM, and then
/// the files stay; what would not, lacks none. Of a number that isn't there a write or a read answers ENOENT, and a write
/// is answered by nothing else.
fn a_file_is_written()
    ensures over { (ctx : Context) (handle : ℕ) (owner : Option ℕ) (delayed kill_priv : Bool) (flags : ℕ)
        (count : ℕ) (new : Stock) →
        MemFsAllows (one_file (codes "hello"))
        (Write ctx 2 handle (codes "abc") 3 0 owner delayed kill_priv flags)
        (Plain (Wrote count))
        new →
        (count ≡ 3) × (new ≡ one_file (codes "abclo")) }
    ensures no_memory { (ctx : Context) (handle : ℕ) (owner : Option ℕ) (delayed kill_priv : Bool)
        (flags : ℕ) (fault : Option ℕ) (new : Stock) →
        MemFsAllows (one_file (codes "hello"))
        (Write ctx 2 handle (codes "abc") 3 5 owner delayed kill_priv flags)
        (Plain (Failed fault))
        new →
        (fault ≡ Some 12) × (new ≡ one_file (codes "hello")) }
    ensures within { (ctx : Context) (handle : ℕ) (owner : Option ℕ) (delayed kill_priv : Bool)
        (flags : ℕ) (fault : Option ℕ) (new : Stock) →
        MemFsAllows (one_file (codes "hello"))
        (Write ctx 2 handle (codes "abc") 3 2 owner delayed kill_priv flags)
        (Plain (Failed fault))
        new → ⊥ }
    ensures no_bytes { (ctx : Context) (handle : ℕ) (owner : Option ℕ) (delayed kill_priv : Bool)
        (flags : ℕ) (fault : Option ℕ) (new : Stock) →
        MemFsAllows (one_file (codes "hello"))
        (Write ctx 2 handle [] 0 9 owner delayed kill_priv flags)
        (Plain (Failed fault))
        new → ⊥ }
    ensures no_number { (ctx : Context) (handle : ℕ) (owner : Option ℕ) (delayed kill_priv : Bool)
        (flags : ℕ) (answer : Answer) (new : Stock) →
        MemFsAllows (one_file (codes "hello"))
        (Write ctx 3 handle (codes "abc") 3 0 owner delayed kill_priv flags)
        (Plain answer)
        new →
        (answer ≡ Failed (Some 2)) × (new ≡ one_file (codes "hello")) }
    ensures nothing_else { (ctx : Context) (handle : ℕ) (owner : Option ℕ) (delayed kill_priv : Bool)
        (flags : ℕ) (new : Stock) →
        MemFsAllows (one_file (codes "hello"))
        (Write ctx 2 handle (codes "abc") 3 0 owner delayed kill_priv flags)
        (Plain Done)
        new → ⊥ }
    ensures no_number_read { (ctx : Context) (handle room size offset : ℕ) (owner : Option ℕ)
        (flags : ℕ) (answer : Answer) (new : Stock) →
        MemFsAllows (one_file (codes "hello"))
        (Read ctx 3 handle room size offset owner flags)
        (Plain answer)
        new →
        answer ≡ Failed (Some 2) }
{}

/// A call that files in memory don't serve has its answer by default, ENOSYS, 38, for one that makes a directory, and
/// changes nothing; and no call but READDIR is handed an iterator.
fn other_calls_of_files()
    ensures not_served { (ctx : Context) (parent : ℕ) (name : List ℕ) (mode umask : ℕ)
        (ext : ExtensionValues) (answer : Answer) (old new : Stock) →
        MemFsAllows old (Mkdir ctx parent name mode umask ext) (Plain answer) new →
        (answer ≡ Failed (Some 38)) × (new ≡ old) }
    ensures no_iterator { (ctx : Context) (parent : ℕ) (name : List ℕ) (items : List Item)
        (old new : Stock) →
        MemFsAllows old (Lookup ctx parent name) (Iterator items) new → ⊥ }
{}

/// The entry of a name in a tree that is only read is that of its node, with the node's attributes; of a name that isn't
/// there, or whose node has none, the answer is ENOENT. A LOOKUP is answered by nothing else.
fn a_name_in_a_tree()
    ensures entry { (t : Tables) (ctx : Context) (attr : Attr) (entry : Entry) →
        t.child 1 (codes "a") ≡ Some 2 → t.attr 2 ≡ Some attr →
        TreeHands t (Lookup ctx 1 (codes "a")) (Plain (Found entry)) →
        (entry.inode ≡ 2) × (entry.attr ≡ attr) }
    ensures no_node { (t : Tables) (ctx : Context) (answer : Answer) →
        t.child 1 (codes "a") ≡ Some 2 → t.attr 2 ≡ None →
        TreeHands t (Lookup ctx 1 (codes "a")) (Plain answer) → answer ≡ Failed (Some 2) }
    ensures no_name { (t : Tables) (ctx : Context) (items : List Named) (answer : Answer) →
        t.child 1 (codes "a") ≡ None → t.items 1 ≡ Some items →
        TreeHands t (Lookup ctx 1 (codes "a")) (Plain answer) → answer ≡ Failed (Some 2) }
    ensures nothing_else { (t : Tables) (ctx : Context) (attr : Attr) →
        t.child 1 (codes "a") ≡ Some 2 → t.attr 2 ≡ Some attr →
        TreeHands t (Lookup ctx 1 (codes "a")) (Plain Done) → ⊥ }
    ensures no_iterator { (t : Tables) (ctx : Context) (items : List Item) →
        TreeHands t (Lookup ctx 1 (codes "a")) (Iterator items) → ⊥ }
{}

/// The attributes of a node in a tree that is only read are those of its table, and hold for a second.
fn attributes_in_a_tree()
    ensures there { (t : Tables) (ctx : Context) (handle : Option ℕ) (attr found : Attr)
        (timeout : Duration) → t.attr 2 ≡ Some attr →
        TreeHands t (Getattr ctx 2 handle) (Plain (Attributes found timeout)) →
        (found ≡ attr) × (as_nanos timeout ≡ 1_000_000_000) }
    ensures missing { (t : Tables) (ctx : Context) (handle : Option ℕ) (answer : Answer) →
        t.attr 2 ≡ None → TreeHands t (Getattr ctx 2 handle) (Plain answer) →
        answer ≡ Failed (Some 2) }
    ensures nothing_else { (t : Tables) (ctx : Context) (handle : Option ℕ) (attr : Attr) →
        t.attr 2 ≡ Some attr → TreeHands t (Getattr ctx 2 handle) (Plain Done) → ⊥ }
{}

/// A reading of a directory of two items that goes on after the first has the second; of a node that is no directory it is
/// ENOTDIR, 20; and a directory is answered by nothing but an iterator.
fn a_directory_in_a_tree()
    ensures second { (t : Tables) (ctx : Context) (handle size : ℕ) (a b : Named) (left : List Item) →
        t.items 1 ≡ Some (a ∷ b ∷ []) → TreeHands t (Readdir ctx 1 handle size 1) (Iterator left) →
        left ≡ item_at 2 b ∷ [] }
    ensures no_directory { (t : Tables) (ctx : Context) (handle size offset : ℕ) (attr : Attr)
        (answer : Answer) → t.items 2 ≡ None → t.attr 2 ≡ Some attr →
        TreeHands t (Readdir ctx 2 handle size offset) (Plain answer) → answer ≡ Failed (Some 20) }
    ensures nothing_else { (t : Tables) (ctx : Context) (handle size offset : ℕ) (items : List Named)
        (answer : Answer) → t.items 1 ≡ Some items →
        TreeHands t (Readdir ctx 1 handle size offset) (Plain answer) → ⊥ }
{}

/// The place of a name is one of the list's.
fn place_of_four(names: &[&[u8]], name: &[u8]) -> Option<usize>
    requires { length names.now ≤ 4 }
    ensures { IfSome result (λ place. place < 4) }
{
    name_position(names, name)
}

/// The size in the attributes of a file of a tree that is only read is the length of its contents.
fn size_of_contents<T: ReadTree>(tree: &T, node: u64) -> bool
    ensures { IsTrue result }
{
    match (tree.attr(node), tree.contents(node)) {
        (Some(attr), Some(bytes)) => attr.size == bytes.len() as u64,
        _ => true,
    }
}

/// Only a directory has children, and each of them has attributes.
fn child_of_a_directory<T: ReadTree>(tree: &T, parent: u64, name: &[u8]) -> bool
    ensures { IsTrue result }
{
    match tree.child(parent, name) {
        Some(node) => tree.is_directory(parent) && tree.attr(node).is_some(),
        None => true,
    }
}

/// A name that a directory lists beside `.` and `..` is found there, with the node of its item.
fn items_are_children()
    ensures { (t : Tables) (dot item : Named) → ItemsAgree t →
        t.items 1 ≡ Some (dot ∷ item ∷ []) → item.name ≡ codes "a" →
        t.child 1 (codes "a") ≡ Some item.node }
{}
