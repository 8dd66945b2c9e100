//! A file system in memory: a root directory, and files in it.
ghost use Rattle.std.specs.Prelude.{◌≡◌, ◌==◌, ◌<◌, ◌^◌, ◌-◌, position, remove, length, Some, None, IfSome, MatchResult};
ghost use Rattle.std.specs.List.{AllPairs};
ghost use Rattle.std.specs.Option.{option_copied};
ghost use Rattle.vfs_flags.specs.Numbers.{enoent, enomem};
ghost use Rattle.vfs_files.specs.Values.{name_text};
ghost use Rattle.fs_small.specs.MemFs.{file_attr, first_stock, IsEntryOf, file_named, file_at, node_place};
ghost use Rattle.fs_small.specs.Index.{file_place, AddsWith, ComesBefore};

use crate::memfile::MemFile;
use crate::{node_attr, node_entry};
use std::alloc::Global;
use std::collections::BTreeMap;
use std::marker::Model;
use vfs_files::{CStr, CString, Entry, copy_of};
use vfs_flags::{Errno, Fault, ROOT_ID, S_IFDIR, S_IFREG};
use vfs_wire::Attr;

/// How long a client may rely on an answer.
const TIMEOUT_SECONDS: u64 = 1;

/// The kind and permissions of the root.
const ROOT_MODE: u32 = S_IFDIR | 0o755;

/// The kind and permissions of a file.
const FILE_MODE: u32 = S_IFREG | 0o644;

/// The most files that there can be.
const MOST_FILES: usize = 1000;

mod calls;
mod entries;

/// A file of the root.
#[derive(Debug, Drop)]
struct File {
    node: u64,
    name: CString,
    contents: MemFile,
}

impl Model for File {
    ghost use Rattle.fs_small.specs.MemFs.{Stored};

    ghost Value = { Stored };

    ghost view = { λ file. record {
      node = file.node;
      name = file.name;
      contents = file.contents;
    } };
}

/// A file system in memory. It has a root directory, node 1, and begins with one file in it: node
/// 2, named `a`, with the contents `hello`. It says of each answer that it holds for a second.
///
/// Files are not opened: `read` and `write` find them by their node alone, whatever the handle is.
/// The files themselves are [`MemFile`]s. The root is not opened either: `readdir` gives what it
/// holds at the call, from an offset on.
///
/// The files are kept in order of their nodes, with an index of these by name: a call goes through
/// a few of them, however many there are.
#[derive(Debug, Drop)]
pub struct MemFs {
    alloc: Global,
    files: Vec<File>,
    names: BTreeMap<Vec<u8>, u64>,
    next: u64,
}

impl Model for MemFs {
    ghost use Rattle.fs_small.specs.MemFs.{Stock};
    ghost use Rattle.fs_small.specs.Index.{AreIndexed};

    ghost Value = { Stock };

    ghost view = { λ fs. record { files = fs.files.items; next = fs.next } };

    ghost invariant = { λ fs. AreIndexed fs.files.items fs.names fs.next };
}

impl MemFs {
    /// A new file system, with its one file. ENOMEM where there is no memory for it, and no other
    /// fault.
    pub fn new(alloc: Global) -> Result<MemFs, Fault>
        ensures { MatchResult result (λ fs. fs ≡ first_stock) (λ fault. fault ≡ Some enomem) }
    {
        let mut fs = MemFs {
            alloc,
            files: Vec::new(alloc),
            names: BTreeMap::new(alloc),
            next: ROOT_ID + 1,
        };
        let contents = MemFile::new(copy_of(alloc, b"hello")?);
        fs.add(CStr::before_nul(b"a\0", 1), contents)?;
        Ok(fs)
    }

    // Adds a file of this name with these contents. ENOMEM where there is no memory for it, and all
    // stays.
    fn add(&mut self, name: CStr<'_>, contents: MemFile) -> Result<Entry, Fault>
        requires free { file_place self.old (name_text name) ≡ None }
        requires number { self.old.next < 2 ^ 64 - 1 }
        ensures { AddsWith self.old (name_text name.entry) contents result self.new }
    {
        let node = self.next;
        let file = File {
            node,
            name: CString::new(self.alloc, name)?,
            contents,
        };
        let key = copy_of(self.alloc, name.to_bytes())?;
        let entry = entry(&file);
        let Ok(()) = self.files.push(file) else {
            return Err(Some(Errno::ENOMEM));
        };
        let Ok(_) = self.names.insert(key, node) else {
            self.files.pop();
            return Err(Some(Errno::ENOMEM));
        };
        self.next += 1;
        Ok(entry)
    }

    // Takes out the file of this name, which is at this place.
    fn take_out(&mut self, name: &[u8], place: usize)
        requires { file_place self.old name.now ≡ Some place }
        ensures { self.new ≡ record self.old { files = remove self.old.files place } }
    {
        self.names.remove(name);
        self.files.remove(place);
    }

    // Where the file of this name is.
    fn place_of(&self, name: &[u8]) -> Option<usize>
        ensures place { result ≡ file_place self.now name.now }
        ensures within { IfSome result (λ i. i < length self.now.files) }
    {
        let node = self.names.get(name)?;
        self.place_of_node(*node)
    }

    // Where the file of this node is.
    fn place_of_node(&self, node: u64) -> Option<usize>
        ensures place { result ≡ node_place self.now node }
        ensures within { IfSome result (λ i. i < length self.now.files) }
    {
        search(&self.files, node)
    }

    // The file of this name.
    fn find_name(&self, name: &[u8]) -> Option<&File>
        ensures { option_copied result ≡ file_named self.now 1 name.now }
    {
        let place = self.place_of(name)?;
        Some(&self.files[place])
    }

    // The file of this node.
    fn find_node(&self, node: u64) -> Option<&File>
        ensures { option_copied result ≡ file_at self.now node }
    {
        let place = self.place_of_node(node)?;
        Some(&self.files[place])
    }
}

// Where the file of this node is, among files in order of their nodes.
fn search(files: &[File], node: u64) -> Option<usize>
    requires { AllPairs ComesBefore files.now }
    ensures place { result ≡ position (λ file. file.node == node) files.now }
    ensures within { IfSome result (λ i. i < length files.now) }
{
    let mut low = 0;
    let mut high = files.len();
    while low < high {
        let middle = low + (high - low) / 2;
        let file = &files[middle];
        let at = file.node;
        if at == node {
            return Some(middle);
        }
        if at < node {
            low = middle + 1;
        } else {
            high = middle;
        }
    }
    None
}

// The fault ENOENT: what was asked for is not there.
fn not_found() -> Fault
    ensures { result ≡ Some enoent }
{
    Some(Errno::ENOENT)
}

// The attributes of a file.
fn attr(file: &File) -> Attr
    ensures { result ≡ file_attr file.now }
{
    node_attr(file.node, FILE_MODE, 1, file.contents.len() as u64)
}

// The entry of a file.
fn entry(file: &File) -> Entry
    ensures { IsEntryOf file.now result }
{
    node_entry(file.node, attr(file))
}
