//! What is asked of nodes and names, and the errors of what is refused.

ghost use Rattle.std.specs.Prelude.{◌≡◌, ◌==◌, false, not, length, Some, None, IfOk, IfErr, OnOk};
ghost use Rattle.std.specs.BTreeMap.{get};
ghost use Rattle.std.specs.Option.{option_copied, option_map_or};
ghost use Rattle.std.specs.Ordering.{nat_cmp};
ghost use Rattle.fs_nodes.specs.Refusals.{contents_refusal, directory_refusal, is_directory_at, is_improper, namespace_refusal};

use crate::node::Node;
use std::collections::BTreeMap;
use vfs_flags::Errno;

/// The most bytes of a name.
const MOST_NAME: usize = 255;

/// The error EFBIG: a file would be longer than one may be.
pub fn too_big() -> Errno
    ensures { result ≡ 27 }
{
    match Errno::new(27) {
        Some(errno) => errno,
        None => unreachable!(),
    }
}

/// The error ENXIO: there is no such place.
pub fn no_place() -> Errno
    ensures { result ≡ 6 }
{
    match Errno::new(6) {
        Some(errno) => errno,
        None => unreachable!(),
    }
}

/// The error ENODEV: it is no file with contents.
pub fn no_device() -> Errno
    ensures { result ≡ 19 }
{
    match Errno::new(19) {
        Some(errno) => errno,
        None => unreachable!(),
    }
}

/// The error ENOTTY: there is no such command.
pub(crate) fn no_command() -> Errno
    ensures { result ≡ 25 }
{
    match Errno::new(25) {
        Some(errno) => errno,
        None => unreachable!(),
    }
}

/// The directory of this number, in which this name may be looked for.
pub fn directory<'a>(
    nodes: &'a BTreeMap<u64, Node>,
    number: u64,
    name: &[u8],
) -> Result<&'a Node, Errno>
    ensures found { IfOk result (λ node. get nat_cmp nodes.now number ≡ Some node.now) }
    ensures ok { OnOk result (directory_refusal (get nat_cmp nodes.now number) name.now ≡ None) }
    ensures err { IfErr result (λ errno.
        directory_refusal (get nat_cmp nodes.now number) name.now ≡ Some errno) }
{
    let Some(node) = nodes.get(&number) else {
        return Err(Errno::ENOENT);
    };
    if !node.kind.is_directory() {
        return Err(Errno::ENOTDIR);
    }
    if name.len() > MOST_NAME {
        return Err(Errno::ENAMETOOLONG);
    }
    Ok(node)
}

/// Whether a node is there and a directory.
pub fn is_directory(node: Option<&Node>) -> bool
    ensures { result ≡ is_directory_at (option_copied node.entry) }
{
    match node {
        Some(node) => node.kind.is_directory(),
        None => false,
    }
}

/// Whether a directory holds names.
pub fn holds_names(node: Option<&Node>) -> bool
    ensures { result ≡ option_map_or (λ node. not (length node.children.links == 0))
        (option_copied node.entry) false }
{
    match node {
        Some(node) => !node.children.is_empty(),
        None => false,
    }
}

/// Whether a name can't be made: it is empty, `.`, `..`, or has a '/'. A kernel asks for none of these.
pub fn is_improper(name: &[u8]) -> bool
    ensures { result ≡ is_improper name.now }
{
    name.is_empty() || name == b".".as_slice() || name == b"..".as_slice() || name.contains(&b'/')
}

/// Whether a node has contents that can be read and written.
pub fn check_contents(node: &Node) -> Result<(), Errno>
    ensures ok { OnOk result (contents_refusal node.now ≡ None) }
    ensures err { IfErr result (λ errno. contents_refusal node.now ≡ Some errno) }
{
    if node.kind.is_directory() {
        return Err(Errno::EISDIR);
    }
    if !node.kind.is_file() {
        return Err(Errno::EINVAL);
    }
    Ok(())
}

/// Whether there can be an extended attribute of this name.
pub fn check_namespace(name: &[u8]) -> Result<(), Errno>
    ensures ok { OnOk result (namespace_refusal name.now ≡ None) }
    ensures err { IfErr result (λ errno. namespace_refusal name.now ≡ Some errno) }
{
    let is_kept = name.starts_with(b"user.")
        || name.starts_with(b"trusted.")
        || name.starts_with(b"security.");
    if !is_kept {
        return Err(Errno::EOPNOTSUPP);
    }
    if name == b"user.".as_slice()
        || name == b"trusted.".as_slice()
        || name == b"security.".as_slice()
    {
        return Err(Errno::EINVAL);
    }
    Ok(())
}
