//! What flags of RENAME say, and whether its names lead to one node.

ghost use Rattle.std.specs.Prelude.{◌≡◌, ◌==◌, ◌||◌, nat_le, None, if◌then◌else◌};
ghost use Rattle.fs_nodes.specs.Renames.{is_served, same_node};

use crate::children::Child;
use vfs_flags::{RENAME_EXCHANGE, RENAME_NOREPLACE, RENAME_WHITEOUT};

/// Whether RENAME has these flags: `RENAME_WHITEOUT` goes with `RENAME_NOREPLACE` alone.
pub fn is_served(flags: u32) -> bool
    ensures { result ≡ is_served flags }
{
    flags <= RENAME_EXCHANGE
        || flags == RENAME_WHITEOUT
        || flags == RENAME_WHITEOUT | RENAME_NOREPLACE
}

/// Whether a whiteout takes the old name, by flags that RENAME has.
pub fn leaves_whiteout(flags: u32) -> bool
    ensures { result ≡ nat_le 4 flags }
{
    flags >= RENAME_WHITEOUT
}

/// Whether two names lead to one node.
pub fn is_same(a: Option<Child>, b: Option<Child>) -> bool
    ensures { result ≡ same_node a b }
{
    match (a, b) {
        (Some(a), Some(b)) => a.node == b.node,
        _ => false,
    }
}

/// What is replaced: nothing by an exchange, or where both names lead to one node.
pub fn replaced(flags: u32, moved: Option<Child>, target: Option<Child>) -> Option<Child>
    ensures { result ≡ (if flags == 2 || same_node moved target then None else target) }
{
    if flags == RENAME_EXCHANGE || is_same(moved, target) {
        None
    } else {
        target
    }
}
