//! Which nodes a client holds.

ghost use Rattle.std.specs.Prelude.{◌≡◌, ◌==◌, ◌&&◌, ◌||◌, ℕ, not, [], Some, None, is_some, is_none, option_map};
ghost use Rattle.fs_nodes.specs.Held.{first_held, is_idle, may_hold};

use crate::node::Node;
use std::alloc::Global;
use std::collections::HashSet;
use std::collections::btree_map::Range;
use std::marker::Model;

/// The numbers of the nodes of which a client holds lookups. They are not known from the time on when there
/// was no memory for one.
#[derive(Drop)]
pub struct Held {
    numbers: Option<HashSet<u64>>,
}

impl Model for Held {
    ghost use Rattle.std.specs.Prelude.{ℕ, List, Option, option_map};

    ghost Value = { Option (List ℕ) };

    ghost view = { λ held. option_map (λ numbers. numbers.keys) held.numbers };
}

impl Held {
    /// No node is held.
    pub fn new(alloc: Global) -> Held
        ensures { result ≡ Some [] }
    {
        Held {
            numbers: Some(HashSet::new(alloc)),
        }
    }

    /// Notes the number of a node that is held, where it is new.
    pub fn note(&mut self, number: u64, is_new: bool)
        ensures { (n : ℕ) → may_hold self.new n
            ≡ (may_hold self.old n || (is_new && n == number) || is_none self.new) }
    {
        if !is_new {
            return;
        }
        let Some(numbers) = &mut self.numbers else {
            return;
        };
        if numbers.insert(number).is_err() {
            self.numbers = None;
        }
    }

    /// Drops the number of a node, where it is held no more.
    pub fn pass(&mut self, number: u64, is_unheld: bool)
        ensures numbers { (n : ℕ) → may_hold self.new n
            ≡ (may_hold self.old n && not (is_some self.old && is_unheld && n == number)) }
        ensures known { is_some self.new ≡ is_some self.old }
    {
        if !is_unheld {
            return;
        }
        if let Some(numbers) = &mut self.numbers {
            numbers.remove(&number);
        }
    }

    /// Hands out the numbers, which are not known from now on.
    pub fn take(&mut self) -> Option<HashSet<u64>>
        ensures numbers { option_map (λ numbers. numbers.keys) result ≡ self.old }
        ensures unknown { self.new ≡ None }
    {
        self.numbers.take()
    }
}

/// The first of these nodes that is not idle, and how many lookups of it are held.
pub fn first_held(nodes: Range<'_, u64, Node>) -> Option<(u64, u64)>
    ensures { result ≡ first_held nodes.entry }
{
    for (number, node) in nodes {
        if !is_idle(node) {
            return Some((*number, node.lookups));
        }
    }
    None
}

/// Whether no lookup of a node is held, and a name leads to it: a release leaves it as it is.
pub fn is_idle(node: &Node) -> bool
    ensures { result ≡ is_idle node.now }
{
    node.lookups == 0 && node.names != 0
}
