//! What the laws of a tree say to who makes calls of one.

ghost use Rattle.std.specs.Prelude.{◌≡◌, ◌≢◌, ◌≤◌, ◌<◌, ℕ, List, [], ◌∷◌, Option, Some, None, true, false, length, IfSome, IsSome};
ghost use Rattle.vfs_files.specs.Values.{Item};
ghost use Rattle.vfs_files.specs.Calls.{Answer, Call, Destroy, Handed, Iterator, Plain};
ghost use Rattle.vfs_files.specs.Listing.{GivesFirst};
ghost use Rattle.vfs_files.specs.Runs.{Called, Event, IsRun};
ghost use Rattle.vfs_grammar.specs.Books.{KeepsBooks};
ghost use Rattle.vfs_grammar.specs.Turn.{Turn};
ghost use Rattle.vfs_server.specs.Step.{ServerState};
ghost use Rattle.laws_history.specs.History.{Handled, IsHistory};
ghost use Rattle.fs_nodes.specs.Children.{is_directory, is_file};
ghost use Rattle.fs_nodes.specs.declared.node.Node.{Node};
ghost use Rattle.fs_nodes.specs.declared.node.Time.{Time};
ghost use Rattle.fs_tree.specs.Listing.{items_after};
ghost use Rattle.fs_tree.specs.State.{State, node_at};
ghost use Rattle.fs_tree.specs.Tree.{TreeAllows, first_state};
ghost use Rattle.fs_tree.specs.declared.fs.Capacity.{Capacity};
ghost use Rattle.laws_tree.specs.Laws.{IsSound, IsTree, above, lookups_of, names_of};
ghost use Rattle.laws_tree.specs.Runs.{ends_client};

use crate::history::new_trees_are_kept;
use crate::laws::{calls_keep_births, calls_keep_trees, readings_move_a_time, runs_keep_trees};

/// After any call of a tree, no file has more bytes than a file may have.
fn files_stay_short()
    ensures { (old new : State) (call : Call) (answer : Answer) → IsTree old →
        TreeAllows old call (Plain answer) new →
        (n : ℕ) → IfSome (node_at new n) (λ node.
        is_file node.kind ≡ true → length node.contents.bytes ≤ old.limits.file) }
{
    calls_keep_trees();
}

/// After any run over a tree, the bytes in use are within its limit.
fn a_run_stays_within()
    ensures { (it : Option (List Item)) (old new : State) (events : List Event) → IsTree old →
        IsRun TreeAllows GivesFirst it old events new → new.used ≤ new.limits.bytes }
{
    runs_keep_trees();
}

/// A node that was there has the same time of birth after any call, and one that was not is born when the call is made.
fn births_of_nodes()
    ensures kept { (old new : State) (call : Call) (handed : Handed (List Item)) (n : ℕ) (was node : Node) →
        IsSound old → TreeAllows old call handed new → node_at old n ≡ Some was →
        node_at new n ≡ Some node → node.btime ≡ was.btime }
    ensures born { (old new : State) (call : Call) (handed : Handed (List Item)) (n : ℕ) (node : Node) →
        IsSound old → TreeAllows old call handed new → node_at old n ≡ None →
        node_at new n ≡ Some node → node.btime ≡ old.now }
{
    calls_keep_births();
}

/// A directory of a tree that has a name leads up to the root.
fn a_directory_leads_up()
    ensures { (s : State) (n : ℕ) (node : Node) → IsTree s → node_at s n ≡ Some node →
        is_directory node.kind ≡ true → 0 < node.names → (k : ℕ) × (above s k n ≡ 1) }
{}

/// A reading that begins tells what a directory holds after an offset, and holds the lookups that were held.
fn a_reading_begins()
    ensures items { (old new : State) (call : Call) (items : List Item) →
        TreeAllows old call (Iterator items) new →
        (number : ℕ) × (directory : Node) × (off size : ℕ)
        × (node_at old number ≡ Some directory) × (items ≡ items_after number directory off size) }
    ensures lookups { (old new : State) (call : Call) (items : List Item) →
        TreeAllows old call (Iterator items) new → (n : ℕ) → lookups_of new n ≡ lookups_of old n }
{
    readings_move_a_time();
}

/// After a DESTROY no lookup is held.
fn a_run_that_ends()
    ensures { (old new : State) (answer : Answer) → IsTree old →
        IsRun TreeAllows GivesFirst None old (Called Destroy answer ∷ []) new →
        (n : ℕ) → lookups_of new n ≡ 0 }
{
    runs_keep_trees();
}

/// A tree of which one request was handled since it was made is one, and its books are kept. If the request ended the
/// client, a node is there only where a name leads to it.
fn one_request_of_a_new_tree()
    ensures ended { (limits : Capacity) (now : Time) (first new : ServerState State) (t : Turn) (n : ℕ) →
        first.fs ≡ first_state 0 0 0o755 limits false now →
        IsHistory TreeAllows GivesFirst first (Handled t ∷ []) new → ends_client t ≡ true → n ≢ 0 →
        IsSome (node_at new.fs n) → 0 < names_of (node_at new.fs n) }
    ensures kept { (limits : Capacity) (now : Time) (first new : ServerState State) (t : Turn) →
        first.fs ≡ first_state 0 0 0o755 limits false now →
        IsHistory TreeAllows GivesFirst first (Handled t ∷ []) new →
        KeepsBooks (t ∷ []) × IsTree new.fs }
{
    new_trees_are_kept();
}
