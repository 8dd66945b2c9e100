//! A law of directories at work.

ghost use Rattle.std.specs.Prelude.{◌≤◌, ◌<◌, ◌^◌, ℕ, [], ◌∷◌, false, length, List, Option, Some, None, Result};
ghost use Rattle.vfs_files.specs.Values.{Item};
ghost use Rattle.vfs_files.specs.Runs.{Taken};
ghost use Rattle.vfs_files.specs.declared.entry.Context.{Context};
ghost use Rattle.vfs_grammar.specs.Directories.{IsWhole};
ghost use Rattle.vfs_grammar.specs.Listing.{IsListing};

use vfs_server::laws::listings::directories_are_whole;

/// A READDIR of a directory with one item is whole, whatever the item and its name, which may have
/// up to 2^32 - 1 bytes, where there is room for as much as was asked for.
fn any_name_is_whole()
    ensures { (ctx : Context) (parent size space : ℕ) (item : Item) (body : List ℕ)
        (result : Result ℕ (Option ℕ)) →
        length item.name < 2 ^ 32 →
        IsListing false ctx parent size space (Taken (Some item) ∷ Taken None ∷ []) body result →
        size ≤ space →
        IsWhole false ctx parent size (Taken (Some item) ∷ Taken None ∷ []) body result }
{
    directories_are_whole();
}
