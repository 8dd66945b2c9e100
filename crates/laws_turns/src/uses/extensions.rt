//! Small callers of the laws of extensions.

ghost use Rattle.std.specs.Prelude.{◌≡◌, ◌++◌, ℕ, List, [], ◌∷◌, Ok, Some, None, IsTrue};
ghost use Rattle.vfs_grammar.specs.Extensions.{Block, cut_of, extensions_in};
ghost use Rattle.vfs_grammar.specs.Words.{extensions_after, extensions_of, reads_extensions, nothing_received};
ghost use Rattle.vfs_grammar.specs.Samples.{context_and_group, context_and_group_blocks};
ghost use Rattle.laws_turns.specs.Extensions.{IsCut, blocks_of, error_left, group_block};

use crate::extensions::{
    extensions_are_cut_in_one_way, written_extensions_are_found, written_groups_are_found,
};

/// A context named `s`, whose value is `v`, and the group 1000, as they are written, and that they
/// are found so after the name `d`.
fn extensions_as_written()
    ensures bytes { blocks_of context_and_group ≡ context_and_group_blocks }
    ensures found { extensions_after 0x500000000 2 ((0x64 ∷ 0 ∷ []) ++ context_and_group_blocks)
        ≡ Ok context_and_group }
{
    written_extensions_are_found();
}

/// Where extensions are read, what bytes say is what their cut does.
fn what_is_read_is_cut()
    ensures { (options : ℕ) (bytes : List ℕ) → IsTrue (reads_extensions options) →
        extensions_in options bytes ≡ extensions_of options nothing_received (cut_of bytes) }
{
    extensions_are_cut_in_one_way();
}

/// The group 1000 alone, as it is written, and that it is found so after the name `d`, where no context was agreed on.
fn a_group_as_written()
    ensures bytes { group_block (Some 1000)
        ≡ 16 ∷ 0 ∷ 0 ∷ 0 ∷ 32 ∷ 0 ∷ 0 ∷ 0 ∷ 1 ∷ 0 ∷ 0 ∷ 0 ∷ 0xe8 ∷ 3 ∷ 0 ∷ 0 ∷ [] }
    ensures found { extensions_after 0x400000000 2 ((0x64 ∷ 0 ∷ []) ++ group_block (Some 1000))
        ≡ Ok (record { context = None; group = Some 1000 }) }
{
    written_groups_are_found();
}

/// Bytes that are these blocks, and a rest that begins with none, are cut into them, and refused as the rest is.
fn the_only_cut()
    ensures { (bytes rest : List ℕ) (blocks : List Block) → IsCut bytes blocks rest →
        ((cut_of bytes).blocks ≡ blocks) × ((cut_of bytes).error ≡ error_left rest) }
{
    extensions_are_cut_in_one_way();
}
