//! What holds of extensions, as laws: each function does nothing, and its clause says what was
//! proved.

ghost use Rattle.std.specs.Prelude.{◌≡◌, ◌<◌, ◌^◌, ◌++◌, ℕ, List, length, IsTrue, IsFalse, is_some, if◌then◌else◌, Ok, Some, None};
ghost use Rattle.vfs_flags.specs.Flags.{security_ctx, create_supp_group, has_flag};
ghost use Rattle.vfs_files.specs.Values.{ExtensionValues};
ghost use Rattle.vfs_grammar.specs.Extensions.{Block, cut_of, extensions_in, no_extensions};
ghost use Rattle.vfs_grammar.specs.Words.{extensions_after, extensions_of, reads_extensions, nothing_received};
ghost use Rattle.laws_turns.specs.Extensions.{blocks_of, group_block, FitExtensions, IsCut, error_left};

/// What is found in extensions as they are written is what was written, whatever names are in
/// front of them: with a context agreed on, and with a group too where there is one.
pub fn written_extensions_are_found()
    ensures { (options : ℕ) (names : List ℕ) (values : ExtensionValues) →
        IsTrue (has_flag options security_ctx) →
        (IsTrue (is_some values.group) → IsTrue (has_flag options create_supp_group)) →
        FitExtensions values →
        extensions_after options (length names) (names ++ blocks_of values) ≡ Ok values }
{}

/// The same of a group alone, where no context was agreed on.
pub fn written_groups_are_found()
    ensures { (options group : ℕ) (names : List ℕ) → IsFalse (has_flag options security_ctx) →
        IsTrue (has_flag options create_supp_group) → group < 2 ^ 32 →
        extensions_after options (length names) (names ++ group_block (Some group))
        ≡ Ok (record { context = None; group = Some group }) }
{}

/// Bytes are blocks, one after the other, and a rest that begins with none, in one way; and where
/// extensions are read, they are what all of these say, one after the other, and then the rest.
pub fn extensions_are_cut_in_one_way()
    ensures cut { (bytes : List ℕ) → (rest : List ℕ) × IsCut bytes (cut_of bytes).blocks rest
        × ((cut_of bytes).error ≡ error_left rest) }
    ensures only { (bytes rest other_rest : List ℕ) (blocks others : List Block) →
        IsCut bytes blocks rest → IsCut bytes others other_rest →
        (blocks ≡ others) × (rest ≡ other_rest) }
    ensures said { (options : ℕ) (bytes : List ℕ) →
        extensions_in options bytes
        ≡ (if reads_extensions options then extensions_of options nothing_received (cut_of bytes)
        else Ok no_extensions) }
{}
