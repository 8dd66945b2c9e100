//! What holds of bytes between quotes. Each function here does nothing: its contract is the law, for a
//! caller's proof to cite.

ghost use Rattle.std.specs.Prelude.{◌≡◌, ◌<◌, ℕ, List, All};
ghost use Rattle.vfs_print.specs.Text.{IsPrintable, quoted};

/// Whatever the bytes, printable ASCII is there, and nothing that a terminal acts on.
pub fn texts_are_printable()
    ensures { (bytes : List ℕ) → All (λ b. b < 256) bytes → All IsPrintable (quoted bytes) }
{}

/// No two texts of different bytes are alike.
pub fn texts_differ()
    ensures { (a b : List ℕ) → All (λ x. x < 256) a → All (λ x. x < 256) b
        → quoted a ≡ quoted b → a ≡ b }
{}
