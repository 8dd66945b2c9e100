//! What holds of the books of lookups and forgets.

ghost use Rattle.std.specs.Prelude.{◌≡◌, ◌≢◌, ◌+◌, ℕ, List, sum_by};
ghost use Rattle.vfs_grammar.specs.Books.{answered, sent, delivered, accepted, KeepsBooks};
ghost use Rattle.vfs_grammar.specs.Words.{GivesBackWithin, NeverBelow};
ghost use Rattle.vfs_grammar.specs.Turn.{AreTurns, events_in, Turn, IsTurn};
ghost use Rattle.vfs_grammar.specs.declared.limits.Limits.{Limits};

/// Over each turn the books of each node but 0 balance: entries answered and forgets accepted are
/// entries delivered and forgets sent. No entry is lost.
pub fn each_turn_balances()
    ensures { (limits : Limits) (options after n : ℕ) (t : Turn) → n ≢ 0 →
        IsTurn limits options t after →
        answered n t.events + accepted n t ≡ delivered n t + sent n t.events }
{}

/// Over turns in order the books of each node but 0 balance likewise.
pub fn turns_balance()
    ensures { (limits : Limits) (options after n : ℕ) (turns : List Turn) → n ≢ 0 →
        AreTurns limits options turns after →
        answered n (events_in turns) + sum_by (accepted n) turns
        ≡ sum_by (delivered n) turns + sent n (events_in turns) }
{}

/// As long as the client gives back no more entries of a node but 0 than were delivered to it, after
/// each turn, no more are sent back to the file system than it answered, after each event, and so in
/// the middle of a request too.
pub fn counts_never_fall_below_zero()
    ensures { (limits : Limits) (options after n : ℕ) (turns : List Turn) → n ≢ 0 →
        AreTurns limits options turns after → GivesBackWithin n turns →
        NeverBelow n (events_in turns) }
{}

/// Turns in order keep the books: both of the above, for each node but 0.
pub fn turns_keep_books()
    ensures { (limits : Limits) (options after : ℕ) (turns : List Turn) →
        AreTurns limits options turns after → KeepsBooks turns }
{}
