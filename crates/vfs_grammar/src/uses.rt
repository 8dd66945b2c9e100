//! Small callers of the definitions, as examples: what the books count of one call and of one
//! request, which options are agreed on, and what extensions say. Each follows from the
//! definitions, and from nothing else.

ghost use Rattle.std.specs.Prelude.{◌≡◌, ◌∷◌, [], ℕ, false, Some, None, Ok, Err};
ghost use Rattle.std.specs.Int.{bit_at};
ghost use Rattle.vfs_flags.specs.Flags.{security_ctx};
ghost use Rattle.vfs_flags.specs.declared.opcode.Opcode.{Opcode};
ghost use Rattle.vfs_files.specs.Calls.{Create, Mkdir, Found, Created};
ghost use Rattle.vfs_files.specs.Runs.{Called};
ghost use Rattle.vfs_grammar.specs.Books.{answered, accepted, delivered_nodes};
ghost use Rattle.vfs_grammar.specs.Extensions.{extensions_in, no_extensions};
ghost use Rattle.vfs_grammar.specs.Options.{AreAgreed};
ghost use Rattle.vfs_grammar.specs.Samples.{nobody, node_5, node_5_reply, batch_of_two};
ghost use Rattle.vfs_grammar.specs.Turn.{Turn};
ghost use Rattle.vfs_grammar.specs.declared.error.Error.{Error};

/// A MKDIR and a CREATE that were answered by an entry of node 5 count one of it, and the reply of
/// 144 bytes to a MKDIR delivers one.
fn an_entry_is_counted()
    ensures mkdir { answered 5
        (Called (Mkdir nobody 1 [] 0 0 no_extensions) (Found node_5) ∷ []) ≡ 1 }
    ensures create { answered 5
        (Called (Create nobody 1 [] 0 false 0 0 no_extensions) (Created node_5 None 0) ∷ []) ≡ 1 }
    ensures delivered { delivered_nodes (Some Opcode.Mkdir) node_5_reply ≡ 5 ∷ [] }
{}

/// A BATCH_FORGET of node 7 by 3 counts three where it was accepted, and where it was refused none.
fn a_forget_is_counted()
    ensures accepted { (t : Turn) → t.request ≡ batch_of_two → t.outcome ≡ Ok 0 →
        accepted 7 t ≡ 3 }
    ensures refused { (t : Turn) (error : Error) → t.request ≡ batch_of_two →
        t.outcome ≡ Err error → accepted 7 t ≡ 0 }
{}

/// Of options that are agreed on, one that the server supports by itself is among them where it was
/// offered, as bit 40 is; and none is that wasn't offered.
fn a_supported_option_is_agreed()
    ensures supported { (offered options : ℕ) → AreAgreed offered options →
        bit_at offered 40 ≡ 1 → bit_at options 40 ≡ 1 }
    ensures unoffered { (offered options k : ℕ) → AreAgreed offered options →
        bit_at offered k ≡ 0 → bit_at options k ≡ 0 }
{}

/// A block of no contexts is one: none is missed at the end.
fn a_block_of_none_is_received()
    ensures { extensions_in security_ctx (8 ∷ 0 ∷ 0 ∷ 0 ∷ 0 ∷ 0 ∷ 0 ∷ 0 ∷ []) ≡ Ok no_extensions }
{}
