//! Small callers of the laws of limits.

ghost use Rattle.std.specs.Prelude.{◌≡◌, ◌≤◌, ℕ, length, drop, List, Some};
ghost use Rattle.vfs_flags.specs.declared.opcode.Opcode.{Opcode};
ghost use Rattle.vfs_wire.specs.Records.{init_out};
ghost use Rattle.vfs_wire.specs.Fields.{value_of};
ghost use Rattle.vfs_files.specs.Calls.{BatchForget, Options};
ghost use Rattle.vfs_files.specs.Values.{context_of};
ghost use Rattle.vfs_grammar.specs.Ask.{ask, ask_number};
ghost use Rattle.vfs_grammar.specs.Books.{opcode_in};
ghost use Rattle.vfs_grammar.specs.Forms.{Asks, WithMemory, faulted, refused_or, pairs_in};
ghost use Rattle.vfs_grammar.specs.Limits.{default_limits, max_len};
ghost use Rattle.vfs_grammar.specs.Memory.{header_of};
ghost use Rattle.vfs_grammar.specs.Reply.{echo_of};
ghost use Rattle.vfs_grammar.specs.Turn.{Turn};
ghost use Rattle.laws_turns.specs.Turns.{AnswersWhole, after_header, body_in, count_of_pairs};
ghost use Rattle.laws_turns.specs.Limits.{one_page};

use crate::turns::{limits_are_kept, limits_have_their_numbers};

/// A server whose largest payload is one page of 4096 bytes: INIT's reply says that, and one page. It reads a request
/// whose `len` is 8192, and answers one of 8193 by ENOMEM; so it does a BATCH_FORGET of 257 pairs, and reads 256.
fn a_server_of_one_page()
    ensures init { (options after want : ℕ) (t : Turn) → AnswersWhole one_page options (Options want) t after →
        ((value_of init_out (body_in t.room_after)).max_write ≡ 4096)
        × ((value_of init_out (body_in t.room_after)).max_pages ≡ 1) }
    ensures within { (options space : ℕ) (request : List ℕ) → 40 ≤ length request →
        (header_of request).len ≡ 8192 →
        ask one_page options space request
        ≡ ask_number one_page options space (opcode_in request) (header_of request) (after_header request) }
    ensures above { (options space : ℕ) (request : List ℕ) → 40 ≤ length request →
        (header_of request).len ≡ 8193 → ask one_page options space request ≡ faulted 12 (header_of request) }
    ensures pairs_within { (options space : ℕ) (request : List ℕ) → 48 ≤ length request →
        (header_of request).len ≡ 4144 → opcode_in request ≡ Some Opcode.BatchForget →
        count_of_pairs request ≡ 256 →
        ask one_page options space request
        ≡ refused_or (pairs_in 256 (drop 48 request)) (λ pairs.
        WithMemory (Asks (echo_of (header_of request)) (BatchForget (context_of (header_of request)) pairs))) }
    ensures pairs_above { (options space : ℕ) (request : List ℕ) → 48 ≤ length request →
        (header_of request).len ≡ 4160 → opcode_in request ≡ Some Opcode.BatchForget →
        count_of_pairs request ≡ 257 → ask one_page options space request ≡ faulted 12 (header_of request) }
{
    limits_are_kept();
}

/// The same of a server of which nothing is said but that a page has 4096 bytes: INIT's reply says 1,048,576. It reads a
/// request of a `len` of 1,052,672, and none of a byte more; 65,536 pairs, and none more.
fn a_usual_server()
    ensures largest_len { max_len (default_limits 4096) ≡ 1_052_672 }
    ensures init { (options after want : ℕ) (t : Turn) →
        AnswersWhole (default_limits 4096) options (Options want) t after →
        (value_of init_out (body_in t.room_after)).max_write ≡ 1_048_576 }
    ensures within { (options space : ℕ) (request : List ℕ) → 40 ≤ length request →
        (header_of request).len ≡ 1_052_672 →
        ask (default_limits 4096) options space request
        ≡ ask_number (default_limits 4096) options space (opcode_in request) (header_of request)
        (after_header request) }
    ensures above { (options space : ℕ) (request : List ℕ) → 40 ≤ length request →
        (header_of request).len ≡ 1_052_673 →
        ask (default_limits 4096) options space request ≡ faulted 12 (header_of request) }
    ensures pairs_within { (options space : ℕ) (request : List ℕ) → 48 ≤ length request →
        (header_of request).len ≡ 1_048_624 → opcode_in request ≡ Some Opcode.BatchForget →
        count_of_pairs request ≡ 65_536 →
        ask (default_limits 4096) options space request
        ≡ refused_or (pairs_in 65_536 (drop 48 request)) (λ pairs.
        WithMemory (Asks (echo_of (header_of request)) (BatchForget (context_of (header_of request)) pairs))) }
    ensures pairs_above { (options space : ℕ) (request : List ℕ) → 48 ≤ length request →
        (header_of request).len ≡ 1_048_640 → opcode_in request ≡ Some Opcode.BatchForget →
        count_of_pairs request ≡ 65_537 →
        ask (default_limits 4096) options space request ≡ faulted 12 (header_of request) }
{
    limits_have_their_numbers();
}
