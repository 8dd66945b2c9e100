//! What holds of every step, and of every chain. Each function here does nothing: its contract is the law.

ghost use Rattle.std.specs.Prelude.{◌≡◌, ◌≤◌, ◌+◌, ◌↔◌, ℕ, List, Some, length, drop};
ghost use Rattle.vhost_protocol.specs.Chains.{GoesThrough, IsChain, IsWithin};
ghost use Rattle.vhost_protocol.specs.Descriptors.{descriptor_from, of_words};
ghost use Rattle.vhost_protocol.specs.Walks.{begun, step_at};
ghost use Rattle.vfs_wire.specs.Fields.{AreBytes, number};
ghost use Rattle.vhost_protocol.specs.declared.chains.descriptor.Descriptor.{Descriptor};
ghost use Rattle.vhost_protocol.specs.declared.chains.regions.Region.{Region};
ghost use Rattle.vhost_protocol.specs.declared.chains.walk.Piece.{Piece};
ghost use Rattle.vhost_protocol.specs.declared.chains.walk.Walk.{Walk};

/// The two words of 16 bytes are those of their descriptor.
pub fn words_are_bytes()
    ensures { (bytes : List ℕ) (at : ℕ) → AreBytes bytes → at + 16 ≤ length bytes →
        of_words (number 8 (drop at bytes)) (number 8 (drop (at + 8) bytes))
        ≡ descriptor_from at bytes }
{}

/// A walk goes through the descriptors of a chain, with its pieces, and of nothing else.
pub fn walks_are_chains()
    ensures { (regions : List Region) (indirect table : List ℕ) (size most head : ℕ) (w : Walk)
        (descriptors : List Descriptor) (pieces : List Piece) → begun size most head ≡ Some w →
        GoesThrough regions indirect table w descriptors pieces
        ↔ IsChain regions indirect table size most head descriptors pieces }
{}

/// A piece and a table lie in one region, the descriptor to be copied next is one of its table, and a walk ends:
/// each step leaves fewer in its table, or enters the only indirect one.
pub fn steps_are_within()
    ensures { (regions : List Region) (w : Walk) (d : Descriptor) →
        IsWithin regions w d (step_at w d regions) }
{}
