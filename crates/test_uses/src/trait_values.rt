//! Answers as values, and what bytes, positions and saved states are told by, at work.

ghost use Rattle.std.specs.Prelude.{◌≡◌, ◌<◌, ◌+◌, ◌^◌, ◌⊎◌, ◌++◌, ℕ, List, [], ◌∷◌, length, Option, Some, Result, Ok, Vec};
ghost use Rattle.std.specs.declared.alloc.Global.{Global};
ghost use Rattle.vfs_files.specs.Answers.{Done, Kind, Quiet, Told, Untold, Writes};
ghost use Rattle.vfs_files.specs.Bytes.{Reads};
ghost use Rattle.vfs_files.specs.BytesMut.{ReadsFile, bytes_held};
ghost use Rattle.vfs_files.specs.CallValue.{IsOfKind};
ghost use Rattle.vfs_files.specs.Migrations.{Broken, IsTaken, IsWritten, Moved, Untouched};
ghost use Rattle.vfs_files.specs.Transfers.{Goes, Transfers, reads_of};
ghost use Rattle.vfs_files.specs.declared.bytes_mut.BytesMut.{BytesMut};
ghost use Rattle.vfs_files.specs.declared.migration.MigrateError.{MigrateError};

use vfs_files::Given;

/// That a call was done is an answer of three kinds, and how many bytes were copied one of a single kind. A text that is an
/// answer of some kind leaves room for a header.
fn kinds_of_values()
    ensures done { (kind : Kind) → IsOfKind kind (Ok Given.Done) →
        (kind ≡ Quiet) ⊎ ((kind ≡ Told) ⊎ (kind ≡ Untold)) }
    ensures wrote { (kind : Kind) (count : ℕ) → IsOfKind kind (Ok (Given.Wrote count)) → kind ≡ Writes }
    ensures text { (kind : Kind) (text : Vec ℕ Global) → IsOfKind kind (Ok (Given.Text text)) →
        length text.items < 4_294_967_280 }
{}

/// A read leaves bytes as they were, whether by itself, of a file that has a limit, which stays, or by a transfer.
fn reads_change_nothing()
    ensures bytes { (old moved new : List ℕ) (offset room : ℕ) (answer : Result ℕ (Option ℕ)) →
        Reads old offset room answer moved new → new ≡ old }
    ensures file { (old new : BytesMut) (moved : List ℕ) (offset room : ℕ)
        (answer : Result ℕ (Option ℕ)) → ReadsFile old offset room answer moved new →
        (bytes_held new ≡ bytes_held old) × (new.most ≡ old.most) }
    ensures transfer { (count room offset : ℕ) (old bytes new : List ℕ)
        (result : Result ℕ (Option ℕ)) →
        Transfers (reads_of Reads) count room offset old bytes result new → new ≡ old }
{}

/// What a transfer moves ends before position 2^64.
fn positions_that_are_moved()
    ensures { (count room offset : ℕ) (old part middle new : List ℕ) →
        Goes (reads_of Reads) count room offset 0 old ((part, middle) ∷ []) new →
        offset + length part < 2 ^ 64 }
{}

/// A state that was saved comes after what the writer had, or nothing was written; and one that was read is a beginning of
/// what the reader had left, or nothing was read. What is only partly moved has failed.
fn states_that_are_moved()
    ensures saved { (old new bytes : List ℕ) (result : Result (Unit {0}) MigrateError) →
        IsWritten (λ it. it) (Some old) result (Moved bytes) (Some new) → new ≡ old ++ bytes }
    ensures unsaved { (old new : Option (List ℕ)) (result : Result (Unit {0}) MigrateError) →
        IsWritten (λ it. it) old result Untouched new → new ≡ old }
    ensures not_partly_saved { (old new : Option (List ℕ)) (done : Unit {0}) →
        IsWritten {E = MigrateError} (λ it. it) old (Ok done) Broken new → ⊥ }
    ensures restored { (old new bytes : List ℕ) (result : Result (Unit {0}) MigrateError) →
        IsTaken (λ it. it) (Some old) result (Moved bytes) (Some new) → old ≡ bytes ++ new }
    ensures unread { (old new : Option (List ℕ)) (result : Result (Unit {0}) MigrateError) →
        IsTaken (λ it. it) old result Untouched new → new ≡ old }
    ensures not_partly_restored { (old new : Option (List ℕ)) (done : Unit {0}) →
        IsTaken {E = MigrateError} (λ it. it) old (Ok done) Broken new → ⊥ }
{}
