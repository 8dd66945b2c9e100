//! What is noted of a call.

ghost use Rattle.std.specs.Prelude.{◌≡◌};
ghost use Rattle.vfs_flags.specs.Numbers.{opcode_of};

use vfs_flags::Opcode;

/// How a call ended.
#[derive(Clone, Copy, Debug, PartialEq, Eq)]
pub enum NoteKind {
    /// It has no answer (FORGET, BATCH_FORGET, DESTROY).
    Nothing,
    /// It succeeded.
    Ok,
    /// It failed.
    Fault,
}

/// A call that was made.
#[derive(Clone, Copy, Debug, PartialEq, Eq)]
pub struct Note {
    /// The number of the opcode: 12 for each rename, whichever of the two requests asked for it.
    pub call: u32,
    /// The first node that the call was told of, or 0 where it was told of none (`batch_forget`
    /// too, whose nodes are in its pairs).
    pub node: u64,
    /// How many lookups a `forget` took back, or how many pairs a `batch_forget` had, else 0.
    pub count: u64,
    /// How the call ended.
    pub kind: NoteKind,
    /// The node of the entry that was answered, or the number of the error (0 where the fault has
    /// none), else 0.
    pub value: u64,
}

impl Note {
    /// The opcode of the call. Each note that a recorder made has one.
    pub fn opcode(&self) -> Option<Opcode>
        ensures { result ≡ opcode_of self.now.call }
    {
        Opcode::try_from(self.call).ok()
    }
}
