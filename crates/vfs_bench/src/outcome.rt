//! How a call ended, as a note says it.

ghost use Rattle.std.specs.Prelude.{◌≡◌};
ghost use Rattle.vfs_files.specs.Answers.{Failed, entry_answer, created_answer};
ghost use Rattle.vfs_bench.specs.Outcomes.{outcome_of, plain_outcome};

use crate::FsResult;
use crate::note::NoteKind;
use vfs_files::{Entry, Number};
use vfs_flags::{Fault, OpenOptions};

/// The kind and the value of a note.
#[derive(Clone, Copy)]
pub(crate) struct Outcome {
    /// How the call ended.
    pub(crate) kind: NoteKind,
    /// The answered node or the error number, else 0.
    pub(crate) value: u64,
}

impl Outcome {
    /// The outcome of a call that has no answer.
    pub(crate) const NOTHING: Outcome = Outcome {
        kind: NoteKind::Nothing,
        value: 0,
    };

    /// The outcome of a call that failed.
    pub(crate) fn of_fault(fault: &Fault) -> Outcome
        ensures { result ≡ outcome_of (Failed fault.now) }
    {
        let value = match fault {
            Some(error) => error.get() as u64,
            None => 0,
        };
        Outcome {
            kind: NoteKind::Fault,
            value,
        }
    }

    /// The outcome of a call whose answer names no node.
    #[tactic(auto, unfolding(crate::specs::Outcomes::plain_outcome))]
    pub(crate) fn of<T>(answer: &FsResult<T>) -> Outcome
        ensures { result ≡ plain_outcome answer.now }
    {
        match answer {
            Ok(_) => Outcome {
                kind: NoteKind::Ok,
                value: 0,
            },
            Err(fault) => Outcome::of_fault(fault),
        }
    }

    /// The outcome of a call that answers an entry.
    pub(crate) fn of_entry(answer: &FsResult<Entry>) -> Outcome
        ensures { result ≡ outcome_of (entry_answer answer.now) }
    {
        match answer {
            Ok(entry) => Outcome {
                kind: NoteKind::Ok,
                value: entry.inode,
            },
            Err(fault) => Outcome::of_fault(fault),
        }
    }

    /// The outcome of `create`.
    pub(crate) fn of_created<H: Number>(
        answer: &FsResult<(Entry, Option<H>, OpenOptions)>,
    ) -> Outcome
        ensures { result ≡ outcome_of (created_answer H.value answer.now) }
    {
        match answer {
            Ok((entry, _, _)) => Outcome {
                kind: NoteKind::Ok,
                value: entry.inode,
            },
            Err(fault) => Outcome::of_fault(fault),
        }
    }
}
