//! What came of an answer.

ghost use Rattle.std.specs.Prelude.{◌≡◌};

use codec_calls::CallData;
use vfs_grammar::Result;

/// What came of an answer.
#[derive(Drop)]
pub struct Answered {
    /// The length of the reply in bytes, 0 where there is none; or `EncodeMessage`, where the room
    /// has only the reply's beginning.
    pub outcome: Result<usize>,
    /// The options that are agreed on from now on, as bits (`FsOptions`).
    pub options: u64,
    /// The node of which one lookup is to be given back, since its entry never comes to the client;
    /// or 0.
    pub given: u64,
    /// How many of a directory's items are in the reply. The lookups of the others, where it is a
    /// READDIRPLUS, are to be given back.
    pub taken: usize,
}

impl Answered {
    /// A reply that came to this, and changed nothing else.
    pub(crate) fn plain(call: &CallData, outcome: Result<usize>) -> Answered
        ensures { result ≡ record {
          outcome = outcome;
          options = call.now.options;
          given = 0;
          taken = 0;
        } }
    {
        Answered {
            outcome,
            options: call.options,
            given: 0,
            taken: 0,
        }
    }
}
