//! A whole session: the requests of an input, answered line by line to an output.
ghost use Rattle.std.specs.Prelude.{◌≡◌, IfErr, IfSome};
ghost use Rattle.vfs_run.specs.Lines.{lines_in, EndsSession};
ghost use Rattle.vfs_run.specs.Output.{Wrote};

use crate::{
    Line, RunError, answers_to, end_session, lines_of, read_all, read_session, server_for,
    write_all,
};
use fs_small::MemFs;
use std::alloc::Global;
use std::io;

/// Reads all of `input` and answers its lines as [`run_text`] does: what the program `vfs_demo` does
/// with its standard input and output.
pub fn run<R: io::Read, W: io::Write>(
    alloc: Global,
    input: &mut R,
    output: &mut W,
) -> Result<(), RunError>
    ensures ends { IfSome (R.remaining input.old) (λ text. EndsSession (lines_in text) result) }
    ensures wrote { Wrote (W.contents output.old) (W.contents output.new) result }
{
    let text = read_all(alloc, input)?;
    run_text(alloc, &text, output)
}

/// Answers the lines of `text` before the first bad one, and then writes the answers to `output`, a
/// line each, as [`crate::answers_to`] gives them.
///
/// The lines are one session of a server over a new [`MemFs`], with no options agreed and of the
/// limit that [`crate::server_for`] gives it by the first line. A line that sets the limit has no answer.
/// For a bad line `bad line N` is written after the answers of those before it, where N counts all
/// lines, and [`RunError::BadLine`] answered. A text without a byte has no line. How much was
/// written before another error is open.
pub fn run_text<W: io::Write>(alloc: Global, text: &[u8], output: &mut W) -> Result<(), RunError>
    ensures ends { EndsSession (lines_in text.now) result }
    ensures wrote { Wrote (W.contents output.old) (W.contents output.new) result }
{
    let mut answers = String::new(alloc);
    let outcome = answer_all(alloc, text, &mut answers);
    write_all(output, answers.as_str())?;
    outcome
}

// Answers each line of a text before the first bad one, as one session, and appends the answers,
// each whole.
fn answer_all(alloc: Global, text: &[u8], answers: &mut String) -> Result<(), RunError>
    ensures { EndsSession (lines_in text.now) result }
{
    let lines = lines_of(alloc, text)?;
    let (requests, bad) = read_session(alloc, &lines)?;
    answers.push_str(answers_in_memory(alloc, &lines, &requests)?.as_str())?;
    if let Some(number) = bad {
        answers.push_str(format!(in alloc; "bad line {number}\n")?.as_str())?;
    }
    end_session(bad)
}

// The answers to the requests of a session of these lines, by a server over new files in memory.
fn answers_in_memory(alloc: Global, lines: &[&[u8]], requests: &[Line]) -> Result<String, RunError>
    ensures memory { IfErr result (λ e. e ≡ RunError.OutOfMemory) }
{
    let Ok(fs) = MemFs::new(alloc) else {
        return Err(RunError::OutOfMemory);
    };
    answers_to(alloc, &mut server_for(fs, lines), requests)
}
