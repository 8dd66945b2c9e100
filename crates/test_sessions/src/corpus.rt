//! The corpus of hostile messages, tried.

use crate::cuttings::Way;
use crate::hostile::{Tally, try_message};
use crate::table::messages;
use std::alloc::Global;
use vfs_run::RunError;

/// Tries each message of the corpus in this way, with servers of its own, and appends a line for
/// each: its name, how many forms of it were tried, how many requests these were, with all
/// cuttings, and the checksum of what the uncut forms came to. The first form that came to something
/// else in a cutting comes after it. A last line has the sums.
pub fn push_corpus(alloc: Global, way: Way, answers: &mut String) -> Result<(), RunError> {
    let mut tried = 0usize;
    let mut wrong = 0usize;
    for message in &messages(alloc)? {
        let tally = try_message(alloc, message, way)?;
        tried = tried.saturating_add(tally.tried);
        wrong = wrong.saturating_add(tally.wrong);
        push_tally(message.name, &tally, answers)?;
    }
    writeln!(answers, "{tried} tried, {wrong} wrong")?;
    Ok(())
}

// Appends the line of a message.
fn push_tally(name: &str, tally: &Tally, answers: &mut String) -> Result<(), RunError> {
    let Tally {
        forms,
        tried,
        digest,
        ..
    } = tally;
    write!(
        answers,
        "{name}: {forms} forms, {tried} tried, {digest:016x}"
    )?;
    if let Some(form) = tally.first_wrong {
        write!(answers, ", wrong {form:?}")?;
    }
    answers.push('\n')?;
    Ok(())
}
