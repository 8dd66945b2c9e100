//! The hostile forms of a message: cut short, with other lengths in its header, and with less room.
//! Each must come to the same in every cutting.

use crate::cuttings::{Asked, Cut, Cutting, Served, Way, serve};
use crate::table::Message;
use std::alloc::{AllocError, Global};
use vfs_run::{RunError, answer_line};

/// A form of a message.
#[derive(Clone, Copy, Debug)]
pub struct Form {
    /// How many of the message's bytes are there.
    pub taken: usize,

    /// The `len` of its header.
    pub len: usize,

    /// How many bytes the room has.
    pub room: usize,
}

/// What the forms of a message came to.
#[derive(Debug, Drop)]
pub struct Tally {
    /// How many forms were tried.
    pub forms: usize,

    /// How many requests were handed to a server: the forms in all their cuttings.
    pub tried: usize,

    /// How many of them came to something else than the uncut form did.
    pub wrong: usize,

    /// The first form with such a one.
    pub first_wrong: Option<Form>,

    /// The FNV-1a checksum, of 64 bits, of what the uncut forms came to: of each its answer as
    /// `test_sessions` writes it, with the calls after it.
    pub digest: u64,
}

/// Tries all forms of a message in all their cuttings: each beginning of it; each `len` from 0 to
/// one above its own, with all bytes there; each room up to the one that it needs.
pub fn try_message(alloc: Global, message: &Message, way: Way) -> Result<Tally, RunError> {
    let (bytes, room) = message.request(alloc)?;
    let mut tally = Tally {
        forms: 0,
        tried: 0,
        wrong: 0,
        first_wrong: None,
        digest: 0xcbf2_9ce4_8422_2325,
    };
    for form in &forms_of(alloc, bytes.len(), room)? {
        let cuttings = cuttings_of(alloc, *form, bytes.len(), room)?;
        try_form(alloc, message, &bytes, *form, &cuttings, way, &mut tally)?;
    }
    Ok(tally)
}

// The forms of a message of that many bytes that needs that much room.
fn forms_of(alloc: Global, len: usize, room: usize) -> Result<Vec<Form>, AllocError> {
    let mut forms = Vec::new(alloc);
    for taken in 0..len {
        forms.push(Form { taken, len, room })?;
    }
    for said in 0..=len.saturating_add(1) {
        forms.push(Form {
            taken: len,
            len: said,
            room,
        })?;
    }
    for room in 0..room {
        forms.push(Form {
            taken: len,
            len,
            room,
        })?;
    }
    Ok(forms)
}

// The cuttings of a form but the uncut one: into single bytes, and, where it is the message of so
// many bytes itself with the room that it needs, at each single place.
fn cuttings_of(
    alloc: Global,
    form: Form,
    len: usize,
    room: usize,
) -> Result<Vec<Cutting>, AllocError> {
    let mut cuttings = Vec::new(alloc);
    cuttings.push((Cut::Bytes, Cut::Bytes))?;
    cuttings.push((Cut::Bytes, Cut::Whole))?;
    cuttings.push((Cut::Whole, Cut::Bytes))?;
    if form.taken == len && form.len == len && form.room == room {
        for place in 1..len {
            cuttings.push((Cut::At(place), Cut::Whole))?;
        }
        for place in 1..room {
            cuttings.push((Cut::Whole, Cut::At(place)))?;
        }
    }
    Ok(cuttings)
}

// The bytes of a form of a message.
fn bytes_of(alloc: Global, bytes: &[u8], form: Form) -> Result<Vec<u8>, AllocError> {
    let mut all = Vec::from_slice(alloc, bytes)?;
    let written = all.len().min(4);
    all[..written].copy_from_slice(&form.len.to_le_bytes()[..written]);
    all.truncate(form.taken);
    Ok(all)
}

// Tries one form.
fn try_form(
    alloc: Global,
    message: &Message,
    bytes: &[u8],
    form: Form,
    cuttings: &[Cutting],
    way: Way,
    tally: &mut Tally,
) -> Result<(), RunError> {
    let request = bytes_of(alloc, bytes, form)?;
    let whole = Asked {
        bytes: &request,
        room: form.room,
        cuttings: &[(Cut::Whole, Cut::Whole)],
        way: Way::Messages,
    };
    let uncut = serve(alloc, message, whole, &mut ())?;
    tally.digest = digest(tally.digest, text_of(alloc, &uncut)?.as_bytes());
    let cut = Asked {
        cuttings,
        way,
        ..whole
    };
    let served = serve(alloc, message, cut, &mut ())?;
    let wrong = count_wrong(&uncut, &served, leaves_room_open(&request));
    if wrong > 0 && tally.first_wrong.is_none() {
        tally.first_wrong = Some(form);
    }
    tally.forms = tally.forms.saturating_add(1);
    tally.tried = tally.tried.saturating_add(1).saturating_add(cuttings.len());
    tally.wrong = tally.wrong.saturating_add(wrong);
    Ok(())
}

// Whether what lies in the room after a request's reply is open: of READ, READDIR and READDIRPLUS,
// by the lowest byte of their opcodes.
fn leaves_room_open(request: &[u8]) -> bool {
    matches!(request.get(4), Some(15 | 28 | 44))
}

// The answer and the calls of a request, as text.
fn text_of(alloc: Global, uncut: &Served) -> Result<String, AllocError> {
    let mut text = String::new(alloc);
    for outcome in &uncut.outcomes {
        text.push_str(answer_line(alloc, outcome, &uncut.rooms)?.as_str())?;
    }
    text.push_str(uncut.calls.as_str())?;
    Ok(text)
}

// How many outcomes and rooms are not those of the uncut form; and one more where the calls are not
// its calls, as often as it was cut.
fn count_wrong(uncut: &Served, served: &Served, open: bool) -> usize {
    let mut wrong = 0usize;
    for (outcome, room) in served.outcomes.iter().zip(&served.rooms) {
        if !is_like(uncut, outcome, room, open) {
            wrong = wrong.saturating_add(1);
        }
    }
    if !repeats(
        served.calls.as_str(),
        uncut.calls.as_str(),
        served.outcomes.len(),
    ) {
        wrong = wrong.saturating_add(1);
    }
    wrong
}

// Whether an outcome and a room are those of the uncut form; the room after a reply may be open.
fn is_like(uncut: &Served, outcome: &vfs_server::Result<usize>, room: &[u8], open: bool) -> bool {
    let (Some(wanted), Some(bytes)) = (uncut.outcomes.first(), uncut.rooms.first()) else {
        return false;
    };
    let seen = match outcome {
        Ok(length) if open => (*length).min(room.len()),
        _ => room.len(),
    };
    outcome == wanted && bytes.len() == room.len() && bytes.starts_with(&room[..seen])
}

// Whether a text is another one, repeated that many times.
fn repeats(text: &str, part: &str, times: usize) -> bool {
    let mut rest = text;
    for _ in 0..times {
        let Some(following) = rest.strip_prefix(part) else {
            return false;
        };
        rest = following;
    }
    rest.is_empty()
}

// The checksum of what was summed up and of these bytes after it.
fn digest(sum: u64, bytes: &[u8]) -> u64 {
    let mut sum = sum;
    for byte in bytes {
        sum = (sum ^ u64::from(*byte)).wrapping_mul(0x0000_0100_0000_01b3);
    }
    sum
}
