//! Sessions over files in memory: how a run ends, and the books with the calls that were made.

use crate::support::{holds, none_is_wrong, server_over};
use fs_small::MemFs;
use std::alloc::{AllocError, Global};
use std::io;
use std::io::{ErrorKind, Read};
use std::test::Fail;
use vfs_bench::{Note, NoteKind, Recorder};
use vfs_run::{Line, RunError, answers_to, exit_status, parse_line, run};
use vfs_server::server::Server;

/// A FORGET of node 2.
const FORGET: &str =
    "0 300000000200000005000000000000000200000000000000000000000000000000000000000000000100000000000000\n";

/// The answer to it.
const FORGOTTEN: &str = "ok 0\n";

/// How a client begins: INIT, the attributes of the root, the file `a` found and another not, and
/// FORGET.
const BEGINNING: &str = concat!(
    "80 380000001a000000010000000000000000000000000000000000000000000000000000000000000007000000260000000000020000000000\n",
    "100+20 3800000003000000020000000000000001000000000000000000000000000000000000000000000000000000000000000000000000000000\n",
    "144 2a00000001000000030000000000000001000000000000000000000000000000000000000000000061+00\n",
    "16 2a0000000100000004000000000000000100000000000000000000000000000000000000000000006200\n",
    "0 300000000200000005000000000000000200000000000000000000000000000000000000000000000100000000000000\n",
);

/// The answers to these.
const BEGUN: &str = concat!(
    "ok 80 5000000000000000010000000000000007000000260000000000020000000000fffffdbf0000100001000000000100000000000000000000000000000000000000000000000000000000000000000000\n",
    "ok 120 7800000000000000020000000000000001000000000000000000000000000000010000000000000000000000000000000000000000000000000000000000000000000000000000000000000000000000000000000000000000000000ed410000020000000000000000000000000000000010000000000000\n",
    "ok 144 9000000000000000030000000000000002000000000000000000000000000000010000000000000001000000000000000000000000000000020000000000000005000000000000000000000000000000000000000000000000000000000000000000000000000000000000000000000000000000a4810000010000000000000000000000000000000010000000000000\n",
    "ok 16 10000000feffffff0400000000000000\n",
    "ok 0\n",
);

/// An input, and how its run ends.
struct Ending {
    /// The first lines, and the answers to them.
    lines: &'static str,
    answers: &'static str,
    /// What comes after them, and what is answered to it.
    following: &'static str,
    answered: &'static str,
    end: Result<(), RunError>,
    /// The program's status then.
    status: u8,
}

static ENDS: [Ending; 5] = [
    Ending {
        lines: FORGET,
        answers: FORGOTTEN,
        following: "",
        answered: "",
        end: Ok(()),
        status: 0,
    },
    Ending {
        lines: FORGET,
        answers: FORGOTTEN,
        following: "16\n",
        answered: "bad line 2\n",
        end: Err(RunError::BadLine(2)),
        status: 2,
    },
    Ending {
        lines: FORGET,
        answers: FORGOTTEN,
        following: "16",
        answered: "bad line 2\n",
        end: Err(RunError::BadLine(2)),
        status: 2,
    },
    Ending {
        lines: FORGET,
        answers: FORGOTTEN,
        following: "\n16 00\n",
        answered: "bad line 2\n",
        end: Err(RunError::BadLine(2)),
        status: 2,
    },
    Ending {
        lines: BEGINNING,
        answers: BEGUN,
        following: "16\n",
        answered: "bad line 6\n",
        end: Err(RunError::BadLine(6)),
        status: 2,
    },
];

/// A pair of a BATCH_FORGET: one lookup of node 2.
const PAIR: &str = "02000000000000000100000000000000";

/// An input whose first line sets a limit, or would, and how its run ends.
struct Limited {
    input: &'static str,
    /// How many pairs come after it.
    pairs: usize,
    answers: &'static str,
    end: Result<(), RunError>,
    /// The program's status then.
    status: u8,
}

/// What INIT tells of the limit, a `len` above the greatest and at it, as many pairs of a
/// BATCH_FORGET, and bad lines.
static LIMITED: [Limited; 10] = [
    Limited {
        input: "limit 8192\n80 380000001a000000010000000000000000000000000000000000000000000000000000000000000007000000260000000000020000000000",
        pairs: 0,
        answers: "ok 80 5000000000000000010000000000000007000000260000000000020000000000fffffdbf0020000001000000020000000000000000000000000000000000000000000000000000000000000000000000\n",
        end: Ok(()),
        status: 0,
    },
    Limited {
        input: "limit 134217728\n80 380000001a000000010000000000000000000000000000000000000000000000000000000000000007000000260000000000020000000000",
        pairs: 0,
        answers: "ok 80 5000000000000000010000000000000007000000260000000000020000000000fffffdbf0000000801000000008000000000000000000000000000000000000000000000000000000000000000000000\n",
        end: Ok(()),
        status: 0,
    },
    Limited {
        input: "limit 8192\n16 01300000110000000200000000000000010000000000000000000000000000000000000000000000",
        pairs: 0,
        answers: "ok 16 10000000f4ffffff0200000000000000\n",
        end: Ok(()),
        status: 0,
    },
    Limited {
        input: "limit 8192\n96 00300000110000000200000000000000010000000000000000000000000000000000000000000000",
        pairs: 0,
        answers: "ok 96 600000000000000002000000000000000000000000000000000000000000000000000000000000000000000000000000000000000000000000020000ff0000000000000000000000000000000000000000000000000000000000000000000000\n",
        end: Ok(()),
        status: 0,
    },
    Limited {
        input: "limit 8192\n16 300000002a00000003000000000000000000000000000000000000000000000000000000000000000102000000000000",
        pairs: 0,
        answers: "ok 16 10000000f4ffffff0300000000000000\n",
        end: Ok(()),
        status: 0,
    },
    Limited {
        input: "limit 8192\n16 302000002a00000003000000000000000000000000000000000000000000000000000000000000000002000000000000",
        pairs: 512,
        answers: "ok 0\n",
        end: Ok(()),
        status: 0,
    },
    Limited {
        input: "limit 4095\n80 380000001a000000010000000000000000000000000000000000000000000000000000000000000007000000260000000000020000000000",
        pairs: 0,
        answers: "bad line 1\n",
        end: Err(RunError::BadLine(1)),
        status: 2,
    },
    Limited {
        input: "limit 134217729\n80 380000001a000000010000000000000000000000000000000000000000000000000000000000000007000000260000000000020000000000",
        pairs: 0,
        answers: "bad line 1\n",
        end: Err(RunError::BadLine(1)),
        status: 2,
    },
    Limited {
        input: "limit 8192\n16",
        pairs: 0,
        answers: "bad line 2\n",
        end: Err(RunError::BadLine(2)),
        status: 2,
    },
    Limited {
        input: "limit 8192\nlimit 8192",
        pairs: 0,
        answers: "bad line 2\n",
        end: Err(RunError::BadLine(2)),
        status: 2,
    },
];

/// A server over new files in memory, with a note of each of up to eleven calls.
type FilesServer = Server<Recorder<MemFs>>;

/// Such a server.
fn files_server(alloc: Global) -> Result<FilesServer, AllocError> {
    match MemFs::new(alloc) {
        Ok(files) => server_over(alloc, files, 11),
        Err(_) => Err(AllocError),
    }
}

/// How a run of these lines and a last one ends, and what it writes.
fn ran(
    alloc: Global,
    first: &str,
    last: &str,
) -> Result<(Result<(), RunError>, Vec<u8>), AllocError> {
    let input = format!(in alloc; "{first}{last}")?;
    let mut output = Vec::new(alloc);
    let end = run(alloc, &mut input.as_bytes(), &mut output);
    Ok((end, output))
}

/// Whether bytes are the one text and the other after it.
fn are_both(bytes: &[u8], first: &str, last: &str) -> bool {
    match bytes.strip_prefix(first.as_bytes()) {
        Some(following) => following == last.as_bytes(),
        None => false,
    }
}

/// Whether a run ends so.
fn ends_so(alloc: Global, row: &Ending) -> Result<bool, AllocError> {
    let (ended, written) = ran(alloc, row.lines, row.following)?;
    Ok(
        ended == row.end
            && exit_status(&ended) == row.status
            && are_both(&written, row.answers, row.answered),
    )
}

/// What comes after the first lines of the first input whose run ends otherwise.
fn wrong_end(alloc: Global) -> Result<Option<&'static str>, AllocError> {
    for row in &ENDS {
        if !ends_so(alloc, row)? {
            return Ok(Some(row.following));
        }
    }
    Ok(None)
}

#[test]
fn a_session_is_answered_up_to_its_bad_line(rt: HostRuntime) -> Result<(), Fail> {
    none_is_wrong(wrong_end(rt.alloc()))
}

/// This text that many times.
fn times(alloc: Global, text: &str, count: usize) -> Result<String, AllocError> {
    let mut all = String::new(alloc);
    for _ in 0..count {
        all.push_str(text)?;
    }
    Ok(all)
}

/// Whether the run of an input with a limit ends so.
fn is_limited(alloc: Global, row: &Limited) -> Result<bool, AllocError> {
    let last = times(alloc, PAIR, row.pairs)?;
    let (ended, written) = ran(alloc, row.input, last.as_str())?;
    Ok(
        ended == row.end
            && exit_status(&ended) == row.status
            && written.as_slice() == row.answers.as_bytes(),
    )
}

/// The first such input whose run ends otherwise.
fn wrong_limit(alloc: Global) -> Result<Option<&'static str>, AllocError> {
    for row in &LIMITED {
        if !is_limited(alloc, row)? {
            return Ok(Some(row.input));
        }
    }
    Ok(None)
}

#[test]
fn a_first_line_sets_the_limit(rt: HostRuntime) -> Result<(), Fail> {
    none_is_wrong(wrong_limit(rt.alloc()))
}

/// Gives its bytes, and then fails.
#[derive(Drop)]
struct FailingInput<'a>(&'a [u8]);

impl Read for FailingInput<'_> {
    fn read(&mut self, buf: &mut [u8]) -> io::Result<usize> {
        if self.0.is_empty() {
            return Err(io::Error::from(ErrorKind::BrokenPipe));
        }
        self.0.read(buf)
    }
}

/// Whether a run ends by a fault of an input that fails after these bytes.
fn ends_by_input(alloc: Global, bytes: &[u8]) -> bool {
    run(alloc, &mut FailingInput(bytes), &mut Vec::new(alloc)) == Err(RunError::Io)
}

/// Whether a run ends by a fault of an output that has room for that many bytes.
fn ends_by_output(alloc: Global, room: usize) -> Result<bool, AllocError> {
    let mut room = vec![in alloc; 0u8; room]?;
    let end = run(alloc, &mut FORGET.as_bytes(), &mut room.as_mut_slice());
    Ok(end == Err(RunError::Io))
}

/// What an input gives before it fails.
static BEFORE_A_FAULT: [&str; 3] = ["", "0", FORGET];

/// How many bytes an output takes before it fails.
static ROOMS: [usize; 3] = [0, 1, 4];

#[test]
fn a_fault_of_input_or_output_ends_the_run(rt: HostRuntime) -> Result<(), Fail> {
    for text in &BEFORE_A_FAULT {
        assert!(rt; ends_by_input(rt.alloc(), text.as_bytes()));
    }
    for room in &ROOMS {
        holds(ends_by_output(rt.alloc(), *room))?;
    }
    Ok(())
}

/// A session in which of node 2 three entries are answered, one delivered, one forget accepted and
/// three sent: LOOKUP of `a`, the same without room for its reply, FORGET, READDIRPLUS with room
/// for two of three records, a BATCH_FORGET that is cut short, and READDIRPLUS with a size of 319
/// in a room of 335, where `..`, which doesn't fit, is given back as node 0. Last CREATE of `c`,
/// which lacks one byte of room for its reply: node 3 is given back, its handle isn't released.
static LINES: [&str; 7] = [
    "144 2a0000000100000003000000000000000100000000000000000000000000000000000000000000006100",
    "100 2a0000000100000004000000000000000100000000000000000000000000000000000000000000006100",
    "0 300000000200000005000000000000000200000000000000000000000000000000000000000000000100000000000000",
    "495 500000002c000000060000000000000001000000000000000000000000000000000000000000000000000000000000000000000000000000df0100000000000000000000000000000000000000000000",
    "0 400000002a0000000700000000000000000000000000000000000000000000000000000000000000020000000000000002000000000000000100000000000000",
    "335 500000002c0000000800000000000000010000000000000000000000000000000000000000000000000000000000000000000000000000003f0100000000000000000000000000000000000000000000",
    "159 3a000000230000000900000000000000010000000000000000000000000000000000000000000000000000000000000000000000000000006300",
];

/// Its answers.
const ANSWERS: &str = concat!(
    "ok 144 9000000000000000030000000000000002000000000000000000000000000000010000000000000001000000000000000000000000000000020000000000000005000000000000000000000000000000000000000000000000000000000000000000000000000000000000000000000000000000a4810000010000000000000000000000000000000010000000000000\n",
    "err EncodeMessage 90000000000000000400000000000000020000000000000000000000000000000100000000000000010000000000000000000000000000000200000000000000050000000000000000000000000000000000000000000000000000000000000000000000\n",
    "ok 0\n",
    "ok 336 5001000000000000060000000000000000000000000000000000000000000000000000000000000000000000000000000000000000000000010000000000000000000000000000000000000000000000000000000000000000000000000000000000000000000000000000000000000000000000004000000000000000000000000000000000000000000000000000000100000000000000010000000000000001000000040000002e0000000000000000000000000000000000000000000000000000000000000000000000000000000000000000000000010000000000000000000000000000000000000000000000000000000000000000000000000000000000000000000000000000000000000000000000004000000000000000000000000000000000000000000000000000000100000000000000020000000000000002000000040000002e2e000000000000\n",
    "err DecodeMessage\n",
    "ok 176 b000000000000000080000000000000000000000000000000000000000000000000000000000000000000000000000000000000000000000010000000000000000000000000000000000000000000000000000000000000000000000000000000000000000000000000000000000000000000000004000000000000000000000000000000000000000000000000000000100000000000000010000000000000001000000040000002e00000000000000\n",
    "err EncodeMessage a000000000000000090000000000000003000000000000000000000000000000010000000000000001000000000000000000000000000000030000000000000000000000000000000000000000000000000000000000000000000000000000000000000000000000000000000000000000000000a4810000010000000000000000000000000000000010000000000000000000000000000000000000000000\n",
);

/// The notes of the calls that it makes.
static CALLS: [Note; 11] = [
    Note {
        call: 1,
        node: 1,
        count: 0,
        kind: NoteKind::Ok,
        value: 2,
    },
    Note {
        call: 1,
        node: 1,
        count: 0,
        kind: NoteKind::Ok,
        value: 2,
    },
    Note {
        call: 2,
        node: 2,
        count: 1,
        kind: NoteKind::Nothing,
        value: 0,
    },
    Note {
        call: 2,
        node: 2,
        count: 1,
        kind: NoteKind::Nothing,
        value: 0,
    },
    Note {
        call: 28,
        node: 1,
        count: 0,
        kind: NoteKind::Ok,
        value: 0,
    },
    Note {
        call: 1,
        node: 1,
        count: 0,
        kind: NoteKind::Ok,
        value: 2,
    },
    Note {
        call: 2,
        node: 2,
        count: 1,
        kind: NoteKind::Nothing,
        value: 0,
    },
    Note {
        call: 28,
        node: 1,
        count: 0,
        kind: NoteKind::Ok,
        value: 0,
    },
    Note {
        call: 2,
        node: 0,
        count: 1,
        kind: NoteKind::Nothing,
        value: 0,
    },
    Note {
        call: 35,
        node: 1,
        count: 0,
        kind: NoteKind::Ok,
        value: 3,
    },
    Note {
        call: 2,
        node: 3,
        count: 1,
        kind: NoteKind::Nothing,
        value: 0,
    },
];

/// The requests of these lines.
fn requests(alloc: Global, lines: &[&str]) -> Result<Vec<Line>, RunError> {
    let mut requests = Vec::new(alloc);
    for line in lines {
        if let Some(request) = parse_line(alloc, line.as_bytes())? {
            requests.push(request)?;
        }
    }
    Ok(requests)
}

/// The answers of such a server to the requests of these lines.
fn answers_of(alloc: Global, server: &mut FilesServer, lines: &[&str]) -> Result<String, RunError> {
    let requests = requests(alloc, lines)?;
    answers_to(alloc, server, &requests)
}

/// Whether these are the calls that a server made.
fn are_calls(recorder: &Recorder<MemFs>, calls: &[Note]) -> bool {
    recorder.notes() == calls && !recorder.missed()
}

/// Whether the requests of these lines have these answers, and make these calls.
fn is_answered(
    alloc: Global,
    lines: &[&str],
    answers: &str,
    calls: &[Note],
) -> Result<bool, RunError> {
    let mut server = files_server(alloc)?;
    let is_same = answers_of(alloc, &mut server, lines)?.as_str() == answers;
    Ok(is_same && are_calls(server.fs(), calls))
}

#[test]
fn the_books_of_a_session_balance(rt: HostRuntime) -> Result<(), Fail> {
    holds(is_answered(rt.alloc(), &LINES, ANSWERS, &CALLS))
}

#[test]
fn a_session_of_no_requests_makes_no_call(rt: HostRuntime) -> Result<(), Fail> {
    holds(is_answered(rt.alloc(), &[], "", &[]))
}
