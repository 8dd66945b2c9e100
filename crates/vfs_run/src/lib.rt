//! A session as text: its lines, what each of them asks, the limit that the first one may set, and
//! how the session ends. And its run: each request answered by a server with a line, and the input
//! and output of a whole one; over files in memory, all that the program `vfs_demo` does; and what a
//! program over a session says to a person.
#![tactic(auto)]

mod answer;
mod error;
mod input;
mod limit;
mod line;
mod line_uses;
mod requests;
mod session;
mod session_uses;
mod usage;
mod uses;

pub use answer::answer_line;
pub use error::{RunError, exit_status};
pub use fs_small::{MemFile, MemFs};
pub use input::{run, run_text};
pub use limit::{first_limit, lines_before_requests, max_buffer_for, parse_limit};
pub use line::{Line, MOST_ROOM, lines_of, parse_line, why_bad};
pub use requests::{end_session, read_session};
pub use session::{PAGE_SIZE, answer_to, answers_to, read_all, server_for, write_all};
pub use usage::{
    Program, USAGE_STATUS, greet_terminal, print_usage, refuses_arguments, report_session,
};
