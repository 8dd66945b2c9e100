//! A message as a line in memory of the caller's, as `snprintf` leaves it.

ghost use Rattle.std.specs.Prelude.{◌≡◌, ◌<◌, IfSome, MatchOption, Some, None, length};
ghost use Rattle.vfs_print.specs.Lines.{HasLine, IsBegun, IsLine, short_line};

use crate::part::Part;
use crate::reply::print_reply;
use crate::request::print_request;
use vfs_flags::FsOptions;
use vfs_wire::{ByteValued, InHeader, OutHeader};

/// A message to be printed.
#[derive(Clone, Copy)]
pub enum Message<'a> {
    /// A request, by the options that are agreed on.
    Request(&'a [u8], FsOptions),

    /// The reply after the request that it answers.
    Reply(&'a [u8], &'a [u8]),
}

impl Message<'_> {
    /// The line of a message without a whole header. None for others.
    fn short_line(&self) -> Option<&'static str>
        ensures { MatchOption result (short_line self.now ≡ None)
            (λ line. short_line self.now ≡ Some line.now) }
    {
        match self {
            Message::Request(bytes, _) if bytes.len() < InHeader::SIZE => {
                Some("refused=DecodeMessage")
            }
            Message::Reply(_, bytes) if bytes.is_empty() => Some("-> no reply"),
            Message::Reply(_, bytes) if bytes.len() < OutHeader::SIZE => {
                Some("-> refused=DecodeMessage")
            }
            _ => None,
        }
    }

    /// The part of its line from a place on.
    fn part(&self, from: usize) -> Part
        ensures { IfSome (short_line self.now) (λ line. IsBegun line from result) }
    {
        let mut part = Part::new(from);
        if let Some(line) = self.short_line() {
            part.put_text(line);
            return part;
        }
        // (a part takes whatever is written)
        let _ = match self {
            Message::Request(bytes, options) => print_request(&mut part, bytes, *options),
            Message::Reply(request, bytes) => print_reply(&mut part, request, bytes),
        };
        part
    }

    /// Writes its line, as [`print_request`] and [`print_reply`] print it, over the first bytes of `text`,
    /// as many as fit before a 0. Answers how many the whole line has.
    pub fn write_line(&self, text: &mut [u8]) -> usize
        ensures line { 0 < length text.old → IsLine result text.old text.new }
        ensures short { IfSome (short_line self.now) (λ line. HasLine line result text.old text.new) }
    {
        let part = self.part(0);
        let len = part.len;
        let Some(room) = text.len().checked_sub(1) else {
            return len;
        };
        let end = len.min(room);
        let mut at = part.copy_to(text, 0, end);
        while at < end {
            at = self.part(at).copy_to(text, at, end);
        }
        text[end] = 0;
        len
    }
}
