//! Messages as lines of text.

ghost use Rattle.std.specs.Prelude.{◌≡◌, ◌<◌, codes, length};
ghost use Rattle.vfs_print.specs.Lines.{HasLine, IsLine};

use bitflags::Flags;
use vfs_flags::FsOptions;
use vfs_print::Message;

/// Formats a request as a line of printable ASCII into `text`, as many bytes as fit before a NUL.
/// `options` are the negotiated ones. Returns the length of the whole line.
#[unsafe(no_mangle)]
pub extern "C" fn nizwarf_print_request_at(request: &[u8], options: u64, text: &mut [u8]) -> usize
    ensures line { 0 < length text.old → IsLine result text.old text.new }
    ensures no_header { length request.now < 40 →
        HasLine (codes "refused=DecodeMessage") result text.old text.new }
{
    let options = FsOptions::from_bits_truncate(options);
    Message::Request(request, options).write_line(text)
}

/// Formats the reply to a request in the same way. The first 48 bytes of the request suffice.
#[unsafe(no_mangle)]
pub extern "C" fn nizwarf_print_reply_at(request: &[u8], reply: &[u8], text: &mut [u8]) -> usize
    ensures line { 0 < length text.old → IsLine result text.old text.new }
    ensures none { length reply.now ≡ 0 →
        HasLine (codes "-> no reply") result text.old text.new }
    ensures no_header { 0 < length reply.now → length reply.now < 16 →
        HasLine (codes "-> refused=DecodeMessage") result text.old text.new }
{
    Message::Reply(request, reply).write_line(text)
}
