//! How requests of rows are answered.

ghost use Rattle.std.specs.Prelude.{◌≡◌, ◌≢◌, ℕ, List};
ghost use Rattle.codec_calls.specs.declared.call.kind.TheConstants as kind;
ghost use Rattle.codec_decode.specs.Further.{Short};
ghost use Rattle.nizwarf_tree.specs.Files.{row_answer};
ghost use Rattle.c_rooms.specs.Codes.{no_memory, too_long};
ghost use Rattle.nizwarf_tree.specs.Kept.{KeepsFor, RowOrNot};
ghost use Rattle.nizwarf_tree.specs.Offered.{AsksRow, what_asked};
ghost use Rattle.nizwarf_tree.specs.Served.{SaysText};

use crate::files::{MOST_TEXT, answer_row};
use crate::instance::Instance;
use crate::offered::row_limits;
use c_rooms::codes::OUT_OF_MEMORY;
use codec_calls::{AnswerData, CallData};
use codec_encode::answer_offered;
use laws_flight::laws::{
    a_short_request_is_one_offered_turn, asked_and_answered_is_one_offered_turn,
};
use std::alloc::Global;
use vfs_grammar::Error;

impl Instance {
    /// Answers a call of a row, as the file system does.
    pub fn answer_row(&mut self, alloc: Global, call: &CallData, total: usize) -> (i32, usize)
        requires text { call.now.answer ≡ kind.BYTES }
        requires room { call.now.room ≡ total }
        ensures served { (request : List ℕ) → AsksRow self.old.server total request call.now →
            RowOrNot self.old self.new request total result.0 result.1 }
        ensures keeps { (n : ℕ) → KeepsFor n self.old → KeepsFor n self.new }
        ensures kept { result.0 ≢ no_memory → result.0 ≢ too_long → KeepsFor total self.new }
    {
        let mut text = [0; MOST_TEXT];
        match answer_row(self.server.fs(), call, &mut text) {
            Ok(len) => self.reply(alloc, call, &AnswerData::default(), &text[..len], total),
            Err(errno) => {
                let failed = AnswerData {
                    error: errno.get(),
                    ..AnswerData::default()
                };
                self.reply(alloc, call, &failed, &[], total)
            }
        }
    }

    // Replies to a call of a row what the data and the text say.
    fn reply(
        &mut self,
        alloc: Global,
        call: &CallData,
        answer: &AnswerData,
        text: &[u8],
        total: usize,
    ) -> (i32, usize)
        requires text { call.now.answer ≡ kind.BYTES }
        requires room { call.now.room ≡ total }
        ensures served { (request : List ℕ) → AsksRow self.old.server total request call.now →
            SaysText call.now answer.now text.now (row_answer self.old.server.fs call.now) →
            RowOrNot self.old self.new request total result.0 result.1 }
        ensures keeps { (n : ℕ) → KeepsFor n self.old → KeepsFor n self.new }
        ensures kept { result.0 ≢ no_memory → result.0 ≢ too_long → KeepsFor total self.new }
    {
        asked_and_answered_is_one_offered_turn();
        self.shown = 0;
        let Some(mut writer) = self.lend_room(alloc, total) else {
            return (OUT_OF_MEMORY, 0);
        };
        let limits = row_limits(&self.server);
        let came = answer_offered(limits, call, answer, text, &[], &mut writer);
        self.keep_room(alloc, writer.into_segments(), total);
        match came {
            Some(answered) => self.end(&answered.outcome, total),
            // (there was all the room that was told)
            None => (OUT_OF_MEMORY, 0),
        }
    }

    /// Refuses a request of a row whose record, or what it says that follows, is cut.
    pub fn refuse_short(&mut self, alloc: Global, total: usize) -> (i32, usize)
        ensures served { (request : List ℕ) → what_asked self.old.server.limits request ≡ Short →
            RowOrNot self.old self.new request total result.0 result.1 }
        ensures keeps { (n : ℕ) → KeepsFor n self.old → KeepsFor n self.new }
        ensures kept { result.0 ≢ no_memory → result.0 ≢ too_long → KeepsFor total self.new }
    {
        a_short_request_is_one_offered_turn();
        self.shown = 0;
        let Some(writer) = self.lend_room(alloc, total) else {
            return (OUT_OF_MEMORY, 0);
        };
        self.keep_room(alloc, writer.into_segments(), total);
        self.end(&Err(Error::DecodeMessage), total)
    }
}
