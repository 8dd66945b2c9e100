//! A server and the room of its replies, as they live between calls.

ghost use Rattle.std.specs.Prelude.{◌≡◌, ◌≢◌, ◌≤◌, ◌⊎◌, ◌-◌, ◌++◌, ◌∷◌, ℕ, [], None, length, take, drop, min, IfSome, IsSome};
ghost use Rattle.vfs_flags.specs.declared.constants.TheConstants.{LEAST_MAX_BUFFER, GREATEST_MAX_BUFFER};
ghost use Rattle.vfs_segments.specs.Segments.{segments_of, contents, flat_bytes, lengths_of};
ghost use Rattle.vfs_segments.specs.Written.{whole};
ghost use Rattle.vfs_server.specs.Memory.{WantsNoMemory};
ghost use Rattle.laws_flight.specs.OfferedTurns.{as_create};
ghost use Rattle.laws_history.specs.History.{Handled, turn_of_end};
ghost use Rattle.nizwarf_tree.specs.History.{Extends};
ghost use Rattle.nizwarf_tree.specs.Served.{new_server, told_time, Refused, ServedInC, SteppedInC};
ghost use Rattle.nizwarf_tree.specs.Taken.{place_of};
ghost use Rattle.nizwarf_tree.specs.Kept.{KeepsFor, WantsNone, unread_in};
ghost use Rattle.c_rooms.specs.Codes.{length_of, no_memory, outcome_code, shown_of, too_long};
ghost use Rattle.c_rooms.specs.Parts.{part_from};

use crate::files::{Files, new_files, tell_time};
use crate::memory::{Memory, Place};
use crate::offered::{as_create, asked};
use crate::settings::Settings;
use c_rooms::codes::{OK, OUT_OF_MEMORY, TOO_LONG, told};
use c_rooms::{copy_part, lend, only_room};
use codec_calls::CallData;
use codec_decode::Further;
use laws_history::laws::history_goes_on;
use std::alloc::Global;
use std::mem;
use vfs_grammar::Result;
use vfs_segments::{Reader, Writer};
use vfs_server::server::Server;

/// A server, and the memory in which its replies are put together.
#[derive(Drop)]
pub struct Instance {
    pub server: Server<Files>,
    /// It never gets shorter, so that a room as long as an earlier one costs nothing: the last
    /// room is its end.
    pub room: Vec<u8>,
    /// Where the last room begins.
    pub start: usize,
    /// How many bytes at the front of the last room are there to be copied out.
    pub shown: usize,
    /// What holds `room` while a request is handled, kept for its memory.
    pub list: Vec<Vec<u8>>,
}

impl Instance {
    /// An instance with a new server over a new file system. `None` where there is no memory.
    pub fn new(
        alloc: Global,
        page_size: u32,
        max_buffer: u32,
        settings: &Settings,
    ) -> Option<Instance>
        requires page { 4096 ≤ page_size }
        requires least { LEAST_MAX_BUFFER ≤ max_buffer }
        requires greatest { max_buffer ≤ GREATEST_MAX_BUFFER }
        ensures server { IfSome result (λ s. s.server ≡ new_server page_size max_buffer settings.now) }
        ensures shown { IfSome result (λ s. s.shown ≡ 0) }
    {
        Some(Instance {
            server: Server::with_limit(new_files(alloc, settings)?, page_size, max_buffer),
            room: Vec::new(alloc),
            start: 0,
            shown: 0,
            list: Vec::new(alloc),
        })
    }

    /// Ends the server, as a DESTROY does: that is the last turn of its history, and no options are agreed on then.
    pub fn destroy(&mut self)
        ensures history { Extends self.old.server (Handled turn_of_end ∷ []) self.new.server }
        ensures no_options { self.new.server.options ≡ 0 }
    {
        history_goes_on::<Files>();
        let _ = self.server.destroy();
    }

    /// Tells the file system the time.
    pub fn tell_time(&mut self, seconds: u64, nanoseconds: u32)
        ensures { self.new ≡ record self.old { server = told_time self.old.server seconds nanoseconds } }
    {
        tell_time(self.server.fs_mut(), seconds, nanoseconds);
    }

    /// Answers the request in these segments, with `total` bytes of room: the outcome's number, and
    /// the length of the reply, 0 where there is none.
    pub fn answer(&mut self, alloc: Global, request: &[&[u8]], total: usize) -> (i32, usize)
        ensures served { ServedInC self.old.server (flat_bytes (segments_of request.now)) total
            result.0 result.1 (drop self.new.start self.new.room.items) self.new.shown
            self.new.server }
        ensures memory { length request.now ≤ 4 →
            WantsNone self.old.server total (segments_of request.now) →
            KeepsFor total self.old → result.0 ≢ no_memory }
        ensures keeps { (n : ℕ) → KeepsFor n self.old → KeepsFor n self.new }
        ensures kept { result.0 ≢ no_memory → result.0 ≢ too_long → KeepsFor total self.new }
    {
        let mut call = CallData::NONE;
        match asked(&self.server, request, total, &mut call) {
            Further::Ordinary => self.answer_bytes(alloc, request, total),
            Further::Unnamed => self.answer_tmpfile(alloc, request, total),
            Further::Row => self.answer_row(alloc, &call, total),
            Further::Short => self.refuse_short(alloc, total),
        }
    }

    // Answers a TMPFILE, as the CREATE of the same bytes.
    fn answer_tmpfile(&mut self, alloc: Global, request: &[&[u8]], total: usize) -> (i32, usize)
        ensures served { SteppedInC self.old.server (as_create (flat_bytes (segments_of request.now))) total
            result.0 result.1 (drop self.new.start self.new.room.items) self.new.shown
            self.new.server
            ⊎ Refused self.old.server (flat_bytes (segments_of request.now)) result.0 result.1
            self.new.shown self.new.server }
        ensures keeps { (n : ℕ) → KeepsFor n self.old → KeepsFor n self.new }
        ensures kept { result.0 ≢ no_memory → result.0 ≢ too_long → KeepsFor total self.new }
    {
        let Ok(list) = as_create(alloc, request) else {
            self.shown = 0;
            return (OUT_OF_MEMORY, 0);
        };
        self.answer_bytes(alloc, &list, total)
    }

    // Answers the request of the bytes in these segments, by virtiofsd's table.
    fn answer_bytes(&mut self, alloc: Global, request: &[&[u8]], total: usize) -> (i32, usize)
        ensures served { SteppedInC self.old.server (flat_bytes (segments_of request.now)) total
            result.0 result.1 (drop self.new.start self.new.room.items) self.new.shown
            self.new.server
            ⊎ Refused self.old.server (flat_bytes (segments_of request.now)) result.0 result.1
            self.new.shown self.new.server }
        ensures memory { length request.now ≤ 4 →
            WantsNoMemory self.old.server.limits self.old.server.options total
            (unread_in (segments_of request.now)) → KeepsFor total self.old → result.0 ≢ no_memory }
        ensures keeps { (n : ℕ) → KeepsFor n self.old → KeepsFor n self.new }
        ensures kept { result.0 ≢ no_memory → result.0 ≢ too_long → KeepsFor total self.new }
    {
        self.shown = 0;
        match Reader::new(alloc, request) {
            Ok(reader) => self.answer_reader(alloc, reader, total),
            Err(vfs_segments::Error::DescriptorChainOverflow) => (TOO_LONG, 0),
            Err(_) => (OUT_OF_MEMORY, 0),
        }
    }

    // Answers the request that this reader has left.
    fn answer_reader(&mut self, alloc: Global, reader: Reader<'_>, total: usize) -> (i32, usize)
        requires { self.old.shown ≡ 0 }
        ensures served { SteppedInC self.old.server reader.entry.left total
            result.0 result.1 (drop self.new.start self.new.room.items) self.new.shown
            self.new.server
            ⊎ Refused self.old.server reader.entry.left result.0 result.1 self.new.shown
            self.new.server }
        ensures memory { WantsNoMemory self.old.server.limits self.old.server.options total reader.entry →
            KeepsFor total self.old → result.0 ≢ no_memory }
        ensures keeps { (n : ℕ) → KeepsFor n self.old → KeepsFor n self.new }
        ensures kept { result.0 ≢ no_memory → result.0 ≢ too_long → KeepsFor total self.new }
    {
        let Some(mut writer) = self.lend_room(alloc, total) else {
            return (OUT_OF_MEMORY, 0);
        };
        let outcome = self.server.handle_message(alloc, reader, &mut writer);
        self.keep_room(alloc, writer.into_segments(), total);
        self.end(&outcome, total)
    }

    /// Notes how a request ended, for which there were `total` bytes of room: the outcome's number, and
    /// the length of the reply.
    pub(crate) fn end(&mut self, outcome: &Result<usize>, total: usize) -> (i32, usize)
        ensures number { result.0 ≡ outcome_code outcome.now }
        ensures len { result.1 ≡ length_of outcome.now }
        ensures shown { self.new.shown ≡ shown_of outcome.now total }
        ensures server { self.new.server ≡ self.old.server }
        ensures room { drop self.new.start self.new.room.items ≡ drop self.old.start self.old.room.items }
        ensures keeps { (n : ℕ) → KeepsFor n self.old → KeepsFor n self.new }
    {
        match outcome {
            Ok(len) => {
                self.shown = *len;
                (OK, *len)
            }
            Err(error) => {
                let (number, shown) = told(error, total);
                self.shown = shown;
                (number, 0)
            }
        }
    }

    /// A writer with `total` bytes left, the last ones of the kept memory. `None` where there is no
    /// memory: then what is kept stays.
    pub(crate) fn lend_room(&mut self, alloc: Global, total: usize) -> Option<Writer>
        ensures server { self.new.server ≡ self.old.server }
        ensures shown { self.new.shown ≡ self.old.shown }
        ensures left { IfSome result (λ w. length w.left ≡ total) }
        ensures one { IfSome result (λ w. length w.lengths ≡ 1) }
        ensures has { KeepsFor total self.old → IsSome result }
        ensures longer { (n : ℕ) → KeepsFor n self.old → IfSome result (λ w. n ≤ length (whole w)) }
        ensures stays { result ≡ None → (n : ℕ) → KeepsFor n self.old → KeepsFor n self.new }
    {
        lend(alloc, &mut self.list, &mut self.room, total)
    }

    /// Takes the memory back, and keeps the list that it stood in. The last room is its last `total`
    /// bytes.
    pub(crate) fn keep_room(&mut self, alloc: Global, mut rooms: Vec<Vec<u8>>, total: usize)
        requires { length (lengths_of (contents rooms.items)) ≡ 1 }
        ensures server { self.new.server ≡ self.old.server }
        ensures shown { self.new.shown ≡ self.old.shown }
        ensures room { drop self.new.start self.new.room.items ≡
            drop (length (flat_bytes (contents rooms.items)) - total)
            (flat_bytes (contents rooms.items)) }
        ensures holds { KeepsFor (length (flat_bytes (contents rooms.items))) self.new }
    {
        self.room = only_room(alloc, &mut rooms);
        self.start = self.room.len().saturating_sub(total);
        self.list = rooms;
    }

    /// Copies bytes that are there to be copied out, from place `at` on, over the first ones of a
    /// piece, as many as both have. Answers how many.
    pub fn copy_out(&self, at: usize, piece: &mut [u8]) -> usize
        ensures count { result ≡ min (length
            (part_from at (drop self.now.start self.now.room.items) self.now.shown))
            (length piece.old) }
        ensures copied { piece.new ≡
            take result (part_from at (drop self.now.start self.now.room.items) self.now.shown)
            ++ drop result piece.old }
    {
        copy_part(&self.room, self.start, self.shown, at, piece)
    }

    /// Gives the memory of the last reply away, for other memory in which later ones are put
    /// together. Answers where the bytes lie that were there to be copied out; none is from then on.
    pub fn exchange(&mut self, memory: &mut Memory) -> Place
        ensures server { self.new.server ≡ self.old.server }
        ensures shown { self.new.shown ≡ 0 }
        ensures kept { self.new.room ≡ memory.old.room }
        ensures given { memory.new.room ≡ self.old.room }
        ensures place { result ≡ place_of self.old }
    {
        let place = Place {
            at: self.room.as_ptr(),
            start: self.start,
            len: self.shown.min(self.room.len().saturating_sub(self.start)),
        };
        mem::swap(&mut self.room, &mut memory.room);
        self.start = 0;
        self.shown = 0;
        place
    }
}
