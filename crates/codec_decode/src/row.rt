//! What a request asks by the further table.

ghost use Rattle.std.specs.Prelude.{◌≡◌, ◌+◌, length, drop};
ghost use Rattle.vfs_flags.specs.Flags.{fs_options_bits};
ghost use Rattle.vfs_wire.specs.Records.{in_header};
ghost use Rattle.vfs_wire_more.specs.Records.{copyfilerange_in};
ghost use Rattle.vfs_wire_more.specs.Locks.{lk_in};
ghost use Rattle.vfs_wire_more.specs.Devices.{bmap_in, ioctl_in, poll_in, statx_in};
ghost use Rattle.vfs_wire_more.specs.Notifications.{notify_retrieve_in};
ghost use Rattle.vfs_segments.specs.Segments.{segments_of, flat_bytes};
ghost use Rattle.vfs_grammar.specs.Limits.{AreLimits};
ghost use Rattle.vfs_grammar.specs.Records.{record_of, size_of};
ghost use Rattle.codec_decode.specs.declared.row.Further.TheVariants.{Row as IsRow};
ghost use Rattle.codec_decode.specs.Further.{Row, Tells, bmap_told, copy_told, if_whole, ioctl_place, ioctl_told, lock_told, notify_place, notify_told, or_short, poll_told, row_of, statx_told, told_of, told_under, what_after, what_of};

use crate::at_once::record_in;
use crate::front::{copy_front, is_as_long};
use crate::offers;
use bitflags::Flags;
use codec_calls::{CallData, Range, has, kind, number};
use vfs_flags::{FsOptions, GETATTR_FH, LK_FLOCK};
use vfs_grammar::Limits;
use vfs_wire::parts::part_at;
use vfs_wire::{ByteValued, InHeader};
use vfs_wire_more::{BmapIn, CopyfilerangeIn, IoctlIn, LkIn, NotifyRetrieveIn, PollIn, StatxIn};

/// The bytes of a header and the longest record of a row: that of COPY_FILE_RANGE_64.
const FRONT: usize = 96;

/// What a request asks by the rows that are offered.
#[derive(Clone, Copy)]
pub enum Further {
    /// What the table of virtiofsd says.
    Ordinary,
    /// Nothing: its record, or the data that it says it has, are not whole. It is refused by `DecodeMessage`.
    Short,
    /// A call, which is told.
    Row,
    /// A file without a name: what CREATE of the same bytes asks.
    Unnamed,
}

// This call of the node and the caller that a header names, with this kind of answer.
fn told(number: u32, answer: u32, h: &InHeader) -> CallData
    ensures { result ≡ told_of number answer h.now }
{
    CallData {
        unique: h.unique,
        node: h.nodeid,
        call: number,
        answer,
        uid: h.uid.into_inner(),
        gid: h.gid.into_inner(),
        pid: h.pid.cast_signed(),
        ..CallData::NONE
    }
}

fn lock(number: u32, answer: u32, h: &InHeader, r: LkIn) -> CallData
    ensures { result ≡ lock_told number answer h.now r }
{
    CallData {
        handle: r.fh,
        lock_owner: r.owner,
        offset: r.lk.start,
        other_offset: r.lk.end,
        flags: r.lk.type_,
        more: r.lk.pid,
        has: if r.lk_flags & LK_FLOCK == 0 {
            has::OWNER
        } else {
            has::OWNER + has::LK_FLOCK
        },
        ..told(number, answer, h)
    }
}

fn bmap(h: &InHeader, r: BmapIn) -> CallData
    ensures { result ≡ bmap_told h.now r }
{
    CallData {
        offset: r.block,
        size: r.blocksize,
        ..told(number::BMAP, kind::OFFSET, h)
    }
}

/// Where the input of an IOCTL begins.
const IOCTL_PLACE: u64 = 72;

fn ioctl(h: &InHeader, r: IoctlIn) -> CallData
    ensures { result ≡ ioctl_told h.now r }
{
    CallData {
        handle: r.fh,
        flags: r.flags,
        more: r.cmd,
        offset: r.arg,
        data: Range {
            at: IOCTL_PLACE,
            len: u64::from(r.in_size),
        },
        length: u64::from(r.in_size),
        size: r.out_size,
        ..told(number::IOCTL, kind::BYTES, h)
    }
}

fn poll(h: &InHeader, r: PollIn) -> CallData
    ensures { result ≡ poll_told h.now r }
{
    CallData {
        handle: r.fh,
        offset: r.kh,
        flags: r.flags,
        more: r.events,
        ..told(number::POLL, kind::COUNT, h)
    }
}

/// Where the data of a NOTIFY_REPLY begin.
const NOTIFY_PLACE: u64 = 80;

fn notify(h: &InHeader, r: NotifyRetrieveIn) -> CallData
    ensures { result ≡ notify_told h.now r }
{
    CallData {
        offset: r.offset,
        size: r.size,
        data: Range {
            at: NOTIFY_PLACE,
            len: u64::from(r.size),
        },
        ..told(number::NOTIFY_REPLY, kind::NONE, h)
    }
}

fn statx(h: &InHeader, r: StatxIn) -> CallData
    ensures { result ≡ statx_told h.now r }
{
    let (handle, has) = if r.getattr_flags & GETATTR_FH == 0 {
        (0, 0)
    } else {
        (r.fh, has::HANDLE)
    };
    CallData {
        handle,
        has,
        flags: r.sx_flags,
        more: r.sx_mask,
        ..told(number::STATX, kind::BYTES, h)
    }
}

fn copy(h: &InHeader, r: CopyfilerangeIn) -> CallData
    ensures { result ≡ copy_told h.now r }
{
    CallData {
        handle: r.fh_in,
        offset: r.off_in,
        length: r.len,
        lock_owner: r.flags,
        other_node: r.nodeid_out,
        other_handle: r.fh_out,
        other_offset: r.off_out,
        ..told(number::COPY_64, kind::OFFSET, h)
    }
}

// Puts a call in its place.
fn tell(told: CallData, call: &mut CallData) -> Further
    ensures { (result ≡ IsRow) × (call.new ≡ told) }
{
    *call = told;
    Further::Row
}

fn ask_lock(number: u32, answer: u32, h: &InHeader, rest: &[u8], call: &mut CallData) -> Further
    ensures { Tells (or_short (record_of lk_in rest.now) (λ r.
        Row (lock_told number answer h.now r))) (λ c. c) result call.old call.new }
{
    match record_in::<LkIn>(rest) {
        Ok(r) => tell(lock(number, answer, h, r), call),
        Err(_) => Further::Short,
    }
}

fn ask_bmap(h: &InHeader, rest: &[u8], call: &mut CallData) -> Further
    ensures { Tells (or_short (record_of bmap_in rest.now) (λ r.
        Row (bmap_told h.now r))) (λ c. c) result call.old call.new }
{
    match record_in::<BmapIn>(rest) {
        Ok(r) => tell(bmap(h, r), call),
        Err(_) => Further::Short,
    }
}

fn ask_ioctl(h: &InHeader, rest: &[u8], request: &[&[u8]], call: &mut CallData) -> Further
    ensures { Tells (or_short (record_of ioctl_in rest.now) (λ r.
        if_whole (ioctl_place + r.in_size) (length (flat_bytes (segments_of request.now)))
        (ioctl_told h.now r))) (λ c. c) result call.old call.new }
{
    match record_in::<IoctlIn>(rest) {
        Ok(r) => tell_if_whole(
            IOCTL_PLACE + u64::from(r.in_size),
            request,
            ioctl(h, r),
            call,
        ),
        Err(_) => Further::Short,
    }
}

// Puts a call in its place, if its request has at least that many bytes.
fn tell_if_whole(least: u64, request: &[&[u8]], told: CallData, call: &mut CallData) -> Further
    ensures { Tells (if_whole least (length (flat_bytes (segments_of request.now))) told) (λ c. c)
        result call.old call.new }
{
    if is_as_long(request, least) {
        tell(told, call)
    } else {
        Further::Short
    }
}

fn ask_poll(h: &InHeader, rest: &[u8], call: &mut CallData) -> Further
    ensures { Tells (or_short (record_of poll_in rest.now) (λ r.
        Row (poll_told h.now r))) (λ c. c) result call.old call.new }
{
    match record_in::<PollIn>(rest) {
        Ok(r) => tell(poll(h, r), call),
        Err(_) => Further::Short,
    }
}

fn ask_notify(h: &InHeader, rest: &[u8], request: &[&[u8]], call: &mut CallData) -> Further
    ensures { Tells (or_short (record_of notify_retrieve_in rest.now) (λ r.
        if_whole (notify_place + r.size) (length (flat_bytes (segments_of request.now)))
        (notify_told h.now r))) (λ c. c) result call.old call.new }
{
    match record_in::<NotifyRetrieveIn>(rest) {
        Ok(r) => tell_if_whole(
            NOTIFY_PLACE + u64::from(r.size),
            request,
            notify(h, r),
            call,
        ),
        Err(_) => Further::Short,
    }
}

fn ask_statx(h: &InHeader, rest: &[u8], call: &mut CallData) -> Further
    ensures { Tells (or_short (record_of statx_in rest.now) (λ r.
        Row (statx_told h.now r))) (λ c. c) result call.old call.new }
{
    match record_in::<StatxIn>(rest) {
        Ok(r) => tell(statx(h, r), call),
        Err(_) => Further::Short,
    }
}

fn ask_copy(h: &InHeader, rest: &[u8], call: &mut CallData) -> Further
    ensures { Tells (or_short (record_of copyfilerange_in rest.now) (λ r.
        Row (copy_told h.now r))) (λ c. c) result call.old call.new }
{
    match record_in::<CopyfilerangeIn>(rest) {
        Ok(r) => tell(copy(h, r), call),
        Err(_) => Further::Short,
    }
}

// What a request with this header asks, with these bytes after it, at least those of the longest record.
fn ask_row(
    offers: u32,
    h: &InHeader,
    rest: &[u8],
    request: &[&[u8]],
    call: &mut CallData,
) -> Further
    ensures { Tells (row_of offers h.now rest.now
        (length (flat_bytes (segments_of request.now)))) (λ c. c) result call.old call.new }
{
    match h.opcode {
        number::GETLK if offers & offers::LOCKS != 0 => ask_lock(
            number::GETLK,
            kind::BYTES,
            h,
            rest,
            call,
        ),
        number::SETLK if offers & offers::LOCKS != 0 => ask_lock(
            number::SETLK,
            kind::STATUS,
            h,
            rest,
            call,
        ),
        number::SETLKW if offers & offers::LOCKS != 0 => ask_lock(
            number::SETLKW,
            kind::STATUS,
            h,
            rest,
            call,
        ),
        number::BMAP if offers & offers::BMAP != 0 => ask_bmap(h, rest, call),
        number::IOCTL if offers & offers::IOCTL != 0 => ask_ioctl(h, rest, request, call),
        number::POLL if offers & offers::POLL != 0 => ask_poll(h, rest, call),
        number::NOTIFY_REPLY if offers & offers::NOTIFY_REPLY != 0 => ask_notify(
            h, rest, request, call,
        ),
        number::TMPFILE if offers & offers::TMPFILE != 0 => Further::Unnamed,
        number::STATX if offers & offers::STATX != 0 => ask_statx(h, rest, call),
        number::COPY_64 if offers & offers::COPY_64 != 0 => ask_copy(h, rest, call),
        _ => Further::Ordinary,
    }
}

// What a request asks, of which `front` has the first bytes.
fn ask_front(
    offers: u32,
    limits: Limits,
    front: &[u8],
    request: &[&[u8]],
    call: &mut CallData,
) -> Further
    requires { AreLimits limits }
    ensures { Tells (what_after offers limits (record_of in_header front.now)
        (drop (size_of in_header) front.now) (length (flat_bytes (segments_of request.now)))) (λ c. c)
        result call.old call.new }
{
    if front.len() < InHeader::SIZE {
        return Further::Ordinary;
    }
    let header: InHeader = part_at(front, 0);
    if header.len > limits.max_len() {
        return Further::Ordinary;
    }
    ask_row(offers, &header, &front[InHeader::SIZE..], request, call)
}

// What a request in these segments asks.
fn ask_offered(offers: u32, limits: Limits, request: &[&[u8]], call: &mut CallData) -> Further
    requires { AreLimits limits }
    ensures { Tells (what_of offers limits (flat_bytes (segments_of request.now))) (λ c. c)
        result call.old call.new }
{
    let mut front = [0; FRONT];
    let len = copy_front(request, &mut front);
    ask_front(offers, limits, &front[..len], request, call)
}

/// What the request in these segments asks, of which any may be empty, by the rows that are offered: a call,
/// which is told in `call` with these options and that many bytes of room for its reply; or else `call` is as it
/// was.
///
/// Nothing takes memory. Where nothing is offered, nothing is looked at.
pub fn what(
    offers: u32,
    limits: Limits,
    options: FsOptions,
    request: &[&[u8]],
    room: usize,
    call: &mut CallData,
) -> Further
    requires { AreLimits limits }
    ensures { Tells (what_of offers limits (flat_bytes (segments_of request.now)))
        (told_under (fs_options_bits options) room) result call.old call.new }
{
    if offers == 0 {
        return Further::Ordinary;
    }
    let further = ask_offered(offers, limits, request, call);
    if let Further::Row = further {
        call.options = options.bits();
        call.room = room as u64;
    }
    further
}
