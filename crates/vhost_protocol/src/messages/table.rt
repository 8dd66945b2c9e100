//! Tables of memory.

ghost use Rattle.std.specs.Prelude.{◌≡◌, ◌≤◌, ◌<◌, length, false, IfNone, IfOk};
ghost use Rattle.std.specs.List.{All, AllPairs};
ghost use Rattle.vhost_protocol.specs.Tables.{Apart, HasMemory, IsRegion, fault_among, fault_of, meet as meet_of, meets_any as meets_one, overlap, region_in, regions_in, table_of};

use crate::messages::message::{Message, Table};
use crate::messages::records::Region;
use crate::numbers::{Refusal, Request};
use vfs_wire::bytes::{u32_at, u64_at};

/// The greatest offset of a file.
const LAST_OFFSET: u64 = i64::MAX as u64;

/// Why a region can't be.
#[tactic(auto, unfolding(crate::specs::Tables::fault_of))]
fn fault(region: &Region) -> Option<Refusal>
    ensures value { result ≡ fault_of region.now }
    ensures is_one { IfNone result (IsRegion region.now) }
{
    let size = region.size;
    if size == 0 {
        Some(Refusal::EmptyRegion)
    } else if region.guest > u64::MAX - size {
        Some(Refusal::GuestRange)
    } else if region.user > u64::MAX - size {
        Some(Refusal::UserRange)
    } else if size > LAST_OFFSET || region.offset > LAST_OFFSET - size {
        Some(Refusal::FileRange)
    } else {
        None
    }
}

/// Why the first of them can't be that can't be.
fn first_fault(regions: &[Region]) -> Option<Refusal>
    ensures value { result ≡ fault_among regions.now }
    ensures are { IfNone result (All IsRegion regions.now) }
{
    let (first, rest) = regions.split_first()?;
    match fault(first) {
        Some(refusal) => Some(refusal),
        None => first_fault(rest),
    }
}

/// Whether two regions have an address of the guest in common.
fn meet(a: &Region, b: &Region) -> bool
    ensures value { result ≡ meet_of a.now b.now }
    ensures apart { result ≡ false → Apart a.now b.now }
{
    if a.guest <= b.guest {
        b.guest - a.guest < a.size
    } else {
        a.guest - b.guest < b.size
    }
}

/// Whether a region and one of these meet.
fn meets_any(region: &Region, others: &[Region]) -> bool
    ensures value { result ≡ meets_one region.now others.now }
    ensures apart { result ≡ false → All (Apart region.now) others.now }
{
    match others.split_first() {
        Some((first, rest)) => meet(region, first) || meets_any(region, rest),
        None => false,
    }
}

/// Whether two of these meet.
fn any_meet(regions: &[Region]) -> bool
    ensures value { result ≡ overlap regions.now }
    ensures apart { result ≡ false → AllPairs Apart regions.now }
{
    match regions.split_first() {
        Some((first, rest)) => meets_any(first, rest) || any_meet(rest),
        None => false,
    }
}

/// A region of a table's bytes.
#[tactic(auto, unfolding(crate::specs::Tables::region_in))]
fn region_at(body: &[u8], i: usize) -> Region
    requires { i < 8 }
    ensures { result ≡ region_in body.now i }
{
    if body.len() < 8 + 32 * (i + 1) {
        return Region::NONE;
    }
    let at = 8 + 32 * i;
    Region {
        guest: u64_at(body, at),
        size: u64_at(body, at + 8),
        user: u64_at(body, at + 16),
        offset: u64_at(body, at + 24),
    }
}

/// The eight regions of a table's bytes.
fn regions_at(body: &[u8]) -> [Region; 8]
    ensures { result ≡ regions_in body.now }
{
    [
        region_at(body, 0),
        region_at(body, 1),
        region_at(body, 2),
        region_at(body, 3),
        region_at(body, 4),
        region_at(body, 5),
        region_at(body, 6),
        region_at(body, 7),
    ]
}

/// The table of these bytes.
#[tactic(auto, unfolding(crate::specs::Tables::table_of))]
pub fn table(body: &[u8]) -> Result<Message, Refusal>
    requires { 8 ≤ length body.now }
    ensures value { result ≡ table_of body.now }
    ensures memory { IfOk result HasMemory }
    ensures queue { IfOk result (λ m. m.queue ≡ 0) }
{
    let count = u32_at(body, 0);
    if count > 8 || body.len() != 8 + 32 * count as usize {
        return Err(Refusal::WrongCount);
    }
    let region = regions_at(body);
    if let Some(refusal) = first_fault(&region[..count as usize]) {
        return Err(refusal);
    }
    if any_meet(&region[..count as usize]) {
        return Err(Refusal::Overlap);
    }
    Ok(Message {
        request: Request::SetMemTable as u32,
        descriptors: count,
        memory: Table {
            count: u64::from(count),
            region,
        },
        ..Message::NONE
    })
}
