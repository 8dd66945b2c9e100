//! Small callers.

ghost use Rattle.std.specs.Prelude.{◌≡◌, ◌≢◌, ◌≤◌, ◌<◌, ◌+◌, ◌^◌, [], ◌∷◌, Some, None, Ok, length, slice_index_or, IfOk, IfSome, MatchOption};
ghost use Rattle.std.specs.List.{All, AllPairs, HoldsAt};
ghost use Rattle.vhost_protocol.specs.Places.{Has};
ghost use Rattle.vhost_protocol.specs.Samples.{head_of, num_128};
ghost use Rattle.vhost_protocol.specs.Tables.{Apart, alone, shared};

use crate::messages::message::{Message, Offer, Table};
use crate::messages::payload::payload;
use crate::messages::place::{Place, View, place_of};
use crate::messages::read::{payload_size, read_message};
use crate::messages::records::{Log, Region};
use crate::messages::request::request_by;
use crate::numbers::{Refusal, Request};

/// The size of a queue's message is that of its header.
#[tactic(auto, unfolding(vfs_wire::specs::Fields::number, crate::specs::Messages::size_in, crate::specs::Messages::asked_by, crate::specs::Numbers::request_of, crate::specs::Requests::has_size))]
fn size_of_num(head: &[u8]) -> Result<u32, Refusal>
    requires { head.now ≡ head_of 8 8 }
    ensures { result ≡ Ok 8 }
{
    payload_size(head)
}

/// Of requests by number, 5 shares memory, 1 asks for features, and 19 is not served.
#[tactic(auto, unfolding(crate::specs::Numbers::request_of))]
fn requests_by_number() -> [Option<Request>; 3]
    ensures { result ≡ Some Request.SetMemTable ∷ Some Request.GetFeatures ∷ None ∷ [] }
{
    [request_by(5), request_by(1), request_by(19)]
}

/// What says nothing asks for features.
#[tactic(auto, unfolding(crate::specs::Messages::payload_of, crate::specs::Requests::has_size))]
fn features_wanted(body: &[u8], offer: &Offer) -> Result<Message, Refusal>
    requires { length body.now ≡ 0 }
    ensures { result ≡ Ok (alone Request.GetFeatures) }
{
    payload(Request::GetFeatures, body, offer)
}

/// A queue 1 of 128 descriptors.
#[tactic(auto, unfolding(vfs_wire::specs::Fields::number, crate::specs::Messages::message_of, crate::specs::Messages::asked_by, crate::specs::Numbers::request_of, crate::specs::Requests::has_size, crate::specs::Messages::payload_of, crate::specs::Messages::state_of, crate::specs::Messages::number_fault))]
fn queue_of_128(head: &[u8], body: &[u8], offer: &Offer) -> Result<Message, Refusal>
    requires head { head.now ≡ head_of 8 8 }
    requires body { body.now ≡ num_128 }
    requires queues { offer.now.queues ≡ 2 }
    ensures { IfOk result (λ m. (m.queue ≡ 1) × (m.number ≡ 128)) }
{
    read_message(head, body, 0, offer)
}

/// Memory that is taken has no address twice.
fn share(head: &[u8], body: &[u8], descriptors: usize, offer: &Offer) -> Option<Table>
    ensures few { IfSome result (λ t. t.count ≤ 8) }
    ensures apart { IfSome result (λ t. AllPairs Apart (shared t)) }
{
    match read_message(head, body, descriptors, offer) {
        Ok(said) => Some(said.memory),
        Err(_) => None,
    }
}

/// Each region of memory that is taken ends before 2^64 in the guest and in the front end, and before 2^63 in its
/// file, and came with a descriptor.
fn share_what_can_be(head: &[u8], body: &[u8], descriptors: usize, offer: &Offer) -> Option<Table>
    ensures guest { IfSome result (λ t. All (λ r. r.guest + r.size < 2 ^ 64) (shared t)) }
    ensures user { IfSome result (λ t. All (λ r. r.user + r.size < 2 ^ 64) (shared t)) }
    ensures file { IfSome result (λ t. All (λ r. r.offset + r.size < 2 ^ 63) (shared t)) }
    ensures described { IfSome result (λ t. t.count ≤ descriptors) }
{
    match read_message(head, body, descriptors, offer) {
        Ok(said) => Some(said.memory),
        Err(_) => None,
    }
}

/// No two regions of memory that is taken begin at one address.
fn share_two(head: &[u8], body: &[u8], descriptors: usize, offer: &Offer) -> Option<Table>
    ensures { IfSome result (λ t. (none : Region) → 1 < length (shared t) →
        (slice_index_or (shared t) 0 none).guest ≢ (slice_index_or (shared t) 1 none).guest) }
{
    match read_message(head, body, descriptors, offer) {
        Ok(said) => Some(said.memory),
        Err(_) => None,
    }
}

/// A log that is taken can be mapped.
fn mark(head: &[u8], body: &[u8], descriptors: usize, offer: &Offer) -> Option<Log>
    ensures { IfSome result (λ l. l.offset + l.size < 2 ^ 63) }
{
    match read_message(head, body, descriptors, offer) {
        Ok(said) => Some(said.log),
        Err(_) => None,
    }
}

/// Bytes that have a place are in its region.
fn find(regions: &[Region], address: u64) -> Option<Place>
    ensures { IfSome result (λ p. HoldsAt (λ r. p.offset + 16 ≤ r.size) regions.now p.region) }
{
    place_of(View::User, regions, address, 16)
}

/// Of two regions it is the second only where the first has not all of the bytes, and none only where neither has.
fn find_in_two(regions: &[Region], address: u64) -> Option<Place>
    requires { length regions.now ≡ 2 }
    ensures { MatchOption result
        (HoldsAt (λ r. Has View.User address 16 r → ⊥) regions.now 0
        × HoldsAt (λ r. Has View.User address 16 r → ⊥) regions.now 1)
        (λ p. (p.region ≤ 1)
        × (p.region ≡ 1 → HoldsAt (λ r. Has View.User address 16 r → ⊥) regions.now 0)) }
{
    match place_of(View::User, regions, address, 16) {
        Some(place) => Some(place),
        None => None,
    }
}
