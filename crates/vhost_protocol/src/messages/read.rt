//! Messages.

ghost use Rattle.std.specs.Prelude.{◌≡◌, ◌<◌, ◌≤◌, true, IfOk};
ghost use Rattle.vhost_protocol.specs.Messages.{asked_by, message_of, size_in};
ghost use Rattle.vhost_protocol.specs.Requests.{has_size as has_its_size};
ghost use Rattle.vhost_protocol.specs.Tables.{HasMemory};

use crate::messages::message::{Message, Offer};
use crate::messages::payload::payload;
use crate::messages::records::Head;
use crate::messages::request::{has_size, request_by};
use crate::numbers::{Refusal, Request};

const VERSION: u32 = 1;

/// Of `flags`: the version; that it is a reply; that one is wanted.
const VERSION_BITS: u32 = 3;

const REPLY_BIT: u32 = 4;

const WANTS_BIT: u32 = 8;

/// What a header asks for.
#[tactic(auto, unfolding(crate::specs::Messages::asked_by))]
fn asked(head: &Head) -> Result<Request, Refusal>
    ensures value { result ≡ asked_by head.now }
    ensures sized { IfOk result (λ r. has_its_size r head.now.size ≡ true) }
    ensures few { IfOk result (λ _. head.now.size ≤ 264) }
{
    if head.flags & VERSION_BITS != VERSION {
        return Err(Refusal::WrongVersion);
    }
    if head.flags & REPLY_BIT != 0 {
        return Err(Refusal::IsReply);
    }
    let Some(request) = request_by(head.request) else {
        return Err(Refusal::NotServed);
    };
    if has_size(request, head.size) {
        Ok(request)
    } else {
        Err(Refusal::WrongSize)
    }
}

/// How many bytes of payload follow these bytes of a header.
#[tactic(auto, unfolding(crate::specs::Messages::size_in))]
pub fn payload_size(head: &[u8]) -> Result<u32, Refusal>
    ensures value { result ≡ size_in head.now }
    ensures few { IfOk result (λ n. n ≤ 264) }
{
    if head.len() != Head::SIZE {
        return Err(Refusal::Cut);
    }
    let head = Head::of_bytes(head);
    match asked(&head) {
        Ok(_) => Ok(head.size),
        Err(refusal) => Err(refusal),
    }
}

/// The message of a header, its payload, and that many descriptors.
#[tactic(auto, unfolding(crate::specs::Messages::message_of))]
pub fn read_message(
    head: &[u8],
    body: &[u8],
    descriptors: usize,
    offer: &Offer,
) -> Result<Message, Refusal>
    ensures value { result ≡ message_of head.now body.now descriptors offer.now }
    ensures memory { IfOk result HasMemory }
    ensures descriptors { IfOk result (λ m. m.descriptors ≡ descriptors) }
    ensures queue { IfOk result (λ m. 0 < offer.now.queues → m.queue < offer.now.queues) }
{
    if head.len() != Head::SIZE {
        return Err(Refusal::Cut);
    }
    let head = Head::of_bytes(head);
    let request = match asked(&head) {
        Ok(request) => request,
        Err(refusal) => return Err(refusal),
    };
    if body.len() != head.size as usize {
        return Err(Refusal::Cut);
    }
    let said = match payload(request, body, offer) {
        Ok(said) => said,
        Err(refusal) => return Err(refusal),
    };
    if said.descriptors as usize != descriptors {
        return Err(Refusal::WrongDescriptors);
    }
    Ok(Message {
        wants_reply: u32::from(head.flags & WANTS_BIT != 0),
        ..said
    })
}
