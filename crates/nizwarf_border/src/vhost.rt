//! Messages of a vhost-user front end. Each function answers 0, or the number of a refusal: then nothing is told.

ghost use Rattle.std.specs.Prelude.{◌≡◌, ◌<◌, ◌≤◌};
ghost use Rattle.vhost_protocol.specs.Messages.{message_of, size_in};
ghost use Rattle.vhost_protocol.specs.Tables.{HasMemory};
ghost use Rattle.nizwarf_border.specs.Told.{IsFound, IsTold};

use vhost_protocol::messages::{
    Message, Offer, Place, Region, View, payload_size, place_of, read_message,
};

/// Tells how many bytes of payload follow the 12 bytes of a header.
#[unsafe(no_mangle)]
pub extern "C" fn nizwarf_vhost_size_at(head: &[u8], size: &mut u32) -> u32
    ensures told { IsTold (size_in head.now) size.old result size.new }
    ensures few { result ≡ 0 → size.new ≤ 264 }
{
    match payload_size(head) {
        Ok(told) => {
            *size = told;
            0
        }
        Err(refusal) => refusal as u32,
    }
}

/// Tells the message of a header and its payload, which came with that many descriptors.
#[unsafe(no_mangle)]
pub extern "C" fn nizwarf_vhost_message_at(
    head: &[u8],
    body: &[u8],
    descriptors: usize,
    offer: &Offer,
    message: &mut Message,
) -> u32
    ensures told { IsTold (message_of head.now body.now descriptors offer.now)
        message.old result message.new }

    // What C goes by: a queue is one, and each region of memory can be and came with a descriptor.
    ensures queue { result ≡ 0 → 0 < offer.now.queues → message.new.queue < offer.now.queues }
    ensures memory { result ≡ 0 → HasMemory message.new }
    ensures descriptors { result ≡ 0 → message.new.descriptors ≡ descriptors }
{
    match read_message(head, body, descriptors, offer) {
        Ok(told) => {
            *message = told;
            0
        }
        Err(refusal) => refusal as u32,
    }
}

/// Tells where that many bytes from an address of the front end on are, if they are in one region wholly. The
/// answer 1: they are not.
#[unsafe(no_mangle)]
pub extern "C" fn nizwarf_vhost_user_at(
    regions: &[Region],
    address: u64,
    len: u64,
    place: &mut Place,
) -> u32
    ensures { IsFound View.User regions.now address len place.old result place.new }
{
    match place_of(View::User, regions, address, len) {
        Some(found) => {
            *place = found;
            0
        }
        None => 1,
    }
}
