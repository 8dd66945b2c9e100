//! Payloads of messages.

ghost use Rattle.std.specs.Prelude.{◌≡◌, ◌≤◌, ◌<◌, length, true, IfOk};
ghost use Rattle.vhost_protocol.specs.Messages.{are_aligned, can_be_logged, event_of, if_offered as if_offered_of, log_of, number_fault, payload_of, rings_of, state_of, transfer_of, wanted as wanted_of};
ghost use Rattle.vhost_protocol.specs.Records.{field, log_in};
ghost use Rattle.vhost_protocol.specs.Requests.{has_size};
ghost use Rattle.vhost_protocol.specs.Tables.{HasMemory, alone as alone_of};

use crate::messages::message::{Message, Offer, Rings};
use crate::messages::records::Log;
use crate::messages::table::table;
use crate::numbers::{Refusal, Request};
use vfs_wire::bytes::{u32_at, u64_at};

/// The greatest offset of a file.
const LAST_OFFSET: u64 = i64::MAX as u64;

/// The feature that what is written is marked in a log, and those of the protocol that this is in shared memory, and that
/// a state goes by a descriptor.
const LOG_ALL: u64 = 1 << 26;

const LOG_SHMFD: u64 = 1 << 1;

const DEVICE_STATE: u64 = 1 << 19;

/// A message of this request alone.
fn alone(request: Request) -> Message
    ensures value { result ≡ alone_of request }
    ensures memory { HasMemory result }
    ensures queue { result.queue ≡ 0 }
{
    Message {
        request: request as u32,
        ..Message::NONE
    }
}

/// A message of no queue, if all of these features were offered.
#[tactic(auto, unfolding(crate::specs::Messages::if_offered))]
fn if_offered(message: Message, features: u64, offered: u64) -> Result<Message, Refusal>
    requires memory { HasMemory message }
    requires queue { message.queue ≡ 0 }
    ensures value { result ≡ if_offered_of features offered message }
    ensures memory { IfOk result HasMemory }
    ensures queue { IfOk result (λ m. m.queue ≡ 0) }
{
    if offered & features != features {
        return Err(Refusal::NotOffered);
    }
    Ok(message)
}

/// Features, all of which were offered.
fn wanted(request: Request, number: u64, offered: u64) -> Result<Message, Refusal>
    ensures value { result ≡ wanted_of request number offered }
    ensures memory { IfOk result HasMemory }
    ensures queue { IfOk result (λ m. m.queue ≡ 0) }
{
    let message = Message {
        number,
        ..alone(request)
    };
    if_offered(message, number, offered)
}

/// Why a number of a queue can't be.
#[tactic(auto, unfolding(crate::specs::Messages::number_fault))]
fn fault_of_number(request: Request, number: u32) -> Option<Refusal>
    ensures { result ≡ number_fault request number }
{
    match request {
        Request::SetVringNum => {
            if number.is_power_of_two() && number <= 32768 {
                None
            } else {
                Some(Refusal::WrongQueueSize)
            }
        }
        Request::SetVringBase => {
            if number < 65536 {
                None
            } else {
                Some(Refusal::WrongBase)
            }
        }
        Request::SetVringEnable => {
            if number < 2 {
                None
            } else {
                Some(Refusal::WrongEnable)
            }
        }
        _ => None,
    }
}

/// A number of a queue.
#[tactic(auto, unfolding(crate::specs::Messages::state_of))]
fn state(request: Request, body: &[u8], queues: u64) -> Result<Message, Refusal>
    requires { 8 ≤ length body.now }
    ensures value { result ≡ state_of request body.now queues }
    ensures memory { IfOk result HasMemory }
    ensures queue { IfOk result (λ m. m.queue < queues) }
{
    let queue = u32_at(body, 0);
    let number = u32_at(body, 4);
    if u64::from(queue) >= queues {
        return Err(Refusal::NoQueue);
    }
    if let Some(refusal) = fault_of_number(request, number) {
        return Err(refusal);
    }
    Ok(Message {
        queue,
        number: u64::from(number),
        ..alone(request)
    })
}

/// An event of a queue.
#[tactic(auto, unfolding(crate::specs::Messages::event_of))]
fn event(request: Request, number: u64, queues: u64) -> Result<Message, Refusal>
    ensures value { result ≡ event_of request number queues }
    ensures memory { IfOk result HasMemory }
    ensures queue { IfOk result (λ m. m.queue < queues) }
{
    let queue = number & 0xff;
    if queue >= queues {
        return Err(Refusal::NoQueue);
    }
    Ok(Message {
        queue: queue as u32,
        descriptors: u32::from(number & 0x100 == 0),
        ..alone(request)
    })
}

/// Whether rings begin where their entries can be.
#[tactic(auto, unfolding(crate::specs::Messages::are_aligned))]
fn is_aligned(rings: &Rings) -> bool
    ensures { result ≡ are_aligned rings.now }
{
    rings.descriptors % 16 == 0 && rings.available % 2 == 0 && rings.used % 4 == 0
}

/// Whether these flags of a ring can be: one alone, if a log was offered.
#[tactic(auto, unfolding(crate::specs::Messages::can_be_logged))]
fn may_log(flags: u32, features: u64) -> bool
    ensures { result ≡ can_be_logged flags features }
{
    flags == 0 || (flags == 1 && features & LOG_ALL == LOG_ALL)
}

/// The rings of a queue.
#[tactic(auto, unfolding(crate::specs::Messages::rings_of))]
fn rings(body: &[u8], features: u64, queues: u64) -> Result<Message, Refusal>
    requires { 40 ≤ length body.now }
    ensures value { result ≡ rings_of body.now features queues }
    ensures memory { IfOk result HasMemory }
    ensures queue { IfOk result (λ m. m.queue < queues) }
{
    let rings = Rings {
        descriptors: u64_at(body, 8),
        used: u64_at(body, 16),
        available: u64_at(body, 24),
        log: u64_at(body, 32),
    };
    let index = u32_at(body, 0);
    let flags = u32_at(body, 4);
    if u64::from(index) >= queues {
        return Err(Refusal::NoQueue);
    }
    if !may_log(flags, features) {
        return Err(Refusal::Logs);
    }
    if !is_aligned(&rings) {
        return Err(Refusal::Misaligned);
    }
    Ok(Message {
        queue: index,
        number: u64::from(flags),
        rings,
        ..alone(Request::SetVringAddr)
    })
}

/// A log, if one was offered.
#[tactic(auto, unfolding(crate::specs::Messages::log_of))]
fn log(body: &[u8], protocol: u64) -> Result<Message, Refusal>
    requires { 16 ≤ length body.now }
    ensures value { result ≡ log_of (log_in body.now) protocol }
    ensures memory { IfOk result HasMemory }
    ensures queue { IfOk result (λ m. m.queue ≡ 0) }
{
    let log = Log {
        size: u64_at(body, 0),
        offset: u64_at(body, 8),
    };
    if protocol & LOG_SHMFD != LOG_SHMFD {
        return Err(Refusal::NotOffered);
    }
    if log.size == 0 || log.size > LAST_OFFSET || log.offset > LAST_OFFSET - log.size {
        return Err(Refusal::WrongLog);
    }
    Ok(Message {
        descriptors: 1,
        log,
        ..alone(Request::SetLogBase)
    })
}

/// Which way a state goes, if that was offered.
#[tactic(auto, unfolding(crate::specs::Messages::transfer_of))]
fn transfer(body: &[u8], protocol: u64) -> Result<Message, Refusal>
    requires { 8 ≤ length body.now }
    ensures value { result ≡ transfer_of (field 4 0 body.now) (field 4 4 body.now) protocol }
    ensures memory { IfOk result HasMemory }
    ensures queue { IfOk result (λ m. m.queue ≡ 0) }
{
    let direction = u32_at(body, 0);
    let phase = u32_at(body, 4);
    if protocol & DEVICE_STATE != DEVICE_STATE {
        return Err(Refusal::NotOffered);
    }
    if direction >= 2 || phase != 0 {
        return Err(Refusal::WrongTransfer);
    }
    Ok(Message {
        descriptors: 1,
        number: u64::from(direction),
        ..alone(Request::SetDeviceStateFd)
    })
}

/// What a payload says, which has its request's size.
#[tactic(auto, unfolding(crate::specs::Messages::payload_of, crate::specs::Requests::has_size))]
pub fn payload(request: Request, body: &[u8], offer: &Offer) -> Result<Message, Refusal>
    requires { has_size request (length body.now) ≡ true }
    ensures value { result ≡ payload_of request body.now offer.now }
    ensures memory { IfOk result HasMemory }
    ensures queue { IfOk result (λ m. 0 < offer.now.queues → m.queue < offer.now.queues) }
{
    match request {
        Request::SetFeatures => wanted(request, u64_at(body, 0), offer.features),
        Request::SetProtocolFeatures => wanted(request, u64_at(body, 0), offer.protocol),
        Request::SetMemTable => table(body),
        Request::SetVringNum
        | Request::SetVringBase
        | Request::GetVringBase
        | Request::SetVringEnable => state(request, body, offer.queues),
        Request::SetVringAddr => rings(body, offer.features, offer.queues),
        Request::SetVringKick | Request::SetVringCall | Request::SetVringErr => {
            event(request, u64_at(body, 0), offer.queues)
        }
        Request::SetLogBase => log(body, offer.protocol),
        Request::SetLogFd => {
            let message = Message {
                descriptors: 1,
                ..alone(request)
            };
            if_offered(message, LOG_SHMFD, offer.protocol)
        }
        Request::SetDeviceStateFd => transfer(body, offer.protocol),
        Request::CheckDeviceState => if_offered(alone(request), DEVICE_STATE, offer.protocol),
        Request::GetFeatures
        | Request::SetOwner
        | Request::ResetOwner
        | Request::GetProtocolFeatures
        | Request::GetQueueNum => Ok(alone(request)),
    }
}
