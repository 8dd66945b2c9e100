//! What a front end asks for.

ghost use Rattle.std.specs.Prelude.{◌≡◌, ◌≤◌, true};
ghost use Rattle.vhost_protocol.specs.Numbers.{request_of};
ghost use Rattle.vhost_protocol.specs.Requests.{has_size as has_its_size};

use crate::numbers::Request;

/// The request of a number.
#[tactic(auto, unfolding(crate::specs::Numbers::request_of))]
pub fn request_by(number: u32) -> Option<Request>
    ensures { result ≡ request_of number }
{
    match number {
        1 => Some(Request::GetFeatures),
        2 => Some(Request::SetFeatures),
        3 => Some(Request::SetOwner),
        4 => Some(Request::ResetOwner),
        5 => Some(Request::SetMemTable),
        6 => Some(Request::SetLogBase),
        7 => Some(Request::SetLogFd),
        8 => Some(Request::SetVringNum),
        9 => Some(Request::SetVringAddr),
        10 => Some(Request::SetVringBase),
        11 => Some(Request::GetVringBase),
        12 => Some(Request::SetVringKick),
        13 => Some(Request::SetVringCall),
        14 => Some(Request::SetVringErr),
        15 => Some(Request::GetProtocolFeatures),
        16 => Some(Request::SetProtocolFeatures),
        17 => Some(Request::GetQueueNum),
        18 => Some(Request::SetVringEnable),
        42 => Some(Request::SetDeviceStateFd),
        43 => Some(Request::CheckDeviceState),
        _ => None,
    }
}

/// Whether the payload of a request has this size.
#[tactic(auto, unfolding(crate::specs::Requests::has_size))]
pub fn has_size(request: Request, size: u32) -> bool
    ensures value { result ≡ has_its_size request size }
    ensures few { result ≡ true → size ≤ 264 }
{
    match request {
        Request::GetFeatures
        | Request::SetOwner
        | Request::ResetOwner
        | Request::SetLogFd
        | Request::GetProtocolFeatures
        | Request::GetQueueNum
        | Request::CheckDeviceState => size == 0,
        Request::SetMemTable => size >= 8 && size <= 264 && size % 32 == 8,
        Request::SetLogBase => size == 16,
        Request::SetVringAddr => size == 40,
        Request::SetFeatures
        | Request::SetVringNum
        | Request::SetVringBase
        | Request::GetVringBase
        | Request::SetVringKick
        | Request::SetVringCall
        | Request::SetVringErr
        | Request::SetProtocolFeatures
        | Request::SetVringEnable
        | Request::SetDeviceStateFd => size == 8,
    }
}
