//! The first bytes of a request that lies in segments, and how long it is.

ghost use Rattle.std.specs.Prelude.{◌≡◌, ◌++◌, length, take, drop, min, nat_le};
ghost use Rattle.vfs_segments.specs.Segments.{segments_of, flat_bytes};

// Copies as many bytes as both have, and answers how many.
fn copy_first(from: &[u8], to: &mut [u8]) -> usize
    ensures count { result ≡ min (length from.now) (length to.old) }
    ensures copied { to.new ≡ take result from.now ++ drop result to.old }
{
    let count = from.len().min(to.len());
    to[..count].copy_from_slice(&from[..count]);
    count
}

/// Copies the first bytes of a request over the first ones of `front`, as many as both have. Answers how many.
pub fn copy_front(request: &[&[u8]], front: &mut [u8]) -> usize
    ensures count { result ≡ min (length (flat_bytes (segments_of request.now))) (length front.old) }
    ensures copied { front.new ≡
        take result (flat_bytes (segments_of request.now)) ++ drop result front.old }
{
    let mut len = 0;
    for i in 0..request.len() {
        if len == front.len() {
            return len;
        }
        len += copy_first(request[i], &mut front[len..]);
    }
    len
}

/// Whether a request has at least that many bytes.
pub fn is_as_long(request: &[&[u8]], least: u64) -> bool
    ensures { result ≡ nat_le least (length (flat_bytes (segments_of request.now))) }
{
    let mut wanted = least;
    for i in 0..request.len() {
        if wanted == 0 {
            return true;
        }
        wanted = wanted.saturating_sub(request[i].len() as u64);
    }
    wanted == 0
}
