//! The indices of a queue's two rings, which have 16 bits and wrap.

ghost use Rattle.std.specs.Prelude.{◌≡◌, ◌≢◌, ◌≤◌, ◌<◌, ◌-◌, ◌%◌, ◌↔◌, ℕ, Some, true};
ghost use Rattle.vhost_protocol.specs.Rings.{index_of, needs_event_at, waiting_of};

/// How many chains wait: `index` is the guest's, and `next` that of the one to be taken next. `None` where they
/// are more than the queue has, which can't be.
pub fn waiting(index: u16, next: u16, size: u32) -> Option<u16>
    ensures is { result ≡ waiting_of index next size }

    // of counts that never wrap
    ensures counted { (made taken : ℕ) → index ≡ index_of made → next ≡ index_of taken →
        taken ≤ made → made - taken ≤ size → made - taken < 65536 → result ≡ Some (made - taken) }
{
    let ahead = index.wrapping_sub(next);
    if size < u32::from(ahead) {
        None
    } else {
        Some(ahead)
    }
}

/// The place in a ring of `size` entries at which an index is.
pub fn slot(index: u16, size: u32) -> u32
    requires { size ≢ 0 }
    ensures inside { result < size }
    ensures is { result ≡ index % size }

    // of a count that never wraps, in a ring of a size that is a power of two
    ensures counted { (count : ℕ) → index ≡ index_of count → 65536 % size ≡ 0 →
        result ≡ count % size }
{
    u32::from(index) % size
}

/// Whether the other side wants to be told of entries that were added to a ring, from index `old` up to before
/// `new`: it does where the entry of the index `event` is one of them.
pub fn needs_event(event: u16, new: u16, old: u16) -> bool
    ensures is { result ≡ needs_event_at event new old }

    // of counts that never wrap
    ensures counted { (before after : ℕ) → old ≡ index_of before → new ≡ index_of after →
        before ≤ after → after - before < 65536 →
        (result ≡ true ↔ ((count : ℕ) × (before ≤ count) × (count < after) × (event ≡ index_of count))) }
{
    new.wrapping_sub(event).wrapping_sub(1) < new.wrapping_sub(old)
}
