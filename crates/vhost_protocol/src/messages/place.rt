//! Where an address is in the memory that a front end shares.

ghost use Rattle.std.specs.Prelude.{◌≡◌, MatchOption, true, false};
ghost use Rattle.vhost_protocol.specs.Places.{Holds, IsNowhere, IsPlace, base_of};

use crate::messages::records::Region;

/// Whose addresses are meant.
#[derive(Clone, Copy, Debug)]
pub enum View {
    /// The guest's.
    Guest,
    /// The front end's.
    User,
}

/// A place in a region: the region's number, and an offset there.
#[repr(C)]
#[derive(Clone, Copy, Debug)]
pub struct Place {
    pub region: u64,
    pub offset: u64,
}

/// The first address of a region.
fn base(view: View, region: &Region) -> u64
    ensures { result ≡ base_of view region.now }
{
    match view {
        View::Guest => region.guest,
        View::User => region.user,
    }
}

/// Whether that many bytes from an address on are in `size` bytes from `base` on.
fn holds(base: u64, size: u64, address: u64, len: u64) -> bool
    ensures yes { result ≡ true → Holds base size address len }
    ensures no { result ≡ false → Holds base size address len → ⊥ }
{
    address >= base && address - base <= size && len <= size - (address - base)
}

/// The place of that many bytes from an address on, which are in one region wholly: the first such one.
pub fn place_of(view: View, regions: &[Region], address: u64, len: u64) -> Option<Place>
    ensures { MatchOption result (IsNowhere view regions.now address len)
        (IsPlace view regions.now address len) }
{
    for (i, region) in regions.iter().enumerate() {
        let first = base(view, region);
        if holds(first, region.size, address, len) {
            return Some(Place {
                region: i as u64,
                offset: address - first,
            });
        }
    }
    None
}
