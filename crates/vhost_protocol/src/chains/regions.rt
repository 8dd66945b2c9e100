//! The regions of a guest's memory.

ghost use Rattle.std.specs.Prelude.{◌≡◌};
ghost use Rattle.vhost_protocol.specs.Regions.{holds as holds_in, place_of};

/// A region of a guest's memory (`nizwarf_region`).
#[repr(C)]
#[derive(Clone, Copy)]
pub struct Region {
    /// The guest's address of its first byte.
    pub address: u64,
    /// How many bytes it has.
    pub size: u64,
}

/// Where bytes lie in a list of regions.
#[repr(C)]
#[derive(Clone, Copy)]
pub struct Place {
    /// The number of the region.
    pub region: usize,
    /// How far from its first byte.
    pub offset: u64,
}

impl Region {
    /// Whether all of the `len` bytes from this address on are the region's.
    pub fn holds(&self, addr: u64, len: u64) -> bool
        ensures { result ≡ holds_in self.now addr len }
    {
        if addr < self.address {
            return false;
        }
        let offset = addr - self.address;
        offset <= self.size && len <= self.size - offset
    }
}

/// Where the `len` bytes from this address on lie, in the first region that has all of them.
pub fn find(regions: &[Region], addr: u64, len: u64) -> Option<Place>
    ensures { result ≡ place_of regions.now addr len }
{
    for (number, region) in regions.iter().enumerate() {
        if region.holds(addr, len) {
            return Some(Place {
                region: number,
                offset: addr - region.address,
            });
        }
    }
    None
}
