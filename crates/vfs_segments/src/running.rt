//! Running totals of segments' lengths, which take no memory where they are few.

ghost use Rattle.std.specs.Prelude.{◌≡◌, ◌+◌, ◌^◌, ◌<◌, ◌≤◌, [], ◌∷◌, ◌++◌, length, take, IfOk};
ghost use Rattle.vfs_segments.specs.Totals.{totals_of};

use std::alloc::{AllocError, Global};
use std::marker::Model;
use std::ops::DerefSlice;

// How many totals lie in the value itself.
pub(crate) const FEW: usize = 4;

// Running totals, of which up to `FEW` lie in the value, and more in memory.
//
// Contracts see the list of them, and how many have a place.
#[derive(Drop)]
pub(crate) struct Running {
    few: [usize; FEW],
    // How many of the few there are. Past `FEW` the totals are the many, however many those are.
    count: usize,
    many: Vec<usize>,
}

impl Model for Running {
    ghost use Rattle.vfs_segments.specs.Totals.{Kept};

    ghost Value = { Kept };

    ghost use Rattle.vfs_segments.specs.Running.{kept_of};

    ghost view = { kept_of };
}

impl Running {
    // No totals, with places for `n` of them.
    pub(crate) fn with_capacity(alloc: Global, n: usize) -> Result<Running, AllocError>
        ensures none { IfOk result (λ r. r.items ≡ []) }
        ensures places { IfOk result (λ r. n ≤ r.capacity) }
    {
        let few = [0; FEW];
        if n > FEW {
            let many = Vec::with_capacity(alloc, n)?;
            return Ok(Running {
                few,
                count: n,
                many,
            });
        }
        Ok(Running {
            few,
            count: 0,
            many: Vec::new(alloc),
        })
    }

    // The totals of the first `count` of four lengths, in place, or where the count is past `FEW`
    // those in memory.
    #[inline]
    pub(crate) fn new(
        first: usize,
        second: usize,
        third: usize,
        fourth: usize,
        count: usize,
        many: Vec<usize>,
    ) -> Running
        requires { first + second + third + fourth < 2 ^ 64 }
        ensures few { count ≤ 4 → result.items ≡
            take count (totals_of (first ∷ second ∷ third ∷ fourth ∷ [])) }
        ensures many { 4 < count → result.items ≡ many.items }
    {
        let two = first + second;
        let three = two + third;
        Running {
            few: [first, two, three, three + fourth],
            count,
            many,
        }
    }

    // Puts a total after the others, which has a place.
    pub(crate) fn push_reserved(&mut self, total: usize)
        requires { length self.old.items < self.old.capacity }
        ensures items { self.new.items ≡ self.old.items ++ total ∷ [] }
        ensures len { length self.new.items ≡ length self.old.items + 1 }
        ensures capacity { self.new.capacity ≡ self.old.capacity }
    {
        if self.count > FEW {
            self.many.push_reserved(total);
        } else {
            self.few[self.count] = total;
            self.count += 1;
        }
    }

    // Leaves the first `n` totals, and the places of the others.
    pub(crate) fn truncate(&mut self, n: usize)
        ensures items { self.new.items ≡ take n self.old.items }
        ensures room { n < length self.old.items → length self.new.items < self.new.capacity }
    {
        if self.count > FEW {
            self.many.truncate(n);
        } else {
            self.count = self.count.min(n);
        }
    }

    // The same totals once more.
    pub(crate) fn clone(&self) -> Result<Running, AllocError>
        ensures { IfOk result (λ r. r.items ≡ self.now.items) }
    {
        let many = self.many.clone()?;
        Ok(Running {
            few: self.few,
            count: self.count,
            many,
        })
    }
}

impl DerefSlice for Running {
    type Elem = usize;

    ghost deref_gives = { λ r xs. xs ≡ r.items };

    #[inline]
    fn deref(&self) -> &[usize]
        ensures value { result.now ≡ self.now.items }
    {
        if self.count > FEW {
            &self.many
        } else {
            &self.few[..self.count]
        }
    }
}
