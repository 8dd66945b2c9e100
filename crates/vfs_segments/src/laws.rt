//! What readers and writers promise as a whole, beyond single calls: laws over the values that
//! contracts see. The functions do nothing; their contracts are the laws. Beside them the search by
//! which both find their place, whose contract counts its looks.

ghost use Rattle.std.specs.Prelude.{◌≡◌, ◌+◌, ◌-◌, ◌^◌, ◌<◌, ◌≤◌, ◌++◌, ◌∷◌, ℕ, List, true, false, length, slice_index, sum};
ghost use Rattle.vfs_segments.specs.Answers.{AnswerAlike, AnswerAll};
ghost use Rattle.vfs_segments.specs.Lengths.{lengths_before, lengths_from, lie_together};
ghost use Rattle.vfs_segments.specs.Totals.{NeverFalls};
ghost use Rattle.vfs_segments.specs.Unread.{Unread, first_of, rest_of};
ghost use Rattle.vfs_segments.specs.Written.{Written, first_room, rest_room, whole};

use std::marker::Model;

/// After a `split_at(n)` of a reader the first part has `n` bytes, and the first part followed by
/// the second is what was left.
pub fn reader_split()
    ensures size { (u : Unread) (n : ℕ) → n ≤ length u.left → length (first_of u n).left ≡ n }
    ensures bytes { (u : Unread) (n : ℕ) → (first_of u n).left ++ (rest_of u n).left ≡ u.left }
{}

/// After a `split_at(n)` of a writer the first part has `n` bytes left, and the first part followed
/// by the second is all its bytes, those passed and those left. The lengths of each part's segments
/// are as many bytes as the part has.
pub fn writer_split()
    ensures size { (w : Written) (n : ℕ) → n ≤ length w.left → length (first_room w n).left ≡ n }
    ensures bytes { (w : Written) (n : ℕ) →
        whole (first_room w n) ++ whole (rest_room w n) ≡ whole w }
    ensures first_lengths { (w : Written) (n : ℕ) →
        sum w.lengths ≡ length (whole w) → n ≤ length w.left →
        sum (first_room w n).lengths ≡ length (whole (first_room w n)) }
    ensures rest_lengths { (w : Written) (n : ℕ) →
        sum w.lengths ≡ length (whole w) → n ≤ length w.left →
        sum (rest_room w n).lengths ≡ length (whole (rest_room w n)) }
{}

/// Two new readers of equal flat bytes answer every list of reads, reads of records and counts
/// alike, however the bytes are cut into segments; and each list has answers.
pub fn equal_bytes_answer_alike()
    ensures alike { AnswerAlike }
    ensures answered { AnswerAll }
{}

/// Of the segments of a new reader, bytes that lie in one of them lie together: here in one of
/// `size` bytes, after others.
pub fn together_in_a_segment()
    ensures { (before after : List ℕ) (size at n : ℕ) → at + n ≤ size →
        lie_together (sum before + at) n (before ++ size ∷ after) ≡ true }
{}

/// Bytes that begin before a cut between two segments and end after it don't lie together.
pub fn together_over_a_cut()
    ensures { (before after : List ℕ) (at n : ℕ) → at < sum before → sum before < at + n →
        lie_together at n (before ++ after) ≡ false }
{}

/// When bytes were taken, or are cut off, those that are left lie together as they did.
pub fn together_after_a_place()
    ensures from { (lengths : List ℕ) (k at n : ℕ) →
        lie_together at n (lengths_from k lengths) ≡ lie_together (k + at) n lengths }
    ensures before { (lengths : List ℕ) (k at n : ℕ) → at + n ≤ k →
        lie_together at n (lengths_before k lengths) ≡ lie_together at n lengths }
{}

/// Running totals of lengths that are looked at one by one.
///
/// Contracts see a list, which no call changes, and how many looks were made.
pub trait Totals {
    /// The totals.
    ghost totals: { Self → List ℕ };

    /// How many looks were made.
    ghost looks: { Self → ℕ };

    /// How many totals there are.
    fn count(&self) -> usize
        ensures { result ≡ length (totals self.now) };

    /// Total `i`, counted from 0.
    fn look(&mut self, i: usize) -> usize
        requires within { i < length (totals self.old) }
        requires countable { looks self.old < 2 ^ 32 - 1 }
        ensures value { result ≡ slice_index (totals self.old) i }
        ensures same { totals self.new ≡ totals self.old }
        ensures counted { looks self.new ≡ looks self.old + 1 };
}

/// Totals in memory, with the number of looks.
#[derive(Drop)]
pub struct Counted<'a> {
    totals: &'a [usize],
    looks: u32,
}

impl<'a> Model for Counted<'a> {
    ghost use Rattle.vfs_segments.specs.Totals.{Looked};

    ghost Value = { Looked };

    ghost view = { λ c. record { totals = c.totals.now; looks = c.looks } };
}

impl<'a> Counted<'a> {
    /// Totals at which no look was made.
    pub fn new(totals: &'a [usize]) -> Counted<'a>
        ensures totals { result.totals ≡ totals.now }
        ensures looks { result.looks ≡ 0 }
    {
        Counted { totals, looks: 0 }
    }

    /// How many looks were made.
    pub fn looks(&self) -> u32
        ensures { result ≡ self.now.looks }
    {
        self.looks
    }
}

impl<'a> Totals for Counted<'a> {
    ghost totals = { λ c. c.totals };

    ghost looks = { λ c. c.looks };

    fn count(&self) -> usize {
        self.totals.len()
    }

    fn look(&mut self, i: usize) -> usize {
        self.looks += 1;
        self.totals[i]
    }
}

/// The first index whose total is above `at`, which is the segment in which the place `at` lies, or
/// how many totals there are where none is. An empty segment is passed over. It looks at most as
/// often as that number has binary digits.
pub fn find_segment<T: Totals>(totals: &mut T, at: usize) -> usize
    requires ordered { NeverFalls (T.totals totals.old) }
    requires fresh { T.looks totals.old ≡ 0 }
    ensures within { result ≤ length (T.totals totals.old) }
    ensures passed { (i : ℕ) → i < result → slice_index (T.totals totals.old) i ≤ at }
    ensures found { result < length (T.totals totals.old) →
        at < slice_index (T.totals totals.old) result }
    ensures same { T.totals totals.new ≡ T.totals totals.old }

    // A number below 2 ^ k has at most k binary digits.
    ensures few { (k : ℕ) → length (T.totals totals.old) < 2 ^ k → T.looks totals.new ≤ k }
{
    let mut low: usize = 0;
    let mut high = totals.count();
    while low < high {
        let middle = low + (high - low) / 2;
        if totals.look(middle) > at {
            high = middle;
        } else {
            low = middle + 1;
        }
    }
    low
}
