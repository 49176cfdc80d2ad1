// A set of joints, one bit each, in words of 64 bits.
ghost use Rattle.std.specs.Prelude.{slice_index, ◌≡◌, ℕ, ◌<◌, ◌≤◌, min, true, false, not, ◌&&◌, Decides, nat_lt};
ghost use Rattle.std.specs.Option.{option_map};
ghost use Rattle.sets.specs.Sets.{none, below, also, less, both, either, Within, count, first};
ghost use Rattle.sets.specs.Words.{bits, members};

use crate::ids::{Ends, JointId};
use std::array;

// A set can have the joints below this one.
pub const CAPACITY: u16 = 512;

// Joint j is bit j % 64 of word j / 64.
const WORDS: usize = 8;

// A set of joints below 512. Its words are a fixed table, since nothing is allocated.
#[derive(Clone, Copy, PartialEq, Eq, Debug)]
pub struct JointSet {
    words: [u64; WORDS],
}

impl JointSet {
    // The set with no joint.
    pub fn empty() -> JointSet
        ensures { members result ≡ none }
    {
        JointSet { words: [0; WORDS] }
    }

    // All joints below n, of those that a set can have.
    pub fn below(n: u64) -> JointSet
        ensures { members result ≡ below (min n 512) }
    {
        JointSet {
            words: array::from_fn(|k| low_bits(n.saturating_sub(64 * k as u64))),
        }
    }

    // Whether a joint is in the set. A joint past 511 is in none.
    pub fn contains(&self, joint: JointId) -> bool
        ensures value { result ≡ members self.now joint.0 }
        ensures past { 512 ≤ joint.0 → result ≡ false }
    {
        self.words
            .get(joint.0 as usize / 64)
            .is_some_and(|word| word >> (joint.0 % 64) & 1 == 1)
    }

    // Whether both ends of a bar are in the set.
    pub fn contains_both(&self, ends: Ends) -> bool
        ensures { result ≡ (members self.now ends.one.0 && members self.now ends.two.0) }
    {
        self.contains(ends.one) && self.contains(ends.two)
    }

    // Puts a joint in, and says whether the set has changed: not where the joint was in, and not where it is past 511.
    pub fn insert(&mut self, joint: JointId) -> bool
        ensures value { result ≡ (nat_lt joint.0 512 && not (members self.old joint.0)) }
        ensures after { joint.0 < 512 → members self.new ≡ also (members self.old) joint.0 }
        ensures past { 512 ≤ joint.0 → self.new ≡ self.old }
    {
        if joint.0 >= CAPACITY || self.contains(joint) {
            return false;
        }
        self.words[joint.0 as usize / 64] |= 1 << (joint.0 % 64);
        true
    }

    // Takes a joint out, and says whether it was in.
    pub fn remove(&mut self, joint: JointId) -> bool
        ensures value { result ≡ members self.old joint.0 }
        ensures after { members self.new ≡ less (members self.old) joint.0 }
    {
        if !self.contains(joint) {
            return false;
        }
        self.words[joint.0 as usize / 64] &= !(1 << (joint.0 % 64));
        true
    }

    // What is in both sets.
    pub fn intersection(&self, other: &JointSet) -> JointSet
        ensures { members result ≡ both (members self.now) (members other.now) }
    {
        self.by_word(other, |a, b| a & b)
    }

    // What is in one of the two sets at least.
    pub fn union(&self, other: &JointSet) -> JointSet
        ensures { members result ≡ either (members self.now) (members other.now) }
    {
        self.by_word(other, |a, b| a | b)
    }

    // The set whose words are made, each of the words of both at its place.
    fn by_word<F: Fn(u64, u64) -> u64>(&self, other: &JointSet, f: F) -> JointSet
        requires { F.IsAlwaysCallable f }
        ensures { (k : ℕ) → k < 8 → F.post f (slice_index self.now.words k) (slice_index other.now.words k) (slice_index result.words k) }
    {
        JointSet {
            words: array::from_fn(|k| f(self.words[k], other.words[k])),
        }
    }

    // Whether every joint of this set is in the other.
    pub fn is_subset(&self, other: &JointSet) -> bool
        ensures { Decides result (Within (members self.now) (members other.now)) }
    {
        // A chain with `all` was tried, and its proof did not close.
        for (a, b) in self.words.iter().zip(&other.words) {
            if a | b != *b {
                return false;
            }
        }
        true
    }

    // The first joint of the set, if it has one.
    pub fn first(&self) -> Option<JointId>
        ensures { option_map (λ j. j.0) result ≡ first 512 (members self.now) }
    {
        // A chain with `position` was tried: no proof file could cite what it finds.
        for (k, word) in self.words.iter().enumerate() {
            if *word != 0 {
                return Some(JointId(64 * k as u16 + word.trailing_zeros() as u16));
            }
        }
        None
    }

    // How many joints the set has, counted by words.
    pub fn len(&self) -> u64
        ensures { result ≡ count 512 (members self.now) }
    {
        let mut n: u64 = 0;
        // A chain with `sum` was tried, and it could not be proved that the sum fits.
        for word in &self.words {
            n += word.count_ones() as u64;
        }
        n
    }
}

// The word whose lowest n bits are 1, all of them where n is 64 or more.
fn low_bits(n: u64) -> u64
    ensures { (i : ℕ) → i < 64 → bits result i ≡ nat_lt i n }
{
    if n < 64 { (1 << n) - 1 } else { u64::MAX }
}
