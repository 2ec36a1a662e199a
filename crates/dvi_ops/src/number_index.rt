//! Numbers with their places, found by number.
ghost use Rattle.std.specs.Prelude.{◌≡◌, ℕ, ℤ, List, [], ◌∷◌, ◌++◌, IfOk, OnOk, MatchOption};
ghost use Rattle.std.specs.List.{Contains};
ghost use Rattle.std.specs.List.Sorted.{IsPermutation};
ghost use Rattle.dvi_ops.specs.NumberIndex.{StandsTwice, pair_of};

use std::alloc::{AllocError, Global};
use std::marker::Model;

/// How many places a number can stand beside: two words that are so far from one another have numbers that follow one another.
const PLACES: u64 = 0x1_0000_0000;

/// How far a number is moved up, so that none is below 0.
const LIFT: i64 = 0x8000_0000;

/// The word of a number and a place.
fn word_of(k: i32, place: u32) -> u64
    ensures { pair_of result ≡ (k, place) }
{
    (i64::from(k) + LIFT) as u64 * PLACES + u64::from(place)
}

/// The number in a word.
fn number_in(word: u64) -> i64
    ensures { result ≡ (pair_of word).0 }
{
    (word / PLACES) as i64 - LIFT
}

/// The place in a word.
fn place_in(word: u64) -> usize
    ensures { result ≡ (pair_of word).1 }
{
    (word % PLACES) as usize
}

/// Pairs of a number and a place, as they come: what an index is made of.
#[derive(Drop)]
pub struct Numbers {
    words: Vec<u64>,
}

impl Model for Numbers {
    ghost use Rattle.std.specs.Prelude.{ℕ, ℤ, List, map};
    ghost use Rattle.dvi_ops.specs.NumberIndex.{pair_of};

    ghost Value = { List (ℤ × ℕ) };

    ghost view = { λ n. map pair_of n.words.items };
}

impl Numbers {
    /// No pairs, and room for `count` of them.
    pub fn with_room(alloc: Global, count: usize) -> Result<Numbers, AllocError>
        ensures { IfOk result (λ numbers. numbers ≡ []) }
    {
        Ok(Numbers {
            words: Vec::with_capacity(alloc, count)?,
        })
    }

    /// One pair more.
    pub fn push(&mut self, k: i32, place: u32) -> Result<(), AllocError>
        ensures { OnOk result (self.new ≡ self.old ++ (k, place) ∷ []) }
    {
        self.words.push(word_of(k, place))?;
        Ok(())
    }
}

/// Pairs of a number and a place, in order of the numbers.
///
/// They are put in order once: then a number is found in about the logarithm of their count, whatever numbers the writer of a file
/// chose, and a pair takes no more than its 8 bytes.
// A pair is one word, the number above the place: so they are sorted as plain numbers are, and a place's order among equal
// numbers costs nothing.
#[derive(Drop)]
pub struct NumberIndex {
    words: Vec<u64>,
}

impl Model for NumberIndex {
    ghost use Rattle.std.specs.Prelude.{ℕ, ℤ, List, map};
    ghost use Rattle.std.specs.List.Sorted.{IsNonDecreasing};
    ghost use Rattle.dvi_ops.specs.NumberIndex.{pair_of};

    ghost Value = { List (ℤ × ℕ) };

    ghost view = { λ i. map pair_of i.words.items };

    ghost invariant = { λ i. IsNonDecreasing i.words.items };
}

impl NumberIndex {
    /// An index of these pairs.
    pub fn new(numbers: Numbers) -> NumberIndex
        ensures { IsPermutation numbers result }
    {
        let mut words = numbers.words;
        words.sort_unstable();
        NumberIndex { words }
    }

    /// A number that two of the pairs have; `None` exactly where each has a number of its own.
    pub fn twice(&self) -> Option<i64>
        ensures { MatchOption result ((k : ℤ) → StandsTwice self.now k → ⊥) (StandsTwice self.now) }
    {
        for at in 1..self.words.len() {
            let k = number_in(self.words[at]);
            if number_in(self.words[at - 1]) == k {
                return Some(k);
            }
        }
        None
    }

    /// A place that stands beside a number; `None` exactly where no pair has the number.
    pub fn place(&self, k: i64) -> Option<usize>
        ensures { MatchOption result ((place : ℕ) → Contains self.now (k, place) → ⊥) (λ place. Contains self.now (k, place)) }
    {
        let at = self.words.partition_point(|word| number_in(*word) < k);
        let word = *self.words.get(at)?;
        if number_in(word) == k {
            Some(place_in(word))
        } else {
            None
        }
    }
}
