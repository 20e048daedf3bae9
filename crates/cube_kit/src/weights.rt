//! Weights of differences.
ghost use Rattle.std.specs.Prelude.{ℕ, ◌≡◌, ◌≤◌, ◌-◌, length, replicate, slice_index, slice_set};
ghost use Rattle.std.specs.Prelude.{take};
ghost use Rattle.mre_base.specs.Before.{numbers, weight};
ghost use Rattle.cube_kit.specs.Cubes.{IsWithin};

use crate::order::sum_of;
use mre_base::Places;
use std::marker::Model;

/// The greatest weight of a difference. The least is 1.
pub const MOST_WEIGHT: u32 = 1000000;

// The definitions have the same limit.
const _: () = prove!(MOST_WEIGHT == 1000000);

/// A weight for each difference, seen as the list of the 256 weights from difference 1 on. No call
/// takes memory.
#[derive(Drop)]
pub struct Weights {
    weights: [u32; 256],
}

impl Model for Weights {
    ghost use Rattle.std.specs.Prelude.{List, ℕ};
    ghost use Rattle.cube_kit.specs.Weighing.{IsWeighing};

    ghost Value = { List ℕ };

    ghost view = { λ w. w.weights };

    ghost invariant = { λ w. IsWeighing w.weights };
}

impl Weights {
    ghost use Rattle.cube_kit.specs.Weighing.{IsWeighing};

    /// Each difference weighs 1.
    pub fn ones() -> Weights
        ensures { result ≡ replicate 256 1 }
    {
        Weights { weights: [1; 256] }
    }

    /// Gives a difference another weight.
    pub fn set(&mut self, place: u32, weight: u32)
        requires low { 1 ≤ place }
        requires high { place ≤ 256 }
        requires heavy { 1 ≤ weight }
        requires light { weight ≤ 1000000 }
        ensures { self.new ≡ slice_set self.old (place - 1) weight }
    {
        self.weights[place as usize - 1] = weight;
    }

    /// The weight of a difference.
    pub fn weight(&self, place: u32) -> u32
        requires low { 1 ≤ place }
        requires high { place ≤ 256 }
        ensures weight { result ≡ slice_index self.now (place - 1) }
        ensures weights { IsWeighing self.now }
    {
        self.weights[place as usize - 1]
    }

    /// The sum of the weights of a set's numbers.
    pub fn total(&self, set: &Places) -> u64
        ensures total { result ≡ weight self.now (numbers (length self.now) set.now) }
        ensures narrow { (d : ℕ) → d ≤ 256 → IsWithin d set.now →
            result ≡ weight (take d self.now) (numbers d set.now) }
        ensures weights { IsWeighing self.now }
    {
        sum_of(&self.weights, set)
    }

    // The number of differences that have a weight.
    pub(crate) fn places(&self) -> u32
        ensures places { result ≡ length self.now }
        ensures weights { IsWeighing self.now }
    {
        let weights = &self.weights;
        weights.len() as u32
    }

    pub fn copy(&self) -> Weights
        ensures { result ≡ self.now }
    {
        Weights {
            weights: self.weights,
        }
    }
}
