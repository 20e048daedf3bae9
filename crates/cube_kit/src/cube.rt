//! Cubes: collections of sets of differences.
ghost use Rattle.std.specs.Prelude.{ℕ, ◌≡◌, ◌≤◌, ◌↔◌, ◌&&◌, IsTrue, true, List, length, ◌⊎◌};
ghost use Rattle.std.specs.FinSet as set;
ghost use Rattle.std.specs.FinSet.{is_subset};
ghost use Rattle.mre_base.specs.Before.{is_before};
ghost use Rattle.cube_kit.specs.Cubes.{Told, IsWithin, IsCube, is_member, all_to, root, single};
ghost use Rattle.cube_kit.specs.Cubes.{above};
ghost use Rattle.cube_kit.specs.Child.{child, is_on};
ghost use Rattle.cube_kit.specs.Weighing.{AreWeights};

use mre_base::{MOST_PLACES, Places, Side};
use std::marker::Model;

/// A collection of sets of differences: the sets that contain all told numbers and no left number.
/// The undecided numbers are free. The three sets have no common number. No call takes memory.
#[derive(Debug, Drop)]
pub struct Cube {
    pub told: Places,
    pub left: Places,
    pub undecided: Places,
}

impl Model for Cube {
    ghost use Rattle.cube_kit.specs.Cubes.{CubeMeaning, cube_code, IsApart};

    ghost Value = { CubeMeaning };

    ghost coded = { cube_code };

    ghost view = { λ c. record { told = c.told; left = c.left; undecided = c.undecided } };

    ghost invariant = { λ c.
        IsApart (record { told = c.told; left = c.left; undecided = c.undecided }) };
}

// The numbers from 1 to d that a set lacks.
fn others(than: &Places, d: u32) -> Places
    requires { d ≤ 256 }
    ensures { result ≡ set.difference (all_to d) than.now }
{
    let mut others = Places::none();
    for place in 1..d + 1 {
        if !than.has(place) {
            others = others.with(place);
        }
    }
    others
}

// Whether two sets have no common number.
fn are_apart(one: &Places, two: &Places) -> bool
    requires { IsWithin 256 one.now }
    ensures { result ≡ set.is_subset one.now (set.difference one.now two.now) }
{
    for place in 1..MOST_PLACES + 1 {
        if one.has(place) && two.has(place) {
            return false;
        }
    }
    true
}

impl Cube {
    /// The cube of all sets of the differences 1 to `d`, with nothing decided.
    pub fn root(d: u32) -> Cube
        requires { d ≤ 256 }
        ensures is { result ≡ root d }
        ensures cube { IsCube d result }
        ensures members { (s : Told) → IsTrue (is_member result s) }
    {
        Cube {
            told: Places::none(),
            left: Places::none(),
            undecided: others(&Places::none(), d),
        }
    }

    /// The cube whose only member is the set.
    pub fn single(set: &Places, d: u32) -> Cube
        requires few { d ≤ 256 }
        requires within { IsWithin d set.now }
        ensures is { result ≡ single d set.now }
        ensures cube { IsCube d result }
        ensures member { (s : Told) → IsWithin d s → IsTrue (is_member result s) ↔ (set.now ≡ s) }
    {
        Cube {
            told: set.copy(),
            left: others(set, d),
            undecided: Places::none(),
        }
    }

    /// The cube of the sets that contain the set.
    pub fn above(set: &Places, d: u32) -> Cube
        requires few { d ≤ 256 }
        requires within { IsWithin d set.now }
        ensures is { result ≡ above d set.now }
        ensures cube { IsCube d result }
        ensures members { (s : Told) → is_member result s ≡ is_subset set.now s }
    {
        Cube {
            told: set.copy(),
            left: Places::none(),
            undecided: others(set, d),
        }
    }

    /// The cube with an undecided number told or left. Its members are those of this cube that have
    /// the number, or those that lack it.
    pub fn decide(&self, place: u32, side: Side) -> Cube
        requires { IsTrue (set.contains self.now.undecided place) }
        ensures is { result ≡ child self.now place side }
        ensures cube { (d : ℕ) → IsCube d self.now → IsCube d result }
        ensures members { (s : Told) →
            is_member result s ≡ (is_member self.now s && is_on side (set.contains s place)) }
    {
        let undecided = self.undecided.without(place);
        match side {
            Side::Told => Cube {
                told: self.told.with(place),
                left: self.left.copy(),
                undecided,
            },
            Side::Left => Cube {
                told: self.told.copy(),
                left: self.left.with(place),
                undecided,
            },
        }
    }

    /// Whether the set is a member.
    pub fn contains(&self, set: &Places) -> bool
        ensures { result ≡ is_member self.now set.now }
    {
        self.told.inside(set) && are_apart(&self.left, set)
    }

    /// The member that is before all others: the set of the told numbers.
    pub fn least(&self) -> Places
        ensures is { result ≡ self.now.told }
        ensures member { IsTrue (is_member self.now result) }
        ensures first { (weights : List ℕ) (s : Told) → AreWeights weights
            → IsWithin (length weights) s → IsTrue (is_member self.now s)
            → (result ≡ s) ⊎ IsTrue (is_before weights result s) }
    {
        self.told.copy()
    }

    pub fn copy(&self) -> Cube
        ensures { result ≡ self.now }
    {
        Cube {
            told: self.told.copy(),
            left: self.left.copy(),
            undecided: self.undecided.copy(),
        }
    }
}
