//! What a turn asks of a mapping at its transitions.

ghost use Rattle.std.specs.Prelude.{◌≡◌, ◌++◌, IfOk, List, OnOk, false, map, neg_ℤ, slice_index_or, true};
ghost use Rattle.std.specs.List.{AllByRecursion};
ghost use Rattle.exact128.specs.Fits.{fits};
ghost use Rattle.exact128.specs.Sums.{entry};
ghost use Rattle.linear_rows.specs.Plain.{plain_row};
ghost use Rattle.linear_rows.specs.Rows.{column};
ghost use Rattle.number_turns.specs.Demanding.{HasItsNumbers, HoldsNumbers, feature_row, least_of, target_of, targets_by};
ghost use Rattle.number_turns.specs.Recalled.{held_of, recalled, recalled_of, spelled};
ghost use Rattle.transitions.specs.StuckSets.{Feature as Number};
ghost use Rattle.transitions.specs.Templates.{least_in};
ghost use Rattle.transitions.specs.Turns.{targets};

use crate::feature::Feature;
use crate::naturals::difference;
use crate::transition::Transition;
use linear_rows::{Row, number};
use std::alloc::{AllocError, Global};

/// What a mapping is to do at a transition.
#[derive(Clone, Copy)]
pub(crate) enum Aim {
    /// Not to rise.
    Keep,
    /// To fall by 1.
    Fall,
    /// To be at least 0 on the head.
    Floor,
}

/// A transition, and what a mapping is to do there.
#[derive(Clone, Copy)]
pub(crate) struct Demand<'a> {
    pub(crate) transition: &'a Transition,
    pub(crate) aim: Aim,
}

/// The number of a row with the other sign.
fn negated(row: &Row, x: usize) -> i128
    requires { fits (entry (plain_row row.now) x) ≡ true }
    ensures { result ≡ neg_ℤ (entry (plain_row row.now) x) }
{
    -number(row, x)
}

impl Demand<'_> {
    /// By what a number of the mapping is multiplied in column `x` of what is to be at least 0.
    fn share(&self, feature: Feature, x: usize) -> i128
        requires { HasItsNumbers self.now }
        ensures share { result ≡ entry
            (feature_row self.now.aim (recalled self.now.transition.now) (spelled feature)) x }
        ensures fits { fits result ≡ true }
    {
        let head = self.transition.head.share(feature, x);
        match self.aim {
            Aim::Floor => head,
            Aim::Keep | Aim::Fall => difference(head, self.transition.call.share(feature, x)),
        }
    }

    /// The opposite of that.
    fn opposite_share(&self, feature: Feature, x: usize) -> i128
        requires { HasItsNumbers self.now }
        ensures { result ≡ neg_ℤ (entry
            (feature_row self.now.aim (recalled self.now.transition.now) (spelled feature)) x) }
    {
        -self.share(feature, x)
    }

    /// Adds what the numbers count in column `x`.
    pub(crate) fn add_shares(
        &self,
        row: &mut Vec<i128>,
        features: &[Feature],
        x: usize,
    ) -> Result<(), AllocError>
        requires { HasItsNumbers self.now }
        ensures { OnOk result (row.new.items ≡ row.old.items ++ map (λ f. entry
            (feature_row self.now.aim (recalled self.now.transition.now) (spelled f)) x) features.now) }
    {
        for feature in features {
            row.push(self.share(*feature, x))?;
        }
        Ok(())
    }

    /// Adds the opposites of that.
    pub(crate) fn add_opposites(
        &self,
        row: &mut Vec<i128>,
        features: &[Feature],
        x: usize,
    ) -> Result<(), AllocError>
        requires { HasItsNumbers self.now }
        ensures { OnOk result (row.new.items ≡ row.old.items ++ map (λ f. neg_ℤ (entry
            (feature_row self.now.aim (recalled self.now.transition.now) (spelled f)) x)) features.now) }
    {
        for feature in features {
            row.push(self.opposite_share(*feature, x))?;
        }
        Ok(())
    }

    /// Adds what the multipliers of the known rows count in column `x`.
    pub(crate) fn add_multipliers(&self, row: &mut Vec<i128>, x: usize) -> Result<(), AllocError>
        requires { HasItsNumbers self.now }
        ensures { OnOk result (row.new.items ≡ row.old.items ++ map
            (λ r. neg_ℤ (entry (plain_row r) x)) self.now.transition.now.rows.list) }
    {
        for known in self.transition.rows.list.as_slice() {
            row.push(negated(known, x))?;
        }
        Ok(())
    }

    /// What column `x` has without the numbers: in that of the constants, by how much the mapping is to fall.
    pub(crate) fn constant(&self, x: usize) -> i128
        ensures { result ≡ least_in (least_of self.now.aim) x }
    {
        match self.aim {
            Aim::Fall if x == 0 => -1,
            _ => 0,
        }
    }
}

/// Adds what is asked at a transition.
fn add_demands<'a>(
    demands: &mut Vec<Demand<'a>>,
    transition: &'a Transition,
    marked: bool,
) -> Result<(), AllocError>
    ensures targets { OnOk result ((fs : List Number) → map (target_of fs) demands.new.items
        ≡ map (target_of fs) demands.old.items ++ targets_by fs marked (recalled transition.now)) }
    ensures numbers { OnOk result (HoldsNumbers transition.now
        → AllByRecursion HasItsNumbers demands.old.items
        → AllByRecursion HasItsNumbers demands.new.items) }
{
    if !marked {
        let aim = Aim::Keep;
        return Ok(demands.push(Demand { transition, aim })?);
    }
    let aim = Aim::Fall;
    demands.push(Demand { transition, aim })?;
    let aim = Aim::Floor;
    Ok(demands.push(Demand { transition, aim })?)
}

/// Whether the transition at a place is marked. What is past the end of the marks is not.
fn is_marked(marks: &[bool], place: usize) -> bool
    ensures { result ≡ slice_index_or marks.now place false }
{
    place < marks.len() && marks[place]
}

/// What is asked of a mapping that rises at none of the transitions, and falls and is at least 0 on the head at those
/// that are marked.
pub(crate) fn demands_of<'a>(
    alloc: Global,
    transitions: &[&'a Transition],
    marks: &[bool],
) -> Result<Vec<Demand<'a>>, AllocError>
    requires { AllByRecursion HoldsNumbers (held_of transitions.now) }
    ensures targets { IfOk result (λ demands. (fs : List Number) → map (target_of fs) demands.items
        ≡ targets fs (recalled_of transitions.now) marks.now) }
    ensures numbers { IfOk result (λ demands. AllByRecursion HasItsNumbers demands.items) }
{
    let mut demands = Vec::new(alloc);
    for i in 0..transitions.len() {
        add_demands(&mut demands, transitions[i], is_marked(marks, i))?;
    }
    Ok(demands)
}
