//! The facts of a certificate of measures with numbers.

use crate::kind::CertKind;
use certificate::{CertCell, CertHow, PredText};
use sequences::Sequence;

/// One line of a certificate.
///
/// Clauses, calls, lists, measures, rows, steps and arguments are numbered from 1. A row has its constant first, and
/// then a number for each column of its predicate's arguments.
pub enum ProveFact {
    /// The version of the format.
    Ctiprove {
        version: i128,
    },
    /// The modes of a predicate, each a list of argument numbers.
    Terminates {
        pred: PredText,
        modes: Sequence<Sequence<u32>>,
    },
    /// The kind of each argument of a predicate.
    Kinds {
        pred: PredText,
        kinds: Sequence<CertKind>,
    },
    /// A predicate has clauses, and no answer: no row of the groundness model.
    Fails {
        pred: PredText,
    },
    /// A size row: its value at the columns of the arguments is at least 0.
    Size {
        pred: PredText,
        index: u64,
        row: Sequence<i128>,
    },
    /// A clause keeps a size row of its head, by these multipliers.
    By {
        clause: u32,
        index: u64,
        scale: i128,
        multipliers: Sequence<i128>,
    },
    /// Rows of the groundness model.
    Grounds {
        pred: PredText,
        index: u64,
        cube: Sequence<CertCell>,
    },
    /// A predicate's coefficients and offset in a measure of a list, a coefficient for each column of its arguments.
    /// They may be below 0.
    Level {
        pred: PredText,
        list: u32,
        index: u64,
        coeffs: Sequence<i128>,
        offset: i128,
    },
    /// A measure of a list does not rise from a clause's head to one of its calls, and falls where it is the last one
    /// of the call, by these multipliers.
    Drops {
        clause: u32,
        call: u32,
        list: u32,
        index: u64,
        scale: i128,
        multipliers: Sequence<i128>,
    },
    /// The measure of a list that is the last one of a call is at least 0 on the clause's head, by these multipliers.
    Floors {
        clause: u32,
        call: u32,
        list: u32,
        scale: i128,
        multipliers: Sequence<i128>,
    },
    /// Rows of the precondition for a list.
    Pre {
        pred: PredText,
        list: u32,
        index: u64,
        cube: Sequence<CertCell>,
    },
    /// A stuck set with the given number of groups follows, for the component whose first predicate this is. It is
    /// written `none`.
    Refuted {
        pred: PredText,
        groups: u64,
    },
    /// The group of a clause's head and call in a stuck set follows: its points, and perhaps a floor.
    Group {
        clause: u32,
        call: u32,
    },
    /// The values of a clause's variables at the pair of its head and a call, multiplied by `t`: three for each
    /// variable, its size and its parts above and below 0.
    Point {
        clause: u32,
        call: u32,
        t: i128,
        w: Sequence<i128>,
    },
    /// Such values of the group's own pair, at which its head's level is counted once more.
    Floor {
        clause: u32,
        call: u32,
        t: i128,
        w: Sequence<i128>,
    },
    /// A note: the image at a step.
    Image {
        step: u64,
        clause: u32,
        pred: PredText,
        rows: Sequence<Sequence<i128>>,
    },
    /// A note: the head's rows after a step.
    Step {
        step: u64,
        pred: PredText,
        how: CertHow,
        rows: Sequence<Sequence<i128>>,
    },
    /// A note: the image of a step is weak.
    WeakImage {
        step: u64,
    },
    /// A note: the rows of a step are weak.
    WeakStep {
        step: u64,
    },
    /// A note: the search for this support was given up. It has one list of argument numbers for each member of the
    /// component.
    Blown {
        pred: PredText,
        support: Sequence<Sequence<u32>>,
    },
}

impl Drop for ProveFact {
    fn drop(self) {
        match self {
            ProveFact::Ctiprove { version: _ } => {}
            ProveFact::Terminates { pred: _, modes: _ } => {}
            ProveFact::Kinds { pred: _, kinds: _ } => {}
            ProveFact::Fails { pred: _ } => {}
            ProveFact::Size {
                pred: _,
                index: _,
                row: _,
            } => {}
            ProveFact::By {
                clause: _,
                index: _,
                scale: _,
                multipliers: _,
            } => {}
            ProveFact::Grounds {
                pred: _,
                index: _,
                cube: _,
            } => {}
            ProveFact::Level {
                pred: _,
                list: _,
                index: _,
                coeffs: _,
                offset: _,
            } => {}
            ProveFact::Drops {
                clause: _,
                call: _,
                list: _,
                index: _,
                scale: _,
                multipliers: _,
            } => {}
            ProveFact::Floors {
                clause: _,
                call: _,
                list: _,
                scale: _,
                multipliers: _,
            } => {}
            ProveFact::Pre {
                pred: _,
                list: _,
                index: _,
                cube: _,
            } => {}
            ProveFact::Refuted { pred: _, groups: _ } => {}
            ProveFact::Group { clause: _, call: _ } => {}
            ProveFact::Point {
                clause: _,
                call: _,
                t: _,
                w: _,
            } => {}
            ProveFact::Floor {
                clause: _,
                call: _,
                t: _,
                w: _,
            } => {}
            ProveFact::Image {
                step: _,
                clause: _,
                pred: _,
                rows: _,
            } => {}
            ProveFact::Step {
                step: _,
                pred: _,
                how: _,
                rows: _,
            } => {}
            ProveFact::WeakImage { step: _ } => {}
            ProveFact::WeakStep { step: _ } => {}
            ProveFact::Blown {
                pred: _,
                support: _,
            } => {}
        }
    }
}
