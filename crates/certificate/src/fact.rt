//! The facts of a certificate.

use crate::cell::CertCell;
use crate::how::CertHow;
use crate::norm::CertNorm;
use crate::pred_text::PredText;
use sequences::Sequence;

/// One line of a certificate.
///
/// Clauses, calls, mappings, rows, steps and arguments are numbered from 1. A row has its constant first.
pub enum Fact {
    /// The version of the format.
    Cti {
        version: i128,
    },
    /// The norm of the sizes and of the modes. It stands in certificates of version 2.
    Norm {
        norm: CertNorm,
    },
    /// The modes of a predicate, each a list of argument numbers.
    Terminates {
        pred: PredText,
        modes: Sequence<Sequence<u32>>,
    },
    /// A size row: its value at the sizes of the arguments is at least 0.
    Size {
        pred: PredText,
        index: u64,
        row: Sequence<i128>,
    },
    /// A clause keeps a size row of its head, by these multipliers.
    By {
        clause: u32,
        index: u64,
        scale: i128,
        multipliers: Sequence<i128>,
    },
    /// Rows of the groundness model.
    Grounds {
        pred: PredText,
        index: u64,
        cube: Sequence<CertCell>,
    },
    /// A predicate's coefficients and offset in a level mapping.
    Measure {
        pred: PredText,
        mapping: u32,
        coeffs: Sequence<i128>,
        offset: i128,
    },
    /// A mapping decreases from a clause's head to one of its calls, by these multipliers.
    Falls {
        clause: u32,
        call: u32,
        mapping: u32,
        scale: i128,
        multipliers: Sequence<i128>,
    },
    /// Rows of the precondition for a mapping.
    Pre {
        pred: PredText,
        mapping: u32,
        index: u64,
        cube: Sequence<CertCell>,
    },
    /// A refutation with the given number of points follows, for the component whose first predicate this is. It is
    /// written `none`.
    Refuted {
        pred: PredText,
        points: u64,
    },
    /// The values of a clause's variables at the pair of its head and a call, multiplied by `t`.
    Point {
        clause: u32,
        call: u32,
        t: i128,
        w: Sequence<i128>,
    },
    /// After a point with a `t` of 0: a point of the pair with a `t` of at least 1.
    At {
        clause: u32,
        call: u32,
        t: i128,
        w: Sequence<i128>,
    },
    /// A note: the image at a step.
    Image {
        step: u64,
        clause: u32,
        pred: PredText,
        rows: Sequence<Sequence<i128>>,
    },
    /// A note: the head's rows after a step.
    Step {
        step: u64,
        pred: PredText,
        how: CertHow,
        rows: Sequence<Sequence<i128>>,
    },
    /// A note: the image of a step is weak.
    WeakImage {
        step: u64,
    },
    /// A note: the rows of a step are weak.
    WeakStep {
        step: u64,
    },
    /// A note: the search for this support was given up. It has one list of argument numbers for each member of the
    /// component.
    Blown {
        pred: PredText,
        support: Sequence<Sequence<u32>>,
    },
    /// A note: the number of argument positions of the component, which is more than 12.
    Large {
        pred: PredText,
        positions: u64,
    },
}

impl Drop for Fact {
    fn drop(self) {
        match self {
            Fact::Cti { version: _ } => {}
            Fact::Norm { norm: _ } => {}
            Fact::Terminates { pred: _, modes: _ } => {}
            Fact::Size {
                pred: _,
                index: _,
                row: _,
            } => {}
            Fact::By {
                clause: _,
                index: _,
                scale: _,
                multipliers: _,
            } => {}
            Fact::Grounds {
                pred: _,
                index: _,
                cube: _,
            } => {}
            Fact::Measure {
                pred: _,
                mapping: _,
                coeffs: _,
                offset: _,
            } => {}
            Fact::Falls {
                clause: _,
                call: _,
                mapping: _,
                scale: _,
                multipliers: _,
            } => {}
            Fact::Pre {
                pred: _,
                mapping: _,
                index: _,
                cube: _,
            } => {}
            Fact::Refuted { pred: _, points: _ } => {}
            Fact::Point {
                clause: _,
                call: _,
                t: _,
                w: _,
            } => {}
            Fact::At {
                clause: _,
                call: _,
                t: _,
                w: _,
            } => {}
            Fact::Image {
                step: _,
                clause: _,
                pred: _,
                rows: _,
            } => {}
            Fact::Step {
                step: _,
                pred: _,
                how: _,
                rows: _,
            } => {}
            Fact::WeakImage { step: _ } => {}
            Fact::WeakStep { step: _ } => {}
            Fact::Blown {
                pred: _,
                support: _,
            } => {}
            Fact::Large {
                pred: _,
                positions: _,
            } => {}
        }
    }
}
