//! What a certificate's facts say of components.

use certificate::{CertNorm, Certificate, Fact, PredText};
use listed_programs::{FactRuns, Listed, ProgramTable};
use std::alloc::{AllocError, Global};

/// What the facts say of a component.
#[derive(Clone, Copy, PartialEq, Eq)]
pub enum Cause {
    /// Nothing.
    None,
    /// A measure falls at each recursive call.
    Measure,
    /// No measure falls at this many pairs, the first of which is this fact.
    Refuted { start: usize, points: u64 },
}

/// Why not all measures of a component were looked for.
#[derive(Clone, Copy, PartialEq, Eq)]
pub enum Limit {
    /// All supports were looked at, as far as the facts say.
    None,
    /// The group has this many argument positions, more than 12.
    Large(u64),
    /// A search was given up.
    Blown,
}

/// What a certificate says of the predicates and the components of a program.
pub struct Causes {
    pub norm: CertNorm,
    /// Whether it is a certificate of lists of mappings.
    pub is_of_lists: bool,
    /// The place of each predicate's `terminates` among the facts.
    terminates: Vec<usize>,
    /// The truth rows that answers may have.
    pub grounds: FactRuns,
    /// By component.
    causes: Vec<Cause>,
    /// By component.
    limits: Vec<Limit>,
    /// How many points the refutation has that the next point begins.
    points: u64,
    /// How many predicates were looked for by their texts.
    looked: usize,
}

/// How many predicates are looked for by their texts at most.
const MOST_LOOKED: usize = 100;

impl Drop for Causes {
    fn drop(self) {
        let Causes {
            norm: _,
            is_of_lists: _,
            terminates: _,
            grounds: _,
            causes: _,
            limits: _,
            points: _,
            looked: _,
        } = self;
    }
}

impl Causes {
    /// What the facts say.
    pub fn of(
        alloc: Global,
        listed: &Listed,
        certificate: &Certificate,
    ) -> Result<Causes, AllocError> {
        let mut causes = Causes {
            norm: CertNorm::Term,
            is_of_lists: false,
            terminates: Vec::new(alloc),
            grounds: FactRuns::new(alloc, listed.table.preds.len())?,
            causes: vec![in alloc; Cause::None; listed.table.preds.len()]?,
            limits: vec![in alloc; Limit::None; listed.table.preds.len()]?,
            points: 0,
            looked: 0,
        };
        for (place, fact) in certificate.facts.as_slice().iter().enumerate() {
            causes.take(listed, place, fact)?;
        }
        Ok(causes)
    }

    /// Takes a fact.
    fn take(&mut self, listed: &Listed, place: usize, fact: &Fact) -> Result<(), AllocError> {
        match fact {
            Fact::Norm { norm } => self.norm = *norm,
            Fact::Terminates { .. } => self.terminates.push(place)?,
            Fact::Grounds { pred, .. } => self.grounds.add(listed, pred, place),
            Fact::Falls { clause, .. } => self.note_clause(&listed.table, *clause, Cause::Measure),
            Fact::Refuted { points, .. } => self.points = *points,
            Fact::Point { clause, .. } if self.points > 0 => {
                let points = self.points;
                self.points = 0;
                self.note_clause(
                    &listed.table,
                    *clause,
                    Cause::Refuted {
                        start: place,
                        points,
                    },
                );
            }
            Fact::Large { pred, positions } => {
                self.note_limit_named(listed, pred, Limit::Large(*positions));
            }
            Fact::Blown { pred, .. } => self.note_limit_named(listed, pred, Limit::Blown),
            _ => {}
        }
        Ok(())
    }

    /// Notes why not all measures were looked for in the component of a predicate that has this text.
    fn note_limit_named(&mut self, listed: &Listed, text: &PredText, limit: Limit) {
        if self.looks() {
            let found = listed.pred_of(text.name.as_slice(), text.arity);
            self.note_limit(&listed.table, found, limit);
        }
    }

    /// Whether one more predicate is looked for by its text.
    pub fn looks(&mut self) -> bool {
        let looks = self.looked < MOST_LOOKED;
        self.looked = self.looked.saturating_add(1);
        looks
    }

    /// Notes what is said of the component of a clause's head.
    pub fn note_clause(&mut self, table: &ProgramTable, clause: u32, cause: Cause) {
        if let Some(row) = table.clause(clause) {
            self.note_found(table, Some(row.head), cause);
        }
    }

    /// Notes what is said of the component of a predicate, where nothing was said before.
    fn note_found(&mut self, table: &ProgramTable, pred: Option<u32>, cause: Cause) {
        let Some(pred) = pred else {
            return;
        };
        if let Some(known) = self.causes.get_mut(table.component_of(pred) as usize)
            && *known == Cause::None
        {
            *known = cause;
        }
    }

    /// Notes why not all measures of the component of a predicate were looked for, where nothing was said before.
    pub fn note_limit(&mut self, table: &ProgramTable, pred: Option<u32>, limit: Limit) {
        let Some(pred) = pred else {
            return;
        };
        if let Some(known) = self.limits.get_mut(table.component_of(pred) as usize)
            && *known == Limit::None
        {
            *known = limit;
        }
    }

    /// What a mode asks of arguments.
    pub fn known_word(&self) -> &'static str {
        match self.norm {
            CertNorm::Term => "ground",
            CertNorm::List => "rigid",
        }
    }

    /// What is said of the component of a predicate.
    pub fn of_component(&self, component: u32) -> Cause {
        self.causes
            .get(component as usize)
            .copied()
            .unwrap_or(Cause::None)
    }

    /// Why not all measures of a component were looked for.
    pub fn limit_of(&self, component: u32) -> Limit {
        self.limits
            .get(component as usize)
            .copied()
            .unwrap_or(Limit::None)
    }

    /// Whether each predicate has its modes.
    pub fn are_of(&self, table: &ProgramTable) -> bool {
        self.terminates.len() == table.preds.len()
    }

    /// The place among the facts of a predicate's `terminates`.
    pub fn terminates(&self, pred: u32) -> Option<usize> {
        self.terminates.get(pred as usize).copied()
    }
}
