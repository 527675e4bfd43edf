//! Sizes and rigid arguments, by the norm of a certificate.

use certificate::CertNorm;
use cti_terms::{Name, Names, Term};
use warnings::text_of;

/// The norm of a certificate, and the names of its program.
#[derive(Clone, Copy)]
pub struct Sizing<'n> {
    pub names: &'n Names,
    pub norm: CertNorm,
}

/// A point: the values of a clause's variables, multiplied by `t`. Where `t` is 0, it is a direction.
#[derive(Clone, Copy)]
pub struct Point<'f> {
    pub t: i128,
    pub values: &'f [i128],
}

/// The set of one variable. Those of a clause are below 64.
fn variable_set(variable: u32) -> u64 {
    1u64.checked_shl(variable).unwrap_or(0)
}

impl Sizing<'_> {
    /// How many of the first arguments of a term do not count for its size.
    fn skipped(self, name: Name, count: usize) -> usize {
        match self.norm {
            CertNorm::Term => 0,
            CertNorm::List if count == 2 && text_of(self.names, name) == b".".as_slice() => 1,
            CertNorm::List => count,
        }
    }

    /// Adds the variables that have to be rigid for a term to be. A text nests at most 1,000 terms.
    pub fn add_rigid(self, term: &Term, variables: &mut u64) {
        match term {
            Term::Var(variable) => *variables |= variable_set(*variable),
            Term::Int(_) => {}
            Term::Fun(name, args) => {
                let skipped = self.skipped(*name, args.len());
                let mut place = 0usize;
                for arg in args {
                    if place >= skipped {
                        self.add_rigid(arg, variables);
                    }
                    place = place.saturating_add(1);
                }
            }
        }
    }

    /// The size of a term at a point, where it is no larger than a number can be. A text nests at most 1,000 terms.
    pub fn size_at(self, term: &Term, point: Point<'_>) -> Option<i128> {
        match term {
            Term::Var(variable) => point.values.get(*variable as usize).copied(),
            Term::Int(_) => Some(0),
            Term::Fun(name, args) => {
                let skipped = self.skipped(*name, args.len());
                let mut size = if skipped < args.len() { point.t } else { 0 };
                let mut place = 0usize;
                for arg in args {
                    if place >= skipped {
                        size = size.checked_add(self.size_at(arg, point)?)?;
                    }
                    place = place.saturating_add(1);
                }
                Some(size)
            }
        }
    }
}
