//! The fact that a certificate has to have at a place.

use crate::reading::listed_program;
use crate::wanted::{Wanted, shown_fact};
use certificate::{Certificate, Fact};
use listed_programs::{FactRuns, Listed, number_of};
use messages::push_shown;
use std::alloc::{AllocError, Global};

/// What was seen of the facts before a place, which are right.
struct Seen<'p> {
    listed: &'p Listed,
    terminates: u32,
    /// The size rows, and the mappings, of each predicate.
    sizes: FactRuns,
    measures: FactRuns,
    by: u64,
    falls: u64,
}

impl Drop for Seen<'_> {
    fn drop(self) {
        let Seen {
            listed: _,
            terminates: _,
            sizes: _,
            measures: _,
            by: _,
            falls: _,
        } = self;
    }
}

impl<'p> Seen<'p> {
    /// What the facts before a place say.
    fn of(alloc: Global, listed: &'p Listed, facts: &[Fact]) -> Result<Seen<'p>, AllocError> {
        let mut seen = Seen {
            listed,
            terminates: 0,
            sizes: FactRuns::new(alloc, listed.table.preds.len())?,
            measures: FactRuns::new(alloc, listed.table.preds.len())?,
            by: 0,
            falls: 0,
        };
        for (place, fact) in facts.iter().enumerate() {
            seen.take(place, fact);
        }
        Ok(seen)
    }

    /// Takes the fact at a place.
    fn take(&mut self, place: usize, fact: &Fact) {
        match fact {
            Fact::Terminates { .. } => self.terminates = self.terminates.saturating_add(1),
            Fact::Size { pred, .. } => self.sizes.add(self.listed, pred, place),
            Fact::By { .. } => self.by = self.by.saturating_add(1),
            Fact::Measure { pred, .. } => self.measures.add(self.listed, pred, place),
            Fact::Falls { .. } => self.falls = self.falls.saturating_add(1),
            _ => {}
        }
    }

    /// The line with modes that is expected.
    fn wanted_modes(&self) -> Option<Wanted> {
        if (self.terminates as usize) < self.listed.table.preds.len() {
            Some(Wanted::Terminates(self.terminates))
        } else {
            None
        }
    }

    /// The proof of a size row that is expected: each clause has one for each row of its head.
    fn wanted_proof(&self) -> Option<Wanted> {
        let mut left = self.by;
        for (place, row) in self.listed.table.clauses.iter().enumerate() {
            let rows = self.sizes.of(row.head).count as u64;
            if left < rows {
                return Some(Wanted::By {
                    clause: number_of(place),
                    index: left.saturating_add(1),
                });
            }
            left = left.saturating_sub(rows);
        }
        None
    }

    /// The measure that is expected: each predicate of a recursive group has as many as the first, and others have one.
    fn wanted_measure(&self, alloc: Global) -> Result<Option<Wanted>, AllocError> {
        let table = &self.listed.table;
        let mut firsts: Vec<Option<u64>> = vec![in alloc; None; table.preds.len()]?;
        let mut pred = 0u32;
        for _ in &table.preds {
            let component = table.component_of(pred);
            let count = self.measures.of(pred).count as u64;
            let first = if table.is_recursive(component) {
                count
            } else {
                1
            };
            if let Some(place) = firsts.get_mut(component as usize) {
                let wanted = place.unwrap_or(first);
                *place = Some(wanted);
                if count < wanted {
                    let mapping = count.saturating_add(1);
                    return Ok(Some(Wanted::Measure { pred, mapping }));
                }
            }
            pred = pred.saturating_add(1);
        }
        Ok(None)
    }

    /// The fall that is expected: each own call has one for each mapping.
    fn wanted_fall(&self) -> Option<Wanted> {
        let table = &self.listed.table;
        let mut left = self.falls;
        for (place, row) in table.clauses.iter().enumerate() {
            let mappings = self.measures.of(row.head).count as u64;
            let component = table.component_of(row.head);
            let own = table
                .calls_of(*row)
                .iter()
                .filter(|callee| table.component_of(**callee) == component)
                .count();
            let falls = mappings.saturating_mul(own as u64);
            if left < falls {
                return self.fall_in(number_of(place), left, mappings);
            }
            left = left.saturating_sub(falls);
        }
        None
    }

    /// The fall of a clause after this many, where each own call has one for each of its mappings.
    fn fall_in(&self, clause: u32, falls: u64, mappings: u64) -> Option<Wanted> {
        let table = &self.listed.table;
        let row = table.clause(clause)?;
        let component = table.component_of(row.head);
        let mut left = falls;
        for (place, callee) in table.calls_of(row).iter().enumerate() {
            if table.component_of(*callee) != component {
                continue;
            }
            if left < mappings {
                let mapping = left.saturating_add(1);
                return Some(Wanted::Falls {
                    clause,
                    call: number_of(place),
                    mapping,
                });
            }
            left = left.saturating_sub(mappings);
        }
        None
    }

    /// The fact that is expected in the place of a fall of a clause: a measure, where the clause's head has none.
    fn wanted_at_fall(&self, clause: u32) -> Option<Wanted> {
        let pred = self.listed.table.clause(clause)?.head;
        if self.measures.of(pred).count == 0 {
            return Some(Wanted::Measure { pred, mapping: 1 });
        }
        self.wanted_fall()
    }

    /// The fact that is expected in the place of another one, as far as its kind allows it.
    fn wanted(&self, alloc: Global, found: Option<&Fact>) -> Result<Option<Wanted>, AllocError> {
        if let Some(Fact::Cti { .. } | Fact::Norm { .. }) = found {
            return Ok(None);
        }
        if let Some(wanted) = self.wanted_modes() {
            return Ok(Some(wanted));
        }
        if let Some(Fact::Size { .. }) = found {
            return Ok(None);
        }
        if let Some(wanted) = self.wanted_proof() {
            return Ok(Some(wanted));
        }
        if let Some(Fact::Grounds { .. }) = found {
            return Ok(None);
        }
        if let Some(wanted) = self.wanted_measure(alloc)? {
            return Ok(Some(wanted));
        }
        match found {
            Some(Fact::Measure { .. }) => Ok(None),
            Some(Fact::Falls { clause, .. }) => Ok(self.wanted_at_fall(*clause)),
            _ => Ok(self.wanted_fall()),
        }
    }
}

/// Whether the facts begin with a version, and a norm where it has one.
fn has_beginning(facts: &[Fact]) -> bool {
    match facts.first() {
        Some(Fact::Cti { version, .. }) if *version == 2 => {
            matches!(facts.get(1), Some(Fact::Norm { .. }))
        }
        Some(Fact::Cti { .. }) => true,
        _ => false,
    }
}

/// The note about a named certificate of a program whose fact of this line, counted from 1, is not the one that is
/// expected.
pub(crate) fn expected_note(
    alloc: Global,
    name: &str,
    (program, certificate): (&[u8], &[u8]),
    line: u64,
) -> Result<Vec<u8>, AllocError> {
    let mut message = Vec::new(alloc);
    let Some(listed) = listed_program(alloc, program)? else {
        return Ok(message);
    };
    let Ok(read) = Certificate::read(alloc, certificate) else {
        return Ok(message);
    };
    let place = usize::try_from(line.saturating_sub(1)).unwrap_or(usize::MAX);
    let facts = read.facts.as_slice();
    let before = facts.get(..place).unwrap_or(&[]);
    if !has_beginning(before) {
        return Ok(message);
    }
    let seen = Seen::of(alloc, &listed, before)?;
    if let Some(wanted) = seen.wanted(alloc, facts.get(place))? {
        let fact = shown_fact(alloc, &listed, wanted)?;
        let said = format!(in alloc; "{name}:{line}:1: note: `{fact}` was expected here")?;
        push_shown(&mut message, said.as_bytes())?;
        message.push(b'\n')?;
    }
    Ok(message)
}
