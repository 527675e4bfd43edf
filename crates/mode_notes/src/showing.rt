//! Predicates, places and arguments as they are shown.

use listed_programs::Listed;
use messages::Place;
use mode_causes::View;
use std::alloc::{AllocError, Global};
use warnings::indicator_of;

/// How many calls are named of those at which nothing falls.
pub(crate) const MOST_CALLS: u64 = 4;

/// The most variables of a query that is shown, which are named by letters.
const MOST_VARIABLES: u32 = 12;

/// A named text, and the names of its program's predicates.
#[derive(Clone, Copy)]
pub(crate) struct Source<'n, 't, 'p> {
    pub(crate) name: &'n str,
    pub(crate) text: &'t [u8],
    pub(crate) listed: &'p Listed,
}

/// Whether a name is a small letter with letters, digits and underscores.
fn is_plain(name: &str) -> bool {
    name.starts_with(|c: char| c.is_ascii_lowercase())
        && name
            .bytes()
            .all(|byte| byte.is_ascii_alphanumeric() || byte == b'_')
}

impl<'n, 'p> Source<'n, '_, 'p> {
    /// The name of a predicate, as far as it is text.
    fn name_of(self, pred: u32) -> &'p str {
        std::str::from_utf8(self.listed.name_of(pred)).unwrap_or("?")
    }

    /// How many arguments a predicate has.
    fn arity_of(self, pred: u32) -> u32 {
        match self.listed.table.preds.get(pred as usize) {
            Some(pred) => pred.arity,
            None => 0,
        }
    }

    /// A predicate as it is shown.
    pub(crate) fn shown(self, alloc: Global, pred: u32) -> Result<String, AllocError> {
        if self.listed.is_disjunction(pred) {
            return format!(in alloc; "this disjunction");
        }
        let indicator = indicator_of(alloc, self.listed.name_of(pred), self.arity_of(pred))?;
        format!(in alloc; "`{indicator}`")
    }

    /// A byte's line and column.
    pub(crate) fn place(self, at: u32) -> Place<'n> {
        Place::of(self.name, self.text, at)
    }

    /// The most general query of a predicate with a plain name.
    pub(crate) fn query(self, alloc: Global, pred: u32) -> Result<Option<String>, AllocError> {
        let name = self.name_of(pred);
        if !is_plain(name) {
            return Ok(None);
        }
        let mut query = String::new(alloc);
        query.push_str(name)?;
        let mut before = "(";
        let mut letter = b'A';
        for _ in 0..self.arity_of(pred).min(MOST_VARIABLES) {
            let variable = char::from(letter);
            let item = format!(in alloc; "{before}{variable}")?;
            query.push_str(&item)?;
            before = ",";
            letter = letter.saturating_add(1);
        }
        if before == "," {
            query.push_str(")")?;
        }
        Ok(Some(query))
    }
}

/// The places of the calls of points, as lines and columns.
pub(crate) fn calls_shown(
    alloc: Global,
    source: Source<'_, '_, '_>,
    view: View<'_, '_, '_>,
    start: usize,
    points: u64,
) -> Result<String, AllocError> {
    let mut shown = String::new(alloc);
    let mut place = start;
    let mut count = 0u64;
    // A point whose T is 0 has one more fact.
    for _ in 0..view.facts.len() {
        if count >= points.min(MOST_CALLS) || place >= view.facts.len() {
            break;
        }
        if let Some(at) = view.point_place(place) {
            let Place { line, column, .. } = source.place(at);
            let before = if count == 0 { "" } else { ", " };
            let item = format!(in alloc; "{before}{line}:{column}")?;
            shown.push_str(&item)?;
            count = count.saturating_add(1);
        }
        place = place.saturating_add(1);
    }
    if points > count {
        shown.push_str(", ..")?;
    }
    Ok(shown)
}

/// The arguments that one mode asks for, as `argument 2`.
fn push_mode(alloc: Global, shown: &mut String, mode: &[u32]) -> Result<(), AllocError> {
    shown.push_str(if mode.len() == 1 {
        "argument "
    } else {
        "arguments "
    })?;
    let mut before = "";
    for number in mode {
        let item = format!(in alloc; "{before}{number}")?;
        shown.push_str(&item)?;
        before = " and ";
    }
    Ok(())
}

/// The arguments that modes ask for, as `argument 1 or arguments 2 and 3`.
pub(crate) fn needs_shown(
    alloc: Global,
    view: View<'_, '_, '_>,
    callee: u32,
) -> Result<String, AllocError> {
    let mut shown = String::new(alloc);
    for mode in view.modes_of(callee) {
        if !shown.is_empty() {
            shown.push_str(" or ")?;
        }
        push_mode(alloc, &mut shown, mode.as_slice())?;
    }
    Ok(shown)
}
