//! The lines of a certificate.

ghost use Rattle.std.specs.Io.Iter.{u64_saturate};
ghost use Rattle.std.specs.Prelude.{◌≡◌, ◌+◌, length, suc};
ghost use Rattle.cert_structure.specs.Order.{head_facts};
ghost use Rattle.cert_checker.specs.Sections.{AreLines, count_all, count_in, rows_in};

use cert_structure::Parts;
use certificate::CertNorm;
use sequences::Sequence;
use termination_model::SizeRows;

/// The first lines of the parts that are tested, counted from 1.
#[derive(Clone, Copy)]
pub(crate) struct Lines {
    pub(crate) modes: u64,
    pub(crate) sizes: u64,
    pub(crate) row_proofs: u64,
    pub(crate) measures: u64,
    pub(crate) falls: u64,
    pub(crate) refutations: u64,
}

/// The line of the first mode. That of the version comes before it, and that of the norm, if there is one.
fn first_mode(norm: Option<CertNorm>) -> u64
    ensures { result ≡ suc (length (head_facts norm)) }
{
    if norm.is_some() { 3 } else { 2 }
}

/// The line after this many facts.
fn after(line: u64, facts: usize) -> u64
    ensures { result ≡ u64_saturate (line + facts) }
{
    line.saturating_add(facts as u64)
}

/// The line after the size rows, the first of which has the line `first`.
fn after_rows(rows: &SizeRows, first: u64) -> u64
    ensures { result ≡ u64_saturate (first + rows_in rows.now) }
{
    let mut line = first;
    for q in 0..rows.len() {
        line = after(line, rows.get(q).list.len());
    }
    line
}

/// The line after lists of facts.
fn after_lists<T>(lists: &[Sequence<T>], first: u64) -> u64
    ensures { result ≡ u64_saturate (first + count_in lists.now) }
{
    let mut line = first;
    for list in lists {
        line = after(line, list.len());
    }
    line
}

/// The line after lists of such lists.
fn after_all<T>(lists: &[Sequence<Sequence<T>>], first: u64) -> u64
    ensures { result ≡ u64_saturate (first + count_all lists.now) }
{
    let mut line = first;
    for list in lists {
        line = after_lists(list.as_slice(), line);
    }
    line
}

impl Lines {
    /// The lines of these parts, in the order of the format.
    pub(crate) fn of(parts: &Parts) -> Lines
        ensures { AreLines parts.now result }
    {
        let modes = first_mode(parts.norm);
        let sizes = after(modes, parts.modes.len());
        let row_proofs = after_rows(&parts.rows, sizes);
        let grounds = after_lists(parts.row_proofs.as_slice(), row_proofs);
        let measures = after_lists(parts.grounds.as_slice(), grounds);
        let falls = after_lists(parts.levels.as_slice(), measures);
        let preconditions = after_all(parts.falls.as_slice(), falls);
        let refutations = after_all(parts.preconditions.as_slice(), preconditions);
        Lines {
            modes,
            sizes,
            row_proofs,
            measures,
            falls,
            refutations,
        }
    }
}
