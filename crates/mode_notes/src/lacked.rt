//! The variables that a call lacks, by their names in the text.

use crate::showing::Source;
use cti_terms::{Atom, Term};
use listed_programs::number_of;
use mode_causes::{CallAt, View, argument_set, named_arguments};
use std::alloc::{AllocError, Global};
use token_search::variable_at;

/// How many variables are named at most.
const MOST_NAMES: u32 = 4;

/// The variables that a call lacks.
pub(crate) struct Lacked {
    /// The names of the variables in back quotes, with commas between.
    pub(crate) names: String,
    pub(crate) count: u32,
    /// Whether one of them is an `_`.
    has_blank: bool,
    /// The variables that have not been named, as a set.
    left: u64,
}

impl Drop for Lacked {
    fn drop(self) {
        let Lacked {
            names: _,
            count: _,
            has_blank: _,
            left: _,
        } = self;
    }
}

/// Adds the variables of a term, in the order of the text. A text nests at most 1,000 terms.
fn push_variables(term: &Term, variables: &mut Vec<u32>) -> Result<(), AllocError> {
    match term {
        Term::Var(variable) => variables.push(*variable)?,
        Term::Int(_) => {}
        Term::Fun(_, args) => {
            for arg in args {
                push_variables(arg, variables)?;
            }
        }
    }
    Ok(())
}

/// The variables of an atom, in the order of the text.
fn variables_of(alloc: Global, atom: &Atom) -> Result<Vec<u32>, AllocError> {
    let mut variables = Vec::new(alloc);
    for arg in atom.args.as_slice() {
        push_variables(arg, &mut variables)?;
    }
    Ok(variables)
}

impl Lacked {
    /// Whether all of them have a name.
    pub(crate) fn is_named(&self) -> bool {
        self.count > 0 && self.left == 0 && !self.has_blank
    }

    /// Whether a variable has to be named, which is noted then.
    fn takes(&mut self, variable: u32) -> bool {
        let set = 1u64.checked_shl(variable).unwrap_or(0);
        let takes = self.left & set != 0 && self.count < MOST_NAMES;
        if takes {
            self.left &= !set;
        }
        takes
    }

    /// Adds a name.
    fn push(&mut self, name: &str) -> Result<(), AllocError> {
        if name == "_" {
            if self.has_blank {
                return Ok(());
            }
            self.has_blank = true;
        }
        self.names
            .push_str(if self.count == 0 { "`" } else { ", `" })?;
        self.names.push_str(name)?;
        self.names.push_str("`")?;
        self.count = self.count.saturating_add(1);
        Ok(())
    }

    /// Names the variables of a call that have not been.
    fn take_call(
        &mut self,
        alloc: Global,
        text: &[u8],
        atom: &Atom,
        places: &[u32],
    ) -> Result<(), AllocError> {
        let variables = variables_of(alloc, atom)?;
        if variables.len() != places.len() {
            return Ok(());
        }
        for (variable, at) in variables.iter().zip(places.iter()) {
            if let Some(name) = variable_at(text, *at)
                && self.takes(*variable)
            {
                self.push(name)?;
            }
        }
        Ok(())
    }
}

/// The arguments that some mode of a predicate asks for.
fn asked_of(view: View<'_, '_, '_>, pred: u32) -> u32 {
    let mut asked = 0u32;
    for mode in view.modes_of(pred) {
        asked |= named_arguments(mode.as_slice());
    }
    asked
}

/// The variables of these arguments of an atom that are not among the known ones.
fn unknown_in(view: View<'_, '_, '_>, atom: &Atom, arguments: u32, known: u64) -> u64 {
    let mut variables = 0u64;
    for (argument, arg) in atom.args.as_slice().iter().enumerate() {
        if arguments & argument_set(argument) != 0 {
            view.sizing().add_rigid(arg, &mut variables);
        }
    }
    variables & !known
}

/// The atom of a call, whose number counts from 1.
fn atom_of(atoms: &[Atom], call: u32) -> Option<&Atom> {
    atoms.get(call.checked_sub(1)? as usize)
}

/// The variables that a call lacks. Those of a disjunction are named by the other calls of its clause.
pub(crate) fn lacked_by(
    alloc: Global,
    source: Source<'_, '_, '_>,
    view: View<'_, '_, '_>,
    call: CallAt,
) -> Result<Lacked, AllocError> {
    let mut lacked = Lacked {
        names: String::new(alloc),
        count: 0,
        has_blank: false,
        left: 0,
    };
    let Some(clause) = view.listed.clause(call.clause) else {
        return Ok(lacked);
    };
    let atoms = clause.body.as_slice();
    let is_disjunction = view.listed.is_disjunction(call.callee);
    if let Some(atom) = atom_of(atoms, call.call) {
        lacked.left = unknown_in(view, atom, asked_of(view, call.callee), call.known);
    }
    for (place, atom) in atoms.iter().enumerate() {
        let number = number_of(place);
        if number == call.call || is_disjunction {
            let places = view
                .listed
                .places
                .variables(call.clause, number, atoms.len());
            lacked.take_call(alloc, source.text, atom, places)?;
        }
    }
    if lacked.left != 0 && lacked.count > 0 {
        lacked.names.push_str(", ..")?;
    }
    Ok(lacked)
}
