//! Programs with what is kept of them.

ghost use Rattle.std.specs.Prelude.{◌≡◌, ◌<◌, ℕ, Bool, List, IfOk, OnOk, OnErr, Some, length, map, slice_get, suc};
ghost use Rattle.cert_structure.specs.Order.{pred_text};
ghost use Rattle.certificate.specs.declared.fact.Fact.TheVariants.{Terminates};
ghost use Rattle.report.specs.Solution.{IsExactCertificate};
ghost use Rattle.cert_structure.specs.Structure.{AreNamed};
ghost use Rattle.precond_fixpoint.specs.Solving.{arguments_of};
ghost use Rattle.cti_terms.specs.declared.predicates.Pred.{Pred};
ghost use Rattle.component_laws.specs.Untouched.{AreUntouched};
ghost use Rattle.kept_clauses.specs.AllKept.{AllKept};
ghost use Rattle.solved_program.specs.Kept.{AreKept};
ghost use Rattle.kept_program.specs.ProgramParts.{certificate_facts};
ghost use Rattle.kept_program.specs.Untouched.{AreBuiltAlike, KeepsUntouched};

use crate::kept::Kept;
use crate::renewing::renew_sets;
use crate::resolving::{resolve, solve};
use bool_diagrams::Table;
use call_components::{Components, components};
use certificate::Certificate;
use cti_terms::{Names, PredId, Program};
use precond_fixpoint::Mode;
use report::laws::{solutions_are_exact, solutions_print_modes};
use report::{Solution, certificate_of};
use solved_program::Edit;
use std::alloc::{AllocError, Global};
use std::marker::Model;

/// How many nodes a table may have, however few it had when it was new.
const SMALL_TABLE: usize = 4096;

/// A program with what was found of each of its components, by term size.
///
/// Contracts see the program, its components, and what its certificate is made of, in which sets of truth rows are
/// lists of cubes: the table of diagrams is not seen.
pub struct KeptProgram {
    program: Program,
    components: Components,
    table: Table,
    /// How many nodes the table had when it was new.
    first_count: usize,
    kept: Kept,
}

impl Drop for KeptProgram {
    fn drop(self) {
        let KeptProgram {
            program: _,
            components: _,
            table: _,
            first_count: _,
            kept: _,
        } = self;
    }
}

impl Model for KeptProgram {
    ghost use Rattle.kept_program.specs.ProgramParts.{ProgramParts};
    ghost use Rattle.kept_program.specs.PartsCode.{coded_parts};

    ghost Value = { ProgramParts };

    ghost coded = { coded_parts };

    ghost use Rattle.kept_program.specs.Kept.{HasKept, parts_of};

    ghost view = { λ k. parts_of k.program k.components k.table k.kept };

    ghost invariant = { λ k. HasKept k.program k.components k.table k.kept };
}

impl KeptProgram {
    /// A program that was not there before, with what is found of it.
    pub fn new(alloc: Global, program: Program) -> Result<KeptProgram, AllocError>
        ensures { IfOk result (λ k. k.program ≡ program) }
    {
        let components = components(alloc, &program)?;
        let mut table = Table::new(alloc)?;
        let kept = solve(alloc, &program, &components, &mut table)?;
        let first_count = table.count();
        Ok(KeptProgram {
            program,
            components,
            table,
            first_count,
            kept,
        })
    }

    /// Puts another program in the place of this one. `kept` says of each of its clauses which clause of this program
    /// it is, if it is one, where clauses count from 1. Components that stand for old ones keep what was found of them.
    ///
    /// Predicates that the edit leaves untouched keep their size rows, ground rows and measures. After an error all is
    /// as before.
    pub fn edit(
        &mut self,
        alloc: Global,
        program: Program,
        kept: &[Option<u32>],
    ) -> Result<(), AllocError>
        requires kept { AreKept self.old.program program kept.now }
        ensures program { OnOk result (self.new.program ≡ program) }

        // A set of predicates is untouched where it is closed under calls and has the same clauses, all of which are
        // kept.
        ensures untouched { OnOk result ((set : Pred → Bool)
            → AreUntouched self.old.program program set
            → AllKept self.old.program program set kept.now
            → AreBuiltAlike self.old.program program set → KeepsUntouched self.old self.new set) }
        ensures err { OnErr result (self.new ≡ self.old) }
    {
        // What every program keeps.
        let _old = self.program.preds();
        let _new = program.preds();
        let components = components(alloc, &program)?;
        let edit = Edit {
            before: &self.program,
            components_before: &self.components,
            after: &program,
            components: &components,
            kept,
        };
        let found = resolve(alloc, &edit, &self.kept, &mut self.table)?;
        self.program = program;
        self.components = components;
        self.kept = found;
        self.renew(alloc);
        Ok(())
    }

    /// Moves the sets of truth rows to a new table, where this one has become large. Out of memory they stay.
    fn renew(&mut self, alloc: Global)
        ensures { self.new ≡ self.old }
    {
        let count = self.table.count();
        if count <= SMALL_TABLE || count / 2 <= self.first_count {
            return;
        }
        if let Ok(new) = renew_sets(alloc, &self.program, &self.table, &self.kept.sets) {
            let (table, grounds, preconditions) = new.into_parts();
            self.first_count = table.count();
            self.table = table;
            self.kept.sets.grounds = grounds;
            self.kept.sets.preconditions = preconditions;
        }
    }

    /// The program.
    pub fn program(&self) -> &Program
        ensures { result.now ≡ self.now.program }
    {
        &self.program
    }

    /// The modes of a predicate, as its certificate prints them. It takes no memory.
    pub fn modes(&self, p: PredId) -> &[Mode]
        requires { p.0 < length self.now.program.preds }

        // After its version a certificate has one fact for each predicate.
        ensures { (names : List (List ℕ)) → slice_get (certificate_facts names self.now) (suc p.0)
            ≡ Some (Terminates (pred_text self.now.program names p.0) (map arguments_of result.now)) }
    {
        solutions_print_modes();
        self.kept.sets.modes.get(p.0 as usize).as_slice()
    }

    /// The certificate of the program, by the texts of these names.
    pub fn certificate(&self, alloc: Global, names: &Names) -> Result<Certificate, AllocError>
        ensures { IfOk result (λ c. c.facts ≡ certificate_facts names.now self.now) }
    {
        let numbers = &self.kept.numbers;
        let sets = &self.kept.sets;
        let solution = Solution {
            steps: numbers.sizes.steps.as_slice(),
            sizes: &numbers.sizes.sizes,
            found: numbers.found.as_slice(),
            levels: numbers.levels.as_slice(),
            table: &self.table,
            grounds: &sets.grounds,
            sets: sets.preconditions.sets.as_slice(),
            modes: sets.modes.as_slice(),
        };
        certificate_of(alloc, &self.program, names, &self.components, &solution)
    }

    /// Says that the facts of the certificate are valid and exact for the program.
    pub fn certified(&self, names: &Names)
        requires { AreNamed names.now self.now.program.preds }
        ensures { IsExactCertificate self.now.program names.now (certificate_facts names.now self.now) }
    {
        let _count = names.count();
        let _program = self.program.clauses();
        solutions_are_exact();
    }
}
