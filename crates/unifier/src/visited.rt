//! The variables that a check has met.

ghost use Rattle.std.specs.Prelude.{true, false, ◌≡◌, ◌<◌, ◌^◌, ℕ, [], IfOk, OnOk, vec_len};
ghost use Rattle.unifier.specs.Visits.{flag, IsVisit, AreFlags};

use std::alloc::{AllocError, Global};
use std::marker::Model;

/// Variables that were visited, in order. Contracts see the list.
///
/// To empty it costs no more than to fill it did, however great the variables' numbers are.
#[derive(Drop)]
pub struct Visited {
    /// Whether each variable was visited.
    flags: Vec<bool>,
    /// The visited variables.
    variables: Vec<usize>,
}

impl Model for Visited {
    ghost use Rattle.std.specs.Prelude.{ℕ, List};
    ghost use Rattle.std.specs.Coded.{coded_list, coded_ℕ};
    ghost use Rattle.unifier.specs.Visits.{AreFlags};

    ghost Value = { List ℕ };

    ghost coded = { coded_list coded_ℕ };

    ghost view = { λ a. a.variables.items };

    ghost invariant = { λ a. AreFlags a.flags.items a.variables.items };
}

/// Makes a flag for a variable, for those before it, and for some after it.
fn grow(flags: &mut Vec<bool>, variable: usize) -> Result<(), AllocError>
    requires { variable < 2 ^ 33 }
    ensures room { OnOk result (variable < vec_len flags.new) }
    ensures same { (x : ℕ) → flag flags.new.items x ≡ flag flags.old.items x }
{
    if variable >= flags.len() {
        flags.resize(variable + 64, false)?;
    }
    Ok(())
}

/// Lowers the flags of these variables, which are all that are up.
fn lower(flags: &mut Vec<bool>, variables: &[usize])
    requires { AreFlags flags.old.items variables.now }
    ensures { (x : ℕ) → flag flags.new.items x ≡ false }
{
    for variable in variables {
        flags[*variable] = false;
    }
}

impl Visited {
    /// No variables. It takes no memory.
    pub fn new(alloc: Global) -> Visited
        ensures { result ≡ [] }
    {
        Visited {
            flags: Vec::new(alloc),
            variables: Vec::new(alloc),
        }
    }

    /// Forgets all.
    pub fn clear(&mut self)
        ensures { self.new ≡ [] }
    {
        lower(&mut self.flags, self.variables.as_slice());
        self.variables.clear();
    }

    /// Visits a variable. Whether it is the first time. Most variables that a check meets are free or bound to
    /// constants, and are not visited, so it is not compiled into the check's loop.
    #[inline(never)]
    pub fn visit(&mut self, variable: usize) -> Result<bool, AllocError>
        requires { variable < 2 ^ 33 }
        ensures { IfOk result (IsVisit self.old variable self.new) }
    {
        grow(&mut self.flags, variable)?;
        if self.flags[variable] {
            return Ok(false);
        }
        self.variables.push(variable)?;
        self.flags[variable] = true;
        Ok(true)
    }
}
