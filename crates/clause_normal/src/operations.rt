//! The names of arithmetic operations, and the program without clauses.

ghost use Rattle.std.specs.Prelude.{◌≡◌, ◌<◌, ◌^◌, ◌-◌, ℕ, List, length, IfOk, OnOk};
ghost use Rattle.cti_terms.specs.Listing.{AreThree};
ghost use Rattle.prolog_reader.specs.Names.{Extends};
ghost use Rattle.prolog_reader.specs.Naming.{with_names};
ghost use Rattle.clause_normal.specs.ChoiceNames.{HasOperations};
ghost use Rattle.clause_normal.specs.Numbering.{operation_texts, operations, empty_program};

use cti_terms::{Arith, Names, Program};
use std::alloc::{AllocError, Global};

/// The names of `+`, `-` and `*`.
fn operations(names: &mut Names) -> Result<Arith, AllocError>
    requires { length names.old < 2 ^ 32 - 3 }
    ensures kept { Extends names.old names.new }
    ensures added { OnOk result (names.new ≡ with_names names.old operation_texts) }
    ensures same { HasOperations names.old → names.new ≡ names.old }
    ensures operations { IfOk result (λ o. (later : List (List ℕ)) → Extends names.new later
        → operations later ≡ o) }
    ensures three { IfOk result AreThree }
{
    let plus = names.intern(b"+")?;
    let minus = names.intern(b"-")?;
    let times = names.intern(b"*")?;
    Ok(Arith { plus, minus, times })
}

/// The program without clauses, which knows the names of arithmetic operations.
pub(crate) fn empty_program(alloc: Global, names: &mut Names) -> Result<Program, AllocError>
    requires { length names.old < 2 ^ 32 - 3 }
    ensures kept { Extends names.old names.new }
    ensures added { OnOk result (names.new ≡ with_names names.old operation_texts) }
    ensures same { HasOperations names.old → names.new ≡ names.old }
    ensures program { IfOk result (λ p. (later : List (List ℕ)) → Extends names.new later
        → p ≡ empty_program later) }
{
    let mut program = Program::new(alloc);
    let arith = operations(names)?;
    program.set_arith(arith);
    Ok(program)
}
