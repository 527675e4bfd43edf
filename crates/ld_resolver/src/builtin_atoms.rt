//! What built-in atoms do under the bindings.

ghost use Rattle.std.specs.Prelude.{◌≡◌, IfOk, map};
ghost use Rattle.cti_terms.specs.Spell.{tree_of};
ghost use Rattle.cti_terms.specs.Tree.{Tree, instance};
ghost use Rattle.cti_terms.specs.declared.builtins.Arith.{Arith as Names};
ghost use Rattle.cti_terms.specs.Arithmetic.{compares, kind_of};
ghost use Rattle.cti_terms.specs.Listing.{IsProgram};
ghost use Rattle.cti_terms.specs.Resolve.{over, raised};
ghost use Rattle.unifier.specs.Raised.{raise};
ghost use Rattle.unifier.specs.Store.{full};
ghost use Rattle.ld_resolver.specs.BuiltinAtoms.{ComparesTo, AssignsTo, IsJudgedAs, IsJudged};

use crate::values::{Calculator, Value};
use cti_terms::{Arith, Atom, Builtin, PredId, Program, Term};
use std::alloc::AllocError;
use unifier::bindings::Bindings;
use unifier::raised_term::RaisedTerm;

/// What the first atom of a goal does by itself.
#[derive(Clone, Copy, Drop)]
pub enum FirstAtom<'p> {
    /// Not built in.
    Ordinary,

    /// Built in, and fails.
    Fails,

    /// Built in, and a value does not fit.
    Wide,

    /// Built in, and succeeds if its first argument unifies with the value, where there is one.
    Succeeds(Option<&'p Term>),
}

/// What a predicate does, if it is one of the program's and built in.
fn kind_of(program: &Program, p: PredId) -> Option<Builtin>
    ensures sound { IsProgram program.now }
    ensures kind { result ≡ kind_of program.now.arithmetic p.0 }
{
    if p.0 < program.preds() {
        return program.builtin(p);
    }
    None
}

/// Whether a comparison of two values is true.
fn compares(kind: Builtin, left: i128, right: i128) -> bool
    ensures { result ≡ compares kind left right }
{
    match kind {
        Builtin::Is => true,
        Builtin::Equal => left == right,
        Builtin::NotEqual => left != right,
        Builtin::Less => left < right,
        Builtin::AtMost => left <= right,
        Builtin::Greater => left > right,
        Builtin::AtLeast => left >= right,
    }
}

/// What a comparison does at two values.
fn compared<'p>(kind: Builtin, left: Value, right: Value) -> FirstAtom<'p>
    ensures { ComparesTo kind left right result }
{
    match (left, right) {
        (Value::Missing, _) => FirstAtom::Fails,
        (_, Value::Missing) => FirstAtom::Fails,
        (Value::Known(m), Value::Known(n)) => {
            if compares(kind, m, n) {
                return FirstAtom::Succeeds(None);
            }
            FirstAtom::Fails
        }
        _ => FirstAtom::Wide,
    }
}

/// What `is` does where its second argument has this value.
fn assigned<'p>(calculator: &Calculator<'p>, right: Value) -> Result<FirstAtom<'p>, AllocError>
    ensures { IfOk result (AssignsTo right) }
{
    match right {
        Value::Missing => Ok(FirstAtom::Fails),
        Value::Wide => Ok(FirstAtom::Wide),
        Value::Known(number) => Ok(FirstAtom::Succeeds(Some(calculator.keep(number)?))),
    }
}

/// What a built-in predicate of this kind does at raised arguments. It is rare, so that it is not compiled into
/// `judge`.
#[inline(never)]
fn judge_as<'p>(
    calculator: &mut Calculator<'p>,
    bindings: &Bindings<'p>,
    names: Option<Arith>,
    kind: Builtin,
    args: &'p [Term],
    base: u32,
) -> Result<FirstAtom<'p>, AllocError>
    ensures { IfOk result (IsJudgedAs names kind
        (map (full bindings.now) (map (instance (raise base)) (map tree_of args.now)))) }
{
    let [left, right] = args else {
        return Ok(FirstAtom::Fails);
    };
    let right = calculator.value(bindings, names, RaisedTerm { term: right, base })?;
    match kind {
        Builtin::Is => assigned(calculator, right),
        _ => {
            let left = calculator.value(bindings, names, RaisedTerm { term: left, base })?;
            Ok(compared(kind, left, right))
        }
    }
}

/// What a raised atom does by itself. It is compiled into the loop of a run: most atoms are of predicates of the
/// program.
#[inline(always)]
pub fn judge<'p>(
    calculator: &mut Calculator<'p>,
    bindings: &Bindings<'p>,
    program: &Program,
    atom: &'p Atom,
    base: u32,
) -> Result<FirstAtom<'p>, AllocError>
    ensures sound { IsProgram program.now }
    ensures judged { IfOk result
        (IsJudged program.now.arithmetic (over (full bindings.now) (raised base atom.now))) }
{
    match kind_of(program, atom.pred) {
        Some(kind) => judge_as(
            calculator,
            bindings,
            program.arith(),
            kind,
            atom.args.as_slice(),
            base,
        ),
        None => Ok(FirstAtom::Ordinary),
    }
}
