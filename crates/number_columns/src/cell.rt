//! One column of the two rows of a term.

ghost use Rattle.std.specs.Prelude.{◌≡◌, ◌∷◌, [], ℕ, Option, Some, false, true};
ghost use Rattle.cti_terms.specs.Spell.{tree_of, trees_of};
ghost use Rattle.cti_terms.specs.Tree.{Integer, Variable};
ghost use Rattle.cti_terms.specs.declared.builtins.Arith.{Arith};
ghost use Rattle.termination_model.specs.columns.Expressions.{Linear, PartRows, all_linear, linear, linear_of};
ghost use Rattle.termination_model.specs.columns.Measures.{minus_parts, no_parts, sum_parts};
ghost use Rattle.number_columns.specs.Cells.{IsCell, IsOther, all_numbers, integer_numbers, minus_linear, numbers_at, numbers_in, variable_numbers, product_linear, product_numbers, sum_linear};

use crate::parts::Parts;
use cti_terms::{Arith, Name, Term};

/// A column of a row: that of the constant, or of a number of a variable, each counted from 0.
#[derive(Clone, Copy)]
pub(crate) enum Column {
    Constant,
    Number(u32, u32),
}

/// What stands in a column of the two rows of a term.
#[derive(Clone, Copy)]
pub(crate) struct Cell {
    /// Whether the term is linear. If it is not, it has no rows, and the other fields say nothing.
    pub(crate) is_linear: bool,
    /// Whether no variable of the term is evaluated, so that it has one value.
    is_fixed: bool,
    /// The parts of that value.
    constants: Parts,
    /// The numbers in the column.
    pub(crate) numbers: Parts,
}

impl Cell {
    /// The cell of a term that is no operation.
    fn still() -> Cell
        ensures { (rows : PartRows) → IsCell (record { rows = Some rows; fixed = true; parts = no_parts })
            no_parts result }
    {
        Cell {
            is_linear: true,
            is_fixed: true,
            constants: Parts::none(),
            numbers: Parts::none(),
        }
    }

    /// The cell of a variable.
    fn of_variable(variable: u32, column: Column) -> Cell
        ensures { (o : Option Arith) (vars : ℕ) → IsCell (linear o vars (Variable variable))
            (variable_numbers column variable) result }
    {
        let numbers = match column {
            Column::Constant => Parts::none(),
            Column::Number(other, number) => Parts {
                above: u128::from(other == variable && number == 1),
                below: u128::from(other == variable && number == 2),
            },
        };
        Cell {
            is_linear: true,
            is_fixed: false,
            constants: Parts::none(),
            numbers,
        }
    }

    /// The cell of an integer.
    fn of_integer(number: i128, column: Column) -> Cell
        ensures { (o : Option Arith) (vars : ℕ) → IsCell (linear o vars (Integer number))
            (integer_numbers column number) result }
    {
        let constants = Parts::of_integer(number);
        let numbers = match column {
            Column::Constant => constants,
            Column::Number(_, _) => Parts::none(),
        };
        Cell {
            is_linear: true,
            is_fixed: true,
            constants,
            numbers,
        }
    }

    /// The cell of a negation.
    fn negated(self) -> Cell
        ensures { (l : Linear) (p : ℕ × ℕ) → IsCell l p self
            → IsCell (minus_linear l) (minus_parts p) result }
    {
        Cell {
            constants: self.constants.negated(),
            numbers: self.numbers.negated(),
            ..self
        }
    }

    /// The cell of a sum.
    fn plus(self, other: Cell) -> Cell
        ensures { (l m : Linear) (p q : ℕ × ℕ) → IsCell l p self → IsCell m q other
            → IsCell (sum_linear l m) (sum_parts p q) result }
    {
        Cell {
            is_linear: self.is_linear && other.is_linear,
            is_fixed: self.is_fixed && other.is_fixed,
            constants: self.constants.plus(other.constants),
            numbers: self.numbers.plus(other.numbers),
        }
    }

    /// The cell of a product.
    fn times(self, other: Cell) -> Cell
        ensures { (l m : Linear) (p q : ℕ × ℕ) → IsCell l p self → IsCell m q other
            → IsCell (product_linear l m) (product_numbers l p m q) result }
    {
        let (is_linear, numbers) = if self.is_fixed {
            (other.is_linear, self.constants.times(other.numbers))
        } else {
            (
                other.is_fixed && self.is_linear,
                other.constants.times(self.numbers),
            )
        };
        Cell {
            is_linear,
            is_fixed: self.is_fixed && other.is_fixed,
            constants: self.constants.times(other.constants),
            numbers,
        }
    }
}

/// Whether a name is that of an operation.
fn is_operation(arith: Arith, name: Name) -> bool
    ensures { result ≡ false → IsOther arith name.0 }
{
    name == arith.plus || name == arith.minus || name == arith.times
}

/// The cell of an operation's name with one argument.
fn cell_of_one(arith: Arith, name: Name, first: Cell) -> Cell
    ensures { (vars : ℕ) (l : Linear) (p : ℕ × ℕ) → IsCell l p first
        → IsCell (linear_of vars (Some arith) name.0 (l ∷ []))
        (numbers_in arith name.0 ((l, p) ∷ [])) result }
{
    if name == arith.minus {
        first.negated()
    } else {
        Cell::still()
    }
}

/// The cell of an operation's name with two arguments.
fn cell_of_two(arith: Arith, name: Name, first: Cell, second: Cell) -> Cell
    ensures { (vars : ℕ) (l m : Linear) (p q : ℕ × ℕ) → IsCell l p first → IsCell m q second
        → IsCell (linear_of vars (Some arith) name.0 (l ∷ (m ∷ [])))
        (numbers_in arith name.0 ((l, p) ∷ ((m, q) ∷ []))) result }
{
    if name == arith.plus {
        first.plus(second)
    } else if name == arith.minus {
        first.plus(second.negated())
    } else if name == arith.times {
        first.times(second)
    } else {
        Cell::still()
    }
}

/// A column of the rows of a name with arguments.
#[cycle(cells)]
fn compound_cell(arith: Arith, name: Name, args: &[Term], column: Column) -> Cell
    ensures { (vars : ℕ) → IsCell (linear_of vars (Some arith) name.0 (all_linear (Some arith) vars (trees_of args.now)))
        (numbers_in arith name.0 (all_numbers (Some arith) vars column (trees_of args.now))) result }
{
    if !is_operation(arith, name) {
        return Cell::still();
    }
    match args {
        [first] => cell_of_one(arith, name, cell_at(Some(arith), first, column)),
        [first, second] => cell_of_two(
            arith,
            name,
            cell_at(Some(arith), first, column),
            cell_at(Some(arith), second, column),
        ),
        _ => Cell::still(),
    }
}

/// A column of the rows of a term.
#[cycle(cells)]
pub(crate) fn cell_at(arith: Option<Arith>, t: &Term, column: Column) -> Cell
    ensures { (vars : ℕ) → IsCell (linear arith vars (tree_of t.now))
        (numbers_at arith vars column (tree_of t.now)) result }
{
    match t {
        Term::Var(x) => Cell::of_variable(*x, column),
        Term::Int(n) => Cell::of_integer(*n, column),
        Term::Fun(name, args) => match arith {
            Some(arith) => compound_cell(arith, *name, args, column),
            None => Cell::still(),
        },
    }
}
