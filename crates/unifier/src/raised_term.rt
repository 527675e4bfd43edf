//! Terms of the program with raised variables.

ghost use Rattle.std.specs.Prelude.{◌≡◌, ℕ, ◌+◌, ◌<◌, ◌^◌, List, IsTrue, IfSome, false};
ghost use Rattle.cti_terms.specs.Unify.{Binding, occurs};
ghost use Rattle.unifier.specs.Store.{full};
ghost use Rattle.unifier.specs.Raised.{raised_tree};
ghost use Rattle.unifier.specs.Shapes.{shape_tree, IsSmall, IsMet};

use cti_terms::{Name, Term};

/// A term of the program in which each variable stands for the one whose number is greater by `base`.
#[derive(Clone, Copy, Drop)]
pub struct RaisedTerm<'p> {
    pub term: &'p Term,
    pub base: u32,
}

/// The kind of a raised term, with the number of the raised variable, or with the arguments as the program spells them.
#[derive(Clone, Copy, Drop)]
pub enum Shape<'p> {
    Variable(usize),
    Integer(&'p i128),
    Compound(Name, &'p [Term]),
}

/// A term that is not a bound variable, with its kind.
#[derive(Clone, Copy, Drop)]
pub struct Met<'p> {
    pub term: RaisedTerm<'p>,
    pub shape: Shape<'p>,
}

/// The number of a raised variable.
fn raised_variable(variable: u32, base: u32) -> usize
    ensures number { result ≡ variable + base }
    ensures small { result < 2 ^ 33 }
{
    variable as usize + base as usize
}

impl<'p> RaisedTerm<'p> {
    /// The kind of a raised term.
    pub fn shape(self) -> Shape<'p>
        ensures tree { raised_tree self.entry ≡ shape_tree self.entry.base result }
        ensures small { IsSmall result }
    {
        match self.term {
            Term::Var(x) => Shape::Variable(raised_variable(*x, self.base)),
            Term::Int(n) => Shape::Integer(n),
            Term::Fun(f, args) => Shape::Compound(*f, args.as_slice()),
        }
    }

    /// A compound term, with its kind.
    #[inline(always)]
    pub fn met_compound(self) -> Option<Met<'p>>
        ensures { IfSome result (λ m. ((s : List Binding) → IsMet s m) × (m.term ≡ self.entry)) }
    {
        let shape = self.shape();
        match shape {
            Shape::Compound(_, _) => Some(Met { term: self, shape }),
            _ => None,
        }
    }

    /// Whether the term is an integer, or a name without arguments. No variable occurs in such a term.
    #[inline]
    pub fn is_constant(self) -> bool
        ensures { IsTrue result → (s : List Binding) (x : ℕ)
            → occurs x (full s (raised_tree self.entry)) ≡ false }
    {
        match self.shape() {
            Shape::Variable(_) => false,
            Shape::Integer(_) => true,
            Shape::Compound(_, args) => args.is_empty(),
        }
    }
}
