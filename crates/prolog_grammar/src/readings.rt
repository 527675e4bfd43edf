//! What the grammar reads is what the machine reads, and it reads a list of tokens in one way at most.

ghost use Rattle.std.specs.Prelude.{◌≡◌, ℕ, List, ◌∷◌, Ok};
ghost use Rattle.prolog_grammar.specs.Token.{Token, End};
ghost use Rattle.prolog_grammar.specs.Rules.{Rules};
ghost use Rattle.prolog_grammar.specs.Grammar.{TermOf};
ghost use Rattle.prolog_grammar.specs.Machine.{go, start};

/// The machine is complete and sound: it reads each clause that the grammar reads, and no other.
pub fn readings_are_found<T>()
    ensures each { (rules : Rules T) (us rest : List Token) (t : T) (p : ℕ)
        → TermOf rules us (End ∷ rest) 1200 t p → go rules start us ≡ Ok (t, rest) }
    ensures only { (rules : Rules T) (us rest : List Token) (t : T) → go rules start us ≡ Ok (t, rest)
        → (p : ℕ) × TermOf rules us (End ∷ rest) 1200 t p }
{}

/// The grammar is unambiguous: tokens begin with one clause at most, and it is read as one tree.
pub fn one_reading<T>()
    ensures { (rules : Rules T) (us rest rest' : List Token) (t t' : T) (p p' : ℕ)
        → TermOf rules us (End ∷ rest) 1200 t p → TermOf rules us (End ∷ rest') 1200 t' p' → (t ≡ t') × (rest ≡ rest') }
{}
