//! The machine with the depth rule, on trees with all their tokens.

ghost use Rattle.std.specs.Prelude.{◌≡◌, ℕ, List, ◌∷◌, Option, None, Ok, Err};
ghost use Rattle.prolog_grammar.specs.Token.{Token, End};
ghost use Rattle.prolog_grammar.specs.Rules.{Infix, Prefix};
ghost use Rattle.prolog_grammar.specs.Grammar.{TermOf};
ghost use Rattle.prolog_grammar.specs.Syntax.{Syntax, syntax_rules};
ghost use Rattle.prolog_grammar.specs.Depth.{clause_loads, first_deep};
ghost use Rattle.prolog_grammar.specs.Fault.{IsUnexpected, IsDeep, unexpected, deep};
ghost use Rattle.prolog_grammar.specs.Machine.{start};
ghost use Rattle.prolog_grammar.specs.Run.{run};

/// The machine reads each clause that the grammar reads without a token that is too deep, and no other.
pub fn readings_within_depth()
    ensures each { (infixes : ℕ → Option Infix) (prefixes : ℕ → Option Prefix) (comma limit : ℕ)
        (us rest : List Token) (t : Syntax) (p : ℕ)
        → TermOf (syntax_rules infixes prefixes comma) us (End ∷ rest) 1200 t p
        → first_deep limit (clause_loads t) ≡ None
        → run limit (syntax_rules infixes prefixes comma) start us ≡ Ok (t, rest) }
    ensures only { (infixes : ℕ → Option Infix) (prefixes : ℕ → Option Prefix) (comma limit : ℕ)
        (us rest : List Token) (t : Syntax)
        → run limit (syntax_rules infixes prefixes comma) start us ≡ Ok (t, rest)
        → (p : ℕ) × TermOf (syntax_rules infixes prefixes comma) us (End ∷ rest) 1200 t p
        × (first_deep limit (clause_loads t) ≡ None) }
{}

/// The machine stops as too deep at the first token that is, where no token up to it is unexpected.
pub fn first_too_deep()
    ensures found { (infixes : ℕ → Option Infix) (prefixes : ℕ → Option Prefix) (comma limit : ℕ) (us rest : List Token)
        → run limit (syntax_rules infixes prefixes comma) start us ≡ Err (deep rest)
        → IsDeep limit (syntax_rules infixes prefixes comma) us rest }
    ensures each { (infixes : ℕ → Option Infix) (prefixes : ℕ → Option Prefix) (comma limit : ℕ) (us rest : List Token)
        → IsDeep limit (syntax_rules infixes prefixes comma) us rest
        → run limit (syntax_rules infixes prefixes comma) start us ≡ Err (deep rest) }
{}

/// The machine stops as unexpected at the first token that is, where no token before it is too deep.
pub fn unexpected_within_depth()
    ensures found { (infixes : ℕ → Option Infix) (prefixes : ℕ → Option Prefix) (comma limit : ℕ) (us rest : List Token)
        → run limit (syntax_rules infixes prefixes comma) start us ≡ Err (unexpected rest)
        → IsUnexpected (syntax_rules infixes prefixes comma) us rest
        × ((rest' : List Token) → IsDeep limit (syntax_rules infixes prefixes comma) us rest' → ⊥) }
    ensures each { (infixes : ℕ → Option Infix) (prefixes : ℕ → Option Prefix) (comma limit : ℕ) (us rest : List Token)
        → IsUnexpected (syntax_rules infixes prefixes comma) us rest
        → ((rest' : List Token) → IsDeep limit (syntax_rules infixes prefixes comma) us rest' → ⊥)
        → run limit (syntax_rules infixes prefixes comma) start us ≡ Err (unexpected rest) }
{}
