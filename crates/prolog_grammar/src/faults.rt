//! The first unexpected token.

ghost use Rattle.std.specs.Prelude.{◌≡◌, List, Err};
ghost use Rattle.prolog_grammar.specs.Token.{Token};
ghost use Rattle.prolog_grammar.specs.Rules.{Rules};
ghost use Rattle.prolog_grammar.specs.Fault.{IsUnexpected};
ghost use Rattle.prolog_grammar.specs.Machine.{go, start};

/// Where the machine stops is the first token with which nothing completes a clause, while something completes the
/// tokens before it.
pub fn first_unexpected<T>()
    ensures found { (rules : Rules T) (us rest : List Token) → go rules start us ≡ Err rest
        → IsUnexpected rules us rest }
    ensures each { (rules : Rules T) (us rest : List Token) → IsUnexpected rules us rest
        → go rules start us ≡ Err rest }
{}
