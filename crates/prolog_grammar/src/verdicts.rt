//! The machine that code follows, on terms with places.

ghost use Rattle.std.specs.Prelude.{◌≡◌, ℕ, List, Option};
ghost use Rattle.prolog_grammar.specs.Token.{Token};
ghost use Rattle.prolog_grammar.specs.Rules.{Infix, Prefix};
ghost use Rattle.prolog_grammar.specs.Syntax.{syntax_rules};
ghost use Rattle.prolog_grammar.specs.Fault.{Verdict};
ghost use Rattle.prolog_grammar.specs.Placed.{Part, Known, part_of, placed_rules};
ghost use Rattle.prolog_grammar.specs.Machine.{start};
ghost use Rattle.prolog_grammar.specs.Run.{run};
ghost use Rattle.prolog_grammar.specs.Walk.{walk, verdict_map};
ghost use Rattle.prolog_grammar.specs.Reading.{IsVerdict};

/// The machine that code follows gives what the machine of the laws gives, with the code's terms.
pub fn same_verdicts()
    ensures { (infixes : ℕ → Option Infix) (prefixes : ℕ → Option Prefix) (names : Known) (limit : ℕ) (us : List Token)
        → walk limit (placed_rules limit infixes prefixes names) start us
        ≡ verdict_map (part_of limit names) (run limit (syntax_rules infixes prefixes names.comma) start us) }
{}

/// Tokens have exactly one verdict: their first clause as a term, or its first fault. The machine that code follows
/// gives it.
pub fn one_verdict()
    ensures found { (infixes : ℕ → Option Infix) (prefixes : ℕ → Option Prefix) (names : Known)
        (limit : ℕ) (us : List Token)
        → IsVerdict limit infixes prefixes names us (walk limit (placed_rules limit infixes prefixes names) start us) }
    ensures one { (infixes : ℕ → Option Infix) (prefixes : ℕ → Option Prefix) (names : Known)
        (limit : ℕ) (us : List Token) (v : Verdict Part)
        → IsVerdict limit infixes prefixes names us v
        → walk limit (placed_rules limit infixes prefixes names) start us ≡ v }
{}
