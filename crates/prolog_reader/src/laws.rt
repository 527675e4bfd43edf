//! Laws of what reading is. They are functions that do nothing, and whose clauses are proved.

ghost use Rattle.std.specs.Prelude.{◌≡◌, ℕ, suc, List, ◌++◌, take, Option};
ghost use Rattle.prolog_tokens.specs.Stream.{Lexes};
ghost use Rattle.prolog_tokens.specs.declared.token.Token.{Token as TextToken};
ghost use Rattle.prolog_tokens.specs.declared.fault.LexFault.{LexFault};
ghost use Rattle.prolog_grammar.specs.Token.{Token as SeenToken};
ghost use Rattle.prolog_grammar.specs.Fault.{CanGoOn, IsUnexpected, IsDeep};
ghost use Rattle.prolog_reader.specs.Completion.{EndClauses, IsCompleted, rules_by, seen_tokens};
ghost use Rattle.prolog_reader.specs.Reading.{before_rest};
ghost use Rattle.prolog_operators.specs.Table.{Table};

/// Where some further tokens complete a clause that tokens of a text begin, some bytes do. So some bytes complete what
/// stands before the first unexpected token, and what ends with the first token that is too deep.
pub fn bytes_complete_clauses()
    ensures each { (names : List (List ℕ)) (table : Table) (text : List ℕ)
        (earlier begun later : List TextToken) (fault : Option LexFault)
        → Lexes (record { text = text; at = 0 }) (earlier ++ (begun ++ later)) fault
        → EndClauses earlier → CanGoOn (rules_by names table) (seen_tokens names text begun)
        → IsCompleted names table text earlier begun }
    ensures unexpected { (names : List (List ℕ)) (table : Table) (text : List ℕ)
        (earlier ts : List TextToken) (fault : Option LexFault) (rest : List SeenToken)
        → Lexes (record { text = text; at = 0 }) (earlier ++ ts) fault → EndClauses earlier
        → IsUnexpected (rules_by names table) (seen_tokens names text ts) rest
        → IsCompleted names table text earlier
        (take (before_rest (seen_tokens names text ts) rest) ts) }
    ensures deep { (names : List (List ℕ)) (table : Table) (text : List ℕ)
        (earlier ts : List TextToken) (fault : Option LexFault) (rest : List SeenToken)
        → Lexes (record { text = text; at = 0 }) (earlier ++ ts) fault → EndClauses earlier
        → IsDeep 1000 (rules_by names table) (seen_tokens names text ts) rest
        → IsCompleted names table text earlier
        (take (suc (before_rest (seen_tokens names text ts) rest)) ts) }
{}
