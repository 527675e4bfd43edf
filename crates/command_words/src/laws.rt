//! What plain words ask for. They are functions that do nothing, and whose clauses are proved.

ghost use Rattle.std.specs.Prelude.{◌≡◌, ℕ, List, [], ◌∷◌, Some, codes, false, nat_eq, option_map};
ghost use Rattle.term_size.specs.declared.any_norm.NormName.TheVariants as norm;
ghost use Rattle.command_words.specs.Words.{asks, check, depth_in, gen, infer, lex, loop, norm_in, predicates_in, run, session, steps_in};

/// What words ask for where files, the query and the norm are not empty and do not begin with a dash.
pub fn plain_words_ask()
    ensures infer { (c : ℕ) (cs : List ℕ) → nat_eq c 45 ≡ false
        → asks (codes "infer" ∷ (c ∷ cs) ∷ []) ≡ Some (infer (c ∷ cs) norm.Term) }
    ensures norm { (c d : ℕ) (cs ds : List ℕ) → nat_eq c 45 ≡ false → nat_eq d 45 ≡ false
        → asks (codes "infer" ∷ (c ∷ cs) ∷ codes "--norm" ∷ (d ∷ ds) ∷ [])
        ≡ option_map (infer (c ∷ cs)) (norm_in (d ∷ ds)) }
    ensures check { (c d : ℕ) (cs ds : List ℕ) → nat_eq c 45 ≡ false → nat_eq d 45 ≡ false
        → asks (codes "check" ∷ (c ∷ cs) ∷ (d ∷ ds) ∷ []) ≡ Some (check (c ∷ cs) (d ∷ ds)) }
    ensures run { (c d : ℕ) (cs ds : List ℕ) → nat_eq c 45 ≡ false → nat_eq d 45 ≡ false
        → asks (codes "run" ∷ (c ∷ cs) ∷ (d ∷ ds) ∷ []) ≡ Some (run (c ∷ cs) (d ∷ ds) 100000) }
    ensures lex { (c : ℕ) (cs : List ℕ) → nat_eq c 45 ≡ false
        → asks (codes "lex" ∷ (c ∷ cs) ∷ []) ≡ Some (lex (c ∷ cs)) }
    ensures find_loop { (c d : ℕ) (cs ds : List ℕ) → nat_eq c 45 ≡ false → nat_eq d 45 ≡ false
        → asks (codes "loop" ∷ (c ∷ cs) ∷ (d ∷ ds) ∷ []) ≡ Some (loop (c ∷ cs) (d ∷ ds) 8) }
    ensures session { (c : ℕ) (cs : List ℕ) → nat_eq c 45 ≡ false
        → asks (codes "session" ∷ (c ∷ cs) ∷ []) ≡ Some (session (c ∷ cs)) }
{}

/// What `gen` and one word ask for, where the word does not begin with a dash.
pub fn gen_words_ask()
    ensures { (c : ℕ) (cs : List ℕ) → nat_eq c 45 ≡ false
        → asks (codes "gen" ∷ (c ∷ cs) ∷ []) ≡ option_map gen (predicates_in (c ∷ cs)) }
{}

/// What `run`, a file, a query and a number of nodes ask for, where none of the three words begins with a dash.
pub fn step_words_ask()
    ensures { (c d e : ℕ) (cs ds es : List ℕ) → nat_eq c 45 ≡ false → nat_eq d 45 ≡ false
        → nat_eq e 45 ≡ false
        → asks (codes "run" ∷ (c ∷ cs) ∷ (d ∷ ds) ∷ codes "--steps" ∷ (e ∷ es) ∷ [])
        ≡ option_map (run (c ∷ cs) (d ∷ ds)) (steps_in (e ∷ es)) }
{}

/// What `loop`, a file, a query and a number of steps ask for, where none of the three words begins with a dash.
pub fn depth_words_ask()
    ensures { (c d e : ℕ) (cs ds es : List ℕ) → nat_eq c 45 ≡ false → nat_eq d 45 ≡ false
        → nat_eq e 45 ≡ false
        → asks (codes "loop" ∷ (c ∷ cs) ∷ (d ∷ ds) ∷ codes "--depth" ∷ (e ∷ es) ∷ [])
        ≡ option_map (loop (c ∷ cs) (d ∷ ds)) (depth_in (e ∷ es)) }
{}
