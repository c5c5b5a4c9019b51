ghost use Rattle.std.specs.Prelude.{◌≡◌, ◌≢◌, ◌<◌, ◌≤◌, ℕ, Bool, List, Option, Some, Contains, All, length};
ghost use Rattle.ygg_cnf.specs.declared.lit.Lit.{Lit};
ghost use Rattle.ygg_cnf.specs.declared.log.Step.{Step};
ghost use Rattle.ygg_cnf.specs.Literals.{complement, once, IsOnce, IsSameSet, SatisfiesClause, SatisfiesAll};
ghost use Rattle.ygg_cnf.specs.Derivations.{HasClause, DerivesClause};
ghost use Rattle.ygg_cnf.specs.Logs.{Refutes, Teaches};

/// What derivations are worth. It does nothing: its contract is the theorem.
pub fn derivations_are_sound()
    // Whichever clause each number names, a clause that a chain derives is true wherever the clauses are true that it names.
    ensures derived { (held : ℕ → Option (List Lit)) (chain : List ℕ) (clause : List Lit) (value : ℕ → Bool) →
        DerivesClause (λ id named. held id ≡ Some named) chain clause →
        ((id : ℕ) (named : List Lit) → Contains chain id → held id ≡ Some named → SatisfiesClause value named) → SatisfiesClause value clause }

    // Clauses with a log that refutes them have no satisfying assignment.
    ensures refuted { (clauses : List (List Lit)) (log : List Step) (value : ℕ → Bool) → Refutes clauses log → SatisfiesAll value clauses → ⊥ }

    // A chain names only clauses that are there, so each of its numbers is below that of the clause that comes next.
    ensures numbered { (clauses : List (List Lit)) (chain : List ℕ) (clause : List Lit) → DerivesClause (HasClause clauses) chain clause →
        All (λ id. (0 < id) × (id ≤ length clauses)) chain }

    // A clause that teaches contains none of the clauses before it.
    ensures taught { (clauses : List (List Lit)) (clause given : List Lit) → Teaches clauses clause → Contains clauses given →
        ((x : Lit) → Contains given x → Contains clause x) → ⊥ }
{}

/// That clauses are read as sets. It does nothing: its contract is the theorem.
pub fn clauses_are_sets()
    // Order and repetition don't matter: what a chain derives it derives in every form.
    ensures same { (held : ℕ → Option (List Lit)) (chain : List ℕ) (clause other : List Lit) → IsSameSet clause other →
        DerivesClause (λ id named. held id ≡ Some named) chain clause → DerivesClause (λ id named. held id ≡ Some named) chain other }

    // A clause with a literal and its complement is true under every assignment.
    ensures tautology { (clause : List Lit) (x : Lit) (value : ℕ → Bool) → Contains clause x → Contains clause (complement x) → SatisfiesClause value clause }

    // To keep each literal once changes no clause as a set, leaves no literal twice, and leaves a clause as it is that has none twice.
    ensures once { (clause : List Lit) → IsSameSet (once clause) clause × IsOnce (once clause) × (IsOnce clause → once clause ≡ clause) }
{}
