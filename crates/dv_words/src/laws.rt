//! Laws of the words.
ghost use Rattle.std.specs.Prelude.{◌≡◌, ℕ, List};
ghost use Rattle.dv_words.specs.Jobs.{Job};
ghost use Rattle.dv_words.specs.Words.{Asks};

/// Words ask for at most one job.
pub fn one_job()
    ensures { (words : List (List ℕ)) (a b : Job) → Asks words a → Asks words b → a ≡ b }
{}
