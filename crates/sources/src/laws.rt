//! What refusals exclude.

ghost use Rattle.std.specs.Prelude.{ℕ, List};
ghost use Rattle.sources.specs.declared.refusal.Ending.{Ending as EndingData};
ghost use Rattle.sources.specs.Programs.{NoProgram};
ghost use Rattle.sources.specs.Checking.{NoSource};
ghost use Rattle.sources.specs.Verdicts.{NoAccepted};
ghost use Rattle.sources.specs.Facts.{IsNoProgram, IsNotWellFormed, HasNoAssignment, IsAcceptedSource, RefusedAs};

/// A source that is refused is none: each line that refuses it excludes what it is refused as.
pub fn refusal_laws()
    ensures program { (file line : List ℕ) (ending : EndingData) → NoProgram file ending line → IsNoProgram file }
    ensures source { (file line : List ℕ) (ending : EndingData) → NoSource file ending line → IsNotWellFormed file }
    ensures accepted { (file line : List ℕ) (ending : EndingData) → NoAccepted file ending line → RefusedAs file ending }
    ensures apart { (file : List ℕ) → IsAcceptedSource file → HasNoAssignment file → ⊥ }
{}
