//! Laws of phases and of lists that fit.
ghost use Rattle.std.specs.Prelude.{◌≡◌, ◌⊎◌, ℕ, List, [], ◌∷◌, true, option_and_then};
ghost use Rattle.paths.specs.Paths.{PathData};
ghost use Rattle.algebra.specs.declared.basic.Basic.{Basic};
ghost use Rattle.algebra.specs.Basics.{seq_of};
ghost use Rattle.core_program.specs.Core.{Program};
ghost use Rattle.rules.specs.Effect.{Assignment};
ghost use Rattle.state.specs.States.{Frame};
ghost use Rattle.state.specs.Work.{unfolded};
ghost use Rattle.reduction.specs.Phases.{Phase, phase_after, phase_le};
ghost use Rattle.reduction.specs.Leads.{Memory, Grows, Paths, env_of};
ghost use Rattle.reduction.specs.Fits.{Opens};
ghost use Rattle.reduction.specs.Safe.{FramesFit, Further, releases_in_work};

/// One part after another takes a phase to the next and that to the one after it. Frames that fit fit in each smaller
/// phase, and in a memory in which final fields lead at least where they led. And what the innermost unfolds into fits, with
/// the same paths of operands or with none known.
pub fn unfolding_laws()
    ensures sequence { (p : Phase) (a b : Basic) → phase_after p (seq_of a b) ≡ option_and_then (λ q. phase_after q b) (phase_after p a) }
    ensures moves { (P : Program) (rel : ℕ → List PathData) (A : Assignment) (h k : Memory) → Grows P h k → (fs : List Frame) (os : Paths) (p q : Phase) →
        phase_le p q ≡ true → FramesFit P rel A h fs os q → FramesFit P rel A k fs os p }
    ensures unfolds { (P : Program) (rel : ℕ → List PathData) (A : Assignment) (h : Memory) (f : Frame) (below : List Frame) (p : Phase) → (fits : FramesFit P rel A h (f ∷ below) [] p) →
        Opens P rel A h (releases_in_work below) (Further P rel A h f below) (unfolded f.work) (env_of f.slots) p fits.paths
        ⊎ Opens P rel A h (releases_in_work below) (Further P rel A h f below) (unfolded f.work) (env_of f.slots) p [] }
{}
