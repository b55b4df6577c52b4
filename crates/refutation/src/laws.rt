//! What a certificate of refusal shows.
ghost use Rattle.std.specs.Prelude.{◌≡◌, ◌↔◌, ◌≤◌, ◌^◌, ℕ, true, false, List, [], length, Some, slice_get};
ghost use Rattle.paths.specs.Paths.{PathData};
ghost use Rattle.algebra.specs.HeldPaths.{has_path};
ghost use Rattle.core_program.specs.Core.{Program};
ghost use Rattle.core_program.specs.Dispatch.{Overrides};
ghost use Rattle.core_program.specs.Typed.{IsTyped};
ghost use Rattle.rules.specs.Effect.{Assignment};
ghost use Rattle.rules.specs.Near.{MethodPaths, AreRelevant, AreFew, rel_of};
ghost use Rattle.rules.specs.Rules.{AtMost, IsAntitone, IsClosed, IsAdmissible, IsAccepted};
ghost use Rattle.refutation.specs.Lines.{LineData, overrides};
ghost use Rattle.refutation.specs.Certificates.{AreCertificateLines, IsCertificate};
ghost use Rattle.refutation.specs.Passes.{LinesWritten, Passes};
ghost use Rattle.refutation.specs.Works.{IsOverWork, nodes_and_pairs};

/// Each line of a certificate is at most what any closed assignment says of its method at its paths. So a program with a
/// certificate has no admissible assignment, and is not accepted.
pub fn certificates_refute()
    ensures below { (P : Program) (rel : ℕ → List PathData) (lines : List LineData) → AreCertificateLines P rel lines →
        (A : Assignment) → IsAntitone rel A → IsClosed P rel A →
        (k : ℕ) (l : LineData) → slice_get lines k ≡ Some l → AtMost l.found (A l.method (has_path l.held)) }
    ensures none_admissible { (P : Program) (rel : ℕ → List PathData) (lines : List LineData) → IsCertificate P rel lines →
        (A : Assignment) → IsAdmissible P rel A → ⊥ }
    ensures refused { (P : Program) (sets : List MethodPaths) (lines : List LineData) → AreRelevant P sets →
        IsCertificate P (rel_of sets) lines → IsAccepted P → ⊥ }
{}

/// The passes end, in one way: with a certificate exactly where no assignment is admissible. So there is a certificate exactly
/// where there is no admissible assignment.
pub fn passes_decide()
    ensures some { (P : Program) (rel : ℕ → List PathData) → (e : LinesWritten) × Passes P rel [] e }
    ensures one { (P : Program) (rel : ℕ → List PathData) (e f : LinesWritten) → Passes P rel [] e → Passes P rel [] f → e ≡ f }
    ensures certificate { (P : Program) (rel : ℕ → List PathData) (e : LinesWritten) → Passes P rel [] e → e.broken ≡ true → IsCertificate P rel e.all }
    ensures decides { (P : Program) (rel : ℕ → List PathData) (e : LinesWritten) → Passes P rel [] e →
        (e.broken ≡ false) ↔ ((A : Assignment) × IsAdmissible P rel A) }
    ensures accepts { (P : Program) (sets : List MethodPaths) (e : LinesWritten) → AreRelevant P sets → AreFew sets →
        Passes P (rel_of sets) [] e → (e.broken ≡ false) ↔ IsAccepted P }
    ensures exists { (P : Program) (rel : ℕ → List PathData) →
        ((lines : List LineData) × IsCertificate P rel lines) ↔ (((A : Assignment) × IsAdmissible P rel A) → ⊥) }
{}

/// The program's overriding methods are those that the passes ask.
pub fn overriding_is_exact()
    ensures { (P : Program) (over m : ℕ) → (overrides P over m ≡ true) ↔ Overrides P over m }
{}

/// No lines meet the bound of work where the program has at most 262,144 nodes and pairs of overriding methods together. So no lines of
/// a typed program in which no method overrides another do.
pub fn work_is_bounded()
    ensures small { (P : Program) (sets : List MethodPaths) → AreFew sets → nodes_and_pairs P (length P.methods) ≤ 2 ^ 18 → IsOverWork P (rel_of sets) → ⊥ }
    ensures alone { (P : Program) (sets : List MethodPaths) → IsTyped P → AreFew sets → ((over m : ℕ) → Overrides P over m → ⊥) → IsOverWork P (rel_of sets) → ⊥ }
{}
