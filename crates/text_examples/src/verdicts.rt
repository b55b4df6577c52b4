//! Lines of verdicts: a method's atomicity, and a bound that is broken.
ghost use Rattle.std.specs.Prelude.{◌≡◌, [], ◌∷◌, map, codes};
ghost use Rattle.algebra.specs.declared.basic.Basic.TheVariants.{Const, Mover, Atomic, Cmpd, Error};
ghost use Rattle.conditions.specs.Conditions.{LeafC, TestC};
ghost use Rattle.report.specs.Verdicts.{title_text, slot_text, field_text, fields_text, method_path_text, condition_text, atomicity_line, broken_line};
ghost use Rattle.core_examples.specs.Fields.{path};
ghost use Rattle.text_examples.specs.Names.{names};

/// Methods, slots, fields and paths by their names. What the table hasn't is written as nothing.
pub fn how_names_are_written()
    ensures methods { map (title_text names) (0 ∷ 1 ∷ 2 ∷ []) ≡ codes "Main.put" ∷ codes "Main.main" ∷ [] ∷ [] }
    ensures slots { map (slot_text names 0) (0 ∷ 1 ∷ 2 ∷ 3 ∷ []) ≡ codes "this" ∷ codes "to" ∷ codes "n" ∷ [] ∷ [] }
    ensures fields { map (field_text names) (0 ∷ 1 ∷ 2 ∷ []) ≡ codes "v" ∷ codes "c" ∷ [] ∷ [] }
    ensures chain { fields_text names (1 ∷ 0 ∷ []) ≡ codes ".c.v" }
    ensures no_fields { fields_text names [] ≡ [] }
    ensures path { method_path_text names 0 (path 1 (0 ∷ [])) ≡ codes "to.v" }
{}

/// A tree is a basic, or `path ? X : Y`; a branch that is a test stands in parentheses.
pub fn how_verdicts_are_written()
    ensures basics { map (λ b. condition_text names 0 (LeafC b)) (Const ∷ Mover ∷ Atomic ∷ Cmpd ∷ Error ∷ [])
        ≡ codes "const" ∷ codes "mover" ∷ codes "atomic" ∷ codes "cmpd" ∷ codes "error" ∷ [] }
    ensures test { condition_text names 0 (TestC (path 0 []) (LeafC Mover) (LeafC Atomic)) ≡ codes "this ? mover : atomic" }
    ensures test_when_held { condition_text names 0 (TestC (path 0 []) (TestC (path 1 []) (LeafC Const) (LeafC Mover)) (LeafC Atomic)) ≡ codes "this ? (to ? const : mover) : atomic" }
    ensures test_when_free { condition_text names 0 (TestC (path 0 []) (LeafC Mover) (TestC (path 1 []) (LeafC Atomic) (LeafC Cmpd))) ≡ codes "this ? mover : (to ? atomic : cmpd)" }
    ensures line { atomicity_line names 0 (LeafC Atomic) ≡ codes "Main.put atomic\n" }
    ensures broken { broken_line names 1 Atomic Cmpd ≡ codes "Main.main: declared atomic, found cmpd\n" }
{}
