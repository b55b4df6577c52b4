//! Laws of elaboration.

ghost use Rattle.std.specs.Prelude.{◌≡◌, ◌≤◌, ℕ, List, [], Some, length, slice_get};
ghost use Rattle.core_program.specs.Core.{Program};
ghost use Rattle.core_program.specs.Typed.{IsTyped};
ghost use Rattle.lexer.specs.declared.tokens.Token.{Token};
ghost use Rattle.syntax.specs.Grammar.{Grammar};
ghost use Rattle.syntax.specs.Limits.{most_tokens};
ghost use Rattle.syntax.specs.Trees.{ClassTree, ProgramTree};
ghost use Rattle.classes.specs.Faults as classes;
ghost use Rattle.typing.specs.declared.fault.TypeFault.{TypeFault};
ghost use Rattle.classes.specs.Table.{table_of};
ghost use Rattle.typing.specs.Alone.{AreAlone, class_alone};
ghost use Rattle.typing.specs.Classes.{inherited_count};
ghost use Rattle.typing.specs.Programs.{program_type_faults, IsFirstTypeFault, IsCoreOf};

/// A program without faults has exactly one core program.
pub fn core_program_laws()
    ensures some { (tree : ProgramTree) → program_type_faults tree ≡ [] → (P : Program) × IsCoreOf tree P }
    ensures one { (tree : ProgramTree) (P Q : Program) → IsCoreOf tree P → IsCoreOf tree Q → P ≡ Q }
{}

/// A program with faults has exactly one first fault, and no core program.
pub fn first_fault_laws()
    ensures some { (tree : ProgramTree) → (program_type_faults tree ≡ [] → ⊥) → (f : TypeFault) × IsFirstTypeFault tree f }
    ensures one { (tree : ProgramTree) (f g : TypeFault) → IsFirstTypeFault tree f → IsFirstTypeFault tree g → f ≡ g }
    ensures apart { (tree : ProgramTree) (f : TypeFault) (P : Program) → IsFirstTypeFault tree f → IsCoreOf tree P → ⊥ }
{}

/// The core program of a tree that the grammar gives to at most 262,144 tokens is typed, where the tree's classes have no faults.
pub fn typed_law()
    ensures { (tree : ProgramTree) (P : Program) (ts : List Token) → classes.all_class_faults tree ≡ [] → IsCoreOf tree P → Grammar ts tree →
        length ts ≤ most_tokens → IsTyped P }
{}

/// Where no class extends another, each class of the core program has its own fields and methods alone, each of these runs for
/// itself, and the first field of a class has the index 0.
pub fn alone_laws()
    ensures classes { (tree : ProgramTree) (P : Program) → classes.all_class_faults tree ≡ [] → AreAlone tree → IsCoreOf tree P →
        (k : ℕ) (c : ClassTree) → slice_get tree k ≡ Some c → slice_get P.classes k ≡ Some (class_alone (table_of tree) P.fields P.methods k c) }
    ensures indices { (tree : ProgramTree) → AreAlone tree → (k : ℕ) → inherited_count (table_of tree) k ≡ 0 }
{}
