//! Where the names that a class table lends stand in the source, what stands above its classes, and its look-ups where nothing does.

ghost use Rattle.std.specs.Prelude.{◌≡◌, ◌-◌, ◌<◌, ◌==◌, ℕ, List, Some, None, length, slice_get, codes};
ghost use Rattle.base.specs.Ancestors.{AreBelow};
ghost use Rattle.lexer.specs.declared.tokens.Token.{Token};
ghost use Rattle.lexer.specs.Tokens.{Tokens};
ghost use Rattle.syntax.specs.declared.tree.Param.{Param};
ghost use Rattle.syntax.specs.Grammar.{Grammar};
ghost use Rattle.syntax.specs.Trees.{ProgramTree};
ghost use Rattle.classes.specs.Declarations.{IsDeclared, declared_fields, declared_methods, declared_params};
ghost use Rattle.classes.specs.Lines.{above, says_so};
ghost use Rattle.classes.specs.Members.{class_names, param_names};
ghost use Rattle.classes.specs.Table.{ClassData, MethodData, TableData, above_in_table, field_number, is_of_kind, method_number, own_field, own_method, slot_title, table_of};
ghost use Rattle.classes.specs.Seen.{FieldData};

use syntax::name_laws;

/// Each name that the table of a source lends is the slice of the source at the place of its declaration, but slot 0 of
/// a method is `this`.
pub fn declaration_laws()
    ensures classes { (source : List ℕ) (ts : List Token) (tree : ProgramTree) → Tokens source ts → Grammar ts tree → (k : ℕ) (text : List ℕ)
        → slice_get (table_of tree).names k ≡ Some text → IsDeclared source (class_names tree) k text }
    ensures fields { (source : List ℕ) (ts : List Token) (tree : ProgramTree) → Tokens source ts → Grammar ts tree → (k : ℕ) (f : FieldData)
        → slice_get (table_of tree).fields k ≡ Some f → IsDeclared source (declared_fields tree) k f.name }
    ensures methods { (source : List ℕ) (ts : List Token) (tree : ProgramTree) → Tokens source ts → Grammar ts tree → (k : ℕ) (m : MethodData)
        → slice_get (table_of tree).methods k ≡ Some m → IsDeclared source (declared_methods tree) k m.name }
    ensures slots { (source : List ℕ) (ts : List Token) (tree : ProgramTree) → Tokens source ts → Grammar ts tree → (k slot : ℕ) (text : List ℕ)
        → 0 < slot → slot_title (table_of tree) k slot ≡ Some text
        → (params : List Param) × (slice_get (declared_params tree) k ≡ Some params) × IsDeclared source (param_names params) (slot - 1) text }
    ensures this { (t : TableData) (k : ℕ) (text : List ℕ) → slot_title t k 0 ≡ Some text → text ≡ codes "this" }
{
    name_laws();
}

/// The table of a tree says of each class what it extends, which is a class of the table, and whether it counts as
/// `implements Runnable`.
pub fn above_laws()
    ensures above { (tree : ProgramTree) (k : ℕ) → above_in_table (table_of tree) k ≡ above tree k }
    ensures below { (tree : ProgramTree) → AreBelow (above_in_table (table_of tree)) (length (table_of tree).classes) }
    ensures counts { (tree : ProgramTree) (k : ℕ) (c : ClassData) → slice_get (table_of tree).classes k ≡ Some c → c.runnable ≡ says_so tree k }
{}

/// A class that extends none has its own fields and methods alone, and is of its own kind alone.
pub fn plain_laws()
    ensures fields { (t : TableData) (k : ℕ) (name : List ℕ) → above_in_table t k ≡ None → field_number t k name ≡ own_field t name k }
    ensures methods { (t : TableData) (k : ℕ) (name : List ℕ) → above_in_table t k ≡ None → method_number t k name ≡ own_method t name k }
    ensures kinds { (t : TableData) (c d : ℕ) → above_in_table t c ≡ None → is_of_kind t c d ≡ (c == d) }
{}
