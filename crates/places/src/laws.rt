//! The laws that nodes and what they were made of are in step, and that a book numbers them so.

ghost use Rattle.std.specs.Prelude.{◌≡◌, ℕ, ◌+◌, List, length, Option, Some, slice_get, Contains, map};
ghost use Rattle.syntax.specs.Trees.{ExprTree, StmtTree, MethodTree, ProgramTree};
ghost use Rattle.algebra.specs.HeldPaths.{Held};
ghost use Rattle.core_program.specs.declared.types.CoreType.{CoreType};
ghost use Rattle.core_program.specs.Core.{Program, Method, Stmt, Stmts, BlockS};
ghost use Rattle.effects.specs.Parts.{Part, StmtP};
ghost use Rattle.books.specs.Derivations.{Node};
ghost use Rattle.book_check.specs.Parts.{Each, FitsPart, places};
ghost use Rattle.explain.specs.PartEffects.{expr_parts, stmt_parts, parts_in};
ghost use Rattle.explain.specs.Visits.{Visit, part_visits};
ghost use Rattle.classes.specs.Table.{TableData, table_of};
ghost use Rattle.typing.specs.Rules.{TypedData};
ghost use Rattle.typing.specs.Scopes.{Scope};
ghost use Rattle.typing.specs.Exprs.{elaborated};
ghost use Rattle.typing.specs.Stmts.{stmt_core, block_core};
ghost use Rattle.typing.specs.Programs.{core_of, method_scope};
ghost use Rattle.places.specs.Slots.{slot_names};
ghost use Rattle.places.specs.Sources.{Source, expr_sources, stmt_sources, method_sources};
ghost use Rattle.places.specs.Making.{AnyScope, AreMade, AreNamed, IsMadeAt, IsMadeOf, HasTree, IsToldAt};

/// The parts of what elaboration makes of an expression, a statement or a method's body, each before its own parts, are in step with
/// the sources that the tree gives; and what is in step has the same numbers, and as many of both. Wherever a part of a method's body is made,
/// the slots of the variables in scope have the names that the tree gives to the method's slots.
pub fn in_step()
    ensures expression { (t : TableData) (class : ℕ) (returns : Option CoreType) (first : ℕ) (scope : Scope) (u : ExprTree) (d : TypedData) →
        elaborated t class scope u ≡ Some d → AreMade t class returns first AnyScope (expr_parts d.node) (expr_sources u) }
    ensures statement { (t : TableData) (class : ℕ) (returns : Option CoreType) (first : ℕ) (scope : Scope) (before : ℕ) (u : StmtTree) (s : Stmt) →
        stmt_core t class returns first scope before u ≡ Some s → AreMade t class returns first AnyScope (stmt_parts s) (stmt_sources u) }
    ensures body { (t : TableData) (class : ℕ) (returns : Option CoreType) (first : ℕ) (scope : Scope) (m : MethodTree) (ss : Stmts) →
        block_core t class returns first scope 0 m.body ≡ Some ss → AreMade t class returns first AnyScope (stmt_parts (BlockS ss)) (method_sources m) }
    ensures named { (t : TableData) (class : ℕ) (returns : Option CoreType) (m : MethodTree) (ss : Stmts) →
        block_core t class returns (1 + length m.params) (method_scope t m) 0 m.body ≡ Some ss →
        AreMade t class returns (1 + length m.params) (AreNamed (slot_names m)) (stmt_parts (BlockS ss)) (method_sources m) }
    ensures numbers { (t : TableData) (class : ℕ) (returns : Option CoreType) (first : ℕ) (xs : List Part) (us : List Source) →
        AreMade t class returns first AnyScope xs us → (k : ℕ) (x : Part) → slice_get xs k ≡ Some x → IsMadeAt t class returns first AnyScope us k x }
    ensures count { (t : TableData) (class : ℕ) (returns : Option CoreType) (first : ℕ) (xs : List Part) (us : List Source) →
        AreMade t class returns first AnyScope xs us → length xs ≡ length us }
{}

/// Each method of a program's core is made of the method of the tree with its number; and each part that a walk through it comes to is
/// made of what stands at the offset with the part's number, with variables in scope whose slots have the method's names of slots.
pub fn place_laws()
    ensures methods { (tree : ProgramTree) (P : Program) → core_of tree ≡ Some P → (k : ℕ) (method : Method) → slice_get P.methods k ≡ Some method →
        HasTree (table_of tree) tree k method }
    ensures visited { (t : TableData) (P : Program) (method : Method) (m : MethodTree) (H : Held) (v : Visit) → IsMadeOf t method m →
        Contains (part_visits P (StmtP method.body) 0 H) v → IsToldAt t method m v }
{}

/// The nodes of a derivation that fits stand for the parts of a body, in order. So a node of a book, an effect of `--all` and a place
/// of the source have the same number.
pub fn book_numbers()
    ensures parts { (x : Part) (d : Node) → Each FitsPart (places x d) → map (λ place. place.part) (places x d) ≡ parts_in x }
{}
