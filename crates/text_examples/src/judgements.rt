//! Judged books: good ones, such with each cause of refusal, and how much work they are.
ghost use Rattle.std.specs.Prelude.{◌≡◌, ◌+◌, ◌*◌, [], ◌∷◌, map, true, false};
ghost use Rattle.core_program.specs.declared.types.CoreType.TheVariants as type;
ghost use Rattle.core_program.specs.Core.{EmptyS, BlockS, LocalS, ThisE, GetE, CallE, no_exprs, no_stmts, and_stmt};
ghost use Rattle.effects.specs.Parts.{ExprP, StmtP};
ghost use Rattle.books.specs.declared.word.Word.TheVariants as w;
ghost use Rattle.books.specs.Derivations.{node, no_nodes, and_node};
ghost use Rattle.book_check.specs.declared.wrong.Wrong.TheVariants as wrong;
ghost use Rattle.book_check.specs.Good.{IsGoodBook};
ghost use Rattle.book_check.specs.Faults.{IsWrongBook};
ghost use Rattle.book_check.specs.BookWork.{book_work, leaves, step_work};
ghost use Rattle.text_examples.specs.Small.{main_with, print_one, print_twice, prints_below, no_paths, this_path_only, method_line, book, trees, skip, literal, print, block};

/// Books that are good: conclusions may be greater than what the rules give, up to the bound.
pub fn which_books_are_good()
    ensures nothing_done { IsGoodBook (main_with false EmptyS) no_paths (book (method_line 0 0 (skip 0) ∷ [])) }
    ensures exact { IsGoodBook (main_with true print_one) no_paths (book (method_line 0 1 (print 1) ∷ [])) }
    ensures greater { IsGoodBook (main_with false EmptyS) no_paths (book (method_line 0 2 (skip 1) ∷ [])) }
    ensures relevant { IsGoodBook (main_with false EmptyS) this_path_only (book (method_line 0 3 (skip 0) ∷ [])) }
{}

/// The shape of a book is judged first: the word and the premises of each node, and a line for each method.
pub fn which_shapes_are_wrong()
    ensures word { IsWrongBook (main_with false EmptyS) no_paths (book (method_line 0 0 literal ∷ [])) (wrong.Shape 0 0) }
    ensures premises { IsWrongBook (main_with false EmptyS) no_paths (book (method_line 0 0 (node w.Skip 0 (and_node literal no_nodes)) ∷ [])) (wrong.Shape 0 0) }
    ensures inner_word { IsWrongBook (main_with false print_one) no_paths (book (method_line 0 1 (node w.Print 1 (and_node (node w.This 0 no_nodes) no_nodes)) ∷ [])) (wrong.Shape 0 1) }
    ensures id { IsWrongBook (main_with false EmptyS) no_paths (book (method_line 1 0 (skip 0) ∷ [])) (wrong.Shape 0 0) }
    ensures missing { IsWrongBook (main_with false EmptyS) no_paths (book []) (wrong.Shape 0 0) }
    ensures one_more { IsWrongBook (main_with false EmptyS) no_paths (book (method_line 0 0 (skip 0) ∷ method_line 1 0 (skip 0) ∷ [])) (wrong.Shape 1 0) }
{}

/// Then each line: its tree, its steps, what overrides the method, and its bound.
pub fn which_lines_are_wrong()
    ensures not_relevant { IsWrongBook (main_with false EmptyS) no_paths (book (method_line 0 3 (skip 0) ∷ [])) (wrong.Table 0) }
    ensures rising { IsWrongBook (main_with false EmptyS) this_path_only (book (method_line 0 4 (skip 0) ∷ [])) (wrong.Table 0) }
    ensures step { IsWrongBook (main_with false print_one) no_paths (book (method_line 0 0 (print 0) ∷ [])) (wrong.Step 0 0) }
    ensures above_its_tree { IsWrongBook (main_with false print_one) no_paths (book (method_line 0 0 (print 1) ∷ [])) (wrong.Step 0 0) }
    ensures inner_step { IsWrongBook (main_with false print_twice) no_paths (book (method_line 0 2 (block 2 (print 1) (print 0)) ∷ [])) (wrong.Step 0 3) }
    ensures overridden { IsWrongBook prints_below no_paths (book (method_line 0 0 (skip 0) ∷ method_line 1 1 (print 1) ∷ [])) (wrong.Override 0) }
    ensures bound { IsWrongBook (main_with true print_twice) no_paths (book (method_line 0 2 (block 2 (print 1) (print 1)) ∷ [])) (wrong.Bound 0) }
{}

/// The work of books: for each node the leaves of its conclusion by all pairs of its premises' leaves, and for each method its body's tree.
pub fn how_much_work_books_are()
    ensures leaves { map leaves trees ≡ 1 ∷ 1 ∷ 1 ∷ 2 ∷ 2 ∷ [] }
    ensures nothing_done { book_work (main_with false EmptyS) (book (method_line 0 0 (skip 0) ∷ [])) ≡ 256 + 4 }
    ensures premise { book_work (main_with true print_one) (book (method_line 0 1 (print 1) ∷ [])) ≡ 256 + 9 + 4 }
    ensures premises { book_work (main_with true print_twice) (book (method_line 0 2 (block 2 (print 1) (print 1)) ∷ [])) ≡ 256 + 16 + 9 + 4 + 9 + 4 }
    ensures larger_tree { book_work (main_with false EmptyS) (book (method_line 0 3 (skip 3) ∷ [])) ≡ 256 * 2 + 2 * 4 }
    ensures no_line { book_work (main_with false EmptyS) (book []) ≡ 0 }
    ensures access { step_work trees (ExprP (GetE ThisE 0)) 0 (and_node literal no_nodes) ≡ 16 }
    ensures call { step_work trees (ExprP (CallE ThisE 0 no_exprs)) 0 (and_node literal no_nodes) ≡ 258 * 258 }
    ensures behind_a_local { step_work trees (StmtP (BlockS (and_stmt (LocalS 1 true (type.Class 0) ThisE) (and_stmt EmptyS no_stmts)))) 3 (and_node (node w.Local 3 (and_node literal no_nodes)) (and_node (skip 3) no_nodes)) ≡ 2 * 16 }
{}
