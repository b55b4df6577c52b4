//! Books: how they are written, how they are read, and their first faults.
ghost use Rattle.std.specs.Prelude.{◌≡◌, false, [], ◌∷◌, map, replicate, Some, None, Ok, Err, codes};
ghost use Rattle.algebra.specs.declared.basic.Basic.TheVariants.{Atomic};
ghost use Rattle.books.specs.declared.stop.BookFault.TheVariants as fault;
ghost use Rattle.books.specs.declared.stop.Kind.TheVariants.{Form, TooDeep};
ghost use Rattle.books.specs.declared.word.Word.TheVariants as w;
ghost use Rattle.books.specs.Derivations.{node, no_nodes, word_at, conclusion_number, premises_of, count_nodes, word_text, words};
ghost use Rattle.books.specs.Books.{node_high};
ghost use Rattle.books.specs.Texts.{node_text, method_line_text, method_lines_text, book_text};
ghost use Rattle.books.specs.Reading.{number_digits, number_at, path_at, leaf_at, tree_at, canonical_at, word_at_front, node_at, line_at, count_at, nothing_behind, book_at};
ghost use Rattle.books.specs.Combine.{begins, expect, at_most, several};
ghost use Rattle.books.specs.Faults.{first_book_fault};
ghost use Rattle.core_examples.specs.Fields.{path};
ghost use Rattle.text_examples.specs.Texts.{mover_or_atomic, two_tests, put_node, body_node, locked_book, locked_text};

/// A book is its count of trees, the trees, a derivation for each method, and `end`.
pub fn how_books_are_written()
    ensures words { map word_text words ≡ codes "lit" ∷ codes "this" ∷ codes "var" ∷ codes "un" ∷ codes "bin" ∷ codes "and" ∷ codes "or" ∷ codes "get" ∷ codes "new" ∷ codes "call" ∷ codes "local"
        ∷ codes "set" ∷ codes "put" ∷ codes "block" ∷ codes "if" ∷ codes "while" ∷ codes "sync" ∷ codes "return" ∷ codes "print" ∷ codes "start" ∷ codes "do" ∷ codes "skip" ∷ [] }
    ensures leaf { node_text (node w.Lit 12 no_nodes) ≡ codes "(lit 12)" }
    ensures node { node_text put_node ≡ codes "(put 1 (this 2) (lit 2))" }
    ensures line { method_line_text (record { id = 3; number = 0; body = put_node }) ≡ codes "method 3 0\n(put 1 (this 2) (lit 2))\n" }
    ensures book { book_text locked_book ≡ locked_text }
    ensures two_lines { method_lines_text (record { id = 0; number = 0; body = node w.Skip 0 no_nodes } ∷ record { id = 1; number = 0; body = node w.Lit 0 no_nodes } ∷ []) ≡ codes "method 0 0\n(skip 0)\nmethod 1 0\n(lit 0)\n" }
    ensures nothing { book_text (record { table = []; lines = [] }) ≡ codes "book 0\nend\n" }
    ensures word_of_a_node { word_at put_node ≡ w.Put }
    ensures conclusion { conclusion_number put_node ≡ 1 }
    ensures premises { count_nodes (premises_of put_node) ≡ 2 }
    ensures heights { map node_high (node w.Lit 12 no_nodes ∷ put_node ∷ body_node ∷ []) ≡ 1 ∷ 2 ∷ 5 ∷ [] }
{}

/// The parts of a book as they are read: each with the bytes behind it, or the fault with the bytes from there on.
pub fn how_books_are_read()
    ensures digits { map number_digits (codes "012" ∷ codes "120 " ∷ codes "x" ∷ codes "" ∷ []) ≡ codes "0" ∷ codes "120" ∷ [] ∷ [] ∷ [] }
    ensures number { number_at 100 (codes "99 ") ≡ Ok (99, codes " ") }
    ensures number_past_the_end { number_at 100 (codes "100 ") ≡ Err (Form, codes "100 ") }
    ensures no_number { number_at 100 (codes "x") ≡ Err (Form, codes "x") }
    ensures zero { number_at 100 (codes "01") ≡ Ok (0, codes "1") }
    ensures this { path_at (codes "0 ") ≡ Ok (path 0 [], codes " ") }
    ensures two_fields { path_at (codes "1.7.12.3") ≡ Ok (path 1 (7 ∷ 12 ∷ []), codes ".3") }
    ensures last_root { path_at (codes "65535)") ≡ Ok (path 65535 [], codes ")") }
    ensures root_past_the_end { path_at (codes "65536)") ≡ Err (Form, codes "65536)") }
    ensures field_past_the_end { path_at (codes "1.4294967296)") ≡ Err (Form, codes "4294967296)") }
    ensures leaf { leaf_at (codes "atomic)") ≡ Ok (Atomic, codes ")") }
    ensures half_a_leaf { leaf_at (codes "atoms") ≡ Err (Form, codes "s") }
    ensures tree { tree_at 2 (codes "(0 const (1.7.12 atomic cmpd))\n") ≡ Ok (two_tests, codes "\n") }
    ensures too_deep { tree_at 1 (codes "(0 const (1.7.12 atomic cmpd))\n") ≡ Err (TooDeep, codes "(1.7.12 atomic cmpd))\n") }
    ensures canonical { canonical_at (codes "(0 mover atomic)\n") ≡ Ok (mover_or_atomic, codes "\n") }
    ensures not_canonical { canonical_at (codes "(0 mover mover)\n") ≡ Err (Form, codes "(0 mover mover)\n") }
    ensures word { word_at_front (codes "put 1") ≡ Ok (w.Put, codes "1") }
    ensures no_word { word_at_front (codes "puts 1") ≡ Err (Form, codes "s 1") }
    ensures node { node_at 3 5 (codes "(put 1 (this 2) (lit 2))\n") ≡ Ok (put_node, codes "\n") }
    ensures conclusion_past_the_table { node_at 2 5 (codes "(put 1 (this 2) (lit 2))\n") ≡ Err (Form, codes "2) (lit 2))\n") }
    ensures nodes_too_deep { node_at 3 1 (codes "(put 1 (this 2) (lit 2))\n") ≡ Err (TooDeep, codes "(this 2) (lit 2))\n") }
    ensures no_room_and_no_node { node_at 3 0 (codes "x") ≡ Err (Form, codes "x") }
    ensures no_room { node_at 3 0 (codes "(skip 0)") ≡ Err (TooDeep, codes "(skip 0)") }
    ensures last_method { line_at 3 (codes "method 4294967295 1\n(lit 2)\n") ≡ Ok (record { id = 4294967295; number = 1; body = node w.Lit 2 no_nodes }, []) }
    ensures method_past_the_end { line_at 3 (codes "method 4294967296 1\n") ≡ Err (Form, codes "4294967296 1\n") }
    ensures last_count { count_at (codes "book 4294967295\n") ≡ Ok (4294967295, []) }
    ensures count_past_the_end { count_at (codes "book 4294967296\n") ≡ Err (Form, codes "4294967296\n") }
    ensures something_behind { nothing_behind (codes "ab") ≡ Err (Form, codes "ab") }
    ensures nothing_begins { begins 40 [] ≡ false }
    ensures several { several 32 (expect (codes " ")) (replicate 40 32) ≡ Ok (replicate 40 tt, []) }
    ensures at_most_two { at_most 2 32 (expect (codes " ")) (replicate 3 32) ≡ Ok (replicate 2 tt, codes " ") }
    ensures none_at_all { at_most 0 32 (expect (codes " ")) (codes " ") ≡ Ok ([], codes " ") }
    ensures line { line_at 3 (codes "method 4 1\n(lit 2)\nend") ≡ Ok (record { id = 4; number = 1; body = node w.Lit 2 no_nodes }, codes "end") }
    ensures count { count_at (codes "book 3\n(") ≡ Ok (3, codes "(") }
    ensures book { book_at locked_text ≡ Ok (locked_book, []) }
{}

/// The first fault of a text that is no book's, at its byte.
pub fn which_fault_of_a_book_is_first()
    ensures none { first_book_fault locked_text ≡ None }
    ensures nothing { first_book_fault (codes "book 0\nend\n") ≡ None }
    ensures empty { first_book_fault (codes "") ≡ Some (fault.Form 0) }
    ensures ends_early { first_book_fault (codes "book 0\nend") ≡ Some (fault.Form 10) }
    ensures goes_on { first_book_fault (codes "book 0\nend\n\n") ≡ Some (fault.Form 11) }
    ensures other_word { first_book_fault (codes "bok 0\n") ≡ Some (fault.Form 2) }
    ensures leading_zero { first_book_fault (codes "book 01\n") ≡ Some (fault.Form 6) }
    ensures too_few_trees { first_book_fault (codes "book 1\nend\n") ≡ Some (fault.Form 8) }
    ensures too_many_trees { first_book_fault (codes "book 0\nconst\nend\n") ≡ Some (fault.Form 7) }
    ensures no_canonical_tree { first_book_fault (codes "book 1\n(0 const const)\nend\n") ≡ Some (fault.Form 7) }
    ensures no_such_conclusion { first_book_fault (codes "book 1\nconst\nmethod 0 1\n(skip 0)\nend\n") ≡ Some (fault.Form 22) }
{}
