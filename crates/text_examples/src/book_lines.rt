//! Lines on books.
ghost use Rattle.std.specs.Prelude.{◌≡◌, [], ◌∷◌, map, true, false, Some, None, codes};
ghost use Rattle.books.specs.declared.stop.BookFault.TheVariants as fault;
ghost use Rattle.book_check.specs.declared.wrong.Wrong.TheVariants as wrong;
ghost use Rattle.evidence_commands.specs.declared.book_lines.WrongKind.TheVariants as kind;
ghost use Rattle.evidence_commands.specs.Books.{book_fault_line, names_node, at_node, kind_text, wrong_book_line};
ghost use Rattle.evidence_commands.specs.Verify.{verified_book_line, told_line};

/// A text that is no book, by the byte at which it goes wrong; of want of memory nothing is told.
pub fn how_texts_of_books_are_refused()
    ensures faults { map book_fault_line (fault.Form 12 ∷ fault.TooDeep 345 ∷ fault.NoMemory ∷ [])
        ≡ codes "book refused at byte 12: form\n" ∷ codes "book refused at byte 345: too deep\n" ∷ [] ∷ [] }
{}

/// A book that is wrong for a program: the method, and the node where one is named.
pub fn how_books_are_judged()
    ensures verified { verified_book_line ≡ codes "verified\n" }
    ensures kinds { map kind_text (kind.Shape ∷ kind.Step ∷ kind.Table ∷ kind.Bound ∷ kind.Override ∷ [])
        ≡ codes "shape" ∷ codes "step" ∷ codes "table" ∷ codes "bound" ∷ codes "override" ∷ [] }
    ensures names { map names_node (kind.Shape ∷ kind.Step ∷ kind.Table ∷ kind.Bound ∷ kind.Override ∷ []) ≡ true ∷ true ∷ false ∷ false ∷ false ∷ [] }
    ensures node { map at_node (Some 11 ∷ None ∷ []) ≡ codes " node 11" ∷ [] ∷ [] }
    ensures line { wrong_book_line 3 (Some 4) kind.Step ≡ codes "book refused: method 3 node 4: step\n" }
    ensures told { map told_line (wrong.Shape 1 2 ∷ wrong.Step 3 4 ∷ wrong.Table 5 ∷ wrong.Bound 6 ∷ wrong.Override 7 ∷ wrong.Memory ∷ wrong.Work ∷ [])
        ≡ codes "book refused: method 1 node 2: shape\n" ∷ codes "book refused: method 3 node 4: step\n" ∷ codes "book refused: method 5: table\n"
        ∷ codes "book refused: method 6: bound\n" ∷ codes "book refused: method 7: override\n" ∷ [] ∷ [] ∷ [] }
{}
