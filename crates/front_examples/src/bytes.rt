//! Bytes, the pieces of a text, what these mean, and places.
ghost use Rattle.std.specs.Prelude.{◌≡◌, true, false, [], ◌∷◌, ◌++◌, length, map, replicate, Some, None, Ok, Err, codes};
ghost use Rattle.std.specs.List.{list_all, list_any};
ghost use Rattle.lexer.specs.declared.pieces.Piece.TheVariants as piece;
ghost use Rattle.lexer.specs.declared.tokens.TokenKind.TheVariants as token;
ghost use Rattle.lexer.specs.declared.faults.LexFault.TheVariants as fault;
ghost use Rattle.lexer.specs.Limits.{longest_source, longest_word, greatest_literal};
ghost use Rattle.lexer.specs.Pieces.{is_blank, is_letter, is_digit, is_word_byte, is_in_line, is_blanks, is_word, is_number, is_sign, is_comment, is_open_comment, starts_close, is_piece, signs};
ghost use Rattle.lexer.specs.Places.{line_of, column_of, place_text};
ghost use Rattle.lexer.specs.Reserved.{reserved, is_reserved};
ghost use Rattle.lexer.specs.Tokens.{meaning};
ghost use Rattle.lexer.specs.Written.{may_follow};

/// Blanks, letters, digits, and what goes on a word or a line.
pub fn what_bytes_are()
    ensures blanks { map is_blank (32 ∷ 9 ∷ 10 ∷ 12 ∷ 13 ∷ []) ≡ true ∷ true ∷ true ∷ true ∷ true ∷ [] }
    ensures no_blanks { map is_blank (11 ∷ 0 ∷ 31 ∷ 33 ∷ 160 ∷ []) ≡ false ∷ false ∷ false ∷ false ∷ false ∷ [] }
    ensures letters { map is_letter (97 ∷ 122 ∷ 65 ∷ 90 ∷ 95 ∷ []) ≡ true ∷ true ∷ true ∷ true ∷ true ∷ [] }
    ensures no_letters { map is_letter (96 ∷ 123 ∷ 64 ∷ 91 ∷ 48 ∷ 36 ∷ []) ≡ false ∷ false ∷ false ∷ false ∷ false ∷ false ∷ [] }
    ensures digits { map is_digit (48 ∷ 57 ∷ 47 ∷ 58 ∷ 97 ∷ []) ≡ true ∷ true ∷ false ∷ false ∷ false ∷ [] }
    ensures word_bytes { map is_word_byte (97 ∷ 95 ∷ 48 ∷ 36 ∷ []) ≡ true ∷ true ∷ true ∷ false ∷ [] }
    ensures line { map is_in_line (32 ∷ 200 ∷ 10 ∷ 13 ∷ []) ≡ true ∷ true ∷ false ∷ false ∷ [] }
{}

/// What a whole piece is of each kind.
pub fn what_pieces_are()
    ensures blanks { map is_blanks (codes " " ∷ codes " \n\t" ∷ []) ≡ true ∷ true ∷ [] }
    ensures no_blanks { map is_blanks (codes "" ∷ codes "a " ∷ codes " a" ∷ []) ≡ false ∷ false ∷ false ∷ [] }
    ensures words { map is_word (codes "a" ∷ codes "_9Z" ∷ []) ≡ true ∷ true ∷ [] }
    ensures no_words { map is_word (codes "" ∷ codes "9a" ∷ codes "a-" ∷ []) ≡ false ∷ false ∷ false ∷ [] }
    ensures numbers { map is_number (codes "0" ∷ codes "7" ∷ codes "10" ∷ []) ≡ true ∷ true ∷ true ∷ [] }
    ensures no_numbers { map is_number (codes "" ∷ codes "007" ∷ codes "00" ∷ codes "1a" ∷ codes "a1" ∷ []) ≡ false ∷ false ∷ false ∷ false ∷ false ∷ [] }
    ensures signs { list_all is_sign (codes "(" ∷ codes ")" ∷ codes "{" ∷ codes "}" ∷ codes ";" ∷ codes "," ∷ codes "." ∷ codes "=" ∷ codes "==" ∷ codes "!=" ∷ codes "<" ∷ codes "<="
        ∷ codes ">" ∷ codes ">=" ∷ codes "+" ∷ codes "-" ∷ codes "--" ∷ codes "*" ∷ codes "/" ∷ codes "%" ∷ codes "!" ∷ codes "&&" ∷ codes "||" ∷ []) ≡ true }
    ensures so_many_signs { length signs ≡ 23 }
    ensures no_signs { list_any is_sign (codes "" ∷ codes "&" ∷ codes "|" ∷ codes "++" ∷ codes "[" ∷ codes "===" ∷ []) ≡ false }
    ensures line_comments { map is_comment (codes "//" ∷ codes "// a*/" ∷ codes "//\n" ∷ codes "//a\r" ∷ []) ≡ true ∷ true ∷ false ∷ false ∷ [] }
    ensures block_comments { map is_comment (codes "/**/" ∷ codes "/* a\n/* */" ∷ codes "/***/" ∷ codes "/*/" ∷ codes "/* */ */" ∷ codes "/**/ " ∷ []) ≡
        true ∷ true ∷ true ∷ false ∷ false ∷ false ∷ [] }
    ensures no_comments { map is_comment (codes "" ∷ codes "/" ∷ codes "/ /" ∷ codes "a//" ∷ codes "*/*/" ∷ codes "/a*/" ∷ []) ≡ false ∷ false ∷ false ∷ false ∷ false ∷ false ∷ [] }
    ensures open_comments { map is_open_comment (codes "/*" ∷ codes "/*/" ∷ codes "/* a * /" ∷ []) ≡ true ∷ true ∷ true ∷ [] }
    ensures no_open_comments { map is_open_comment (codes "" ∷ codes "/" ∷ codes "//" ∷ codes "/* a */ b" ∷ codes "**" ∷ codes "/**/" ∷ []) ≡ false ∷ false ∷ false ∷ false ∷ false ∷ false ∷ [] }
    ensures closes { map starts_close (codes "*/ a" ∷ codes "*" ∷ codes "" ∷ codes "/*" ∷ []) ≡ true ∷ false ∷ false ∷ false ∷ [] }
    ensures kinds { is_piece piece.Blanks (codes " ") ∷ is_piece piece.Comment (codes "//") ∷ is_piece piece.OpenComment (codes "/*") ∷ is_piece piece.Word (codes "a")
        ∷ is_piece piece.Number (codes "1") ∷ is_piece piece.Sign (codes ";") ∷ [] ≡ true ∷ true ∷ true ∷ true ∷ true ∷ true ∷ [] }
    ensures other_kinds { is_piece piece.Blanks (codes "//") ∷ is_piece piece.Comment (codes "/*") ∷ is_piece piece.OpenComment (codes "a") ∷ is_piece piece.Word (codes "1")
        ∷ is_piece piece.Number (codes ";") ∷ is_piece piece.Sign (codes " ") ∷ [] ≡ false ∷ false ∷ false ∷ false ∷ false ∷ false ∷ [] }
{}

/// What a piece at an offset means: no token, a token, or a fault there.
pub fn what_pieces_mean()
    ensures blanks { meaning piece.Blanks (codes " ") 5 ≡ Ok None }
    ensures comment { meaning piece.Comment (codes "//") 5 ≡ Ok None }
    ensures open_comment { meaning piece.OpenComment (codes "/*") 5 ≡ Err (fault.OpenComment 5) }
    ensures name { meaning piece.Word (codes "classes") 5 ≡ Ok (Some token.Name) }
    ensures reserved { meaning piece.Word (codes "class") 5 ≡ Ok (Some token.Word) }
    ensures longest_name { meaning piece.Word (replicate 64 97) 5 ≡ Ok (Some token.Name) }
    ensures too_long { meaning piece.Word (replicate 65 97) 5 ≡ Err (fault.NameTooLong 5) }
    ensures number { meaning piece.Number (codes "12") 5 ≡ Ok (Some (token.Number 12)) }
    ensures greatest { meaning piece.Number (codes "2147483648") 5 ≡ Ok (Some (token.Number 2147483648)) }
    ensures too_large { meaning piece.Number (codes "2147483649") 5 ≡ Err (fault.LiteralTooLarge 5) }
    ensures sign { meaning piece.Sign (codes ";") 5 ≡ Ok (Some token.Sign) }
    ensures limits { longest_source ∷ longest_word ∷ greatest_literal ∷ [] ≡ 262144 ∷ 64 ∷ 2147483648 ∷ [] }
{}

/// The sixty reserved words; other words are names.
pub fn which_words_are_reserved()
    ensures of_java { list_all is_reserved (codes "abstract" ∷ codes "assert" ∷ codes "boolean" ∷ codes "break" ∷ codes "byte" ∷ codes "case" ∷ codes "catch" ∷ codes "char"
        ∷ codes "class" ∷ codes "const" ∷ codes "continue" ∷ codes "default" ∷ codes "do" ∷ codes "double" ∷ codes "else" ∷ codes "enum" ∷ codes "extends" ∷ codes "final"
        ∷ codes "finally" ∷ codes "float" ∷ codes "for" ∷ codes "goto" ∷ codes "if" ∷ codes "implements" ∷ codes "import" ∷ codes "instanceof" ∷ codes "int"
        ∷ codes "interface" ∷ codes "long" ∷ codes "native" ∷ codes "new" ∷ codes "package" ∷ codes "private" ∷ codes "protected" ∷ codes "public" ∷ codes "return"
        ∷ codes "short" ∷ codes "static" ∷ codes "strictfp" ∷ codes "super" ∷ codes "switch" ∷ codes "synchronized" ∷ codes "this" ∷ codes "throw" ∷ codes "throws"
        ∷ codes "transient" ∷ codes "try" ∷ codes "void" ∷ codes "volatile" ∷ codes "while" ∷ codes "true" ∷ codes "false" ∷ codes "null" ∷ []) ≡ true }
    ensures of_this_language { list_all is_reserved (codes "atomic" ∷ codes "guarded_by" ∷ codes "requires" ∷ codes "write_guarded_by" ∷ codes "System" ∷ codes "Thread" ∷ codes "Runnable" ∷ []) ≡ true }
    ensures so_many { length reserved ≡ 60 }
    ensures names { list_any is_reserved (codes "out" ∷ codes "println" ∷ codes "start" ∷ codes "Main" ∷ codes "main" ∷ codes "run" ∷ codes "Class" ∷ codes "clas" ∷ codes "classs" ∷ codes "" ∷ []) ≡ false }
{}

/// Lines end with LF, and lines and columns count from 1.
pub fn where_bytes_stand()
    ensures first { (line_of (codes "ab\ncd") 0 ∷ column_of (codes "ab\ncd") 0 ∷ []) ≡ 1 ∷ 1 ∷ [] }
    ensures end_of_line { (line_of (codes "ab\ncd") 2 ∷ column_of (codes "ab\ncd") 2 ∷ []) ≡ 1 ∷ 3 ∷ [] }
    ensures next_line { (line_of (codes "ab\ncd") 3 ∷ column_of (codes "ab\ncd") 3 ∷ []) ≡ 2 ∷ 1 ∷ [] }
    ensures past_the_end { (line_of (codes "ab\n\ncd") 6 ∷ column_of (codes "ab\n\ncd") 6 ∷ []) ≡ 3 ∷ 3 ∷ [] }
    ensures carriage_return { (line_of (codes "a\rb") 2 ∷ column_of (codes "a\rb") 2 ∷ []) ≡ 1 ∷ 3 ∷ [] }
    ensures text { place_text 12 3 ≡ codes "12:3" }
{}

/// What may follow a token so that it is cut off there again.
pub fn what_may_follow_tokens()
    ensures name { map (may_follow token.Name (codes "a")) (codes "" ∷ codes "(" ∷ codes "b" ∷ codes "_" ∷ codes "1" ∷ []) ≡ true ∷ true ∷ false ∷ false ∷ false ∷ [] }
    ensures word { map (may_follow token.Word (codes "if")) (codes "" ∷ codes "(" ∷ codes "b" ∷ []) ≡ true ∷ true ∷ false ∷ [] }
    ensures number { map (may_follow (token.Number 1) (codes "1")) (codes "" ∷ codes "a" ∷ codes "2" ∷ []) ≡ true ∷ true ∷ false ∷ [] }
    ensures sign { map (may_follow token.Sign (codes "=")) (codes "" ∷ codes "a" ∷ codes "=" ∷ []) ≡ true ∷ true ∷ false ∷ [] }
    ensures slash { map (may_follow token.Sign (codes "/")) (codes "a" ∷ codes "/" ∷ codes "*" ∷ codes "=" ∷ []) ≡ true ∷ false ∷ false ∷ true ∷ [] }
    ensures star { may_follow token.Sign (codes "*") (codes "/") ≡ true }
    ensures bang { map (may_follow token.Sign (codes "!")) (codes "=" ∷ codes "!" ∷ []) ≡ false ∷ true ∷ [] }
    ensures minus { may_follow token.Sign (codes "-") (codes "-") ≡ false }
{}
