//! Lines of refused sources, schedules, books, certificates and levels.
ghost use Rattle.std.specs.Prelude.{◌≡◌, [], ◌∷◌, map, None, codes};
ghost use Rattle.lexer.specs.declared.faults.LexFault.TheVariants as lex;
ghost use Rattle.lexer.specs.declared.tokens.TokenKind.TheVariants as token;
ghost use Rattle.parser.specs.declared.faults.ParseFault.TheVariants as parse;
ghost use Rattle.classes.specs.declared.fault.ClassFault.TheVariants as class;
ghost use Rattle.typing.specs.declared.fault.TypeFault.TheVariants as types;
ghost use Rattle.report.specs.declared.source_fault.SourceFault.TheVariants as source;
ghost use Rattle.report.specs.SourceFaults.{source_fault_offset, fault_words, lex_offset_of, class_offset_of, type_offset_of, lex_kind, parse_kind, class_kind, type_kind, refused_line};
ghost use Rattle.schedule.specs.declared.reader.SchedFault.TheVariants as schedule;
ghost use Rattle.report.specs.Schedules.{schedule_fault_line, stopped_line, inside_call_line};
ghost use Rattle.state.specs.declared.value.Fault.TheVariants.{Zero};
ghost use Rattle.machine.specs.declared.deed.StepEnd.TheVariants as ends;
ghost use Rattle.sources.specs.Programs.{offset_at, token_offset};
ghost use Rattle.refutation.specs.declared.check.BlameWrong.TheVariants as blame;
ghost use Rattle.evidence_commands.specs.CertificateLines.{nothing_line, verified_certificate_line, certificate_form_line as blame_form_line, wrong_certificate_line as blame_wrong_line};
ghost use Rattle.level_check.specs.declared.reader.LevelsFault.TheVariants as levels;
ghost use Rattle.evidence_commands.specs.LevelLines.{ordered_line, levels_fault_line, takes_line};
ghost use Rattle.text_examples.specs.Names.{names, third};

/// Where each fault of a source is told.
pub fn where_faults_are_told()
    ensures lexer { map lex_offset_of (lex.BadCharacter 3 ∷ lex.OpenComment 4 ∷ lex.LiteralTooLarge 5 ∷ lex.NameTooLong 6 ∷ lex.NoMemory ∷ []) ≡ 3 ∷ 4 ∷ 5 ∷ 6 ∷ 0 ∷ [] }
    ensures classes { map class_offset_of (class.Twice 1 ∷ class.UnknownClass 2 ∷ class.BadConstructor 3 ∷ class.NoMain ∷ class.NoRun 4 ∷ class.TooMany 5 ∷ class.Circle 6 ∷ class.BadOverride 7 ∷ class.NoMemory ∷ [])
        ≡ 1 ∷ 2 ∷ 3 ∷ 0 ∷ 4 ∷ 5 ∷ 6 ∷ 7 ∷ 0 ∷ [] }
    ensures types { map type_offset_of (types.UnknownName 1 ∷ types.NoRule 2 ∷ types.FinalAssigned 3 ∷ types.NotALock 4 ∷ types.MissingReturn 5 ∷ types.Unreachable 6 ∷ types.TooManyLocals 7 ∷ types.Redeclared 8 ∷ types.NoMemory ∷ [])
        ≡ 1 ∷ 2 ∷ 3 ∷ 4 ∷ 5 ∷ 6 ∷ 7 ∷ 8 ∷ 0 ∷ [] }
    ensures stages { map source_fault_offset (source.Text (record { at = 9 }) ∷ source.Lex (lex.OpenComment 4) ∷ source.Parse (parse.Unexpected 2) 7 ∷ source.Class (class.Twice 5) ∷ source.Types (types.NoRule 6) ∷ source.Locks 8 ∷ [])
        ≡ 9 ∷ 4 ∷ 7 ∷ 5 ∷ 6 ∷ 8 ∷ [] }
    ensures end_of_tokens { offset_at None 30 ≡ 30 }
    ensures token { token_offset (codes "a b") (record { kind = token.Name; at = 0; text = codes "a" } ∷ record { kind = token.Name; at = 2; text = codes "b" } ∷ []) 1 ≡ 2 }
    ensures no_token { token_offset (codes "a b") [] 1 ≡ 3 }
{}

/// The words for each fault of a source, and its line.
pub fn which_words_faults_have()
    ensures lexer { map lex_kind (lex.BadCharacter 3 ∷ lex.OpenComment 4 ∷ lex.LiteralTooLarge 5 ∷ lex.NameTooLong 6 ∷ lex.NoMemory ∷ [])
        ≡ codes "bad character" ∷ codes "open comment" ∷ codes "literal too large" ∷ codes "name too long" ∷ [] ∷ [] }
    ensures parser { map parse_kind (parse.Unexpected 1 ∷ parse.TooDeep 2 ∷ parse.NoMemory ∷ []) ≡ codes "unexpected" ∷ codes "too deep" ∷ [] ∷ [] }
    ensures classes { map class_kind (class.Twice 1 ∷ class.UnknownClass 2 ∷ class.BadConstructor 3 ∷ class.NoMain ∷ class.NoRun 4 ∷ class.TooMany 5 ∷ class.Circle 6 ∷ class.BadOverride 7 ∷ class.NoMemory ∷ [])
        ≡ codes "declared twice" ∷ codes "unknown class" ∷ codes "bad constructor" ∷ codes "no main" ∷ codes "no run" ∷ codes "too many" ∷ codes "circle" ∷ codes "bad override" ∷ [] ∷ [] }
    ensures types { map type_kind (types.UnknownName 1 ∷ types.NoRule 2 ∷ types.FinalAssigned 3 ∷ types.NotALock 4 ∷ types.MissingReturn 5 ∷ types.Unreachable 6 ∷ types.TooManyLocals 7 ∷ types.Redeclared 8 ∷ types.NoMemory ∷ [])
        ≡ codes "unknown name" ∷ codes "no rule" ∷ codes "final assigned" ∷ codes "not a lock" ∷ codes "missing return" ∷ codes "unreachable" ∷ codes "too many locals" ∷ codes "redeclared" ∷ [] ∷ [] }
    ensures stages { map fault_words (source.Text (record { at = 9 }) ∷ source.Lex (lex.OpenComment 4) ∷ source.Parse (parse.Unexpected 2) 7 ∷ source.Class (class.Twice 5) ∷ source.Types (types.NoRule 6) ∷ source.Locks 8 ∷ [])
        ≡ codes "not text" ∷ codes "open comment" ∷ codes "unexpected" ∷ codes "declared twice" ∷ codes "no rule" ∷ codes "too many locks" ∷ [] }
    ensures line { refused_line (codes "a\nbc d") 5 (codes "no rule") ≡ codes "refused at 2:4: no rule\n" }
    ensures fault_line { refused_line (codes "a\nbc d") (source_fault_offset (source.Locks 2)) (fault_words (source.Locks 2)) ≡ codes "refused at 2:1: too many locks\n" }
{}

/// Lines for schedules.
pub fn how_schedules_are_refused()
    ensures texts { map schedule_fault_line (schedule.Form 3 ∷ schedule.TooLong 4 ∷ schedule.NoMemory ∷ [])
        ≡ codes "schedule refused at byte 3: form\n" ∷ codes "schedule refused at byte 4: too long\n" ∷ [] ∷ [] }
    ensures stopped { map (λ why. stopped_line (record { entry = 5; thread = 6; why = why })) (ends.Absent ∷ ends.Done ∷ ends.Faulted Zero ∷ ends.Waits third 7 ∷ [])
        ≡ codes "entry 5: thread 6 is absent\n" ∷ codes "entry 5: thread 6 is done\n" ∷ codes "entry 5: thread 6 is faulted zero\n" ∷ codes "entry 5: thread 6 waits for 1:2 held by 7\n" ∷ [] }
    ensures open { inside_call_line 3 ≡ codes "thread 3 is inside an atomic call\n" }
{}

/// Lines for certificates and levels.
pub fn how_certificates_and_levels_are_answered()
    ensures blame { nothing_line ∷ verified_certificate_line ∷ blame_form_line 12 ∷ [] ≡ codes "nothing to blame\n" ∷ codes "refusal verified\n" ∷ codes "blame refused at byte 12: form\n" ∷ [] }
    ensures wrong { map blame_wrong_line (blame.Place 2 ∷ blame.Step 3 ∷ blame.NoBound ∷ blame.NoMemory ∷ [])
        ≡ codes "blame refused: line 2: place\n" ∷ codes "blame refused: line 3: step\n" ∷ codes "blame refused: no bound broken\n" ∷ [] ∷ [] }
    ensures ordered { ordered_line ≡ codes "ordered\n" }
    ensures levels { map (levels_fault_line names) (levels.Form 2 ∷ levels.Unknown 3 ∷ levels.Twice 4 ∷ levels.Missing 0 ∷ levels.Unequal 1 ∷ levels.NoMemory ∷ [])
        ≡ codes "levels refused at byte 2: form\n" ∷ codes "levels refused at byte 3: unknown\n" ∷ codes "levels refused at byte 4: twice\n"
        ∷ codes "levels refused: Cell has none\n" ∷ codes "levels refused: Main differs\n" ∷ [] ∷ [] }
    ensures takes { takes_line names 0 0 4 ≡ codes "Main.put: takes Cell under level 4\n" }
{}
