//! Whether the text of a book is good for a program.
ghost use Rattle.std.specs.Prelude.{◌≡◌, ◌≢◌, ◌≤◌, ◌<◌, ◌⊎◌, ℕ, List, length, map, false, slice_get, Some, IfOk, IfErr, MatchResult};
ghost use Rattle.core_program.specs.Typed.{IsTyped};
ghost use Rattle.core_program.specs.Views.{program_of};
ghost use Rattle.conditions.specs.Conditions.{cond_of, Cond};
ghost use Rattle.books.specs.Books.{Book, Line, AreTrees};
ghost use Rattle.books.specs.Memory.{book_of};
ghost use Rattle.book_lists.specs.Listed.{IsListedBook};
ghost use Rattle.books.specs.Views.{IsCursorAt};
ghost use Rattle.rules.specs.Near.{AreRelevant, loc_of, rel_of};
ghost use Rattle.rules.specs.Rules.{IsAdmissible};
ghost use Rattle.books.specs.Faults.{first_book_fault};
ghost use Rattle.books.specs.Texts.{IsBookText};
ghost use Rattle.books.specs.declared.stop.BookFault.{BookFault};
ghost use Rattle.book_check.specs.Checks.{HasAdmissible, IsJudgedText, IsTextUnjudged};
ghost use Rattle.book_check.specs.Faults.{IsUnjudged, IsWrongBook};
ghost use Rattle.book_check.specs.NearBooks.{IsNearBook};
ghost use Rattle.book_check.specs.BookWork.{book_work, most_book_work};
ghost use Rattle.book_check.specs.Good.{book_assignment, IsGoodBook};
ghost use Rattle.book_check.specs.declared.wrong.TextWrong.{TextWrong};
ghost use Rattle.book_check.specs.declared.wrong.Wrong.{Wrong};
ghost use Rattle.book_check.specs.Judges.{judge_near, judge_program, judge_table, AreCanonical};
ghost use Rattle.book_check.specs.Nearness.{AreNear, AreOwnNear};
ghost use Rattle.book_check.specs.Overs.{AreOversOf};
ghost use Rattle.book_check.specs.Passes.{AreLinesJudged, IsBookVerdict};

use crate::book_work::{MOST_WORK, is_little};
use crate::checked::Checked;
use crate::judge::Judge;
use crate::overs::{Overs, overs_of};
use crate::passes::{lines, shapes};
use crate::work::Work;
use crate::wrong::{TextWrong, Wrong};
use book_lists::{LinesInList, ListedBook, read_listed};
use books::{BookCursor, BookFault, DerivBook, Lines, LinesInMemory};
use conditions::Tree;
use core_program::CoreProgram;
use rules::RelevantSets;
use std::alloc::Global;
use std::cell::Cell;

/// A program whose book was refused, with its relevant sets and the reason.
#[derive(Drop)]
pub struct RefusedText {
    pub program: CoreProgram,
    pub sets: RelevantSets,
    pub why: TextWrong,
}

/// A program whose book was refused, with its relevant sets and the reason.
#[derive(Drop)]
pub struct Refused {
    pub program: CoreProgram,
    pub sets: RelevantSets,
    pub why: Wrong,
}

/// Whether a bound of work was met.
fn is_work(fault: Wrong) -> bool
    ensures { result ≡ false → fault ≢ Wrong.Work }
{
    matches!(fault, Wrong::Work)
}

/// The judgement of method lines: within a bound first, and with none where that is met by a book whose work is little.
fn judged_lines<L: Lines>(
    alloc: Global,
    judge: &Judge<'_>,
    over: &Overs,
    from: L,
) -> Result<(), Wrong>
    requires kept { L.AreLinesKept from }
    requires canonical { AreCanonical (judge_table judge.now) }
    requires overs { AreOversOf judge.now (L.lines from) over.now }
    ensures judged { (table : List Cond) → AreLinesJudged judge.now (record { table = table; lines = L.lines from }) result }
    ensures near { AreOwnNear judge.now → ((m : ℕ) (line : Line) → slice_get (L.lines from) m ≡ Some line → AreNear (judge_near judge.now m) (judge_table judge.now) line.body) →
        IfErr result (λ fault. fault ≢ Wrong.Work) }
    ensures work { IfErr result (λ fault. fault ≡ Wrong.Work → most_book_work < book_work (judge_program judge.now) (record { table = judge_table judge.now; lines = L.lines from })) }
{
    let left = Cell::new(MOST_WORK);
    let fault = match lines(alloc, Work::Bounded(&left), &*judge, over, from) {
        Ok(()) => return Ok(()),
        Err(fault) => fault,
    };
    if !is_work(fault) {
        return Err(fault);
    }
    if is_little(judge.program, judge.table, from) {
        return lines(alloc, Work::Unbounded, &*judge, over, from);
    }
    Err(fault)
}

/// The judgement of a book for a program, by its table and its method lines.
fn judged_book<L: Lines>(
    alloc: Global,
    program: &CoreProgram,
    sets: &RelevantSets,
    table: &[Tree],
    from: L,
) -> Result<(), Wrong>
    requires kept { L.AreLinesKept from }
    requires trees { AreTrees (map cond_of table.now) }
    requires typed { IsTyped (program_of program.now) }
    requires relevant { AreRelevant (program_of program.now) sets.now }
    ensures verdict { IsBookVerdict (program_of program.now) (rel_of sets.now) (record { table = map cond_of table.now; lines = L.lines from }) result }
    ensures near { IsNearBook (rel_of sets.now) (loc_of sets.now) (record { table = map cond_of table.now; lines = L.lines from }) → IfErr result (λ why. why ≢ Wrong.Work) }
    ensures work { IfErr result (λ why. why ≡ Wrong.Work → most_book_work < book_work (program_of program.now) (record { table = map cond_of table.now; lines = L.lines from })) }
{
    let numbers = match shapes(alloc, program, from) {
        Ok(numbers) => numbers,
        Err(wrong) => return Err(wrong),
    };
    let judge = Judge {
        program,
        sets,
        table,
        lines: numbers.as_slice(),
    };
    let over = overs_of(alloc, &judge)?;
    judged_lines(alloc, &judge, &over, from)
}

/// The judgement of a book in memory.
fn judged_memory(
    alloc: Global,
    program: &CoreProgram,
    sets: &RelevantSets,
    book: &DerivBook,
) -> Result<(), Wrong>
    requires typed { IsTyped (program_of program.now) }
    requires relevant { AreRelevant (program_of program.now) sets.now }
    ensures verdict { IsBookVerdict (program_of program.now) (rel_of sets.now) (book_of book.now) result }
    ensures near { IsNearBook (rel_of sets.now) (loc_of sets.now) (book_of book.now) → IfErr result (λ why. why ≢ Wrong.Work) }
    ensures work { IfErr result (λ why. why ≡ Wrong.Work → most_book_work < book_work (program_of program.now) (book_of book.now)) }
{
    let lines = LinesInMemory {
        lines: book.methods.as_slice(),
    };
    judged_book(alloc, program, sets, book.table.as_slice(), lines)
}

/// The judgement of a book in lists.
fn judged_listed(
    alloc: Global,
    program: &CoreProgram,
    sets: &RelevantSets,
    lists: &ListedBook,
) -> Result<(), Wrong>
    requires listed { (book : Book) × IsListedBook lists.now book }
    requires typed { IsTyped (program_of program.now) }
    requires relevant { AreRelevant (program_of program.now) sets.now }
    ensures verdict { (book : Book) → IsListedBook lists.now book → IsBookVerdict (program_of program.now) (rel_of sets.now) book result }
    ensures near { (book : Book) → IsListedBook lists.now book → IsNearBook (rel_of sets.now) (loc_of sets.now) book → IfErr result (λ why. why ≢ Wrong.Work) }
    ensures work { (book : Book) → IsListedBook lists.now book → IfErr result (λ why. why ≡ Wrong.Work → most_book_work < book_work (program_of program.now) book) }
{
    let lines = LinesInList {
        lines: lists.lines.as_slice(),
        nodes: lists.nodes.as_slice(),
    };
    judged_book(alloc, program, sets, lists.table.as_slice(), lines)
}

/// The judgement of the book at which a cursor stands, with no derivation in memory.
fn judged_at(
    alloc: Global,
    program: &CoreProgram,
    sets: &RelevantSets,
    cursor: BookCursor<'_>,
) -> Result<(), Wrong>
    requires book { (book : Book) × IsCursorAt cursor book }
    requires typed { IsTyped (program_of program.now) }
    requires relevant { AreRelevant (program_of program.now) sets.now }
    ensures verdict { (book : Book) → IsCursorAt cursor.entry book → IsBookVerdict (program_of program.now) (rel_of sets.now) book result }
    ensures near { (book : Book) → IsCursorAt cursor.entry book → IsNearBook (rel_of sets.now) (loc_of sets.now) book → IfErr result (λ why. why ≢ Wrong.Work) }
    ensures work { (book : Book) → IsCursorAt cursor.entry book → IfErr result (λ why. why ≡ Wrong.Work → most_book_work < book_work (program_of program.now) book) }
{
    let table = match cursor.table(alloc) {
        Ok(table) => table,
        Err(_) => return Err(Wrong::Memory),
    };
    judged_book(alloc, program, sets, table.as_slice(), cursor)
}

/// The judgement of a text for a program, with no derivation in memory.
fn judged_in_place(
    alloc: Global,
    program: &CoreProgram,
    sets: &RelevantSets,
    bytes: &[u8],
) -> Result<(), TextWrong>
    requires short { length bytes.now ≤ 16777216 }
    requires typed { IsTyped (program_of program.now) }
    requires relevant { AreRelevant (program_of program.now) sets.now }
    ensures judged { IsJudgedText (program_of program.now) (rel_of sets.now) bytes.now result }
    ensures near { (book : Book) → IsBookText bytes.now book → IsNearBook (rel_of sets.now) (loc_of sets.now) book → IfErr result (λ why. why ≢ TextWrong.Wrong Wrong.Work) }
    ensures work { (book : Book) → IsBookText bytes.now book → IfErr result (λ why. why ≡ TextWrong.Wrong Wrong.Work → most_book_work < book_work (program_of program.now) book) }
{
    let cursor = match BookCursor::open(bytes) {
        Ok(cursor) => cursor,
        Err(fault) => return Err(TextWrong::Book(fault)),
    };
    match judged_at(alloc, program, sets, cursor) {
        Ok(()) => Ok(()),
        Err(wrong) => Err(TextWrong::Wrong(wrong)),
    }
}

/// The judgement of a text for a program. The text is read into lists, where there is memory: there a node's premises are passed over
/// at once. Else, and where it is no book's, it is judged in place.
fn judged(
    alloc: Global,
    program: &CoreProgram,
    sets: &RelevantSets,
    bytes: &[u8],
) -> Result<(), TextWrong>
    requires short { length bytes.now ≤ 16777216 }
    requires typed { IsTyped (program_of program.now) }
    requires relevant { AreRelevant (program_of program.now) sets.now }
    ensures judged { IsJudgedText (program_of program.now) (rel_of sets.now) bytes.now result }
    ensures near { (book : Book) → IsBookText bytes.now book → IsNearBook (rel_of sets.now) (loc_of sets.now) book → IfErr result (λ why. why ≢ TextWrong.Wrong Wrong.Work) }
    ensures work { (book : Book) → IsBookText bytes.now book → IfErr result (λ why. why ≡ TextWrong.Wrong Wrong.Work → most_book_work < book_work (program_of program.now) book) }
{
    let Ok(lists) = read_listed(alloc, bytes) else {
        return judged_in_place(alloc, program, sets, bytes);
    };
    match judged_listed(alloc, program, sets, &lists) {
        Ok(()) => Ok(()),
        Err(wrong) => Err(TextWrong::Wrong(wrong)),
    }
}

/// Checks a program by the text of a book, which has at most 16,777,216 bytes and may be anyone's. Hands program and sets back
/// where it refuses.
pub fn accept_text(
    alloc: Global,
    program: CoreProgram,
    sets: RelevantSets,
    bytes: &[u8],
) -> Result<Checked, RefusedText>
    requires short { length bytes.now ≤ 16777216 }
    requires typed { IsTyped (program_of program) }
    requires relevant { AreRelevant (program_of program) sets }

    // The program is checked, or the refusal hands it back with its cause.
    ensures checked { IfOk result (λ checked. checked ≡ (program, sets)) }
    ensures accepted { IfOk result (λ _. IsJudgedText (program_of program) (rel_of sets) bytes.now (Ok (tt {0}))) }
    ensures admissible { IfOk result (λ _. HasAdmissible (program_of program) (rel_of sets) bytes.now) }
    ensures program_back { IfErr result (λ refused. refused.program ≡ program) }
    ensures sets_back { IfErr result (λ refused. refused.sets ≡ sets) }
    ensures refused { IfErr result (λ refused. IsJudgedText (program_of program) (rel_of sets) bytes.now (Err refused.why)) }

    // Each fault is told, and a good book is taken, unless the book isn't judged.
    ensures only_fault { (fault : BookFault) → first_book_fault bytes.now ≡ Some fault →
        MatchResult result (λ _. ⊥) (λ refused. refused.why ≡ TextWrong.Book fault) }
    ensures only_wrong { (book : Book) (fault : Wrong) → IsBookText bytes.now book → (IsUnjudged fault → ⊥) → IsWrongBook (program_of program) (rel_of sets) book fault →
        MatchResult result (λ _. ⊥) (λ refused. (refused.why ≡ TextWrong.Wrong fault) ⊎ IsTextUnjudged refused.why) }
    ensures only_good { (book : Book) → IsBookText bytes.now book → IsGoodBook (program_of program) (rel_of sets) book →
        IfErr result (λ refused. IsTextUnjudged refused.why) }

    // A book each of whose trees tests only paths near its method meets no bound of work.
    ensures near { (book : Book) → IsBookText bytes.now book → IsNearBook (rel_of sets) (loc_of sets) book →
        IfErr result (λ refused. refused.why ≢ TextWrong.Wrong Wrong.Work) }

    // A bound of work is met only where the work of the book is above it.
    ensures work { (book : Book) → IsBookText bytes.now book →
        IfErr result (λ refused. refused.why ≡ TextWrong.Wrong Wrong.Work → most_book_work < book_work (program_of program) book) }
{
    // Only the proof needs this: no method has too many paths.
    sets.few();
    match judged(alloc, &program, &sets, bytes) {
        Ok(()) => Ok(Checked { program, sets }),
        Err(why) => Err(RefusedText { program, sets, why }),
    }
}

/// Checks a program by a book in memory, which may be anyone's. Hands program and sets back where it refuses.
pub fn accept(
    alloc: Global,
    program: CoreProgram,
    sets: RelevantSets,
    book: &DerivBook,
) -> Result<Checked, Refused>
    requires typed { IsTyped (program_of program) }
    requires relevant { AreRelevant (program_of program) sets }

    // The program is checked, or the refusal hands it back with its cause.
    ensures checked { IfOk result (λ checked. checked ≡ (program, sets)) }
    ensures accepted { IfOk result (λ _. IsGoodBook (program_of program) (rel_of sets) (book_of book.now)) }
    ensures admissible { IfOk result (λ _. IsAdmissible (program_of program) (rel_of sets) (book_assignment (book_of book.now))) }
    ensures program_back { IfErr result (λ refused. refused.program ≡ program) }
    ensures sets_back { IfErr result (λ refused. refused.sets ≡ sets) }
    ensures refused { IfErr result (λ refused. IsWrongBook (program_of program) (rel_of sets) (book_of book.now) refused.why) }

    // What is wrong first is told, and a good book is taken, unless the book isn't judged.
    ensures only_wrong { (fault : Wrong) → (IsUnjudged fault → ⊥) → IsWrongBook (program_of program) (rel_of sets) (book_of book.now) fault →
        MatchResult result (λ _. ⊥) (λ refused. (refused.why ≡ fault) ⊎ IsUnjudged refused.why) }
    ensures only_good { IsGoodBook (program_of program) (rel_of sets) (book_of book.now) → IfErr result (λ refused. IsUnjudged refused.why) }

    // A book each of whose trees tests only paths near its method meets no bound of work.
    ensures near { IsNearBook (rel_of sets) (loc_of sets) (book_of book.now) → IfErr result (λ refused. refused.why ≢ Wrong.Work) }

    // A bound of work is met only where the work of the book is above it.
    ensures work { IfErr result (λ refused. refused.why ≡ Wrong.Work → most_book_work < book_work (program_of program) (book_of book.now)) }
{
    // Only the proof needs this: no method has too many paths.
    sets.few();
    match judged_memory(alloc, &program, &sets, book) {
        Ok(()) => Ok(Checked { program, sets }),
        Err(why) => Err(Refused { program, sets, why }),
    }
}
