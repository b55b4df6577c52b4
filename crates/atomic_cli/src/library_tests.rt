//! Calls of the libraries that no row of the program reaches: books in memory and their judgement, the written order of a checked
//! program, and copies of a machine's parts.

use crate::machine_tests::{BOOK, COUNTER, checked_of, schedule_of, source_of};
use book_check::{Checked, Refused, Wrong, accept};
use books::{BookCursor, BookFault, DerivBook, Word, read_book, read_table, write_book};
use compile::compile;
use conditions::Tree;
use library::{serialise, serialise_open};
use serialise::{RunEnd, SerialEnd};
use sources::Source;
use std::alloc::Global;
use std::process::Abort;
use std::test::Fail;

/// The book of the counter program without its last method.
const SHORT_BOOK: &str =
    "book 7\n(0 mover atomic)\n(0 mover error)\nconst\n(0.1 mover atomic)\ncmpd\nmover\natomic\nmethod 0 0\n\
    (block 0 (sync 0 (block 1 (put 1 (this 2) (bin 1 (get 1 (this 2)) (lit 2))))))\nmethod 1 3\n(block 3 (do 3 (call 3 (get 2 (this 2)))))\nend\n";

/// The book of a text.
fn book_of(alloc: Global, text: &str) -> Result<DerivBook, Fail> {
    if text.len() > 16777216 {
        return Err(Fail::new("a long book"));
    }
    match read_book(alloc, text.as_bytes()) {
        Ok(book) => Ok(book),
        Err(_) => Err(Fail::new("no book")),
    }
}

/// Where a text is no book.
fn fault_of(alloc: Global, text: &str) -> Result<BookFault, Fail> {
    if text.len() > 16777216 {
        return Err(Fail::new("a long book"));
    }
    match read_table(alloc, text.as_bytes()) {
        Ok(_) => Err(Fail::new("a book")),
        Err(fault) => Ok(fault),
    }
}

/// The judgement of a book for a source.
fn judged(alloc: Global, text: &str, book: &DerivBook) -> Result<Result<Checked, Refused>, Fail> {
    let Source { program, sets, .. } = source_of(alloc, text)?;
    Ok(accept(alloc, program, sets, book))
}

/// The book has these counts, and is written as this text.
fn expect_written(
    rt: &impl Abort,
    alloc: Global,
    book: &DerivBook,
    counts: (usize, usize),
    text: &str,
) -> Result<(), Fail> {
    assert_eq!(rt; (book.table.len(), book.methods.len()), counts);
    let written = write_book(alloc, book)?;
    assert_eq!(rt; written.as_slice(), text.as_bytes());
    Ok(())
}

/// The table of a text has these trees.
fn expect_table(rt: &impl Abort, alloc: Global, text: &str, trees: &[Tree]) -> Result<(), Fail> {
    if text.len() > 16777216 {
        return Err(Fail::new("a long book"));
    }
    let Ok(table) = read_table(alloc, text.as_bytes()) else {
        return Err(Fail::new("no table"));
    };
    assert_eq!(rt; table.len(), trees.len());
    for (tree, other) in table.iter().zip(trees.iter()) {
        assert!(rt; tree.same(other));
    }
    Ok(())
}

#[test]
fn a_book_that_was_read_is_written_back(rt: HostRuntime) -> Result<(), Fail> {
    let book = book_of(rt.alloc(), BOOK)?;
    expect_written(&rt, rt.alloc(), &book, (7, 3), BOOK)?;
    expect_table(&rt, rt.alloc(), BOOK, book.table.as_slice())
}

#[test]
fn the_table_of_no_book_has_the_same_fault(rt: HostRuntime) -> Result<(), Fail> {
    let alloc = rt.alloc();
    assert!(rt; fault_of(alloc, "book 01\nconst\nend\n")? == BookFault::Form(6));
    assert!(rt; fault_of(alloc, "book 0\nmethod 0 0")? == BookFault::Form(16));
    Ok(())
}

/// The book of a text is a good one of the counter program.
fn expect_good(rt: &impl Abort, alloc: Global, text: &str) -> Result<(), Fail> {
    let book = book_of(alloc, text)?;
    let judgement = judged(alloc, COUNTER, &book)?;
    assert!(rt; judgement.is_ok());
    Ok(())
}

/// The book of a text is refused for this reason, and the counter program is handed back.
fn expect_refused(rt: &impl Abort, alloc: Global, text: &str, why: Wrong) -> Result<(), Fail> {
    let book = book_of(alloc, text)?;
    match judged(alloc, COUNTER, &book)? {
        Ok(_) => assert!(rt; false),
        Err(refused) => {
            assert!(rt; refused.why == why);
            assert_eq!(rt; refused.program.methods().len(), 3);
        }
    }
    Ok(())
}

#[test]
fn a_book_in_memory_is_judged(rt: HostRuntime) -> Result<(), Fail> {
    expect_good(&rt, rt.alloc(), BOOK)?;
    expect_refused(
        &rt,
        rt.alloc(),
        SHORT_BOOK,
        Wrong::Shape { method: 2, node: 0 },
    )
}

/// The written order of a schedule of the counter program.
fn order_of(alloc: Global, schedule: &[u32]) -> Result<Result<Vec<u32>, SerialEnd>, Fail> {
    if schedule.len() > 200000 {
        return Err(Fail::new("a long schedule"));
    }
    let checked = checked_of(alloc, COUNTER, BOOK)?;
    let code = compile(alloc, checked.program())?;
    Ok(serialise(alloc, &checked, &code, schedule))
}

/// The written order of these groups has the others.
fn expect_order(
    rt: &impl Abort,
    alloc: Global,
    groups: &[(u32, u32)],
    others: &[(u32, u32)],
) -> Result<(), Fail> {
    let schedule = schedule_of(alloc, groups)?;
    let order = schedule_of(alloc, others)?;
    match order_of(alloc, schedule.as_slice())? {
        Ok(found) => assert_eq!(rt; found.as_slice(), order.as_slice()),
        Err(_) => assert!(rt; false),
    }
    Ok(())
}

/// These groups end with this thread inside a call.
fn expect_open(
    rt: &impl Abort,
    alloc: Global,
    groups: &[(u32, u32)],
    inside: u32,
) -> Result<(), Fail> {
    let schedule = schedule_of(alloc, groups)?;
    match order_of(alloc, schedule.as_slice())? {
        Err(SerialEnd::Open { thread }) => assert_eq!(rt; thread, inside),
        _ => assert!(rt; false),
    }
    Ok(())
}

/// A schedule of the counter program in groups.
static GROUPS: [(u32, u32); 11] = [
    (0, 10),
    (1, 4),
    (2, 4),
    (1, 2),
    (2, 1),
    (1, 7),
    (2, 1),
    (1, 1),
    (2, 8),
    (1, 1),
    (2, 1),
];

/// Its written order.
static ORDER: [(u32, u32); 7] = [(0, 10), (1, 3), (2, 3), (1, 11), (2, 11), (1, 1), (2, 1)];

#[test]
fn a_checked_program_is_serialised(rt: HostRuntime) -> Result<(), Fail> {
    expect_order(&rt, rt.alloc(), &GROUPS, &ORDER)?;
    expect_open(&rt, rt.alloc(), &[(0, 10), (1, 6)], 1)
}

/// The open order of a schedule of the counter program.
fn open_order_of(alloc: Global, schedule: &[u32]) -> Result<Result<Vec<u32>, RunEnd>, Fail> {
    if schedule.len() > 200000 {
        return Err(Fail::new("a long schedule"));
    }
    let checked = checked_of(alloc, COUNTER, BOOK)?;
    let code = compile(alloc, checked.program())?;
    Ok(serialise_open(alloc, &checked, &code, schedule))
}

/// A schedule of the counter program that ends with both workers inside a call, in groups.
static OPEN_GROUPS: [(u32, u32); 3] = [(0, 10), (2, 5), (1, 5)];

/// Its open order.
static OPEN_ORDER: [(u32, u32); 4] = [(0, 10), (2, 3), (1, 5), (2, 2)];

#[test]
fn a_checked_program_is_put_in_open_order(rt: HostRuntime) -> Result<(), Fail> {
    let schedule = schedule_of(rt.alloc(), &OPEN_GROUPS)?;
    let order = schedule_of(rt.alloc(), &OPEN_ORDER)?;
    match open_order_of(rt.alloc(), schedule.as_slice())? {
        Ok(found) => assert_eq!(rt; found.as_slice(), order.as_slice()),
        Err(_) => assert!(rt; false),
    }
    let stops = schedule_of(rt.alloc(), &[(0, 3), (5, 1)])?;
    match open_order_of(rt.alloc(), stops.as_slice())? {
        Err(RunEnd::Stopped(stopped)) => assert_eq!(rt; stopped.entry, 4),
        _ => assert!(rt; false),
    }
    Ok(())
}

#[test]
fn a_node_may_stay_as_long_as_its_bytes(rt: HostRuntime) -> Result<(), Fail> {
    let bytes = BOOK.as_bytes().to_vec(rt.alloc())?;
    if bytes.len() > 16777216 {
        return Err(Fail::new("a long book"));
    }
    let Ok(mut cursor) = BookCursor::open(bytes.as_slice()) else {
        return Err(Fail::new("no book"));
    };
    let Some(line) = cursor.next_method() else {
        return Err(Fail::new("no line"));
    };
    let node = line.node;
    assert!(rt; node.word == Word::Block);
    assert_eq!(rt; node.bytes.len(), 78);
    Ok(())
}
