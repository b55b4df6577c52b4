//! Calls of single parts that no row of the program shows by itself.

use crate::schedule_tests::expect_inputs;
use crate::tests::{add_file, answer_over};
use algebra::{Algebra, Basic};
use conditions::{Tree, Trees, tree_text};
use lexer::lex;
use paths::{MethodId, Path, under_call};
use state::{Address, Entered, ThreadCell, Value};
use std::alloc::Global;
use std::test::Fail;

/// A thread that has just begun a method with one slot.
fn begun(alloc: Global) -> Result<ThreadCell, Fail> {
    let on = Address {
        thread: 0,
        count: 0,
    };
    let mut slots = Vec::new(alloc);
    slots.push(Value::Ref(on))?;
    let mut thread = ThreadCell::ready(alloc, on, MethodId(0));
    if thread.frames() != 0 {
        return Err(Fail::new("a ready thread has frames"));
    }
    let entered = Entered {
        method: MethodId(0),
        entry: 7,
        room: 0,
    };
    thread.push_frame(alloc, entered, slots)?;
    Ok(thread)
}

/// Room for four operands is made on a new frame, and four are put there, the last one on top.
#[test]
fn a_new_frame_takes_operands(rt: HostRuntime) -> Result<(), Fail> {
    let mut thread = begun(rt.alloc())?;
    if thread.top().is_none() {
        return Err(Fail::new("the thread has no frame"));
    }
    thread.make_room(4)?;
    for number in 1..5_i32 {
        if thread.top().is_some() {
            thread.push(Value::Int(number))?;
        }
    }
    assert_eq!(rt; thread.operands().len(), 4);
    assert!(rt; matches!(thread.operands().last(), Some(Value::Int(4))));
    assert_eq!(rt; thread.frames(), 1);
    assert_eq!(rt; thread.place(), Some(7));
    Ok(())
}

/// A path of a callee's parameter has no name where the argument has none.
#[test]
fn a_path_under_a_call_may_have_no_name(rt: HostRuntime) -> Result<(), Fail> {
    assert!(rt; under_call(&Path::of_root(1), None, &[None]).is_none());
    assert!(rt; under_call(&Path::of_root(0), None, &[]).is_none());
    assert!(rt; under_call(&Path::of_root(2), None, &[None]).is_none());
    Ok(())
}

/// A test on a path, with two basics.
fn either(alloc: Global, path: Path, held: Basic, free: Basic) -> Result<Tree, Fail> {
    let held = Box::new(alloc, Tree::Leaf(held))?;
    let free = Box::new(alloc, Tree::Leaf(free))?;
    Ok(Tree::Test(path, held, free))
}

#[test]
fn a_tree_has_its_text(rt: HostRuntime) -> Result<(), Fail> {
    let tree = either(rt.alloc(), Path::of_root(1), Basic::Mover, Basic::Error)?;
    let text = tree_text(rt.alloc(), &tree)?;
    assert_eq!(rt; text.as_str(), "(1 mover error)");
    Ok(())
}

/// A synchronized part whose body is `const` is `const` under its lock, else atomic; and so it is not below a mover.
#[test]
fn equal_values_are_equal_trees(rt: HostRuntime) -> Result<(), Fail> {
    let alloc = rt.alloc();
    let mut trees = Trees;
    let lock = Path::of_root(1);
    let body = trees.leaf(alloc, Basic::Const)?;
    let part = trees.sync(alloc, &lock, &body)?;
    let same = either(alloc, Path::of_root(1), Basic::Const, Basic::Atomic)?;
    let other = either(alloc, Path::of_root(1), Basic::Const, Basic::Mover)?;
    assert!(rt; part.same(&same));
    assert!(rt; !part.same(&other));
    Ok(())
}

#[test]
fn names_are_slices_of_the_source(rt: HostRuntime) -> Result<(), Fail> {
    let source = "class Main { int v; void main() { } }";
    let tokens = lex(rt.alloc(), source)?;
    for token in tokens.iter() {
        if token.at == 6 {
            assert_eq!(rt; token.text, "Main");
        }
        if token.at == 17 {
            assert_eq!(rt; token.text, "v");
        }
    }
    assert_eq!(rt; tokens.len(), 13);
    Ok(())
}

/// The second file is read before the first is judged, so that one that is missing is told of any source.
#[test]
fn a_missing_file_is_told_before_a_bad_source(rt: HostRuntime) -> Result<(), Fail> {
    for command in ["run", "serialise", "serialise-open", "verify"] {
        let mut files = Vec::new(rt.alloc());
        add_file(rt.alloc(), &mut files, "a", b"?")?;
        let given = answer_over(
            rt.alloc(),
            &[command, "a", "z"],
            files,
            Vec::new(rt.alloc()),
        )?;
        assert_eq!(rt; given.0, 6);
        assert_eq!(rt; given.1.as_slice(), b"cannot read z\n".as_slice());
    }
    Ok(())
}

/// Every action of the machine and every operator: all are printed in `main`, and a worker is started.
const EVERY_ACTION: &str =
    "class Pair { final int k; int v guarded_by this; Pair(int k) { this.k = k; } \
    atomic int put(int n) { synchronized (this) { this.v = n; return this.v; } } } \
    class W implements Runnable { final Pair p; W(Pair p) { this.p = p; } public void run() { this.p.put(9); } } \
    class Main { void show(boolean b) { if (b) System.out.println(1); else System.out.println(0); } \
    void main() { final Pair p = new Pair(3); int a = p.put(5); boolean t = true; \
    System.out.println(a + p.k); System.out.println(a - 3); System.out.println(a * 3); System.out.println(a / 3); System.out.println(a % 3); \
    System.out.println(-a); this.show(!t); this.show(a < 5); this.show(a <= 5); this.show(a > 5); this.show(a >= 5); \
    this.show(a == 5); this.show(a != 5); this.show(p == null); this.show(t && a == 5); this.show(t || a == 6); this.show(!t || !t && t); \
    while (a > 3) a = a - 1; System.out.println(a); new Thread(new W(p)).start(); } }";

/// What the schedule leaves, by hand: 5 + 3, 5 - 3, 5 * 3, 5 / 3, 5 % 3, -5; then the truths as 1 and 0; 3 after two turns; and
/// the worker's write, which the last step of `main` interrupts.
static EVERY_RUN: [(&str, u8, &str); 1] = [(
    "0*181 1*6 0 1*10",
    0,
    "print 8\nprint 2\nprint 15\nprint 1\nprint 2\nprint -5\nprint 0\nprint 0\nprint 1\nprint 0\nprint 1\nprint 1\nprint 0\nprint 0\n\
    print 1\nprint 1\nprint 0\nprint 3\nobject 0:0 Main\nobject 0:1 Pair k=3 v=9\nobject 0:2 W p=0:1\nthread 0 done\nthread 1 done\n",
)];

/// The same in the written order: the worker's call begins behind its first four steps, and `main` ends before it.
static EVERY_ORDER: [(&str, u8, &str); 1] = [(
    "0*181 1*6 0 1*10",
    0,
    "0*181 1*4 0 1*12\n# print 8\n# print 2\n# print 15\n# print 1\n# print 2\n# print -5\n# print 0\n# print 0\n# print 1\n# print 0\n\
    # print 1\n# print 1\n# print 0\n# print 0\n# print 1\n# print 1\n# print 0\n# print 3\n# object 0:0 Main\n\
    # object 0:1 Pair k=3 v=9\n# object 0:2 W p=0:1\n# thread 0 done\n# thread 1 done\n",
)];

#[test]
fn every_action_and_operator_runs(rt: HostRuntime) -> Result<(), Fail> {
    expect_inputs(&rt, rt.alloc(), "run", EVERY_ACTION, &EVERY_RUN)?;
    expect_inputs(&rt, rt.alloc(), "serialise", EVERY_ACTION, &EVERY_ORDER)
}
