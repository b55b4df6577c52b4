//! What the program answers to sources whose classes extend each other.

use crate::schedule_tests::{expect, expect_inputs};
use crate::tests::{expect_texts, written};
use std::test::Fail;

/// Sources whose classes don't fit together, each with its line.
static UNFIT: [(&str, &str); 25] = [
    // The class behind `extends` is unknown, or a class is on or below a circle.
    ("class A extends B { }", "refused at 1:17: unknown class\n"),
    ("class A extends A { }", "refused at 1:7: circle\n"),
    (
        "class A extends B { } class B extends A { } class Main { void main() { } }",
        "refused at 1:7: circle\n",
    ),
    (
        "class C extends A { } class A extends B { } class B extends A { }",
        "refused at 1:7: circle\n",
    ),
    // Of two classes of one name the first is meant.
    (
        "class A { } class A extends A { }",
        "refused at 1:19: declared twice\n",
    ),
    (
        "class A extends A { } class A { }",
        "refused at 1:7: circle\n",
    ),
    // A class on a circle may count as Runnable, and inherits no `run`.
    (
        "class A extends B { } class B extends A implements Runnable { void run() { } }",
        "refused at 1:7: no run\n",
    ),
    // A field has the name of one that is inherited, from the nearest or a further class.
    (
        "class A { int f; } class B extends A { boolean f; }",
        "refused at 1:48: declared twice\n",
    ),
    (
        "class C extends B { int f; } class B extends A { } class A { int f; }",
        "refused at 1:25: declared twice\n",
    ),
    // Inherited final fields come first in a constructor.
    (
        "class A { final int n; A(int n) { this.n = n; } } class B extends A { }",
        "refused at 1:57: bad constructor\n",
    ),
    (
        "class B extends A { B(int m, int n) { this.m = m; this.n = n; } final int m; } \
        class A { final int n; A(int n) { this.n = n; } }",
        "refused at 1:21: bad constructor\n",
    ),
    (
        "class B extends A { B() { } } class A { int n; }",
        "refused at 1:21: bad constructor\n",
    ),
    // A class that counts as Runnable has no `run`, its own or from above.
    (
        "class B extends A { } class A implements Runnable { }",
        "refused at 1:7: no run\n",
    ),
    // An inherited `run` is enough, but one of another form may not override it.
    (
        "class A implements Runnable { void run() { } } class B extends A { int run() { return 1; } }",
        "refused at 1:72: bad override\n",
    ),
    // The parameters' types and marks, the result, `atomic` and `requires` are those of the method that is overridden.
    (
        "class A { void f(int a) { } } class B extends A { void f(boolean a) { } }",
        "refused at 1:56: bad override\n",
    ),
    (
        "class A { void f(int a) { } } class B extends A { void f() { } }",
        "refused at 1:56: bad override\n",
    ),
    (
        "class A { void f(int a) { } } class B extends A { void f(final int a) { } }",
        "refused at 1:56: bad override\n",
    ),
    (
        "class A { int f() { return 1; } } class B extends A { void f() { } }",
        "refused at 1:60: bad override\n",
    ),
    (
        "class A { A f() { return this; } } class B extends A { B f() { return this; } }",
        "refused at 1:58: bad override\n",
    ),
    (
        "class A { void f() { } } class B extends A { atomic void f() { } } class Main { void main() { } }",
        "refused at 1:58: bad override\n",
    ),
    (
        "class A { void f() { } } class B extends A { void f() requires this { } }",
        "refused at 1:51: bad override\n",
    ),
    // The class between lacks the method.
    (
        "class C extends B { int f() { return 1; } } class B extends A { } class A { void f() { } }",
        "refused at 1:25: bad override\n",
    ),
    // What is overridden twice.
    (
        "class A { void f() { } } class B extends A { int f() { return 1; } } class C extends B { void f() { } }",
        "refused at 1:50: bad override\n",
    ),
    // `Main` has final fields from above, or no `main`.
    (
        "class A { final int n; A(int n) { this.n = n; } } class Main extends A { Main(int n) { this.n = n; } void main() { } }",
        "refused at 1:1: no main\n",
    ),
    (
        "class A { int main() { return 1; } } class Main extends A { }",
        "refused at 1:1: no main\n",
    ),
];

#[test]
fn classes_that_extend_each_other_fit_together(rt: HostRuntime) -> Result<(), Fail> {
    expect_texts(&rt, rt.alloc(), "check", 1, &UNFIT)
}

#[test]
fn inherited_fields_count(rt: HostRuntime) -> Result<(), Fail> {
    let mut source = String::from_str(rt.alloc(), "class A {\n")?;
    for letter in ["a", "b", "c", "d"] {
        for number in ["0", "1", "2", "3", "4", "5", "6", "7"] {
            source.push_str("int ")?;
            source.push_str(letter)?;
            source.push_str(number)?;
            source.push_str(";\n")?;
        }
    }
    source.push_str("} class B extends A { int g; }")?;
    let rows = [(source.as_str(), "refused at 34:27: too many\n")];
    expect_texts(&rt, rt.alloc(), "check", 1, &rows)
}

/// Sources with a fault of their types, each with its line.
static UNTYPED: [(&str, &str); 6] = [
    // A class doesn't fit one below it, nor one beside it.
    (
        "class A { } class B extends A { } class Main { void main() { B b = new A(); } }",
        "refused at 1:64: no rule\n",
    ),
    (
        "class A { } class B extends A { } class C extends A { } class Main { void main() { if (new B() == new C()) ; } }",
        "refused at 1:96: no rule\n",
    ),
    // The class of a variable decides which members there are.
    (
        "class A { } class B extends A { int f() { return 1; } } class Main { void main() { A a = new B(); a.f(); } }",
        "refused at 1:101: unknown name\n",
    ),
    // New objects take the inherited final fields too.
    (
        "class A { final int n; A(int n) { this.n = n; } } class B extends A { B(int n) { this.n = n; } } \
        class Main { void main() { new B(); } }",
        "refused at 1:129: no rule\n",
    ),
    // An inherited final field isn't assigned.
    (
        "class A { final int n; A(int n) { this.n = n; } } class B extends A { B(int n) { this.n = n; } void f() { this.n = 1; } } \
        class Main { void main() { } }",
        "refused at 1:112: final assigned\n",
    ),
    // A `requires` with an unknown name makes no bad override.
    (
        "class A { void f() { } } class B extends A { void f() requires this.x { } } class Main { void main() { } }",
        "refused at 1:69: unknown name\n",
    ),
];

#[test]
fn types_go_up(rt: HostRuntime) -> Result<(), Fail> {
    expect_texts(&rt, rt.alloc(), "check", 1, &UNTYPED)
}

/// Accepted sources, each with its lines.
static ACCEPTED: [(&str, &str); 11] = [
    (
        "class A { int v guarded_by this; atomic void put() { synchronized (this) { this.v = 1; } } } \
        class B extends A { atomic void put() { } } class Main { void main() { } }",
        "A.put this ? mover : atomic\nB.put const\nMain.main const\n",
    ),
    // A field and a method of the class two classes above.
    (
        "class C extends B { int both() requires this { return this.v + this.get(); } } class B extends A { } \
        class A { int v guarded_by this; int get() { synchronized (this) { return this.v; } } } class Main { void main() { } }",
        "C.both mover\nA.get this ? mover : atomic\nMain.main const\n",
    ),
    // A method that the class between lacks is overridden: what runs may be compound.
    (
        "class A { void f() { } } class B extends A { } class C extends B { int v; void f() { this.v = 1; this.v = 2; } } \
        class Main { void main() { new B().f(); } }",
        "A.f cmpd\nC.f cmpd\nMain.main cmpd\n",
    ),
    // A call through the class below is that class's alone.
    (
        "class A { int v; void f() { this.v = 1; this.v = 2; } } class B extends A { void f() { } } \
        class Main { void main() { new B().f(); } }",
        "A.f cmpd\nB.f const\nMain.main mover\n",
    ),
    // A `run` from above, and the class that says `implements Runnable`.
    (
        "class A { void run() { } } class B extends A implements Runnable { } class C extends B { } \
        class Main { void main() { new Thread(new C()).start(); } }",
        "A.run const\nMain.main atomic\n",
    ),
    // A lock through an inherited final field.
    (
        "class L { } class A { final L l; A(L l) { this.l = l; } } \
        class B extends A { int v guarded_by this.l; B(L l) { this.l = l; } atomic void f() { synchronized (this.l) { this.v = 1; } } } \
        class Main { void main() { } }",
        "B.f this.l ? mover : atomic\nMain.main const\n",
    ),
    // A path that begins with a field which the class above lacks counts as not held there.
    (
        "class L { } class A { atomic void f() { } } class B extends A { final L l; int v guarded_by this.l; B(L l) { this.l = l; } \
        atomic void f() { synchronized (this.l) { this.v = 1; } } } class Main { void main() { } }",
        "A.f atomic\nB.f this.l ? mover : atomic\nMain.main const\n",
    ),
    // The parameters may have other names, and the locks stand in another order.
    (
        "class A { final A n; A(A n) { this.n = n; } void f(final A a) requires a.n, this { } } \
        class B extends A { B(A n) { this.n = n; } void f(final A b) requires this, b.n, this { } } class Main { void main() { } }",
        "A.f const\nB.f const\nMain.main const\n",
    ),
    // `main` from above.
    (
        "class A { void main() { } } class Main extends A { }",
        "A.main const\n",
    ),
    // A class fits one above it: an argument, a result, a value of a local, one of a field, and both sides of `==`.
    (
        "class A { A a; A f(A a) { return new B(); } } class B extends A { } \
        class Main { void main() { A a = new B(); a.a = new B().f(new B()); if (a == new B()) ; } }",
        "A.f mover\nMain.main atomic\n",
    ),
    // An inherited guarded field, with the guard of the class above.
    (
        "class A { int v guarded_by this; } class B extends A { atomic void f(final B b) { synchronized (b) { b.v = 1; } } } \
        class Main { void main() { } }",
        "B.f b ? mover : atomic\nMain.main const\n",
    ),
];

#[test]
fn families_are_judged(rt: HostRuntime) -> Result<(), Fail> {
    expect_texts(&rt, rt.alloc(), "check", 0, &ACCEPTED)
}

/// Sources in which a promise isn't kept, each with its line.
static BROKEN: [(&str, &str); 2] = [
    (
        "class A { int v guarded_by this; atomic void put() { synchronized (this) { this.v = 1; } } } \
        class B extends A { atomic void put() { this.v = 2; } } class Main { void main() { } }",
        "A.put: declared atomic, found error\n",
    ),
    (
        "class B extends A { void f() { this.v = 2; } } class A { int v guarded_by this; void f() { } } class Main { void main() { } }",
        "B.f: declared cmpd, found error\n",
    ),
];

#[test]
fn overriding_methods_count_for_those_that_they_override(rt: HostRuntime) -> Result<(), Fail> {
    expect_texts(&rt, rt.alloc(), "check", 2, &BROKEN)
}

/// Classes as they are printed.
static PRINTED: [(&str, &str); 2] = [
    (
        "public class B extends A implements Runnable{}class A{}",
        "class B extends A implements Runnable {\n}\nclass A {\n}\n",
    ),
    (
        "class A extends A { A a; }",
        "class A extends A {\n    A a;\n}\n",
    ),
];

/// Heads of classes that are none, each with its line.
static UNREADABLE: [(&str, &str); 4] = [
    ("class A extends { }", "refused at 1:17: unexpected\n"),
    ("class A extends B, C { }", "refused at 1:18: unexpected\n"),
    (
        "class A implements Runnable extends B { }",
        "refused at 1:29: unexpected\n",
    ),
    (
        "class A extends B extends C { }",
        "refused at 1:19: unexpected\n",
    ),
];

#[test]
fn heads_of_classes_are_read_and_printed(rt: HostRuntime) -> Result<(), Fail> {
    expect_texts(&rt, rt.alloc(), "print", 0, &PRINTED)?;
    expect_texts(&rt, rt.alloc(), "print", 1, &UNREADABLE)
}

/// The class of the receiver chooses the method.
const CHOOSES: &str =
    "class A { int get() { return 1; } } class B extends A { int get() { return 2; } } \
    class Main { void main() { A a = new B(); System.out.println(a.get()); } }";

/// The class between the one that says `implements Runnable` and the one of the object has the `run` that runs.
const STARTS: &str = "class A implements Runnable { void run() { } } \
    class B extends A { public void run() { System.out.println(2); } } class C extends B { } \
    class Main { void main() { A a = new C(); new Thread(a).start(); } }";

/// Inherited fields come first.
const FIELDS: &str =
    "class B extends A { final int z; boolean w; B(int x, int z) { this.x = x; this.z = z; } } \
    class A { final int x; int y; A(int x) { this.x = x; } int sum() { return this.x + this.y; } } \
    class Main { void main() { B b = new B(3, 4); b.y = 5; System.out.println(b.sum() + b.z); } }";

#[test]
fn the_class_of_the_object_chooses_the_method(rt: HostRuntime) -> Result<(), Fail> {
    let rows = [(
        "0*9",
        0,
        "print 2\nobject 0:0 Main\nobject 0:1 B\nthread 0 done\n",
    )];
    expect_inputs(&rt, rt.alloc(), "run", CHOOSES, &rows)?;
    let rows = [(
        "0*6 1*4",
        0,
        "print 2\nobject 0:0 Main\nobject 0:1 C\nthread 0 done\nthread 1 done\n",
    )];
    expect_inputs(&rt, rt.alloc(), "run", STARTS, &rows)?;
    let rows = [(
        "0*21",
        0,
        "print 12\nobject 0:0 Main\nobject 0:1 B x=3 y=5 z=4 w=false\nthread 0 done\n",
    )];
    expect_inputs(&rt, rt.alloc(), "run", FIELDS, &rows)
}

/// A method with one that overrides it.
const OVERRIDDEN: &str =
    "class A { int v guarded_by this; atomic void put() { synchronized (this) { this.v = 1; } } } \
    class B extends A { atomic void put() { } } class Main { void main() { } }";

/// Books for it, each with the status and the text of `verify`. In the second one the overriding method has an atomicity that isn't at or
/// below that of the overridden one where the lock is held; in the third one it has a fault of its own too, which comes later.
static BOOKS: [(&str, u8, &str); 3] = [
    (
        "book 3\n(0 mover atomic)\n(0 mover error)\nconst\nmethod 0 0\n(block 0 (sync 0 (block 1 (put 1 (this 2) (lit 2)))))\n\
        method 1 2\n(block 2)\nmethod 2 2\n(block 2)\nend\n",
        0,
        "verified\n",
    ),
    (
        "book 4\n(0 mover atomic)\n(0 mover error)\nconst\natomic\nmethod 0 0\n(block 0 (sync 0 (block 1 (put 1 (this 2) (lit 2)))))\n\
        method 1 3\n(block 2)\nmethod 2 2\n(block 2)\nend\n",
        11,
        "book refused: method 0: override\n",
    ),
    (
        "book 4\n(0 mover atomic)\n(0 mover error)\nconst\ncmpd\nmethod 0 0\n(block 0 (sync 0 (block 1 (put 1 (this 2) (lit 2)))))\n\
        method 1 3\n(block 2)\nmethod 2 2\n(block 2)\nend\n",
        11,
        "book refused: method 0: override\n",
    ),
];

#[test]
fn a_book_says_what_overriding_methods_are(rt: HostRuntime) -> Result<(), Fail> {
    let derived = written(&rt, rt.alloc(), "derive", OVERRIDDEN.as_bytes())?;
    let (good, _, _) = BOOKS[0];
    assert_eq!(&rt; derived.as_slice(), good.as_bytes());
    expect_inputs(&rt, rt.alloc(), "verify", OVERRIDDEN, &BOOKS)
}

#[test]
fn a_family_is_serialised(rt: HostRuntime) -> Result<(), Fail> {
    expect(
        &rt,
        rt.alloc(),
        "serialise",
        STARTS,
        b"0*6 1*4",
        (
            0,
            b"0*6 1*4\n# print 2\n# object 0:0 Main\n# object 0:1 C\n# thread 0 done\n# thread 1 done\n",
        ),
    )
}
