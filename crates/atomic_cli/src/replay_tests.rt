//! What the program answers to `replay`, and what calls give that are evaluated by themselves.

use crate::machine_tests::{COUNTER, core_of, machine_after, schedule_of};
use crate::schedule_tests::{expect, expect_inputs};
use crate::tests::LOCKED;
use compile::compile;
use core_program::CoreProgram;
use machine::Machine;
use paths::MethodId;
use replay::{EvalEnd, Plain, PlainCall, evaluate};
use state::{Address, Fault, Value};
use std::alloc::Global;
use std::test::Fail;

/// A method that is called twice, with what it gives.
const ADDS: &str =
    "class Main { int n guarded_by this; atomic int add(int k) { synchronized (this) { this.n = this.n + k; return this.n; } } \
    void main() { System.out.println(this.add(3)); System.out.println(this.add(4)); } }";

/// Calls in a loop.
const LOOPS: &str =
    "class Main { int n guarded_by this; atomic int add(int k) { synchronized (this) { this.n = this.n + k; return this.n; } } \
    void main() { int i = 1; while (i < 3) { this.add(-i); i = i + 1; } } }";

/// Calls within a call.
const NESTED: &str =
    "class Main { int n guarded_by this; atomic int add(int k) { synchronized (this) { this.n = this.n + k; return this.n; } } \
    atomic int twice(int k) { synchronized (this) { this.add(k); return this.add(k); } } \
    void main() { this.twice(4); this.add(1); } }";

/// Calls that print, make an object and start a thread, and one that is its thread's first method.
const EFFECTS: &str =
    "class Cell { int v; } class W implements Runnable { public atomic void run() { System.out.println(7); } } \
    class Main { atomic boolean say() { System.out.println(-3); return true; } atomic Cell make() { return new Cell(); } \
    atomic void go() { new Thread(new W()).start(); } void main() { this.say(); this.make(); this.go(); } }";

/// A call that runs what the receiver's class says.
const OVERRIDDEN: &str =
    "class A { atomic int get() { return 1; } } class B extends A { atomic int get() { return 2; } } \
    class Main { void main() { A a = new B(); System.out.println(a.get()); } }";

/// A call that has 100 frames, since its method calls itself 99 times under its lock.
const HUNDRED: &str =
    "class Main { int n guarded_by this; atomic int down(int k) { synchronized (this) { if (k == 0) { return this.n; } \
    return this.down(k - 1); } } void main() { this.down(99); } }";

/// The same with one frame more.
const HUNDRED_AND_ONE: &str =
    "class Main { int n guarded_by this; atomic int down(int k) { synchronized (this) { if (k == 0) { return this.n; } \
    return this.down(k - 1); } } void main() { this.down(100); } }";

/// Schedules of the counter program, each with the status and the text.
static COUNTED: [(&str, u8, &str); 6] = [
    // In the written order `0*10 1*3 2*3 1*11 2*11 1 2` the calls stand one after the other.
    (
        "0*10 1*4 2*4 1*2 2 1*7 2 1 2*8 1 2",
        0,
        "call 17 thread 1 Cell.inc on 0:1 gives void\ncall 28 thread 2 Cell.inc on 0:1 gives void\n",
    ),
    // No call was made.
    ("0*10 1*3", 0, ""),
    ("", 0, ""),
    ("0*10 1*6", 5, "thread 1 is inside an atomic call\n"),
    ("0*3 5", 4, "entry 4: thread 5 is absent\n"),
    ("0 x", 3, "schedule refused at byte 2: form\n"),
];

#[test]
fn replay_tells_each_call_of_the_written_order(rt: HostRuntime) -> Result<(), Fail> {
    expect_inputs(&rt, rt.alloc(), "replay", COUNTER, &COUNTED)
}

/// Sources and schedules, each with the status and the text.
static REPLAYED: [(&str, &str, u8, &str); 9] = [
    (
        ADDS,
        "0*34",
        0,
        "call 4 thread 0 Main.add on 0:0 gives 3\ncall 20 thread 0 Main.add on 0:0 gives 7\n",
    ),
    (
        LOCKED,
        "0*8",
        0,
        "call 1 thread 0 Main.main on 0:0 gives void\n",
    ),
    (
        LOOPS,
        "0*58",
        0,
        "call 11 thread 0 Main.add on 0:0 gives -1\ncall 36 thread 0 Main.add on 0:0 gives -3\n",
    ),
    // The calls within the first call aren't told.
    (
        NESTED,
        "0*57",
        0,
        "call 4 thread 0 Main.twice on 0:0 gives 8\ncall 43 thread 0 Main.add on 0:0 gives 9\n",
    ),
    (
        EFFECTS,
        "0*20 1*4",
        0,
        "call 3 thread 0 Main.say on 0:0 gives true prints -3\ncall 11 thread 0 Main.make on 0:0 gives 0:1\n\
        call 16 thread 0 Main.go on 0:0 gives void\ncall 21 thread 1 W.run on 0:2 gives void prints 7\n",
    ),
    (
        OVERRIDDEN,
        "0*9",
        0,
        "call 5 thread 0 B.get on 0:1 gives 2\n",
    ),
    (
        HUNDRED,
        "0*1303",
        0,
        "call 4 thread 0 Main.down on 0:0 gives 0\n",
    ),
    (HUNDRED_AND_ONE, "0*1316", 15, "entry 4: call is too deep\n"),
    // A call that is open isn't replayed, however deep it is.
    (
        HUNDRED_AND_ONE,
        "0*1300",
        5,
        "thread 0 is inside an atomic call\n",
    ),
];

#[test]
fn replay_tells_what_calls_give(rt: HostRuntime) -> Result<(), Fail> {
    for (source, schedule, status, text) in &REPLAYED {
        expect(
            &rt,
            rt.alloc(),
            "replay",
            source,
            schedule.as_bytes(),
            (*status, text.as_bytes()),
        )?;
    }
    Ok(())
}

/// Sources that are no accepted ones, each with the status and the text.
static REFUSED: [(&str, u8, &str); 2] = [
    ("class", 1, "refused at 1:6: unexpected\n"),
    (
        "class Main { int v; atomic void main() { this.v = 1; this.v = 2; } }",
        2,
        "Main.main: declared atomic, found cmpd\n",
    ),
];

#[test]
fn only_an_accepted_source_is_replayed(rt: HostRuntime) -> Result<(), Fail> {
    for (source, status, text) in &REFUSED {
        expect(
            &rt,
            rt.alloc(),
            "replay",
            source,
            &[],
            (*status, text.as_bytes()),
        )?;
    }
    Ok(())
}

/// A call without arguments: its thread, the receiver, the method's number, and the turns.
#[derive(Clone, Copy)]
struct Asked {
    thread: u32,
    on: Address,
    method: u32,
    turns: u32,
}

/// What a call gives by itself in the state of a machine.
fn given_in(
    alloc: Global,
    program: &CoreProgram,
    machine: &Machine<'_>,
    asked: &Asked,
) -> Result<Result<Option<Value>, EvalEnd>, Fail> {
    let state = Plain::of(alloc, machine)?;
    let call = PlainCall {
        thread: asked.thread,
        on: asked.on,
        method: MethodId(asked.method),
        args: &[],
    };
    match evaluate(alloc, program, state, &call, asked.turns) {
        Ok((_, given)) => Ok(Ok(given)),
        Err(end) => Ok(Err(end)),
    }
}

/// What a call gives by itself in the state after a schedule of a source.
fn given_after(
    alloc: Global,
    text: &str,
    groups: &[(u32, u32)],
    asked: &Asked,
) -> Result<Result<Option<Value>, EvalEnd>, Fail> {
    let schedule = schedule_of(alloc, groups)?;
    if schedule.len() > 200000 {
        return Err(Fail::new("a long schedule"));
    }
    let program = core_of(alloc, text)?;
    let code = compile(alloc, &program)?;
    let machine = machine_after(alloc, &program, &code, schedule.as_slice())?;
    given_in(alloc, &program, &machine, asked)
}

/// Methods that call themselves from a part nearly as high as a part may be: in blocks, loops, branches, locks and signs.
static DEEP_AND_HIGH: [&str; 5] = [
    "class Main { int f() { { { { { { { { { { { { { { { { { { { { { { { { { { { { { { { { { { { { { { { { { { { { { { { { { { { { { { { { { { { { { return this.f(); } } } } } } } } } } } } } } } } } } } } } } } } } } } } } } } } } } } } } } } } } } } } } } } } } } } } } } } } } } } } } void main() { } }",
    "class Main { int f() { boolean b = true; while (b) while (b) while (b) while (b) while (b) while (b) while (b) while (b) while (b) while (b) while (b) while (b) while (b) while (b) while (b) while (b) while (b) while (b) while (b) while (b) while (b) while (b) while (b) while (b) while (b) while (b) while (b) while (b) while (b) while (b) while (b) while (b) while (b) while (b) while (b) while (b) while (b) while (b) while (b) while (b) while (b) while (b) while (b) while (b) while (b) while (b) while (b) while (b) while (b) while (b) while (b) while (b) while (b) while (b) while (b) while (b) while (b) while (b) while (b) while (b) return this.f(); return 0; } void main() { } }",
    "class Main { int f() { boolean b = true; if (b) if (b) if (b) if (b) if (b) if (b) if (b) if (b) if (b) if (b) if (b) if (b) if (b) if (b) if (b) if (b) if (b) if (b) if (b) if (b) if (b) if (b) if (b) if (b) if (b) if (b) if (b) if (b) if (b) if (b) if (b) if (b) if (b) if (b) if (b) if (b) if (b) if (b) if (b) if (b) if (b) if (b) if (b) if (b) if (b) if (b) if (b) if (b) if (b) if (b) if (b) if (b) if (b) if (b) if (b) if (b) if (b) if (b) if (b) if (b) return this.f(); return 0; } void main() { } }",
    "class Main { int f() { synchronized (this) { synchronized (this) { synchronized (this) { synchronized (this) { synchronized (this) { synchronized (this) { synchronized (this) { synchronized (this) { synchronized (this) { synchronized (this) { synchronized (this) { synchronized (this) { synchronized (this) { synchronized (this) { synchronized (this) { synchronized (this) { synchronized (this) { synchronized (this) { synchronized (this) { synchronized (this) { synchronized (this) { synchronized (this) { synchronized (this) { synchronized (this) { synchronized (this) { synchronized (this) { synchronized (this) { synchronized (this) { synchronized (this) { synchronized (this) { return this.f(); } } } } } } } } } } } } } } } } } } } } } } } } } } } } } } } void main() { } }",
    "class Main { int f() { return - - - - - - - - - - - - - - - - - - - - - - - - - - - - - - - - - - - - - - - - - - - - - - - - - - this.f(); } void main() { } }",
];

/// Sources, each with the turns and what the call of its first method gives at the start.
static AT_THE_START: [(&str, u32, Result<Option<Value>, EvalEnd>); 7] = [
    (
        "class Main { int f() { return 40 + 2; } void main() { } }",
        1,
        Ok(Some(Value::Int(42))),
    ),
    (
        "class Main { int f() { return 40 + 2; } void main() { } }",
        0,
        Err(EvalEnd::Short),
    ),
    (
        "class Main { int f() { return 1 / 0; } void main() { } }",
        1,
        Err(EvalEnd::Faults(Fault::Zero)),
    ),
    // One turn for the call, and one for each turn of the loop; the condition takes none.
    (
        "class Main { int f() { int i = 0; while (i < 5) { i = i + 1; } return i; } void main() { } }",
        6,
        Ok(Some(Value::Int(5))),
    ),
    (
        "class Main { int f() { int i = 0; while (i < 5) { i = i + 1; } return i; } void main() { } }",
        5,
        Err(EvalEnd::Short),
    ),
    // A call that would be both is short.
    (
        "class Main { int f() { return this.f(); } void main() { } }",
        100,
        Err(EvalEnd::Short),
    ),
    (
        "class Main { int f() { return this.f(); } void main() { } }",
        101,
        Err(EvalEnd::Deep),
    ),
];

#[test]
fn evaluation_gives_a_result_or_tells_why_not(rt: HostRuntime) -> Result<(), Fail> {
    let on = Address {
        thread: 0,
        count: 0,
    };
    for (source, turns, wanted) in &AT_THE_START {
        let asked = Asked {
            thread: 0,
            on,
            method: 0,
            turns: *turns,
        };
        assert!(rt; given_after(rt.alloc(), source, &[], &asked)? == *wanted);
    }
    Ok(())
}

#[test]
fn evaluation_has_room_for_both_of_its_limits(rt: HostRuntime) -> Result<(), Fail> {
    let on = Address {
        thread: 0,
        count: 0,
    };
    let asked = Asked {
        thread: 0,
        on,
        method: 0,
        turns: 7000,
    };
    for source in &DEEP_AND_HIGH {
        assert!(rt; given_after(rt.alloc(), source, &[], &asked)? == Err(EvalEnd::Deep));
    }
    Ok(())
}

/// Threads of the counter program, each with what it gets of a call of `inc` while the first worker holds the lock.
static AT_A_LOCK: [(u32, Result<Option<Value>, EvalEnd>); 2] = [
    (1, Ok(None)),
    (
        2,
        Err(EvalEnd::Waits {
            address: Address {
                thread: 0,
                count: 1,
            },
            holder: 1,
        }),
    ),
];

#[test]
fn evaluation_waits_for_the_lock_of_another_thread(rt: HostRuntime) -> Result<(), Fail> {
    let on = Address {
        thread: 0,
        count: 1,
    };
    for (thread, wanted) in &AT_A_LOCK {
        let asked = Asked {
            thread: *thread,
            on,
            method: 0,
            turns: 1,
        };
        let given = given_after(rt.alloc(), COUNTER, &[(0, 10), (1, 6)], &asked)?;
        assert!(rt; given == *wanted);
    }
    Ok(())
}
