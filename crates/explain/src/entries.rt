//! With which methods threads begin.

ghost use Rattle.std.specs.Prelude.{◌≡◌, IfOk};
ghost use Rattle.std.specs.List.{list_any};
ghost use Rattle.core_program.specs.Views.{program_of};
ghost use Rattle.explain.specs.Strict.{AreEntryMarks, AreMarkedFor, is_thread_entry, is_run};

use core_program::CoreProgram;
use paths::MethodId;
use std::alloc::{AllocError as NoMemory, Global};

/// Whether this method runs for `run`.
fn is_run(id: MethodId, run: Option<MethodId>) -> bool
    ensures { result ≡ is_run id run }
{
    match run {
        Some(method) => method == id,
        None => false,
    }
}

/// Whether it does so for one of a program's classes.
fn runs(program: &CoreProgram, id: MethodId) -> bool
    ensures { result ≡ list_any (λ c. is_run id c.run) (program_of program.now).classes }
{
    for class in program.classes() {
        if is_run(id, class.run) {
            return true;
        }
    }
    false
}

/// Marks the method that runs for `run`, where there is one.
fn mark_run(marks: &mut Vec<bool>, run: Option<MethodId>)
    ensures { AreMarkedFor run marks.old.items marks.new.items }
{
    let Some(method) = run else {
        return;
    };
    let place = method.0 as usize;
    if place >= marks.len() {
        return;
    }
    marks[place] = true;
}

/// Marks of all methods: whether a thread begins with each.
pub(crate) fn entry_marks(alloc: Global, program: &CoreProgram) -> Result<Vec<bool>, NoMemory>
    ensures { IfOk result (λ marks. AreEntryMarks (program_of program.now) marks.items) }
{
    let mut marks = vec![in alloc; false; program.methods().len()]?;
    mark_run(&mut marks, Some(program.main));
    for class in program.classes() {
        mark_run(&mut marks, class.run);
    }
    Ok(marks)
}

/// Whether a thread begins with this method, by its mark, where it has one.
pub(crate) fn is_thread_entry(program: &CoreProgram, marks: &[bool], id: MethodId) -> bool
    requires { AreEntryMarks (program_of program.now) marks.now }
    ensures { result ≡ is_thread_entry (program_of program.now) id }
{
    match marks.get(id.0 as usize) {
        Some(mark) => *mark,
        None => id == program.main || runs(program, id),
    }
}
