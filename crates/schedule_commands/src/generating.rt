//! `generate N`.

ghost use Rattle.std.specs.Prelude.{◌≡◌, ◌<◌, ◌++◌, string_bytes, MatchResult, IfOk, OnOk};
ghost use Rattle.std.specs.Option.{option_copied};
ghost use Rattle.schedule.specs.Rounds.{IsGenerated};
ghost use Rattle.schedule.specs.Sources.{generated_source};
ghost use Rattle.machine.specs.Standing.{StandsFor};
ghost use Rattle.sources.specs.Checking.{IsSourceOf};
ghost use Rattle.sources.specs.Refusals.{IsRight};
ghost use Rattle.state.specs.States.{State};
ghost use Rattle.schedule_commands.specs.Generate.{GenerateAnswer, group_count, number_or_zero, counted, figure_line, figures};

use crate::serialising::order_of;
use base::write_number;
use compile::compile;
use itoa::Integer;
use schedule::generate;
use serialise::Rearranged;
use sources::{Ending, Refusal, Source, judge, read_source};
use state::{Address, Heap, Value};
use std::alloc::{AllocError as NoMemory, Global};
use std::mem::forget;

/// How many maximal groups of equal neighbours a schedule has.
fn group_count(schedule: &[u32]) -> usize
    ensures { result ≡ group_count schedule.now }
{
    let Some((first, rest)) = schedule.split_first() else {
        return 0;
    };
    let mut last = *first;
    let mut count = 1;
    for thread in rest {
        if *thread != last {
            count += 1;
            last = *thread;
        }
    }
    count
}

/// The number that a value is, and 0 where it is none.
fn number_of(value: Option<&Value>) -> i32
    ensures { result ≡ number_or_zero (option_copied value.entry) }
{
    match value {
        Some(Value::Int(number)) => *number,
        _ => 0,
    }
}

/// The number up to which the workers counted.
fn counted(heap: &Heap) -> i32
    ensures { result ≡ counted heap.now }
{
    let shared = Address {
        thread: 0,
        count: 1,
    };
    match heap.find(shared) {
        Some((_, values)) => number_of(values.first()),
        None => 0,
    }
}

/// Writes a line with a word and a number.
fn write_figure<N: Integer>(text: &mut String, word: &str, number: N) -> Result<(), NoMemory>
    ensures { OnOk result (string_bytes text.new ≡ string_bytes text.old ++ figure_line word.now (N.text number)) }
{
    text.push_str(word)?;
    write_number(text, number)?;
    text.push('\n')
}

/// The four lines for an order and the machine that ran its schedule.
fn figures(alloc: Global, n: u32, found: &Rearranged) -> Result<String, NoMemory>
    ensures { (q : State) → StandsFor found.now.machine q → IfOk result (λ text. string_bytes text ≡ figures n found.now.order.items q.heap) }
{
    let order = found.order.as_slice();
    let mut text = String::new(alloc);
    write_figure(&mut text, "workers ", n)?;
    write_figure(&mut text, "entries ", order.len())?;
    write_figure(&mut text, "runs ", group_count(order))?;
    write_figure(&mut text, "v ", counted(found.machine.heap()))?;
    Ok(text)
}

/// The four lines for the schedule of so many workers, over their source; or the refusal.
fn counted_up(alloc: Global, n: u32, source: &Source, schedule: &[u32]) -> Result<Vec<u8>, Refusal>
    requires small { n < 1000 }
    requires source { IsSourceOf (generated_source n) source.now }
    requires generated { IsGenerated n schedule.now }
    ensures { MatchResult result (λ out. GenerateAnswer n Ending.Done out.items) (IsRight (GenerateAnswer n)) }
{
    judge(alloc, source)?;
    let code = compile(alloc, &source.program)?;
    let found = order_of(alloc, &source.program, &code, schedule)?;
    let text = figures(alloc, n, &found)?;
    Ok(text.into_bytes())
}

/// Makes the source and the schedule for so many workers, does with them what `serialise` does, and gives the four lines of its
/// order and of the state to which it runs; or the refusal.
pub fn generate_figures(alloc: Global, n: u32) -> Result<Vec<u8>, Refusal>
    requires { n < 1000 }
    ensures { MatchResult result (λ out. GenerateAnswer n Ending.Done out.items) (IsRight (GenerateAnswer n)) }
{
    let (file, schedule) = generate(alloc, n)?;
    let source = read_source(alloc, file.as_slice())?;
    let out = counted_up(alloc, n, &source, schedule.as_slice());
    forget(source);
    out
}
