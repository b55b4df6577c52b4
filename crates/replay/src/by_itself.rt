//! A method that is evaluated by itself.
ghost use Rattle.std.specs.Prelude.{◌≡◌, Some, Option, MatchResult};
ghost use Rattle.core_program.specs.Views.{program_of, method_of};
ghost use Rattle.state.specs.declared.value.Value.{Value};
ghost use Rattle.replay.specs.Plain as plain;
ghost use Rattle.replay.specs.Answers.{Gives, ended_value};
ghost use Rattle.replay.specs.Evaluation.{asked_body, evaluate};
ghost use Rattle.replay.specs.Ends.{IsEvaluationEnd};

use crate::effects::fresh_slots;
use crate::ends::{EvalEnd, ended_value};
use crate::parts::{Within, statement};
use crate::plain::Plain;
use core_program::{CoreMethod, CoreProgram};
use paths::MethodId;
use state::{Address, Fault, Value};
use std::alloc::Global;

/// A call that is evaluated by itself: its thread, the receiver, the method that runs, and the arguments.
#[derive(Clone, Copy)]
pub struct PlainCall<'a> {
    pub thread: u32,
    pub on: Address,
    pub method: MethodId,
    pub args: &'a [Value],
}

/// Evaluates a method by itself in a plain state, for a thread: its body, on this receiver, with these arguments, and with so
/// many turns. The caller chooses the method by the receiver's class.
pub fn evaluate(
    alloc: Global,
    program: &CoreProgram,
    state: Plain,
    call: &PlainCall<'_>,
    turns: u32,
) -> Result<(Plain, Option<Value>), EvalEnd>
    ensures { MatchResult result
        (λ r. evaluate (program_of program.now) state call.now.thread call.now.on call.now.method call.now.args.now turns ≡ Gives r.1 r.0)
        (λ x. IsEvaluationEnd x (evaluate (program_of program.now) state call.now.thread call.now.on call.now.method call.now.args.now turns)) }
{
    let mut state = state;
    let method = call.method;
    let Some(found) = program.methods.get(method.0 as usize) else {
        return Err(EvalEnd::Faults(Fault::Null));
    };
    let at = Within {
        alloc,
        program,
        thread: call.thread,
        turns,
        depth: 0,
    };
    let result = asked(&at, &mut state, found, call.on, call.args)?;
    Ok((state, result))
}

/// What a method that is asked for gives: no call is open around it.
fn asked(
    at: &Within<'_>,
    plain: &mut Plain,
    method: &CoreMethod,
    on: Address,
    args: &[Value],
) -> Result<Option<Value>, EvalEnd>
    ensures { MatchResult result
        (λ v. asked_body (program_of at.now.program.now) at.now.thread (Some (method_of method.now)) on args.now plain.old at.now.turns ≡ Gives v plain.new)
        (λ x. IsEvaluationEnd x (asked_body (program_of at.now.program.now) at.now.thread (Some (method_of method.now)) on args.now plain.old at.now.turns)) }
{
    if at.turns == 0 {
        return Err(EvalEnd::Short);
    }
    let mut slots = fresh_slots(at.alloc, method, on, args)?;
    let inside = Within {
        turns: at.turns - 1,
        depth: 1,
        ..*at
    };
    let flow = statement(&inside, plain, slots.as_mut_slice(), &method.body)?;
    match method.result {
        Some(_) => Ok(Some(ended_value(flow))),
        None => Ok(None),
    }
}
