//! The program that is judged, and who waits for whom.
use core_program::CoreProgram;
use paths::MethodId;
use rules::{Callers, Overriding, OverridingMethods, RelevantSets};

/// A program with its relevant paths and the methods that override others.
#[derive(Clone, Copy)]
pub(crate) struct Judged<'a> {
    pub(crate) program: &'a CoreProgram,
    pub(crate) sets: &'a RelevantSets,
    pub(crate) over: &'a OverridingMethods,
}

/// No methods that override others.
pub(crate) struct NoneOverriding;

impl Overriding for NoneOverriding {
    ghost use Rattle.std.specs.Prelude.{[]};

    ghost rows = { λ _. [] };

    fn row(&self, _: MethodId) -> &[MethodId] {
        &[]
    }
}

/// A program that is judged, and for each method who has to be asked again where it rises, and those of them whose bodies call it.
#[derive(Clone, Copy)]
pub(crate) struct Asking<'a> {
    pub(crate) judged: &'a Judged<'a>,
    pub(crate) callers: &'a [Callers],
    pub(crate) calls: &'a [Callers],
}
