//! The relevant paths of all methods.
ghost use Rattle.std.specs.Prelude.{◌≡◌};
ghost use Rattle.rules.specs.Near.{AreFew, rel_of, loc_of};

use paths::{MethodId, Path};
use std::marker::Model;

/// The paths of one method, ascending.
#[derive(Drop)]
pub(crate) struct PathsOfMethod {
    pub(crate) rel: Vec<Path>,
    pub(crate) loc: Vec<Path>,
}

/// For each method the paths near it, however many: those rooted at `this` or a parameter, and those rooted at its locals.
#[derive(Drop)]
pub(crate) struct PartedPaths {
    pub(crate) methods: Vec<PathsOfMethod>,
}

impl Model for PartedPaths {
    ghost use Rattle.std.specs.Prelude.{List, map};
    ghost use Rattle.rules.specs.Near.{MethodPaths};

    ghost Value = { List MethodPaths };

    ghost view = { λ s. map (λ m. record { rel = m.rel.items; loc = m.loc.items }) s.methods.items };
}

impl PartedPaths {
    /// The paths rooted at `this` or a parameter, ascending; none where there is no such method.
    pub(crate) fn rel(&self, m: MethodId) -> &[Path]
        ensures { result.now ≡ rel_of self.now m }
    {
        match self.methods.get(m.0 as usize) {
            Some(paths) => paths.rel.as_slice(),
            None => &[],
        }
    }

    /// The paths rooted at the method's locals, ascending; none where there is no such method.
    pub(crate) fn loc(&self, m: MethodId) -> &[Path]
        ensures { result.now ≡ loc_of self.now m }
    {
        match self.methods.get(m.0 as usize) {
            Some(paths) => paths.loc.as_slice(),
            None => &[],
        }
    }
}

/// For each method its relevant paths, rooted at `this` or a parameter, and those near it that are rooted at its locals: at
/// most 8 of each.
#[derive(Drop)]
pub struct RelevantSets {
    pub(crate) paths: PartedPaths,
}

impl Model for RelevantSets {
    ghost use Rattle.std.specs.Prelude.{List};
    ghost use Rattle.rules.specs.Near.{MethodPaths, AreFew};

    ghost Value = { List MethodPaths };

    ghost view = { λ s. s.paths };

    ghost invariant = { λ s. AreFew s.paths };
}

impl RelevantSets {
    /// The relevant paths of a method, ascending; none where there is no such method.
    pub fn rel(&self, m: MethodId) -> &[Path]
        ensures { result.now ≡ rel_of self.now m }
    {
        self.paths.rel(m)
    }

    /// The paths near a method that are rooted at its locals, ascending; none where there is no such method.
    pub fn loc(&self, m: MethodId) -> &[Path]
        ensures { result.now ≡ loc_of self.now m }
    {
        self.paths.loc(m)
    }

    /// Says of any sets that there are that no method has too many paths. Does nothing.
    pub fn few(&self)
        ensures { AreFew self.now }
    {
        // Only the proof needs this: the invariant of a struct is known where one of its fields is used.
        let _ = &self.paths;
    }
}
