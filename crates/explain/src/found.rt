//! What a walk through a body finds.

ghost use Rattle.std.specs.Prelude.{◌≡◌, ◌<◌, ◌∷◌, ◌++◌, [], OnOk, IfOk, length, slice_set, if◌then◌else◌};
ghost use Rattle.algebra.specs.Basics.{below_of};
ghost use Rattle.algebra.specs.HeldPaths.{has_path};
ghost use Rattle.algebra.specs.declared.basic.Basic.TheVariants as basic;
ghost use Rattle.explain.specs.Visits.{visit};
ghost use Rattle.explain.specs.Views.{is_heavy, part_of_walk, visits_of};

use algebra::Basic;
use core_program::{CoreExpr, CoreStmt};
use effects::copied;
use paths::Path;
use std::alloc::{AllocError as NoMemory, Global};
use std::mem::replace;

/// A part of a body.
#[derive(Clone, Copy)]
pub enum CorePart<'p> {
    Expr(&'p CoreExpr),
    Stmt(&'p CoreStmt),
}

/// A part that the walk comes to: its number, the paths that are held there, and the number of the innermost loop that repeats it.
#[derive(Clone, Copy)]
pub(crate) struct Reached<'p, 'h> {
    pub(crate) node: usize,
    pub(crate) part: CorePart<'p>,
    pub(crate) held: &'h [Path],
    pub(crate) looped: Option<usize>,
}

/// A part that the walk came to, with a copy of what is held there: its number, the paths that are held there, and the number of the innermost loop that repeats it.
#[derive(Drop)]
pub struct Visited<'p> {
    pub node: usize,
    pub part: CorePart<'p>,
    pub held: Vec<Path>,
    pub looped: Option<usize>,
}

/// What the walk found so far: the basic of each part by its number, the steps, of which those of one branch alone count, and all parts
/// that can't be moved by themselves.
#[derive(Drop)]
pub(crate) struct Found<'p> {
    pub(crate) basics: Vec<Basic>,
    pub(crate) steps: Vec<Visited<'p>>,
    pub(crate) heavy: Vec<Visited<'p>>,
}

impl<'p> Found<'p> {
    /// Nothing yet.
    pub(crate) fn new(alloc: Global) -> Found<'p>
        ensures basics { result.basics.items ≡ [] }
        ensures steps { result.steps.items ≡ [] }
        ensures heavy { result.heavy.items ≡ [] }
    {
        Found {
            basics: Vec::new(alloc),
            steps: Vec::new(alloc),
            heavy: Vec::new(alloc),
        }
    }

    /// Makes room for the next part, whose basic isn't known yet, and gives its number.
    pub(crate) fn enter(&mut self) -> Result<usize, NoMemory>
        ensures place { IfOk result (λ place. place ≡ length self.old.basics.items) }
        ensures basics { OnOk result (self.new.basics.items ≡ self.old.basics.items ++ basic.Const ∷ []) }
        ensures steps { self.new.steps ≡ self.old.steps }
        ensures heavy { self.new.heavy ≡ self.old.heavy }
    {
        let place = self.basics.as_slice().len();
        self.basics.push(Basic::Const)?;
        Ok(place)
    }

    /// Keeps the basic of a part.
    pub(crate) fn leave(&mut self, place: usize, effect: Basic) -> Basic
        requires { place < length self.old.basics.items }
        ensures effect { result ≡ effect }
        ensures basics { self.new.basics.items ≡ slice_set self.old.basics.items place effect }
        ensures steps { self.new.steps ≡ self.old.steps }
        ensures heavy { self.new.heavy ≡ self.old.heavy }
    {
        self.basics[place] = effect;
        effect
    }

    /// Notes a part that is this by itself, where it can't be moved.
    pub(crate) fn note(
        &mut self,
        alloc: Global,
        own: Basic,
        reached: Reached<'p, '_>,
    ) -> Result<(), NoMemory>
        ensures basics { self.new.basics ≡ self.old.basics }
        ensures steps { OnOk result (visits_of self.new.steps.items ≡ visits_of self.old.steps.items
            ++ (if below_of own basic.Mover then [] else visit reached.entry.node (part_of_walk reached.entry.part) (has_path reached.entry.held.now) reached.entry.looped)) }
        ensures heavy { OnOk result (visits_of self.new.heavy.items ≡ visits_of self.old.heavy.items
            ++ (if is_heavy own then visit reached.entry.node (part_of_walk reached.entry.part) (has_path reached.entry.held.now) reached.entry.looped else [])) }
    {
        if own.below(Basic::Mover) {
            return Ok(());
        }
        self.steps.push(with_held(alloc, reached)?)?;
        self.note_heavy(alloc, reached)
    }

    /// Notes a part that can't be moved by itself, and that is no step.
    pub(crate) fn note_heavy(
        &mut self,
        alloc: Global,
        reached: Reached<'p, '_>,
    ) -> Result<(), NoMemory>
        ensures basics { self.new.basics ≡ self.old.basics }
        ensures steps { self.new.steps ≡ self.old.steps }
        ensures heavy { OnOk result (visits_of self.new.heavy.items ≡ visits_of self.old.heavy.items
            ++ visit reached.entry.node (part_of_walk reached.entry.part) (has_path reached.entry.held.now) reached.entry.looped) }
    {
        self.heavy.push(with_held(alloc, reached)?)?;
        Ok(())
    }

    /// Takes the steps so far away.
    pub(crate) fn set_aside(&mut self, alloc: Global) -> Vec<Visited<'p>>
        ensures result { result ≡ self.old.steps }
        ensures basics { self.new.basics ≡ self.old.basics }
        ensures steps { self.new.steps.items ≡ [] }
        ensures heavy { self.new.heavy ≡ self.old.heavy }
    {
        replace(&mut self.steps, Vec::new(alloc))
    }

    /// Puts these steps in the place of those so far, where `keeps_first` is true.
    pub(crate) fn choose(&mut self, first: Vec<Visited<'p>>, keeps_first: bool)
        ensures basics { self.new.basics ≡ self.old.basics }
        ensures steps { self.new.steps.items ≡ (if keeps_first then first.entry.items else self.old.steps.items) }
        ensures heavy { self.new.heavy ≡ self.old.heavy }
    {
        if keeps_first {
            self.steps = first;
        }
    }

    /// Puts these steps before those so far.
    pub(crate) fn put_before(&mut self, before: Vec<Visited<'p>>) -> Result<(), NoMemory>
        ensures basics { self.new.basics ≡ self.old.basics }
        ensures steps { OnOk result (self.new.steps.items ≡ before.entry.items ++ self.old.steps.items) }
        ensures heavy { self.new.heavy ≡ self.old.heavy }
    {
        let mut all = before;
        all.append(&mut self.steps)?;
        self.steps = all;
        Ok(())
    }
}

/// A part that the walk came to, with a copy of what is held there.
fn with_held<'p>(alloc: Global, reached: Reached<'p, '_>) -> Result<Visited<'p>, NoMemory>
    ensures { IfOk result (λ v. visits_of (v ∷ []) ≡ visit reached.entry.node (part_of_walk reached.entry.part) (has_path reached.entry.held.now) reached.entry.looped) }
{
    Ok(Visited {
        node: reached.node,
        part: reached.part,
        held: copied(alloc, reached.held)?,
        looped: reached.looped,
    })
}
