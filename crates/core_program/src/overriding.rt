//! Which method runs, and which it overrides: what the classes tell, from one up to those above it.
ghost use Rattle.std.specs.Prelude.{◌≡◌, ◌↔◌, ◌==◌, ◌<◌, ◌^◌, ◌++◌, ℕ, Some, Contains, IfOk, IfSome, OnOk, drop, filter, length, not, option_and_then, option_map, position, slice_get, take};
ghost use Rattle.std.specs.List.{position_from};
ghost use Rattle.core_program.specs.Dispatch.{target_of, Overrides};
ghost use Rattle.core_program.specs.Kept.{kept_class};
ghost use Rattle.core_program.specs.Overridden.{class_of_method, class_owning, next_overridden, owner};
ghost use Rattle.core_program.specs.Pairs.{all_named, has_or_inherits, is_own_of, is_own_up, as_list, nearest_named, own_named, runs_for, target_in};
ghost use Rattle.core_program.specs.Views.{kept_classes, program_of};

use crate::program::{CoreClass, CoreProgram};
use paths::{ClassId, MethodId};
use std::alloc::{AllocError as NoMemory, Global};

/// So many names from a place on; fewer where they end before.
fn window(all: &[u32], start: usize, count: usize) -> &[u32]
    ensures { result.now ≡ take count (drop start all.now) }
{
    let (_, later) = all.split_at(start.min(all.len()));
    let (own, _) = later.split_at(count.min(later.len()));
    own
}

/// Whether a method is one of a class's own.
fn is_own_of(method: MethodId, class: &CoreClass) -> bool
    ensures { result ≡ is_own_of method (kept_class class.now) }
{
    match method.0.checked_sub(class.first_method.0) {
        Some(place) => (place as usize) < class.method_count,
        None => false,
    }
}

/// The place of a name in a list.
fn place_of(names: &[u32], name: u32) -> Option<usize>
    ensures place { result ≡ position (λ other. other == name) names.now }
    ensures within { IfSome result (λ place. place < length names.now) }
{
    names.iter().position(|other| *other == name)
}

/// Of so many methods from this one on the first that has this name.
fn named_among(names: &[u32], first: MethodId, count: usize, name: u32) -> Option<MethodId>
    requires { length names.now < 2 ^ 32 }
    ensures { result ≡ position_from (λ n. n == name) first (take count (drop first names.now)) }
{
    let own = window(names, first.0 as usize, count);
    match place_of(own, name) {
        Some(place) => Some(MethodId(first.0 + place as u32)),
        None => None,
    }
}

impl CoreProgram {
    /// The class with a number; `None` where there are no more than so many.
    pub fn class_at(&self, id: ClassId) -> Option<&CoreClass>
        ensures { option_map (λ c. kept_class c.now) result ≡ slice_get (kept_classes self.now) id }
    {
        self.classes.get(id.0 as usize)
    }

    /// The class's own method with the name of this number; `None` where it has none.
    pub fn own_named(&self, name: u32, class: &CoreClass) -> Option<MethodId>
        ensures { result ≡ own_named self.now.names.items name (kept_class class.now) }
    {
        named_among(
            self.names.as_slice(),
            class.first_method,
            class.method_count,
            name,
        )
    }

    /// The method with this name of a class, or else of the nearest above it that has one.
    fn nearest_named(&self, from: Option<ClassId>, name: u32) -> Option<MethodId>
        ensures { let parts = kept_classes self.now in result ≡ nearest_named parts self.now.names.items (length parts) from name }
    {
        let mut at = from;
        for _ in 0..self.classes.len() {
            let Some(id) = at else { return None };
            let Some(class) = self.class_at(id) else {
                return None;
            };
            if let Some(own) = self.own_named(name, class) {
                return Some(own);
            }
            at = class.above;
        }
        None
    }

    /// Whether a method is an own one of a class or of one above it.
    fn is_own_up(&self, from: Option<ClassId>, method: MethodId) -> bool
        ensures { let parts = kept_classes self.now in result ≡ is_own_up parts self.now.names.items (length parts) from method }
    {
        let mut at = from;
        for _ in 0..self.classes.len() {
            let Some(id) = at else { return false };
            let Some(class) = self.class_at(id) else {
                return false;
            };
            if is_own_of(method, class) {
                return true;
            }
            at = class.above;
        }
        false
    }

    /// Whether a class has a method, its own or from above.
    fn has_or_inherits(&self, class: &CoreClass, method: MethodId) -> bool
        ensures { result ≡ has_or_inherits (kept_classes self.now) self.now.names.items (kept_class class.now) method }
    {
        is_own_of(method, class) || self.is_own_up(class.above, method)
    }

    /// The method that a class runs for one with this name.
    fn runs_for(&self, class: &CoreClass, method: MethodId, name: u32) -> MethodId
        ensures { result ≡ runs_for (kept_classes self.now) self.now.names.items (kept_class class.now) method name }
    {
        match self.own_named(name, class) {
            Some(own) => own,
            None => self.nearest_named(class.above, name).unwrap_or(method),
        }
    }

    /// The number of a method's name; `None` where the method isn't there.
    pub fn name_of(&self, method: MethodId) -> Option<u32>
        ensures { result ≡ slice_get self.now.names.items method }
    {
        Some(*self.names.get(method.0 as usize)?)
    }

    /// The method that a class runs for another, where it has that.
    fn target_in(&self, class: &CoreClass, method: MethodId) -> Option<MethodId>
        ensures { result ≡ target_in (kept_classes self.now) self.now.names.items (kept_class class.now) method }
    {
        let name = self.name_of(method)?;
        if self.has_or_inherits(class, method) {
            Some(self.runs_for(class, method, name))
        } else {
            None
        }
    }

    /// The method that runs for a method and an object of a class; `None` exactly where the class has no pair of that method.
    pub fn target(&self, class: ClassId, method: MethodId) -> Option<MethodId>
        ensures { result ≡ target_of (program_of self.now) class method }
    {
        match self.class_at(class) {
            Some(class) => self.target_in(class, method),
            None => None,
        }
    }

    /// The number of a method's class.
    fn owner(&self, method: MethodId) -> Option<ClassId>
        ensures { result ≡ owner self.now method }
    {
        Some(self.methods.get(method.0 as usize)?.class)
    }

    /// A class, where the method is one of its own.
    fn class_owning(&self, id: ClassId, method: MethodId) -> Option<&CoreClass>
        ensures { option_map (λ c. kept_class c.now) result ≡ option_and_then (class_owning method) (slice_get (kept_classes self.now) id) }
    {
        let class = self.class_at(id)?;
        if is_own_of(method, class) {
            Some(class)
        } else {
            None
        }
    }

    /// The class of a method, among whose own methods it stands.
    fn class_of_method(&self, method: MethodId) -> Option<&CoreClass>
        ensures { option_map (λ c. kept_class c.now) result ≡ class_of_method self.now method }
    {
        let id = self.owner(method)?;
        self.class_owning(id, method)
    }

    /// The next method that a method overrides: what the class above its own runs for its name.
    pub fn next_overridden(&self, method: MethodId) -> Option<MethodId>
        ensures { result ≡ next_overridden self.now method }
    {
        let class = self.class_of_method(method)?;
        let name = self.name_of(method)?;
        let found = self.nearest_named(class.above, name)?;
        if found == method { None } else { Some(found) }
    }

    /// The methods that a method overrides, the nearest first.
    pub fn overridden(&self, alloc: Global, method: MethodId) -> Result<Vec<MethodId>, NoMemory>
        ensures { IfOk result (λ all. (m : ℕ) → Contains all.items m ↔ Overrides (program_of self.now) method m) }
    {
        match self.class_of_method(method) {
            Some(class) => self.overridden_above(alloc, class, method),
            None => Ok(Vec::new(alloc)),
        }
    }

    /// The methods that a method of this class overrides, the nearest first.
    fn overridden_above(
        &self,
        alloc: Global,
        class: &CoreClass,
        method: MethodId,
    ) -> Result<Vec<MethodId>, NoMemory>
        requires { class_of_method self.now method ≡ Some (kept_class class.now) }
        ensures { IfOk result (λ all. (m : ℕ) → Contains all.items m ↔ Overrides (program_of self.now) method m) }
    {
        let mut all = Vec::new(alloc);
        let Some(name) = self.name_of(method) else {
            return Ok(all);
        };
        self.add_named(&mut all, class.above, name, method)?;
        Ok(all)
    }

    /// Adds the methods with this name of a class and of those above it, the nearest first, but for this one.
    fn add_named(
        &self,
        all: &mut Vec<MethodId>,
        from: Option<ClassId>,
        name: u32,
        method: MethodId,
    ) -> Result<(), NoMemory>
        ensures { let parts = kept_classes self.now in OnOk result (all.new.items ≡
            all.old.items ++ filter (λ m. not (m == method)) (all_named parts self.now.names.items (length parts) from name)) }
    {
        let mut at = from;
        for _ in 0..self.classes.len() {
            let Some(id) = at else { return Ok(()) };
            let Some(class) = self.class_at(id) else {
                return Ok(());
            };
            add_other(all, self.own_named(name, class), method)?;
            at = class.above;
        }
        Ok(())
    }
}

/// Adds a method, where there is one and it isn't this one.
fn add_other(
    all: &mut Vec<MethodId>,
    found: Option<MethodId>,
    method: MethodId,
) -> Result<(), NoMemory>
    ensures { OnOk result (all.new.items ≡ all.old.items ++ filter (λ m. not (m == method)) (as_list found)) }
{
    match found {
        Some(other) => {
            if other != method {
                all.push(other)?;
            }
            Ok(())
        }
        None => Ok(()),
    }
}
