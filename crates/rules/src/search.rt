//! The search for the near paths of all methods: from the facts along the links, each place once.
ghost use Rattle.std.specs.Prelude.{Some, None, ◌≡◌, ◌≤◌, ◌<◌, ◌^◌, ◌∷◌, ◌++◌, ◌==◌, ◌||◌, ◌&&◌, nat_le, [], ℕ, length, not, slice_get, IfOk, OnOk, if◌then◌else◌};
ghost use Rattle.std.specs.List.Sorted.{IsStrictlySortedBy};
ghost use Rattle.paths.specs.Paths.{PathData, path_order, path_eq, extended};
ghost use Rattle.core_program.specs.Dispatch.{has_field, class_fields};
ghost use Rattle.core_program.specs.Views.{program_of};
ghost use Rattle.rules.specs.Clauses.{led_by};
ghost use Rattle.rules.specs.Near.{begins_in};
ghost use Rattle.algebra.specs.HeldPaths.{has_path};
ghost use Rattle.rules.specs.declared.clauses.NearPath.{NearPath};
ghost use Rattle.rules.specs.declared.clauses.Clause.TheVariants as Clause;
ghost use Rattle.rules.specs.Search.{row_at, rows_of, with_link, LinkLeads, IsLed, AreClauseLinks, ListsAgree, GrowsByNext, HasFacts, IsLeastFamily};

use crate::clauses::{Clause, Link, NearPath, Way};
use algebra::has;
use core_program::CoreProgram;
use paths::{ClassId, FieldId, MethodId, Path, extend};
use std::alloc::{AllocError as NoMemory, Global};

/// How many paths a list has at most which is read from its front. No method of a well-formed program has more.
const SHORT: usize = 16;

/// For each method the near paths found so far, ascending, and all places in the order in which they were found.
#[derive(Drop)]
struct Family {
    near: Vec<Vec<Path>>,
    queue: Vec<NearPath>,
}

/// The near paths of each method that some clause names, ascending. A place is followed once, along the links of
/// its method, and a method's list is searched by halves.
pub(crate) fn near_paths(
    alloc: Global,
    program: &CoreProgram,
    clauses: &[Clause],
) -> Result<Vec<Vec<Path>>, NoMemory>
    ensures { IfOk result (λ near. IsLeastFamily (program_of program.now) clauses.now (rows_of near.items)) }
{
    let links = links_of(alloc, clauses)?;
    let mut family = facts_of(alloc, clauses)?;
    let mut next = 0;
    while next < family.queue.len() {
        let place = family.queue[next].copy();
        family.follow_all(alloc, program, links.as_slice(), &place)?;
        next += 1;
    }
    Ok(family.near)
}

/// The links of each method.
fn links_of(alloc: Global, clauses: &[Clause]) -> Result<Vec<Vec<Link>>, NoMemory>
    ensures { IfOk result (λ links. AreClauseLinks clauses.now (rows_of links.items)) }
{
    let mut links = Vec::new(alloc);
    for clause in clauses {
        add_link(alloc, &mut links, clause)?;
    }
    Ok(links)
}

/// Puts the clause's link, if it is one, at the end of its method's list.
fn add_link(alloc: Global, links: &mut Vec<Vec<Link>>, clause: &Clause) -> Result<(), NoMemory>
    ensures { OnOk result ((m : ℕ) → row_at (rows_of links.new.items) m ≡ with_link clause.now m (row_at (rows_of links.old.items) m)) }
{
    match clause {
        Clause::Fact(_) => Ok(()),
        Clause::Leads(link) => push_at(alloc, links, link.from, link.copy()),
    }
}

/// Puts an item at the end of a method's list.
pub(crate) fn push_at<T: Drop>(
    alloc: Global,
    rows: &mut Vec<Vec<T>>,
    method: MethodId,
    item: T,
) -> Result<(), NoMemory>
    ensures { OnOk result ((m : ℕ) → row_at (rows_of rows.new.items) m ≡
        (if m == method then row_at (rows_of rows.old.items) m ++ item ∷ [] else row_at (rows_of rows.old.items) m)) }
{
    let place = number(method);
    grow(alloc, rows, place + 1)?;
    rows[place].push(item)?;
    Ok(())
}

/// Where the list of a method stands.
fn number(method: MethodId) -> usize
    ensures is { result ≡ method }
    ensures small { result < 2 ^ 32 }
{
    // Only the proof needs a function for this: its clauses tell what the number of an id is.
    method.0 as usize
}

/// The list of a method; empty where it has none.
pub(crate) fn row<T>(rows: &[Vec<T>], method: usize) -> &[T]
    ensures { result.now ≡ row_at (rows_of rows.now) method }
{
    match rows.get(method) {
        Some(row) => row.as_slice(),
        None => &[],
    }
}

/// The path that one becomes on a way, where it becomes one.
fn led_by(program: &CoreProgram, way: &Way, path: &Path) -> Option<Path>
    ensures { result ≡ led_by (program_of program.now) way.now path.now }
{
    match way {
        Way::Passed { root, start } => passed(*root, start, path),
        Way::Kept { params, class } => kept(program, *params, *class, path),
    }
}

/// What a slot stands for, in a path that is rooted at it.
fn passed(root: usize, start: &Path, path: &Path) -> Option<Path>
    ensures { result ≡ (if path.now.root == root then extended start.now path.now.fields else None) }
{
    if path.root as usize == root {
        extend(start, path.fields.as_slice())
    } else {
        None
    }
}

/// The path itself, where it is a relevant one of a method with so many parameters, and the class knows its first field.
fn kept(program: &CoreProgram, params: usize, class: ClassId, path: &Path) -> Option<Path>
    ensures { result ≡ (if nat_le path.now.root params && begins_in (program_of program.now) class path.now.root path.now.fields then Some path.now else None) }
{
    if path.root as usize <= params && begins_in(program, class, path) {
        Some(path.copy())
    } else {
        None
    }
}

/// Whether a path of `this` begins with a field that the class has.
fn begins_in(program: &CoreProgram, class: ClassId, path: &Path) -> bool
    ensures { result ≡ begins_in (program_of program.now) class path.now.root path.now.fields }
{
    if path.root != 0 {
        return true;
    }
    match path.fields.as_slice().first() {
        Some(field) => has_field(program, class, *field),
        None => true,
    }
}

/// Whether a class has a field, its own or from above.
fn has_field(program: &CoreProgram, class: ClassId, field: FieldId) -> bool
    ensures { result ≡ has_field (program_of program.now) class field }
{
    fields_of(program, class)
        .iter()
        .any(|other| *other == field)
}

/// The fields of a class, its own and those from above; none where it isn't there.
pub(crate) fn fields_of(program: &CoreProgram, class: ClassId) -> &[FieldId]
    ensures { result.now ≡ class_fields (slice_get (program_of program.now).classes class) }
{
    match program.classes().get(class.0 as usize) {
        Some(class) => class.fields.as_slice(),
        None => &[],
    }
}

/// Adds empty lists at the end, so that there are at least so many.
fn grow<T: Drop>(alloc: Global, rows: &mut Vec<Vec<T>>, count: usize) -> Result<(), NoMemory>
    ensures same { (m : ℕ) → row_at (rows_of rows.new.items) m ≡ row_at (rows_of rows.old.items) m }
    ensures long { OnOk result (count ≤ length rows.new.items) }
{
    while rows.len() < count {
        rows.push(Vec::new(alloc))?;
    }
    Ok(())
}

/// The places of the facts.
fn facts_of(alloc: Global, clauses: &[Clause]) -> Result<Family, NoMemory>
    ensures { IfOk result (λ family. HasFacts clauses.now (rows_of family.near.items) family.queue.items) }
{
    let mut family = Family {
        near: Vec::new(alloc),
        queue: Vec::new(alloc),
    };
    for clause in clauses {
        family.put_fact(alloc, clause)?;
    }
    Ok(family)
}

/// Puts a path at its place in an ascending list. A short list is first read from its front. Answers false where the list has it already.
fn insert(paths: &mut Vec<Path>, path: &Path) -> Result<bool, NoMemory>
    requires { IsStrictlySortedBy path_order paths.old.items }
    ensures ascends { OnOk result (IsStrictlySortedBy path_order paths.new.items) }
    ensures is_new { IfOk result (λ is_new. is_new ≡ not (has_path paths.old.items path.now)) }
    ensures paths { OnOk result ((q : PathData) → has_path paths.new.items q ≡ (path_eq path.now q || has_path paths.old.items q)) }
{
    if paths.len() <= SHORT && has(paths.as_slice(), path) {
        return Ok(false);
    }
    match paths.binary_search(path) {
        Ok(_) => Ok(false),
        Err(at) => {
            paths.insert(at, path.copy())?;
            Ok(true)
        }
    }
}

impl Family {
    /// The place of the clause, if it is a fact.
    fn put_fact(&mut self, alloc: Global, clause: &Clause) -> Result<(), NoMemory>
        requires { ListsAgree (rows_of self.old.near.items) self.old.queue.items }
        ensures { OnOk result (GrowsByNext self.old.queue.items (λ x. clause.now ≡ Clause.Fact x) (rows_of self.new.near.items) self.new.queue.items) }
    {
        match clause {
            Clause::Fact(place) => self.put(alloc, place),
            Clause::Leads(_) => Ok(()),
        }
    }

    /// One more place, if it isn't known.
    fn put(&mut self, alloc: Global, place: &NearPath) -> Result<(), NoMemory>
        requires { ListsAgree (rows_of self.old.near.items) self.old.queue.items }
        ensures { OnOk result (GrowsByNext self.old.queue.items (λ x. x ≡ place.now) (rows_of self.new.near.items) self.new.queue.items) }
    {
        let method = number(place.method);
        grow(alloc, &mut self.near, method + 1)?;
        if insert(&mut self.near[method], &place.path)? {
            self.queue.push(place.copy())?;
        }
        Ok(())
    }

    /// What a link leads to from a place.
    fn follow(
        &mut self,
        alloc: Global,
        program: &CoreProgram,
        link: &Link,
        place: &NearPath,
    ) -> Result<(), NoMemory>
        requires { ListsAgree (rows_of self.old.near.items) self.old.queue.items }
        ensures { OnOk result (GrowsByNext self.old.queue.items (LinkLeads (program_of program.now) link.now place.now) (rows_of self.new.near.items) self.new.queue.items) }
    {
        match led_by(program, &link.way, &place.path) {
            None => Ok(()),
            Some(path) => {
                let place = NearPath {
                    method: link.to,
                    path,
                };
                self.put(alloc, &place)
            }
        }
    }

    /// What these links lead to from a place.
    fn follow_each(
        &mut self,
        alloc: Global,
        program: &CoreProgram,
        links: &[Link],
        place: &NearPath,
    ) -> Result<(), NoMemory>
        requires { ListsAgree (rows_of self.old.near.items) self.old.queue.items }
        ensures { OnOk result (GrowsByNext self.old.queue.items (IsLed (program_of program.now) links.now place.now) (rows_of self.new.near.items) self.new.queue.items) }
    {
        for link in links {
            self.follow(alloc, program, link, place)?;
        }
        Ok(())
    }

    /// What the links of its method lead to from a place.
    fn follow_all(
        &mut self,
        alloc: Global,
        program: &CoreProgram,
        links: &[Vec<Link>],
        place: &NearPath,
    ) -> Result<(), NoMemory>
        requires { ListsAgree (rows_of self.old.near.items) self.old.queue.items }
        ensures { OnOk result (GrowsByNext self.old.queue.items (IsLed (program_of program.now) (row_at (rows_of links.now) place.now.method) place.now)
            (rows_of self.new.near.items) self.new.queue.items) }
    {
        self.follow_each(alloc, program, row(links, number(place.method)), place)
    }
}
