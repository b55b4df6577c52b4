//! Programs of which one field at a time is made final. What an effect asks of a program is copied once, and its bodies are walked
//! through once: an ask then takes as long as the body of its method.

ghost use Rattle.std.specs.Prelude.{◌≡◌, ◌==◌, ◌||◌, ℕ, Some, map, not, slice_get, IfOk, OnOk};
ghost use Rattle.std.specs.List.{list_any};
ghost use Rattle.core_program.specs.Core.{Field};
ghost use Rattle.core_program.specs.Dispatch.{has_field};
ghost use Rattle.core_program.specs.Views.{field_of, method_of, program_of, stmt_of, stmts_from};
ghost use Rattle.rules.specs.Effect.{required_paths};
ghost use Rattle.rules.specs.Near.{rel_of};
ghost use Rattle.explain.specs.FinalFields.{can_be_final, field_finalised, final_field_fits, sets_field, some_sets_field};
ghost use Rattle.explain.specs.OneFinal.{has_mark, with_finality};

use crate::walk::Walk;
use algebra::Basic;
use core_program::{CoreField, CoreMethod, CoreProgram, CoreStmt};
use effects::{Assigned, copied, stmt_effect};
use paths::{ClassId, FieldId, Path};
use std::alloc::{AllocError as NoMemory, Global};
use std::marker::Model;

/// Marks a field.
fn mark(marks: &mut Vec<bool>, field: FieldId) -> Result<(), NoMemory>
    ensures { OnOk result ((f : ℕ) → has_mark marks.new.items f ≡ (has_mark marks.old.items f || (field == f))) }
{
    let place = field.0 as usize;
    'marks: while marks.len() <= place {
        marks.push(false)?;
    }
    marks[place] = true;
    Ok(())
}

/// Marks the fields that a statement assigns to, of any object.
#[cycle(setting)]
fn mark_set(marks: &mut Vec<bool>, s: &CoreStmt) -> Result<(), NoMemory>
    ensures { OnOk result ((f : ℕ) → has_mark marks.new.items f ≡ (has_mark marks.old.items f || sets_field f (stmt_of s.now))) }
{
    match s {
        CoreStmt::SetField(_, field, _) => mark(marks, *field),
        CoreStmt::Block(body) => mark_set_by_some(marks, body.as_slice()),
        CoreStmt::If(_, a, b) => {
            mark_set(marks, a)?;
            mark_set(marks, b)
        }
        CoreStmt::While(_, a) | CoreStmt::Sync(_, a) => mark_set(marks, a),
        CoreStmt::Empty
        | CoreStmt::Local { .. }
        | CoreStmt::SetVar(_, _)
        | CoreStmt::Do(_, _)
        | CoreStmt::Return(_)
        | CoreStmt::Print(_)
        | CoreStmt::Start(_) => Ok(()),
    }
}

/// Marks those that the statements of a block assign to.
#[cycle(setting)]
fn mark_set_by_some(marks: &mut Vec<bool>, body: &[CoreStmt]) -> Result<(), NoMemory>
    ensures { OnOk result ((f : ℕ) → has_mark marks.new.items f ≡ (has_mark marks.old.items f || some_sets_field f (stmts_from body.now))) }
{
    for s in body {
        mark_set(marks, s)?;
    }
    Ok(())
}

/// Marks those that the bodies of these methods assign to.
fn mark_assigned(marks: &mut Vec<bool>, methods: &[CoreMethod]) -> Result<(), NoMemory>
    ensures { OnOk result ((f : ℕ) → has_mark marks.new.items f ≡ (has_mark marks.old.items f || list_any (λ m. sets_field f m.body) (map method_of methods.now))) }
{
    for method in methods {
        mark_set(marks, &method.body)?;
    }
    Ok(())
}

/// Marks these fields.
fn mark_all(marks: &mut Vec<bool>, fields: &[FieldId]) -> Result<(), NoMemory>
    ensures { OnOk result ((f : ℕ) → has_mark marks.new.items f ≡ (has_mark marks.old.items f || list_any (λ g. g == f) fields.now)) }
{
    for field in fields {
        mark(marks, *field)?;
    }
    Ok(())
}

/// Marks the fields of a class, its own and those from above.
fn mark_fields_of(
    marks: &mut Vec<bool>,
    program: &CoreProgram,
    class: ClassId,
) -> Result<(), NoMemory>
    ensures { OnOk result ((f : ℕ) → has_mark marks.new.items f ≡ (has_mark marks.old.items f || has_field (program_of program.now) class f)) }
{
    match program.classes().get(class.0 as usize) {
        Some(class) => mark_all(marks, class.fields.as_slice()),
        None => Ok(()),
    }
}

/// A mark for each field that can't be made final with each method as it is.
fn fixed(alloc: Global, program: &CoreProgram) -> Result<Vec<bool>, NoMemory>
    ensures { IfOk result (λ marks. (f : ℕ) → can_be_final (program_of program.now) f ≡ not (has_mark marks.items f)) }
{
    let mut marks = Vec::new(alloc);
    mark_fields_of(&mut marks, program, program.main_class)?;
    mark_assigned(&mut marks, program.methods())?;
    Ok(marks)
}

/// A guard once more.
fn same_guard(guard: &Option<Path>) -> Option<Path>
    ensures { result ≡ guard.now }
{
    match guard {
        Some(path) => Some(path.copy()),
        None => None,
    }
}

/// A field once more.
fn same_field(field: &CoreField) -> CoreField
    ensures { field_of result ≡ field_of field.now }
{
    CoreField {
        class: field.class,
        index: field.index,
        is_final: field.is_final,
        ty: field.ty,
        guard: same_guard(&field.guard),
        writes_only: field.writes_only,
    }
}

/// These fields once more.
fn same_fields(alloc: Global, fields: &[CoreField]) -> Result<Vec<CoreField>, NoMemory>
    ensures { IfOk result (λ made. map field_of made.items ≡ map field_of fields.now) }
{
    let mut made = Vec::new(alloc);
    for field in fields {
        made.push(same_field(field))?;
    }
    Ok(made)
}

/// A method of which only what it requires is left.
fn requiring(alloc: Global, method: &CoreMethod) -> Result<CoreMethod, NoMemory>
    ensures { IfOk result (λ made. made.requires_.items ≡ method.now.requires_.items) }
{
    let required = copied(alloc, method.requires_.as_slice())?;
    Ok(CoreMethod {
        class: method.class,
        place_at: method.place_at,
        annotated: method.annotated,
        requires_: required,
        params: Vec::new(alloc),
        result: None,
        slots: method.slots,
        body: CoreStmt::Empty,
    })
}

/// These methods, of each only what it requires.
fn all_requiring(alloc: Global, methods: &[CoreMethod]) -> Result<Vec<CoreMethod>, NoMemory>
    ensures { IfOk result (λ made. map (λ (m : CoreMethod). m.requires_.items) made.items ≡ map (λ (m : CoreMethod). m.requires_.items) methods.now) }
{
    let mut made = Vec::new(alloc);
    for method in methods {
        made.push(requiring(alloc, method)?)?;
    }
    Ok(made)
}

/// As much of a program as an effect asks: its fields, and what its methods require.
fn program_for_effects(alloc: Global, program: &CoreProgram) -> Result<CoreProgram, NoMemory>
    ensures fields { IfOk result (λ made. (program_of made).fields ≡ (program_of program.now).fields) }
    ensures required { IfOk result (λ made. (m : ℕ) → required_paths (slice_get (program_of made).methods m) ≡ required_paths (slice_get (program_of program.now).methods m)) }
{
    let fields = same_fields(alloc, program.fields())?;
    let methods = all_requiring(alloc, program.methods())?;
    Ok(CoreProgram {
        classes: Vec::new(alloc),
        fields,
        methods,
        names: Vec::new(alloc),
        main_class: program.main_class,
        main: program.main,
    })
}

/// Makes a field final, or not, and returns whether it was. A field that isn't there is none.
fn set_final(fields: &mut Vec<CoreField>, field: FieldId, is_final: bool) -> bool
    ensures made { map field_of fields.new.items ≡ with_finality field is_final (map field_of fields.old.items) }
    ensures was { (x : Field) → slice_get (map field_of fields.old.items) field ≡ Some x → x.is_final ≡ result }
{
    let place = field.0 as usize;
    if place >= fields.len() {
        return false;
    }
    let was = fields[place].is_final;
    fields[place].is_final = is_final;
    was
}

/// The effect of a method's body in a program with a field final, at its required paths. After that the field is what it was.
fn finalised_in<A: Assigned>(
    program: &mut CoreProgram,
    walk: &Walk<'_, A>,
    method: &CoreMethod,
    field: FieldId,
) -> Result<Basic, NoMemory>
    ensures kept { program_of program.new ≡ program_of program.old }
    ensures effect { IfOk result (λ b. b ≡ field_finalised (program_of program.old) (rel_of walk.now.sets.now) (A.Assigned.assigned walk.now.assigned.now) (method_of method.now) field) }
{
    let was = set_final(&mut program.fields, field, true);
    let effect = stmt_effect(
        walk.alloc,
        program,
        walk.sets,
        walk.assigned,
        &method.body,
        method.requires_.as_slice(),
    );
    set_final(&mut program.fields, field, was);
    effect
}

/// A program of which one field at a time is made final. A contract sees the program. Kept are as much of it as an effect asks, and a mark
/// for each field that must stay as it is.
#[derive(Drop)]
pub struct FinalFields<'p> {
    program: &'p CoreProgram,
    copy: CoreProgram,
    fixed: Vec<bool>,
}

impl<'p> Model for FinalFields<'p> {
    ghost use Rattle.core_program.specs.declared.program.CoreProgram.{CoreProgram};
    ghost use Rattle.core_program.specs.Views.{program_of};
    ghost use Rattle.core_program.specs.contracts.tree.CoreStmt as statement;
    ghost use Rattle.std.specs.Coded.{codes};
    ghost use Rattle.explain.specs.OneFinal.{KeepsFields};

    ghost Value = { CoreProgram };

    ghost coded = { Prim.hlevel (codes, statement.the_row.coded) };

    ghost view = { λ finals. finals.program.now };

    ghost invariant = { λ finals. KeepsFields (program_of finals.program.now) (program_of finals.copy) finals.fixed.items };
}

impl<'p> FinalFields<'p> {
    /// Those of a program.
    pub fn of(alloc: Global, program: &'p CoreProgram) -> Result<FinalFields<'p>, NoMemory>
        ensures { IfOk result (λ finals. finals ≡ program.now) }
    {
        let copy = program_for_effects(alloc, program)?;
        let fixed = fixed(alloc, program)?;
        Ok(FinalFields {
            program,
            copy,
            fixed,
        })
    }

    /// The program.
    pub(crate) fn program(&self) -> &'p CoreProgram
        ensures { result.now ≡ self.now }
    {
        self.program
    }

    /// Whether a field can be made final with each method as it is.
    fn can_be(&self, field: FieldId) -> bool
        ensures { result ≡ can_be_final (program_of self.now) field }
    {
        match self.fixed.get(field.0 as usize) {
            Some(is_fixed) => !*is_fixed,
            None => true,
        }
    }

    /// The effect of a method's body in the program with a field final, at its required paths.
    fn finalised<A: Assigned>(
        &mut self,
        walk: &Walk<'_, A>,
        method: &CoreMethod,
        field: FieldId,
    ) -> Result<Basic, NoMemory>
        ensures kept { self.new ≡ self.old }
        ensures effect { IfOk result (λ b. b ≡ field_finalised (program_of self.old) (rel_of walk.now.sets.now) (A.Assigned.assigned walk.now.assigned.now) (method_of method.now) field) }
    {
        finalised_in(&mut self.copy, walk, method, field)
    }

    /// Whether a field can be made final, and with it final the body of a method is at most this.
    pub(crate) fn fits<A: Assigned>(
        &mut self,
        walk: &Walk<'_, A>,
        method: &CoreMethod,
        limit: Basic,
        field: FieldId,
    ) -> Result<bool, NoMemory>
        ensures kept { self.new ≡ self.old }
        ensures fits { IfOk result (λ b. b ≡ final_field_fits (program_of self.old) (rel_of walk.now.sets.now) (A.Assigned.assigned walk.now.assigned.now) (method_of method.now) limit field) }
    {
        if !self.can_be(field) {
            return Ok(false);
        }
        let own = self.finalised(walk, method, field)?;
        Ok(own.below(limit))
    }
}
