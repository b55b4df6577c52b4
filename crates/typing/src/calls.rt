//! The rules of calls and of `new`.

ghost use Rattle.std.specs.Prelude.{◌≡◌, ◌++◌, List, count_by, map, take, drop, slice_get, option_map, IfOk, OnOk, OnErr};
ghost use Rattle.classes.specs.Views.{table_data, class_data};
ghost use Rattle.core_program.specs.declared.types.CoreType.{CoreType};
ghost use Rattle.core_program.specs.Core.{CallE, NewE};
ghost use Rattle.core_program.specs.Types.{result_type};
ghost use Rattle.core_program.specs.Views.{expr_of, exprs_from};
ghost use Rattle.typing.specs.Exprs.{unknown_only, call_fault, new_fault};
ghost use Rattle.typing.specs.Noted.{type_noted};
ghost use Rattle.typing.specs.Rulings.{gain, loss, ruled, both};
ghost use Rattle.typing.specs.Rules.{own_fields_of, own_fields, types_of_finals, final_types, fit_each, method_rule, call_rule, new_rule};
ghost use Rattle.typing.specs.Fitting.{fit_before};
ghost use Rattle.typing.specs.Views.{boxed_data, typed_data, typed_list, type_data, types_of, argument_nodes, method_found};

use crate::fault::TypeFault;
use crate::first::FirstFault;
use crate::lookup::method_named;
use crate::rules::{class_rule, value};
use crate::types::{BoxedExpr, ExprType, TypedExpr};
use classes::{ClassEntry, ClassTable, FieldEntry, MethodEntry, ParamEntry};
use core_program::{CoreExpr, CoreType};
use paths::{ClassId, MethodId};
use std::alloc::{AllocError as NoMemory, Global};
use syntax::Name;

/// The method that a name means for a receiver of this type.
pub fn method_rule<'t, 'a>(
    table: &'t ClassTable<'a>,
    name: &Name,
    receiver: ExprType,
    first: &mut FirstFault,
) -> Option<(MethodId, &'t MethodEntry<'a>)>
    ensures method { option_map method_found result ≡ gain (method_rule (table_data table.now) name.now (type_data receiver)) }
    ensures fault { first.new ≡ type_noted first.old (loss (method_rule (table_data table.now) name.now (type_data receiver))) }
{
    let Some(class) = receiver.class() else {
        first.note(TypeFault::NoRule(name.at));
        return None;
    };
    let found = method_named(table, class, name.text);
    if found.is_none() {
        first.note(TypeFault::UnknownName(name.at));
    }
    found
}

/// Notes a method that the receiver's class lacks, and nothing else.
fn note_unknown_method(table: &ClassTable, name: &Name, receiver: ExprType, first: &mut FirstFault)
    ensures { first.new ≡ type_noted first.old (unknown_only (method_rule (table_data table.now) name.now (type_data receiver))) }
{
    let Some(class) = receiver.class() else {
        return;
    };
    if method_named(table, class, name.text).is_none() {
        first.note(TypeFault::UnknownName(name.at));
    }
}

fn fit_params(table: &ClassTable, args: &[TypedExpr], params: &[ParamEntry]) -> bool
    ensures { result ≡ fit_each (table_data table.now) (types_of args.now) (map (λ p. p.ty) params.now) }
{
    let mut rest = args;
    for param in params {
        let Some((arg, more)) = rest.split_first() else {
            return false;
        };
        if !arg.ty.fits(table, ExprType::Value(param.ty)) {
            return false;
        }
        rest = more;
    }
    rest.is_empty()
}

/// Whether arguments fit the final ones of these fields.
fn fit_finals(table: &ClassTable, args: &[TypedExpr], fields: &[FieldEntry]) -> bool
    ensures { result ≡ fit_each (table_data table.now) (types_of args.now) (types_of_finals fields.now) }
{
    let mut rest = args;
    for field in fields {
        if !field.is_final {
            continue;
        }
        let Some((arg, more)) = rest.split_first() else {
            return false;
        };
        if !arg.ty.fits(table, ExprType::Value(field.ty)) {
            return false;
        }
        rest = more;
    }
    rest.is_empty()
}

/// So many fields from a place on; fewer where they end before.
fn window<'t, 'a>(all: &'t [FieldEntry<'a>], start: usize, count: usize) -> &'t [FieldEntry<'a>]
    ensures { result.now ≡ take count (drop start all.now) }
{
    let (_, later) = all.split_at(start.min(all.len()));
    let (own, _) = later.split_at(count.min(later.len()));
    own
}

fn class_entry<'t, 'a>(table: &'t ClassTable<'a>, class: ClassId) -> Option<&'t ClassEntry<'a>>
    ensures { option_map (λ e. class_data e.now) result ≡ slice_get (table_data table.now).classes class }
{
    table.classes().get(class.0 as usize)
}

fn entry_fields<'t, 'a>(table: &'t ClassTable<'a>, entry: &ClassEntry) -> &'t [FieldEntry<'a>]
    ensures { result.now ≡ own_fields_of (table_data table.now) (class_data entry.now) }
{
    let start = entry.first_field().0 as usize;
    window(table.fields(), start, entry.field_count())
}

/// The own fields of a class.
fn own_fields<'t, 'a>(table: &'t ClassTable<'a>, class: ClassId) -> &'t [FieldEntry<'a>]
    ensures { result.now ≡ own_fields (table_data table.now) class }
{
    match class_entry(table, class) {
        Some(entry) => entry_fields(table, entry),
        None => window(table.fields(), 0, 0),
    }
}

fn count_finals(fields: &[FieldEntry]) -> usize
    ensures { result ≡ count_by (λ f. f.is_final) fields.now }
{
    fields.iter().filter(|field| field.is_final).count()
}

/// The arguments before those that the final ones of these fields take, where each of these fits.
fn fit_last<'e>(
    table: &ClassTable,
    args: &'e [TypedExpr],
    fields: &[FieldEntry],
) -> Option<&'e [TypedExpr]>
    ensures { (us : List CoreType) → fit_each (table_data table.now) (types_of args.now) (us ++ types_of_finals fields.now) ≡ fit_before (table_data table.now) us (option_map (λ before. types_of before.now) result) }
{
    let count = args.len().checked_sub(count_finals(fields))?;
    let (before, own) = args.split_at(count);
    if !fit_finals(table, own, fields) {
        return None;
    }
    Some(before)
}

/// Whether arguments fit the final fields of a class, those from above before its own.
fn fit_class(table: &ClassTable, args: &[TypedExpr], class: ClassId) -> bool
    ensures { result ≡ fit_each (table_data table.now) (types_of args.now) (final_types (table_data table.now) class) }
{
    let mut rest = args;
    let mut at = class;
    for _ in 0..table.classes().len() + 1 {
        let Some(before) = fit_last(table, rest, own_fields(table, at)) else {
            return false;
        };
        rest = before;
        let Some(above) = table.above(at) else {
            return rest.is_empty();
        };
        at = above;
    }
    rest.is_empty()
}

fn nodes_of(alloc: Global, parts: Vec<TypedExpr>) -> Result<Vec<CoreExpr>, NoMemory>
    ensures { IfOk result (λ nodes. nodes.items ≡ argument_nodes parts.items) }
{
    parts.into_iter().map(|part| part.node).collect(alloc)
}

fn call_node(receiver: Box<CoreExpr>, method: MethodId, args: Vec<CoreExpr>) -> CoreExpr
    ensures { expr_of result ≡ CallE (expr_of receiver.value) method (exprs_from args.items) }
{
    CoreExpr::Call(receiver, method, args)
}

fn new_node(class: ClassId, args: Vec<CoreExpr>) -> CoreExpr
    ensures { expr_of result ≡ NewE class (exprs_from args.items) }
{
    CoreExpr::New(class, args)
}

/// What a call of a method with this result gives.
fn result_type(returns: Option<CoreType>) -> ExprType
    ensures { type_data result ≡ result_type returns }
{
    match returns {
        Some(ty) => ExprType::Value(ty),
        None => ExprType::Void,
    }
}

/// A call whose receiver and arguments have types. After want of memory no fault is noted.
fn typed_call(
    alloc: Global,
    table: &ClassTable,
    name: &Name,
    receiver: BoxedExpr,
    args: Vec<TypedExpr>,
    first: &mut FirstFault,
) -> Result<Option<TypedExpr>, NoMemory>
    ensures typed { IfOk result (λ e. option_map typed_data e ≡ gain (call_rule (table_data table.now) name.now (boxed_data receiver, typed_list args.items))) }
    ensures fault { OnOk result (first.new ≡ type_noted first.old (loss (call_rule (table_data table.now) name.now (boxed_data receiver, typed_list args.items)))) }
    ensures err { OnErr result (first.new ≡ first.old) }
{
    let Some((id, method)) = method_rule(table, name, receiver.ty, first) else {
        return Ok(None);
    };
    if !fit_params(table, args.as_slice(), method.params.as_slice()) {
        first.note(TypeFault::NoRule(name.at));
        return Ok(None);
    }
    let args = nodes_of(alloc, args)?;
    Ok(Some(TypedExpr {
        ty: result_type(method.returns),
        node: call_node(receiver.node, id, args),
    }))
}

/// A call. Where the arguments have no types, only a method that the class lacks is a fault. After want of memory none is
/// noted.
pub fn call_rule(
    alloc: Global,
    table: &ClassTable,
    name: &Name,
    receiver: Option<BoxedExpr>,
    args: Option<Vec<TypedExpr>>,
    first: &mut FirstFault,
) -> Result<Option<TypedExpr>, NoMemory>
    ensures typed { IfOk result (λ e. option_map typed_data e ≡ ruled (call_rule (table_data table.now) name.now) (both (option_map boxed_data receiver) (option_map (λ a. typed_list a.items) args))) }
    ensures fault { OnOk result (first.new ≡ type_noted first.old (call_fault (table_data table.now) name.now (option_map boxed_data receiver) (option_map (λ a. typed_list a.items) args))) }
    ensures err { OnErr result (first.new ≡ first.old) }
{
    let Some(receiver) = receiver else {
        return Ok(None);
    };
    let Some(args) = args else {
        note_unknown_method(table, name, receiver.ty, first);
        return Ok(None);
    };
    typed_call(alloc, table, name, receiver, args, first)
}

/// A `new`. Where the arguments have no types, only a name of no class is a fault. After want of memory none is noted.
pub fn new_rule(
    alloc: Global,
    table: &ClassTable,
    name: &Name,
    args: Option<Vec<TypedExpr>>,
    first: &mut FirstFault,
) -> Result<Option<TypedExpr>, NoMemory>
    ensures typed { IfOk result (λ e. option_map typed_data e ≡ ruled (new_rule (table_data table.now) name.now) (option_map (λ a. typed_list a.items) args)) }
    ensures fault { OnOk result (first.new ≡ type_noted first.old (new_fault (table_data table.now) name.now (option_map (λ a. typed_list a.items) args))) }
    ensures err { OnErr result (first.new ≡ first.old) }
{
    let Some(class) = class_rule(table, name, first) else {
        return Ok(None);
    };
    let Some(args) = args else {
        return Ok(None);
    };
    if !fit_class(table, args.as_slice(), class) {
        first.note(TypeFault::NoRule(name.at));
        return Ok(None);
    }
    let args = nodes_of(alloc, args)?;
    Ok(Some(value(CoreType::Class(class), new_node(class, args))))
}
