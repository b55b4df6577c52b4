//! Builds the table of a program without faults.

ghost use Rattle.std.specs.Prelude.{◌≡◌, ◌+◌, ◌^◌, ◌<◌, ◌++◌, map, length, option_map, IfOk, OnOk};
ghost use Rattle.syntax.specs.Views.{member_of, class_of};
ghost use Rattle.classes.specs.Own.{own_names, all_own_names};
ghost use Rattle.classes.specs.Table.{type_of, param_of, fields_of, methods_of};
ghost use Rattle.classes.specs.Views.{class_data, method_data};
ghost use Rattle.classes.specs.Building.{parts_data, above_at, class_entry_of, counts_among, with_class, parts_from};
ghost use Rattle.classes.specs.Climbs.{AreClimbs};

use crate::above::{classes_above, counts_runnable};
use crate::climbs::{Climb, above_at, all_climbs};
use crate::entries::{ClassEntry, FieldEntry, MethodEntry, ParamEntry};
use crate::names::NameSet;
use crate::numbers::number;
use crate::own::OwnNames;
use core_program::CoreType;
use paths::ClassId;
use std::alloc::{AllocError as NoMemory, Global};
use syntax::{Class, Member, Name, Param, TypeName};

/// Whether so many numbers from a first one are ids.
fn check_room(first: u32, count: usize) -> Result<(), NoMemory>
    ensures { OnOk result (first + count < 2 ^ 32) }
{
    if count <= (u32::MAX - first) as usize {
        Ok(())
    } else {
        Err(NoMemory)
    }
}

fn core_type(names: &NameSet, ty: &TypeName) -> Result<CoreType, NoMemory>
    ensures { IfOk result (λ t. t ≡ type_of names.now ty.now) }
{
    match ty {
        TypeName::Int => Ok(CoreType::Int),
        TypeName::Boolean => Ok(CoreType::Boolean),
        TypeName::Class(name) => {
            let index = names.number_of(name.text).unwrap_or(0);
            Ok(CoreType::Class(ClassId(number(index)?)))
        }
    }
}

fn result_type(names: &NameSet, returns: &Option<TypeName>) -> Result<Option<CoreType>, NoMemory>
    ensures { IfOk result (λ t. t ≡ option_map (type_of names.now) returns.now) }
{
    match returns {
        Some(ty) => Ok(Some(core_type(names, ty)?)),
        None => Ok(None),
    }
}

fn param_entry<'a>(names: &NameSet, param: &Param<'a>) -> Result<ParamEntry<'a>, NoMemory>
    ensures { IfOk result (λ p. p ≡ param_of names.now param.now) }
{
    let ty = core_type(names, &param.ty)?;
    let name = param.name.text;
    Ok(ParamEntry {
        name,
        is_final: param.is_final,
        ty,
    })
}

fn param_entries<'a>(
    alloc: Global,
    names: &NameSet,
    params: &[Param<'a>],
) -> Result<Vec<ParamEntry<'a>>, NoMemory>
    ensures { IfOk result (λ ps. ps.items ≡ map (param_of names.now) params.now) }
{
    let mut entries = Vec::new(alloc);
    for param in params {
        let entry = param_entry(names, param)?;
        entries.push(entry)?;
    }
    Ok(entries)
}

fn field_entry<'a>(
    names: &NameSet,
    class: ClassId,
    is_final: bool,
    ty: &TypeName,
    name: &Name<'a>,
) -> Result<FieldEntry<'a>, NoMemory>
    ensures { IfOk result (λ f. f ≡ record { class = class; name = name.now.text; is_final = is_final; ty = type_of names.now ty.now }) }
{
    let ty = core_type(names, ty)?;
    let name = name.text;
    Ok(FieldEntry {
        class,
        name,
        is_final,
        ty,
    })
}

fn method_entry<'a>(
    alloc: Global,
    names: &NameSet,
    class: ClassId,
    name: &Name<'a>,
    params: &[Param<'a>],
    returns: &Option<TypeName>,
) -> Result<MethodEntry<'a>, NoMemory>
    ensures { IfOk result (λ m. method_data m ≡ record { class = class; name = name.now.text; params = map (param_of names.now) params.now; returns = option_map (type_of names.now) returns.now }) }
{
    let returns = result_type(names, returns)?;
    let params = param_entries(alloc, names, params)?;
    let name = name.text;
    Ok(MethodEntry {
        class,
        name,
        params,
        returns,
    })
}

fn add_fields<'a>(
    names: &NameSet,
    class: ClassId,
    members: &[Member<'a>],
    fields: &mut Vec<FieldEntry<'a>>,
) -> Result<(), NoMemory>
    ensures { OnOk result (fields.new.items ≡ fields.old.items ++ fields_of names.now class (map member_of members.now)) }
{
    for member in members {
        if let Member::Field {
            is_final,
            ty,
            name,
            ..
        } = member
        {
            let entry = field_entry(names, class, *is_final, ty, name)?;
            fields.push(entry)?;
        }
    }
    Ok(())
}

fn add_methods<'a>(
    alloc: Global,
    names: &NameSet,
    class: ClassId,
    members: &[Member<'a>],
    methods: &mut Vec<MethodEntry<'a>>,
) -> Result<(), NoMemory>
    ensures { OnOk result (map method_data methods.new.items ≡ map method_data methods.old.items ++ methods_of names.now class (map member_of members.now)) }
{
    for member in members {
        if let Member::Method {
            result: returns,
            name,
            params,
            ..
        } = member
        {
            let entry = method_entry(alloc, names, class, name, params.as_slice(), returns)?;
            methods.push(entry)?;
        }
    }
    Ok(())
}

/// A class, where so many fields and methods stand before. There is no memory for a class whose members are too many for ids.
fn class_entry<'a>(
    class: &Class<'a>,
    own: OwnNames<'a>,
    above: Option<ClassId>,
    runnable: bool,
    first_field: u32,
    first_method: u32,
) -> Result<ClassEntry<'a>, NoMemory>
    requires { own ≡ own_names (class_of class.now) }
    ensures { IfOk result (λ c. class_data c ≡ class_entry_of above runnable first_field first_method (class_of class.now)) }
{
    let members = class.members.as_slice();
    check_room(first_field, members.len())?;
    check_room(first_method, members.len())?;
    let OwnNames { fields, methods } = own;
    Ok(ClassEntry {
        above,
        runnable,
        first_field,
        field_names: fields,
        first_method,
        method_names: methods,
    })
}

fn id_of(class: Option<usize>) -> Result<Option<ClassId>, NoMemory>
    ensures { IfOk result (λ id. id ≡ class) }
{
    match class {
        Some(class) => Ok(Some(ClassId(number(class)?))),
        None => Ok(None),
    }
}

/// The classes of a table, what stands above each, and what is met there.
#[derive(Drop)]
struct Lineup<'p, 'a> {
    classes: &'p [Class<'a>],
    aboves: Vec<Option<usize>>,
    climbs: Vec<Climb>,
}

impl<'p, 'a> Lineup<'p, 'a> {
    fn counts_runnable(&self, class: usize) -> bool
        requires { AreClimbs (map class_of self.now.classes.now) (above_at self.now.aboves.items) (length (map class_of self.now.classes.now)) self.now.climbs.items }
        ensures { result ≡ counts_among (map class_of self.now.classes.now) self.now.aboves.items class }
    {
        counts_runnable(
            self.classes,
            self.aboves.as_slice(),
            self.climbs.as_slice(),
            class,
        )
    }
}

/// The parts of a table while classes are added.
#[derive(Drop)]
pub(crate) struct TableParts<'a> {
    pub(crate) classes: Vec<ClassEntry<'a>>,
    pub(crate) fields: Vec<FieldEntry<'a>>,
    pub(crate) methods: Vec<MethodEntry<'a>>,
}

impl<'a> TableParts<'a> {
    /// Adds the next one of the classes, which has these own names.
    fn add(
        &mut self,
        alloc: Global,
        names: &NameSet,
        lineup: &Lineup,
        class: &Class<'a>,
        own: OwnNames<'a>,
    ) -> Result<(), NoMemory>
        requires own { own ≡ own_names (class_of class.now) }
        requires climbs { AreClimbs (map class_of lineup.now.classes.now) (above_at lineup.now.aboves.items) (length (map class_of lineup.now.classes.now)) lineup.now.climbs.items }
        ensures { OnOk result (parts_data self.new
            ≡ with_class (map class_of lineup.now.classes.now) lineup.now.aboves.items names.now (class_of class.now) (parts_data self.old)) }
    {
        let place = self.classes.len();
        let id = ClassId(number(place)?);
        let above = id_of(above_at(lineup.aboves.as_slice(), place))?;
        let runnable = lineup.counts_runnable(place);
        let first_field = number(self.fields.len())?;
        let first_method = number(self.methods.len())?;
        let members = class.members.as_slice();
        add_fields(names, id, members, &mut self.fields)?;
        add_methods(alloc, names, id, members, &mut self.methods)?;
        let entry = class_entry(class, own, above, runnable, first_field, first_method)?;
        self.classes.push(entry)?;
        Ok(())
    }
}

/// The parts of the table of these classes, which have these own names.
pub(crate) fn parts_of<'a>(
    alloc: Global,
    names: &NameSet,
    classes: &[Class<'a>],
    own: Vec<OwnNames<'a>>,
) -> Result<TableParts<'a>, NoMemory>
    requires { own.items ≡ all_own_names (map class_of classes.now) }
    ensures { IfOk result (λ p. parts_data p ≡ parts_from names.now (map class_of classes.now)) }
{
    let aboves = classes_above(alloc, names, classes)?;
    let climbs = all_climbs(alloc, classes, aboves.as_slice())?;
    let lineup = Lineup {
        classes,
        aboves,
        climbs,
    };
    let mut parts = TableParts {
        classes: Vec::new(alloc),
        fields: Vec::new(alloc),
        methods: Vec::new(alloc),
    };
    let mut number = 0;
    for own in own {
        let Some(class) = classes.get(number) else {
            return Ok(parts);
        };
        parts.add(alloc, names, &lineup, class, own)?;
        number += 1;
    }
    Ok(parts)
}
