//! The fields and methods of all classes.
#![tactic(auto, using(crate::proofs::Noting::noted_append))]

ghost use Rattle.std.specs.Prelude.{◌≡◌, ◌+◌, ◌<◌, ℕ, Some, length, map, option_map, slice_get, IfOk, OnOk};
ghost use Rattle.classes.specs.Seen.{FieldData};
ghost use Rattle.classes.specs.Table.{MethodData};
ghost use Rattle.classes.specs.Views.{method_data, table_data};
ghost use Rattle.core_program.specs.Views.{field_of};
ghost use Rattle.syntax.specs.Views.{lock_of, member_of, class_of};
ghost use Rattle.typing.specs.Entries.{HasEntry, HaveEntries, AllHaveEntries, method_after, fields_after, methods_after};
ghost use Rattle.typing.specs.Gathered.{appended, with_core_field, with_method, index_after};
ghost use Rattle.typing.specs.Noted.{type_noted};
ghost use Rattle.typing.specs.Programs.{all_there, guard_faults, guard_tree_path, member_type_faults, type_faults_from, fields_core, methods_core, all_core_fields, all_core_methods};
ghost use Rattle.typing.specs.BodyViews.{fields_data, methods_data};
ghost use Rattle.std.specs.Prelude.{flat_map};
ghost use Rattle.typing.specs.Lineages.{lineage_of};

use crate::columns::value_of;
use crate::first::FirstFault;
use crate::gather::Gathered;
use crate::lineage::Lineage;
use crate::lock::lock_path;
use crate::methods::method;
use classes::{ClassTable, FieldEntry, MethodEntry};
use core_program::{CoreField, CoreMethod};
use paths::{ClassId, Path};
use std::alloc::{AllocError as NoMemory, Global};
use syntax::{Class, Lock, Member};

/// The core fields and methods so far, where they are made, and the numbers of the next ones in the class table.
#[derive(Drop)]
pub(crate) struct Members {
    pub(crate) alloc: Global,
    pub(crate) fields: Gathered<CoreField>,
    pub(crate) methods: Gathered<CoreMethod>,
    pub(crate) next_field: u32,
    pub(crate) next_method: u32,
}

/// The path of a guard, if there is one. None where the guard is no lock.
fn guard_path(
    table: &ClassTable,
    class: ClassId,
    guard: &Option<Lock>,
    first: &mut FirstFault,
) -> Option<Option<Path>>
    ensures path { result ≡ guard_tree_path (table_data table.now) class (option_map lock_of guard.now) }
    ensures fault { first.new ≡ type_noted first.old (guard_faults (table_data table.now) class (option_map lock_of guard.now)) }
{
    let Some(lock) = guard else {
        return Some(None);
    };
    let path = lock_path(table, class, &[], lock, first)?;
    Some(Some(path))
}

/// The entry of a field of the class table.
fn field_entry<'t, 'a>(table: &'t ClassTable<'a>, number: u32) -> &'t FieldEntry<'a>
    requires { (f : FieldData) × (slice_get (table_data table.now).fields number ≡ Some f) }
    ensures { slice_get (table_data table.now).fields number ≡ Some result.now }
{
    &table.fields()[number as usize]
}

/// The entry of a method of the class table.
fn method_entry<'t, 'a>(table: &'t ClassTable<'a>, number: u32) -> &'t MethodEntry<'a>
    requires { (m : MethodData) × (slice_get (table_data table.now).methods number ≡ Some m) }
    ensures { slice_get (table_data table.now).methods number ≡ Some (method_data result.now) }
{
    &table.methods()[number as usize]
}

/// The core field of a field with this entry.
fn field(
    entry: &FieldEntry,
    index: u16,
    guard: Option<Option<Path>>,
    writes_only: bool,
) -> Option<CoreField>
    ensures { option_map field_of result ≡ option_map (λ g. record { class = entry.now.class; index = index; is_final = entry.now.is_final; ty = entry.now.ty; guard = g; writes_only = writes_only }) guard }
{
    let guard = guard?;
    Some(CoreField {
        class: entry.class,
        index,
        is_final: entry.is_final,
        ty: entry.ty,
        guard,
        writes_only,
    })
}

/// The index of the next field. A class table admits 32 fields in a class at most, those from above among them; there is no memory for 65,536.
fn next_index(index: u16) -> Result<u16, NoMemory>
    ensures { IfOk result (λ n. n ≡ index + 1) }
{
    match index.checked_add(1) {
        Some(next) => Ok(next),
        None => Err(NoMemory),
    }
}

/// One member of a class, in which so many fields stand before it; how many stand before the next.
fn add_member(
    table: &ClassTable,
    class: ClassId,
    index: u16,
    member: &Member,
    parts: &mut Members,
    first: &mut FirstFault,
) -> Result<u16, NoMemory>
    requires { HasEntry (table_data table.now) class (member_of member.now) parts.old.next_field parts.old.next_method }
    ensures fields { OnOk result (fields_data parts.new ≡ with_core_field (table_data table.now) class index (member_of member.now) (fields_data parts.old)) }
    ensures methods { OnOk result (methods_data parts.new ≡ with_method (table_data table.now) class (member_of member.now) (methods_data parts.old)) }
    ensures next_field { OnOk result (parts.new.next_field ≡ index_after (member_of member.now) parts.old.next_field) }
    ensures next_method { OnOk result (parts.new.next_method ≡ method_after (member_of member.now) parts.old.next_method) }
    ensures index { IfOk result (λ n. n ≡ index_after (member_of member.now) index) }
    ensures fault { OnOk result (first.new ≡ type_noted first.old (member_type_faults (table_data table.now) class (member_of member.now))) }
{
    match member {
        Member::Field {
            guard,
            writes_only,
            ..
        } => {
            let entry = field_entry(table, parts.next_field);
            let guard = guard_path(table, class, guard, first);
            parts.fields.add(field(entry, index, guard, *writes_only))?;
            parts.next_field = next_number(parts.next_field)?;
            next_index(index)
        }
        Member::Ctor { .. } => Ok(index),
        Member::Method { .. } => {
            let entry = method_entry(table, parts.next_method);
            let method = method(parts.alloc, table, class, entry, member, first)?;
            parts.methods.add(method)?;
            parts.next_method = next_number(parts.next_method)?;
            Ok(index)
        }
    }
}

/// The members of a class, which has so many fields from above.
fn add_members(
    table: &ClassTable,
    class: ClassId,
    inherited: u16,
    members: &[Member],
    parts: &mut Members,
    first: &mut FirstFault,
) -> Result<(), NoMemory>
    requires { HaveEntries (table_data table.now) class (map member_of members.now) parts.old.next_field parts.old.next_method }
    ensures fields { OnOk result (fields_data parts.new ≡ appended (fields_data parts.old) (all_there (fields_core (table_data table.now) class inherited (map member_of members.now)))) }
    ensures methods { OnOk result (methods_data parts.new ≡ appended (methods_data parts.old) (all_there (methods_core (table_data table.now) class (map member_of members.now)))) }
    ensures next_field { OnOk result (parts.new.next_field ≡ fields_after (map member_of members.now) parts.old.next_field) }
    ensures next_method { OnOk result (parts.new.next_method ≡ methods_after (map member_of members.now) parts.old.next_method) }
    ensures fault { OnOk result (first.new ≡ type_noted first.old (flat_map (member_type_faults (table_data table.now) class) (map member_of members.now))) }
{
    let mut index = inherited;
    for member in members {
        index = add_member(table, class, index, member, parts, first)?;
    }
    Ok(())
}

/// The number after this one. There is no memory for a program with more parts than numbers.
pub(crate) fn next_number(number: u32) -> Result<u32, NoMemory>
    ensures { IfOk result (λ n. n ≡ number + 1) }
{
    match number.checked_add(1) {
        Some(next) => Ok(next),
        None => Err(NoMemory),
    }
}

/// The core fields and methods of these classes; their faults are noted.
pub(crate) fn parts_of(
    alloc: Global,
    table: &ClassTable,
    lineages: &[Lineage],
    classes: &[Class],
    first: &mut FirstFault,
) -> Result<Members, NoMemory>
    requires many { length classes.now ≡ length (table_data table.now).classes }
    requires entries { AllHaveEntries (table_data table.now) 0 (map class_of classes.now) 0 0 }
    requires lineages { (c : ℕ) → c < length (table_data table.now).classes → slice_get lineages.now c ≡ Some (lineage_of (table_data table.now) c) }
    ensures fields { IfOk result (λ p. fields_data p ≡ all_there (all_core_fields (table_data table.now) 0 (map class_of classes.now))) }
    ensures methods { IfOk result (λ p. methods_data p ≡ all_there (all_core_methods (table_data table.now) 0 (map class_of classes.now))) }
    ensures fault { OnOk result (first.new ≡ type_noted first.old (type_faults_from (table_data table.now) 0 (map class_of classes.now))) }
{
    let mut parts = Members {
        alloc,
        fields: Gathered::new(alloc),
        methods: Gathered::new(alloc),
        next_field: 0,
        next_method: 0,
    };
    let mut number = 0;
    for class in classes {
        let id = ClassId(number);
        let inherited = value_of(lineages, id).inherited;
        add_members(
            table,
            id,
            inherited,
            class.members.as_slice(),
            &mut parts,
            first,
        )?;
        number = next_number(number)?;
    }
    Ok(parts)
}
