//! What a class table keeps of its classes, fields, methods and parameters.

ghost use Rattle.std.specs.Prelude.{◌+◌, ◌^◌, ◌<◌, length, map, nat_lt, IfSome, IsTrue};
ghost use Rattle.std.specs.List.{list_all};
ghost use Rattle.std.proofs.Props.{props};
ghost use Rattle.classes.specs.Jumps.{AreJumps};

use crate::jumps::Jump;
use crate::names::NameSet;
use core_program::CoreType;
use paths::ClassId;
use std::marker::Model;

/// A class of a program, with the names of its own fields and methods.
#[derive(Drop)]
pub struct ClassEntry<'a> {
    /// The class that it extends.
    pub above: Option<ClassId>,
    /// Whether the class or an ancestor of it says `implements Runnable`.
    pub runnable: bool,
    pub(crate) first_field: u32,
    pub(crate) field_names: NameSet<'a>,
    pub(crate) first_method: u32,
    pub(crate) method_names: NameSet<'a>,
    ghost few_fields: { first_field + length field_names < 2 ^ 32 },
    ghost few_methods: { first_method + length method_names < 2 ^ 32 },
}

/// A field of a class.
#[derive(Debug, Drop)]
pub struct FieldEntry<'a> {
    pub class: ClassId,
    pub name: &'a str,
    pub is_final: bool,
    pub ty: CoreType,
}

impl<'a> Model for FieldEntry<'a> {
    ghost use Rattle.classes.specs.Seen.{FieldData};

    ghost Value = { FieldData };

    ghost view = { λ f. record { class = f.class; name = f.name.now; is_final = f.is_final; ty = f.ty } };
}

/// A parameter of a method.
#[derive(Debug, Drop)]
pub struct ParamEntry<'a> {
    pub name: &'a str,
    pub is_final: bool,
    pub ty: CoreType,
}

impl<'a> Model for ParamEntry<'a> {
    ghost use Rattle.classes.specs.Seen.{ParamData};

    ghost Value = { ParamData };

    ghost view = { λ p. record { name = p.name.now; is_final = p.is_final; ty = p.ty } };
}

/// A method of a class. No result is `void`.
#[derive(Debug, Drop)]
pub struct MethodEntry<'a> {
    pub class: ClassId,
    pub name: &'a str,
    pub params: Vec<ParamEntry<'a>>,
    pub returns: Option<CoreType>,
}

/// The classes, fields and methods of a program, whose names are slices of its source, numbered from 0 in source order over the whole program.
#[derive(Drop)]
pub struct ClassTable<'a> {
    pub(crate) names: NameSet<'a>,
    pub(crate) classes: Vec<ClassEntry<'a>>,
    pub(crate) fields: Vec<FieldEntry<'a>>,
    pub(crate) methods: Vec<MethodEntry<'a>>,
    /// A jump from each class, where no class stands in a circle.
    pub(crate) jumps: Option<Vec<Jump>>,
    ghost few_classes: { length names < 2 ^ 32 },
    ghost owned: { IsTrue (list_all (λ m. nat_lt m.class (length names)) methods.items) },
    ghost jumping: { IfSome jumps (λ made. AreJumps (map (λ c. record { above = c.above; runnable = c.runnable; first_field = c.first_field; field_names = c.field_names; first_method = c.first_method; method_names = c.method_names }) classes.items) made.items) } by { Prim.hlevel props },
}
