//! Programs, classes, fields and methods.
ghost use Rattle.std.specs.Prelude.{◌<◌, ◌^◌, length, map};
ghost use Rattle.core_program.specs.Kept.{kept_class};
ghost use Rattle.core_program.specs.Pairs.{AreNamedOnce, AreOwned};

use crate::tree::CoreStmt;
use crate::types::CoreType;
use paths::{ClassId, FieldId, MethodId, Path};

/// A program in numbers. Ids count from 0 in source order over the whole program. `names` has a number for each
/// method's name: methods with one name have one number.
/// The object that stands at the start is of `main_class`, the class `Main`.
#[derive(Drop)]
pub struct CoreProgram {
    pub classes: Vec<CoreClass>,
    pub fields: Vec<CoreField>,
    pub methods: Vec<CoreMethod>,
    pub names: Vec<u32>,
    pub main_class: ClassId,
    pub main: MethodId,
    ghost few: { length names.items < 2 ^ 32 },
    ghost named: { AreNamedOnce (map kept_class classes.items) names.items },
    ghost owned: { AreOwned (map kept_class classes.items) names.items (map (λ m. m.class) methods.items) },
}

/// A class: its fields in order, those of the classes above it first, the final ones among them, the method that
/// runs for `run` where the class counts as `implements Runnable`, the class that it extends, and the first of its
/// own methods and how many there are.
#[derive(Drop)]
pub struct CoreClass {
    pub fields: Vec<FieldId>,
    pub finals: Vec<FieldId>,
    pub run: Option<MethodId>,
    pub above: Option<ClassId>,
    pub first_method: MethodId,
    pub method_count: usize,
}

/// A field. `index` is its place among the fields of each class that has it; a guard's path has the root 0. Where
/// `writes_only` is set, the guard guards writes alone.
#[derive(Drop)]
pub struct CoreField {
    pub class: ClassId,
    pub index: u16,
    pub is_final: bool,
    pub ty: CoreType,
    pub guard: Option<Path>,
    pub writes_only: bool,
}

/// A method. `place_at` is the byte offset of its name in the source, `requires_` its required locks in
/// ascending order, `params` the finality and type of each parameter, and `slots` the number of its slots.
#[derive(Drop)]
pub struct CoreMethod {
    pub class: ClassId,
    pub place_at: u32,
    pub annotated: bool,
    pub requires_: Vec<Path>,
    pub params: Vec<(bool, CoreType)>,
    pub result: Option<CoreType>,
    pub slots: u16,
    pub body: CoreStmt,
}
