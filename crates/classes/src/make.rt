//! The class table of a program, or its first fault.

ghost use Rattle.std.specs.Prelude.{◌≡◌, ◌⊎◌, [], MatchResult};
ghost use Rattle.syntax.specs.Views.{program_tree};
ghost use Rattle.classes.specs.declared.fault.ClassFault.{ClassFault};
ghost use Rattle.classes.specs.declared.fault.ClassFault.TheVariants.{NoMemory as OutOfMemory};
ghost use Rattle.classes.specs.Names.{distinct};
ghost use Rattle.classes.specs.Members.{class_names};
ghost use Rattle.classes.specs.Own.{all_own_names};
ghost use Rattle.classes.specs.Faults.{all_class_faults, IsFirstClassFault};
ghost use Rattle.classes.specs.Table.{table_of};
ghost use Rattle.classes.specs.Views.{table_data};
ghost use Rattle.std.specs.Prelude.{IfOk};

use crate::build::{TableParts, parts_of};
use crate::check::first_fault;
use crate::entries::ClassTable;
use crate::fault::ClassFault;
use crate::jumps::jumps;
use crate::names::NameSet;
use crate::numbers::number;
use crate::own::{OwnNames, all_own_names};
use std::alloc::{AllocError as NoMemory, Global};
use syntax::Program;

/// The table of a program without faults, whose classes have these names and these own names.
fn build<'a>(
    alloc: Global,
    program: &Program<'a>,
    names: NameSet<'a>,
    own: Vec<OwnNames<'a>>,
) -> Result<ClassTable<'a>, NoMemory>
    requires no_faults { all_class_faults (program_tree program.now) ≡ [] }
    requires names { names ≡ distinct (class_names (program_tree program.now)) }
    requires own { own.items ≡ all_own_names (program_tree program.now) }
    ensures { IfOk result (λ t. table_data t ≡ table_of (program_tree program.now)) }
{
    // A program with more classes than ids is refused before anything is built.
    let _count = number(names.len())?;
    let parts = parts_of(alloc, &names, program.classes.as_slice(), own)?;
    let TableParts {
        classes,
        fields,
        methods,
    } = parts;
    let jumps = jumps(alloc, classes.as_slice())?;
    Ok(ClassTable {
        names,
        classes,
        fields,
        methods,
        jumps,
    })
}

/// The class table of a program, or its first fault: the one with the least offset, at one offset the one that
/// `ClassFault` lists first but for `NoMain`, which is told only where there is no other. A program with more than
/// 4294967295 classes, fields or methods has no room for their numbers: it is answered with `NoMemory`.
pub fn table<'a>(alloc: Global, program: &Program<'a>) -> Result<ClassTable<'a>, ClassFault>
    ensures exact { MatchResult result (λ t. (all_class_faults (program_tree program.now) ≡ []) × (table_data t ≡ table_of (program_tree program.now))) (λ e. (e ≡ OutOfMemory) ⊎ IsFirstClassFault (program_tree program.now) e) }
    ensures table_given { all_class_faults (program_tree program.now) ≡ [] → MatchResult result (λ t. table_data t ≡ table_of (program_tree program.now)) (λ e. e ≡ OutOfMemory) }
    ensures fault_given { (f : ClassFault) → IsFirstClassFault (program_tree program.now) f → MatchResult result (λ _. ⊥) (λ e. (e ≡ f) ⊎ (e ≡ OutOfMemory)) }
{
    let mut names = NameSet::new(alloc);
    let own = all_own_names(alloc, program.classes.as_slice())?;
    match first_fault(alloc, program, own.as_slice(), &mut names)? {
        Some(fault) => Err(fault),
        None => Ok(build(alloc, program, names, own)?),
    }
}
