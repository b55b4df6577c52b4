//! The methods of a tree.

ghost use Rattle.std.specs.Prelude.{◌≡◌, ◌++◌, map, IfOk, OnOk};
ghost use Rattle.syntax.specs.Views.{member_of, program_tree};
ghost use Rattle.syntax.specs.Trees.{MethodM};
ghost use Rattle.places.specs.Sources.{methods_among, methods_in};

use std::alloc::{AllocError as NoMemory, Global};
use syntax::{Member, Program};

/// Adds the methods among members.
fn add_methods<'t, 'a>(
    members: &'t [Member<'a>],
    methods: &mut Vec<&'t Member<'a>>,
) -> Result<(), NoMemory>
    ensures { OnOk result (map (λ m. member_of m.now) methods.new.items ≡ map (λ m. member_of m.now) methods.old.items ++ map MethodM (methods_among (map member_of members.now))) }
{
    for member in members {
        if let Member::Method { .. } = member {
            methods.push(member)?;
        }
    }
    Ok(())
}

/// The methods of a program, by their numbers.
pub fn methods_in<'t, 'a>(
    alloc: Global,
    tree: &'t Program<'a>,
) -> Result<Vec<&'t Member<'a>>, NoMemory>
    ensures { IfOk result (λ methods. map (λ m. member_of m.now) methods.items ≡ map MethodM (methods_in (program_tree tree.now))) }
{
    let mut methods = Vec::new(alloc);
    for class in &tree.classes {
        add_methods(class.members.as_slice(), &mut methods)?;
    }
    Ok(methods)
}
