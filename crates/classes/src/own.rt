//! The names that classes give to their own fields and methods.

ghost use Rattle.std.specs.Prelude.{◌≡◌, map, IfOk};
ghost use Rattle.syntax.specs.Views.{member_of, class_of};
ghost use Rattle.classes.specs.Names.{distinct};
ghost use Rattle.classes.specs.Members.{field_names, method_names};
ghost use Rattle.classes.specs.Own.{own_names, all_own_names};

use crate::names::NameSet;
use std::alloc::{AllocError as NoMemory, Global};
use syntax::{Class, Member};

/// The names that a class gives to its own fields, and to its own methods, each once, in order of first appearance.
#[derive(Drop)]
pub struct OwnNames<'a> {
    pub fields: NameSet<'a>,
    pub methods: NameSet<'a>,
}

fn field_set<'a>(alloc: Global, members: &[Member<'a>]) -> Result<NameSet<'a>, NoMemory>
    ensures { IfOk result (λ s. s ≡ distinct (field_names (map member_of members.now))) }
{
    let mut names = NameSet::new(alloc);
    for member in members {
        if let Member::Field { name, .. } = member {
            names.add(name.text)?;
        }
    }
    Ok(names)
}

fn method_set<'a>(alloc: Global, members: &[Member<'a>]) -> Result<NameSet<'a>, NoMemory>
    ensures { IfOk result (λ s. s ≡ distinct (method_names (map member_of members.now))) }
{
    let mut names = NameSet::new(alloc);
    for member in members {
        if let Member::Method { name, .. } = member {
            names.add(name.text)?;
        }
    }
    Ok(names)
}

fn names_of<'a>(alloc: Global, class: &Class<'a>) -> Result<OwnNames<'a>, NoMemory>
    ensures { IfOk result (λ own. own ≡ own_names (class_of class.now)) }
{
    let members = class.members.as_slice();
    let fields = field_set(alloc, members)?;
    let methods = method_set(alloc, members)?;
    Ok(OwnNames { fields, methods })
}

/// The own names of each of these classes.
pub fn all_own_names<'a>(
    alloc: Global,
    classes: &[Class<'a>],
) -> Result<Vec<OwnNames<'a>>, NoMemory>
    ensures { IfOk result (λ own. own.items ≡ all_own_names (map class_of classes.now)) }
{
    let mut own = Vec::new(alloc);
    for class in classes {
        let names = names_of(alloc, class)?;
        own.push(names)?;
    }
    Ok(own)
}
