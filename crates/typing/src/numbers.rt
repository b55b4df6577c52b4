//! Numbers for the names of methods.

ghost use Rattle.std.specs.Prelude.{true, ◌≡◌, ◌<◌, ◌^◌, ℕ, Some, bytes_eq, length, map, position, slice_get, IfOk};
ghost use Rattle.classes.specs.Names.{has_text};
ghost use Rattle.classes.specs.Table.{MethodData};
ghost use Rattle.classes.specs.Views.{method_data, table_data};
ghost use Rattle.typing.specs.Kept.{AreNumbered};

use classes::{ClassTable, MethodEntry, NameSet};
use std::alloc::{AllocError as NoMemory, Global};

/// The names of these methods, each once.
fn names_of<'a>(alloc: Global, methods: &[MethodEntry<'a>]) -> Result<NameSet<'a>, NoMemory>
    ensures { IfOk result (λ names. (i : ℕ) (m : MethodData) → slice_get (map method_data methods.now) i ≡ Some m → has_text names m.name ≡ true) }
{
    let mut names = NameSet::new(alloc);
    for method in methods {
        names.add(method.name)?;
    }
    Ok(names)
}

/// The place of a name in a set that has it.
fn place_in(names: &NameSet, name: &str) -> usize
    requires { has_text names.now name.now ≡ true }
    ensures { position (bytes_eq name.now) names.now ≡ Some result }
{
    names.number_of(name).unwrap()
}

/// A place as a number. There is no memory for more places than numbers.
fn number_of(place: usize) -> Result<u32, NoMemory>
    ensures { IfOk result (λ number. number ≡ place) }
{
    match u32::try_from(place) {
        Ok(number) => Ok(number),
        Err(_) => Err(NoMemory),
    }
}

/// For each of these methods the place of its name in a set that has all names.
fn places_in(alloc: Global, names: &NameSet, methods: &[MethodEntry]) -> Result<Vec<u32>, NoMemory>
    requires { (i : ℕ) (m : MethodData) → slice_get (map method_data methods.now) i ≡ Some m → has_text names.now m.name ≡ true }
    ensures { IfOk result (λ numbers. map (λ n. Some n) numbers.items ≡ map (λ m. position (bytes_eq m.name) names.now) (map method_data methods.now)) }
{
    let mut numbers = Vec::new(alloc);
    for method in methods {
        let number = number_of(place_in(names, method.name))?;
        numbers.push(number)?;
    }
    Ok(numbers)
}

/// For each method the number of its name: methods with one name have one number.
pub(crate) fn name_numbers(alloc: Global, table: &ClassTable) -> Result<Vec<u32>, NoMemory>
    ensures numbered { IfOk result (λ numbers. AreNumbered (table_data table.now).methods numbers.items) }
    ensures few { IfOk result (λ numbers. length numbers.items < 2 ^ 32) }
{
    let methods = table.methods();
    let names = names_of(alloc, methods)?;
    let numbers = places_in(alloc, &names, methods)?;
    number_of(numbers.len())?;
    Ok(numbers)
}
