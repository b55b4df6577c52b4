//! Fields, methods and classes by their names.

ghost use Rattle.std.specs.Prelude.{◌≡◌, option_map};
ghost use Rattle.classes.specs.Views.{table_data};
ghost use Rattle.typing.specs.Rules.{field_of_class, method_named};
ghost use Rattle.typing.specs.Views.{field_found, method_found};

use classes::{ClassTable, FieldEntry, MethodEntry};
use paths::{ClassId, FieldId, MethodId};

/// The field of this name in a class, its own or from above.
pub fn field_named<'t, 'a>(
    table: &'t ClassTable<'a>,
    class: ClassId,
    name: &str,
) -> Option<(FieldId, &'t FieldEntry<'a>)>
    ensures { option_map field_found result ≡ field_of_class (table_data table.now) class name.now }
{
    let id = table.field_named(class, name)?;
    let field = table.fields().get(id.0 as usize)?;
    Some((id, field))
}

/// The method of this name in a class, its own or from above.
pub fn method_named<'t, 'a>(
    table: &'t ClassTable<'a>,
    class: ClassId,
    name: &str,
) -> Option<(MethodId, &'t MethodEntry<'a>)>
    ensures { option_map method_found result ≡ method_named (table_data table.now) class name.now }
{
    let id = table.method_named(class, name)?;
    let method = table.methods().get(id.0 as usize)?;
    Some((id, method))
}
