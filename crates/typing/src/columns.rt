//! Values of classes, by their numbers.

ghost use Rattle.std.specs.Prelude.{◌≡◌, ◌<◌, Some, length, slice_get, slice_set};

use paths::ClassId;

/// The value of a class.
pub(crate) fn value_of<T>(values: &[T], class: ClassId) -> &T
    requires within { class < length values.now }
    ensures { slice_get values.now class ≡ Some result.now }
{
    &values[class.0 as usize]
}

/// Puts the value of a class.
pub(crate) fn put<T: Drop>(values: &mut Vec<T>, class: ClassId, value: T)
    requires within { class < length values.old.items }
    ensures { values.new.items ≡ slice_set values.old.items class value }
{
    values[class.0 as usize] = value;
}
