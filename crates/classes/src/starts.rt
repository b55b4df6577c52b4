//! Methods that a thread can begin with.

ghost use Rattle.std.specs.Prelude.{◌≡◌, map};
ghost use Rattle.std.specs.List.{list_any};
ghost use Rattle.syntax.specs.Views.{member_of, class_of};
ghost use Rattle.classes.specs.Members.{is_entry};
ghost use Rattle.classes.specs.Lines.{members_at};
ghost use Rattle.classes.specs.Families.{members_along};

use syntax::{Class, Member};

/// Whether there is a void method of this name, without parameters and without `requires`.
pub(crate) fn has_entry(members: &[Member], text: &str) -> bool
    ensures { result ≡ list_any (is_entry text.now) (map member_of members.now) }
{
    for member in members {
        if let Member::Method {
            result: None,
            name,
            params,
            requires_: locks,
            ..
        } = member
        {
            if name.text == text && params.is_empty() && locks.is_empty() {
                return true;
            }
        }
    }
    false
}

fn class_has_entry(classes: &[Class], number: usize, text: &str) -> bool
    ensures { result ≡ list_any (is_entry text.now) (members_at (map class_of classes.now) number) }
{
    match classes.get(number) {
        Some(class) => has_entry(class.members.as_slice(), text),
        None => false,
    }
}

/// Whether one of these classes has such a method.
pub(crate) fn have_entry(classes: &[Class], order: &[usize], text: &str) -> bool
    ensures { result ≡ list_any (is_entry text.now) (members_along (map class_of classes.now) order.now) }
{
    for number in order {
        if class_has_entry(classes, *number, text) {
            return true;
        }
    }
    false
}
