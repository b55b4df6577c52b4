//! Fields by their number: the one that has a number in a class or along classes, and how many there are.

ghost use Rattle.std.specs.Prelude.{◌≡◌, map, slice_get, length, option_map};
ghost use Rattle.syntax.specs.Views.{member_of, class_of};
ghost use Rattle.classes.specs.Lines.{members_at};
ghost use Rattle.classes.specs.Members.{field_names};
ghost use Rattle.classes.specs.Families.{members_along};

use syntax::{Class, Member, Name};

/// The field with this number, counted from 0.
fn field_in<'m, 'a>(members: &'m [Member<'a>], number: usize) -> Option<&'m Name<'a>>
    ensures { option_map (λ n. n.now) result ≡ slice_get (field_names (map member_of members.now)) number }
{
    let mut left = number;
    for member in members {
        if let Member::Field { name, .. } = member {
            if left == 0 {
                return Some(name);
            }
            left -= 1;
        }
    }
    None
}

fn field_of<'m, 'a>(classes: &'m [Class<'a>], class: usize, number: usize) -> Option<&'m Name<'a>>
    ensures { option_map (λ n. n.now) result ≡ slice_get (field_names (members_at (map class_of classes.entry.now) class)) number }
{
    match classes.get(class) {
        Some(class) => field_in(class.members.as_slice(), number),
        None => None,
    }
}

pub(crate) fn count_fields(members: &[Member]) -> usize
    ensures { result ≡ length (field_names (map member_of members.now)) }
{
    let mut count = 0;
    for member in members {
        if let Member::Field { .. } = member {
            count += 1;
        }
    }
    count
}

fn count_fields_of(classes: &[Class], class: usize) -> usize
    ensures { result ≡ length (field_names (members_at (map class_of classes.now) class)) }
{
    match classes.get(class) {
        Some(class) => count_fields(class.members.as_slice()),
        None => 0,
    }
}

/// The field with this number, counted from 0, among those of classes in this order.
pub(crate) fn field_at<'m, 'a>(
    classes: &'m [Class<'a>],
    order: &[usize],
    number: usize,
) -> Option<&'m Name<'a>>
    ensures { option_map (λ n. n.now) result ≡ slice_get (field_names (members_along (map class_of classes.entry.now) order.now)) number }
{
    let mut left = number;
    for class in order {
        if let Some(name) = field_of(classes, *class, left) {
            return Some(name);
        }
        left = left.saturating_sub(count_fields_of(classes, *class));
    }
    None
}
