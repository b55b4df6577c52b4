//! Bad `synchronized`, and which of two comes first.
ghost use Rattle.std.specs.Prelude.{◌≡◌, map};
ghost use Rattle.level_check.specs.Told.{told_level_of};
ghost use Rattle.level_check.specs.Bad.{is_before, bad_noted, firsts, bads_in};

use crate::told::Seen;
use paths::{ClassId, MethodId};

/// A `synchronized` of a method that is bad in a walk: its place among those of the body in written order, the class of its lock, and
/// the walk's level.
#[derive(Clone, Copy)]
pub(crate) struct Bad {
    pub(crate) method: MethodId,
    pub(crate) place: u64,
    pub(crate) class: ClassId,
    pub(crate) under: u32,
}

/// Whether the first is told before the second: by method, then by place, then by the greater level.
fn is_before(a: &Bad, b: &Bad) -> bool
    ensures { result ≡ is_before a.now b.now }
{
    if a.method != b.method {
        return a.method < b.method;
    }
    if a.place != b.place {
        return a.place < b.place;
    }
    b.under < a.under
}

/// Notes a bad one, where none that was noted comes before it.
fn note(first: &mut Option<Bad>, bad: Bad)
    ensures { first.new ≡ bad_noted first.old bad }
{
    if let Some(other) = first {
        if !is_before(&bad, other) {
            return;
        }
    }
    *first = Some(bad);
}

/// Notes the bad ones that a walk of a method came to.
pub(crate) fn note_all(first: &mut Option<Bad>, method: MethodId, seen: &[Seen])
    ensures { first.new ≡ firsts first.old (bads_in method (map told_level_of seen.now)) }
{
    for visit in seen {
        if let Seen::Bad {
            place,
            class,
            under,
        } = visit
        {
            note(
                first,
                Bad {
                    method,
                    place: *place,
                    class: *class,
                    under: *under,
                },
            );
        }
    }
}
