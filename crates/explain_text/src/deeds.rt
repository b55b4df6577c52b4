//! What a step does and which lock would help it, in words.

ghost use Rattle.std.specs.Prelude.{◌≡◌, ◌++◌, codes, string_bytes, OnOk};
ghost use Rattle.algebra.specs.Basics.{name_of};
ghost use Rattle.explain_text.specs.DeedTexts.{deed_text, guard_text, help_text, is_compound, is_lock, may_stay, second_text, takes_text};
ghost use Rattle.explain_text.specs.Views.{page_data};

use crate::page::Page;
use crate::words::{write_access, write_lack, write_path};
use algebra::Basic;
use explain::{Deed, Help};
use paths::Path;
use report::write_title;
use rules::Guard;
use std::alloc::AllocError as NoMemory;

/// Whether a step is compound by itself.
pub(crate) fn is_compound(deed: &Deed) -> bool
    ensures { result ≡ is_compound deed.now }
{
    match deed {
        Deed::Calls(_, basic, _) => *basic == Basic::Cmpd,
        Deed::Reads(_, _, _)
        | Deed::Writes(_, _, _)
        | Deed::Locks(_)
        | Deed::Prints
        | Deed::Starts
        | Deed::Other => false,
    }
}

/// Writes how the field of an access is guarded.
fn write_guard(out: &mut String, page: &Page<'_, '_>, guard: &Guard) -> Result<(), NoMemory>
    ensures { OnOk result (string_bytes out.new ≡ string_bytes out.old ++ guard_text (page_data page.now) guard.now) }
{
    match guard {
        Guard::Free => out.push_str(", which nothing guards"),
        Guard::WriteNamed(path) => {
            out.push_str(", which is guarded for writing only by ")?;
            write_path(out, page, path)
        }
        Guard::WriteUnnamed => out.push_str(", which is guarded for writing only"),
        Guard::Final | Guard::Named(_) | Guard::Unnamed => Ok(()),
    }
}

/// What a called method is, in one piece.
fn which_is(own: Basic) -> &'static str
    ensures { result.now ≡ codes ", which is " ++ name_of own }
{
    match own {
        Basic::Const => ", which is const",
        Basic::Mover => ", which is mover",
        Basic::Atomic => ", which is atomic",
        Basic::Cmpd => ", which is cmpd",
        Basic::Error => ", which is error",
    }
}

/// Writes what a call does: it takes a lock, if it does nothing else; or else the callee is this.
fn write_takes(
    out: &mut String,
    page: &Page<'_, '_>,
    own: Basic,
    taken: &Option<Path>,
) -> Result<(), NoMemory>
    ensures { OnOk result (string_bytes out.new ≡ string_bytes out.old ++ takes_text (page_data page.now) own taken.now) }
{
    match taken {
        Some(path) => {
            out.push_str(", which takes the lock of ")?;
            write_path(out, page, path)?;
            out.push_str(" and gives it back")
        }
        None => out.push_str(which_is(own)),
    }
}

/// Writes what a step does.
pub(crate) fn write_deed(out: &mut String, page: &Page<'_, '_>, deed: &Deed) -> Result<(), NoMemory>
    ensures { OnOk result (string_bytes out.new ≡ string_bytes out.old ++ deed_text (page_data page.now) deed.now) }
{
    match deed {
        Deed::Reads(receiver, field, guard) => {
            out.push_str("reads ")?;
            write_access(out, page, receiver, *field)?;
            write_guard(out, page, guard)
        }
        Deed::Writes(receiver, field, guard) => {
            out.push_str("writes ")?;
            write_access(out, page, receiver, *field)?;
            write_guard(out, page, guard)
        }
        Deed::Calls(callee, own, taken) => {
            out.push_str("calls ")?;
            write_title(out, page.table, *callee)?;
            write_takes(out, page, *own, taken)
        }
        Deed::Locks(path) => {
            out.push_str("takes the lock of ")?;
            write_path(out, page, path)?;
            out.push_str(" and gives it back")
        }
        Deed::Prints => out.push_str("prints"),
        Deed::Starts => out.push_str("starts a thread"),
        Deed::Other => out.push_str("a step"),
    }
}

/// Writes the other name under which a lock is held, if there is one.
fn write_second(
    out: &mut String,
    page: &Page<'_, '_>,
    second: &Option<Path>,
) -> Result<(), NoMemory>
    ensures { OnOk result (string_bytes out.new ≡ string_bytes out.old ++ second_text (page_data page.now) second.now) }
{
    match second {
        Some(other) => {
            out.push_str("; it is held here under another name only, ")?;
            write_path(out, page, other)
        }
        None => Ok(()),
    }
}

/// What is written where the field is guarded for writing only.
const WRITES_ONLY: &str =
    "no lock helps this step: the field is guarded for writing only, so it may be read at any time";

/// Writes which lock would help a step.
pub(crate) fn write_help(out: &mut String, page: &Page<'_, '_>, help: &Help) -> Result<(), NoMemory>
    ensures { OnOk result (string_bytes out.new ≡ string_bytes out.old ++ help_text (page_data page.now) help.now) }
{
    match help {
        Help::Hold(path, second) => {
            out.push_str("with the lock of ")?;
            write_path(out, page, path)?;
            out.push_str(" held, this step can be moved")?;
            write_second(out, page, second)
        }
        Help::Unguarded => out.push_str("no lock helps this step: nothing guards the field"),
        Help::WritesOnly => out.push_str(WRITES_ONLY),
        Help::Unnamed(lack) => {
            out.push_str("the lock that would help this step has no name here, since ")?;
            write_lack(out, page, *lack)
        }
        Help::ReceiverUnnamed(lack) => {
            out.push_str("no one lock that has a name here helps this step, and ")?;
            write_lack(out, page, *lack)
        }
        Help::NoneNamed => out.push_str("no one lock that has a name here helps this step"),
        Help::Seen => out.push_str("no lock helps this step"),
    }
}

/// Whether a help is a lock.
fn is_lock(help: &Help) -> bool
    ensures { result ≡ is_lock help.now }
{
    match help {
        Help::Hold(_, _) => true,
        _ => false,
    }
}

/// Whether a step with this help may stay as it is beside one with that.
pub(crate) fn may_stay(help: &Help, other: &Help) -> bool
    ensures { result ≡ may_stay help.now other.now }
{
    !is_lock(help) && is_lock(other)
}
