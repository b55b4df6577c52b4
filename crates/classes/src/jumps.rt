//! Jumps up a line of classes, past several that a search for a class or for a name may leave out.

ghost use Rattle.std.specs.Prelude.{◌≡◌, ◌<◌, true, IfOk, IfSome, map};
ghost use Rattle.classes.specs.Jumps.{bucket, has_bucket, have_all, have_each, jump_at, above_among, IsFar, IsJumpBelow, IsJump, AreJumps};
ghost use Rattle.classes.specs.Views.{class_data};

use crate::entries::ClassEntry;
use crate::names::NameSet;
use crate::numbers::number;
use paths::ClassId;
use std::alloc::{AllocError as NoMemory, Global};

/// A jump up from a class, past it and those that follow above it, to another one. Where none is above, it leads to the class
/// itself. Each name falls into one of 64 buckets.
#[derive(Clone, Copy)]
pub(crate) struct Jump {
    /// How many classes are above.
    pub(crate) depth: usize,
    /// The class that it leads to.
    pub(crate) to: ClassId,
    /// The buckets of the names that the classes declare that it passes.
    pub(crate) names: u64,
}

/// The bucket of a name.
pub(crate) fn bucket(name: &str) -> u32
    ensures is { result ≡ bucket name.now }
    ensures low { result < 64 }
{
    let mut so_far = 0_u32;
    for byte in name.as_bytes() {
        so_far = (so_far * 5 + *byte as u32) % 64;
    }
    so_far
}

/// Whether these buckets have one.
pub(crate) fn has_bucket(buckets: u64, one: u32) -> bool
    requires { one < 64 }
    ensures { result ≡ has_bucket buckets one }
{
    (buckets >> one) % 2 == 1
}

/// The jump from a class.
pub(crate) fn jump_at(jumps: &[Jump], class: ClassId) -> Jump
    ensures { result ≡ jump_at jumps.now class }
{
    match jumps.get(class.0 as usize) {
        Some(jump) => *jump,
        None => Jump {
            depth: 0,
            to: class,
            names: 0,
        },
    }
}

/// The class above one of these.
fn above_among(classes: &[ClassEntry], class: ClassId) -> Option<ClassId>
    ensures { result ≡ above_among (map class_data classes.now) class }
{
    classes.get(class.0 as usize)?.above
}

// ---- how they are made: nothing is proved of it, since each is looked at behind it

/// These buckets with those of the names.
fn with_buckets(buckets: u64, names: &NameSet) -> u64 {
    let mut all = buckets;
    for number in 0..names.len() {
        if let Some(name) = names.name_at(number) {
            all |= 1 << bucket(name);
        }
    }
    all
}

/// A jump from each class that leads nowhere yet.
fn first_jumps(alloc: Global, classes: &[ClassEntry]) -> Result<Vec<Jump>, NoMemory> {
    let mut jumps = Vec::new(alloc);
    for (place, class) in classes.iter().enumerate() {
        let names = with_buckets(with_buckets(0, &class.field_names), &class.method_names);
        let to = ClassId(number(place)?);
        jumps.push(Jump {
            depth: 0,
            to,
            names,
        })?;
    }
    Ok(jumps)
}

/// A class, and those above it whose jumps lead nowhere yet; but none without a class above.
fn unmade(
    alloc: Global,
    classes: &[ClassEntry],
    jumps: &[Jump],
    class: ClassId,
) -> Result<Vec<ClassId>, NoMemory> {
    let mut line = Vec::new(alloc);
    let mut at = class;
    for _ in 0..classes.len() {
        let Some(above) = above_among(classes, at) else {
            return Ok(line);
        };
        if jump_at(jumps, at).depth > 0 {
            return Ok(line);
        }
        line.push(at)?;
        at = above;
    }
    Ok(line)
}

/// The jump from a class with these buckets, below another one. Behind two jumps of one length it is as long as both and one step.
fn made(jumps: &[Jump], names: u64, above: ClassId) -> Jump {
    let next = jump_at(jumps, above);
    let after = jump_at(jumps, next.to);
    let last = jump_at(jumps, after.to);
    let depth = next.depth.wrapping_add(1);
    let first_length = next.depth.wrapping_sub(after.depth);
    if first_length == after.depth.wrapping_sub(last.depth) {
        let to = after.to;
        let names = names | next.names | after.names;
        Jump { depth, to, names }
    } else {
        let to = above;
        Jump { depth, to, names }
    }
}

fn make(classes: &[ClassEntry], jumps: &mut Vec<Jump>, class: ClassId) {
    let Some(above) = above_among(classes, class) else {
        return;
    };
    let own = jump_at(jumps.as_slice(), class).names;
    let jump = made(jumps.as_slice(), own, above);
    if let Some(place) = jumps.get_mut(class.0 as usize) {
        *place = jump;
    }
}

fn collected(alloc: Global, classes: &[ClassEntry]) -> Result<Vec<Jump>, NoMemory> {
    let mut jumps = first_jumps(alloc, classes)?;
    for place in 0..classes.len() {
        let class = ClassId(number(place)?);
        let line = unmade(alloc, classes, jumps.as_slice(), class)?;
        for class in line.as_slice().iter().rev() {
            make(classes, &mut jumps, *class);
        }
    }
    Ok(jumps)
}

// ---- whether they are jumps

/// Whether these buckets have those of the names.
fn have_all(buckets: u64, names: &NameSet) -> bool
    ensures { result ≡ true → have_all buckets names.now }
{
    for number in 0..names.len() {
        let Some(name) = names.name_at(number) else {
            return false;
        };
        if !has_bucket(buckets, bucket(name)) {
            return false;
        }
    }
    true
}

/// Whether these buckets have one, if others have it.
fn have_too(buckets: u64, others: u64, one: u32) -> bool
    requires { one < 64 }
    ensures { result ≡ true → has_bucket others one ≡ true → has_bucket buckets one ≡ true }
{
    !has_bucket(others, one) || has_bucket(buckets, one)
}

/// Whether these buckets have all that others have.
fn have_each(buckets: u64, others: u64) -> bool
    ensures { result ≡ true → have_each buckets others }
{
    for one in 0..64 {
        if !have_too(buckets, others, one) {
            return false;
        }
    }
    true
}

/// Whether a jump leads past the class above, and over what the jump from there and the one behind it pass.
fn is_far(jumps: &[Jump], class: ClassId, above: ClassId) -> bool
    ensures { result ≡ true → IsFar jumps.now class above }
{
    let jump = jump_at(jumps, class);
    let next = jump_at(jumps, above);
    let after = jump_at(jumps, next.to);
    jump.to == after.to && have_each(jump.names, next.names) && have_each(jump.names, after.names)
}

/// Whether the jump from a class below another one is right.
fn is_jump_below(jumps: &[Jump], class: ClassId, above: ClassId) -> bool
    ensures { result ≡ true → IsJumpBelow jumps.now class above }
{
    let jump = jump_at(jumps, class);
    let next = jump_at(jumps, above);
    if jump.depth == 0 || jump.depth - 1 != next.depth {
        return false;
    }
    jump.to == above || is_far(jumps, class, above)
}

/// Whether the jump from a class is right.
fn is_jump(classes: &[ClassEntry], jumps: &[Jump], class: ClassId) -> bool
    ensures { result ≡ true → IsJump (map class_data classes.now) jumps.now class }
{
    let jump = jump_at(jumps, class);
    if jump.depth > classes.len() {
        return false;
    }
    let Some(entry) = classes.get(class.0 as usize) else {
        return false;
    };
    if !have_all(jump.names, &entry.field_names) || !have_all(jump.names, &entry.method_names) {
        return false;
    }
    match entry.above {
        Some(above) => is_jump_below(jumps, class, above),
        None => jump.to == class,
    }
}

fn are_jumps(classes: &[ClassEntry], jumps: &[Jump]) -> bool
    ensures { result ≡ true → AreJumps (map class_data classes.now) jumps.now }
{
    if jumps.len() != classes.len() {
        return false;
    }
    for place in 0..classes.len() {
        let Ok(class) = number(place) else {
            return false;
        };
        if !is_jump(classes, jumps, ClassId(class)) {
            return false;
        }
    }
    true
}

/// A jump from each of these classes; none where some of them stand in a circle.
pub(crate) fn jumps(alloc: Global, classes: &[ClassEntry]) -> Result<Option<Vec<Jump>>, NoMemory>
    ensures { IfOk result (λ made. IfSome made (λ jumps. AreJumps (map class_data classes.now) jumps.items)) }
{
    let jumps = collected(alloc, classes)?;
    if are_jumps(classes, jumps.as_slice()) {
        Ok(Some(jumps))
    } else {
        Ok(None)
    }
}
