//! Paths in little memory.
ghost use Rattle.std.specs.Prelude.{◌≡◌, ◌≤◌, length, IfOk};
ghost use Rattle.std.specs.List.{list_all};
ghost use Rattle.algebra.specs.HeldPaths.{has_path};

use algebra::has;
use arrayvec::ArrayVec;
use paths::{FieldId, Path};
use std::alloc::{AllocError as NoMemory, Global};
use std::marker::Model;

/// A path in twelve bytes, where `Path` takes twenty-four: a certificate may have millions of them. Of the two fields as many count as
/// the path has.
#[derive(Drop)]
pub struct ShortPath {
    root: u16,
    count: u8,
    first: FieldId,
    second: FieldId,
}

impl Model for ShortPath {
    ghost use Rattle.paths.specs.Paths.{PathData};
    ghost use Rattle.refutation.specs.ShortPaths.{short_fields};

    ghost Value = { PathData };

    ghost view = { λ p. record { root = p.root; fields = short_fields p.count p.first p.second } };
}

/// The path with these fields.
fn with_fields(root: u16, fields: &[FieldId]) -> Path
    requires { length fields.now ≤ 2 }
    ensures { result ≡ record { root = root; fields = fields.now } }
{
    let mut all = ArrayVec::new();
    all.try_extend_from_slice(fields).unwrap();
    Path { root, fields: all }
}

impl ShortPath {
    /// The same path.
    pub fn of(path: &Path) -> ShortPath
        ensures { result ≡ path.now }
    {
        let root = path.root;
        match path.fields.as_slice() {
            [] => ShortPath {
                root,
                count: 0,
                first: FieldId(0),
                second: FieldId(0),
            },
            [first] => ShortPath {
                root,
                count: 1,
                first: *first,
                second: FieldId(0),
            },
            [first, second, ..] => ShortPath {
                root,
                count: 2,
                first: *first,
                second: *second,
            },
        }
    }

    /// The same path.
    pub fn path(&self) -> Path
        ensures { result ≡ self.now }
    {
        match self.count {
            0 => Path::of_root(self.root),
            1 => with_fields(self.root, &[self.first]),
            _ => with_fields(self.root, &[self.first, self.second]),
        }
    }
}

/// The same paths, each in little memory.
pub(crate) fn packed(alloc: Global, paths: &[Path]) -> Result<Vec<ShortPath>, NoMemory>
    ensures { IfOk result (λ short. short.items ≡ paths.now) }
{
    let mut short = Vec::with_capacity(alloc, paths.len())?;
    for path in paths {
        short.push(ShortPath::of(path))?;
    }
    Ok(short)
}

/// The same paths.
pub(crate) fn unpacked(alloc: Global, short: &[ShortPath]) -> Result<Vec<Path>, NoMemory>
    ensures { IfOk result (λ paths. paths.items ≡ short.now) }
{
    let mut paths = Vec::with_capacity(alloc, short.len())?;
    for path in short {
        paths.push(path.path())?;
    }
    Ok(paths)
}

/// Whether a path is held.
fn is_held(held: &[ShortPath], path: &Path) -> bool
    ensures { result ≡ has_path held.now path.now }
{
    for short in held {
        if short.path().same(path) {
            return true;
        }
    }
    false
}

/// Whether each of these paths is held.
pub(crate) fn are_held(held: &[ShortPath], paths: &[Path]) -> bool
    ensures { result ≡ list_all (has_path held.now) paths.now }
{
    for path in paths {
        if !is_held(held, path) {
            return false;
        }
    }
    true
}

/// Whether each held path is one of these.
pub(crate) fn are_among(held: &[ShortPath], paths: &[Path]) -> bool
    ensures { result ≡ list_all (has_path paths.now) held.now }
{
    for short in held {
        if !has(paths, &short.path()) {
            return false;
        }
    }
    true
}
