//! Lock paths: a root slot and at most two fields.
ghost use Rattle.std.specs.Prelude.{◌≡◌, ◌≢◌, ◌<◌, ◌++◌, ◌↔◌, ℕ, List, [], true};
ghost use Rattle.std.specs.declared.cmp.Ordering.TheVariants.{Less, Equal, Greater};
ghost use Rattle.paths.specs.Paths.{PathData, path_order, path_eq, extended};

use crate::ids::FieldId;
use arrayvec::ArrayVec;
use std::cmp::Ordering;
use std::marker::Model;

/// A lock expression in numbers: `this`, a final parameter or a final local, then at most two final fields.
/// Slot 0 is `this`, the parameters follow, then each declared local in order of declaration.
#[derive(Debug, Drop, PartialEq, Eq, PartialOrd, Ord, Hash)]
pub struct Path {
    pub root: u16,
    pub fields: ArrayVec<FieldId, 2>,
}

impl Model for Path {
    ghost use Rattle.paths.specs.Paths.{PathData};

    ghost Value = { PathData };

    ghost view = { λ p. record { root = p.root; fields = p.fields.items } };

    ghost inverse = { λ d. record { root = d.root; fields = record { items = d.fields } } };
}

impl Path {
    /// The path that is a slot alone.
    pub fn of_root(root: u16) -> Path
        ensures { result ≡ record { root = root; fields = [] } }
    {
        Path {
            root,
            fields: ArrayVec::new(),
        }
    }

    /// A copy, which takes no memory.
    pub fn copy(&self) -> Path
        ensures { result ≡ self.now }
    {
        let mut fields = ArrayVec::new();
        fields
            .try_extend_from_slice(self.fields.as_slice())
            .unwrap();
        Path {
            root: self.root,
            fields,
        }
    }

    /// Whether two paths have the same root and the same fields.
    pub fn same(&self, other: &Path) -> bool
        ensures { result ≡ path_eq self.now other.now }
    {
        self == other
    }
}

/// The path with these fields at its end; `None` where it would have more than two.
pub fn extend(path: &Path, fields: &[FieldId]) -> Option<Path>
    ensures { result ≡ extended path.now fields.now }
{
    let mut all = ArrayVec::new();
    all.try_extend_from_slice(path.fields.as_slice()).unwrap();
    all.try_extend_from_slice(fields).ok()?;
    Some(Path {
        root: path.root,
        fields: all,
    })
}

/// The order of paths: by root slot, then by the lists of field numbers, a prefix first.
pub fn order(a: &Path, b: &Path) -> Ordering
    ensures { result ≡ path_order a.now b.now }
{
    a.cmp(b)
}

/// The order of paths is total, and `path_eq` tells exactly whether two paths are equal.
pub fn order_laws()
    ensures equal { (p q : PathData) → (path_order p q ≡ Equal) ↔ (p ≡ q) }
    ensures turned { (p q : PathData) → (path_order p q ≡ Greater) ↔ (path_order q p ≡ Less) }
    ensures chain { (p q r : PathData) → path_order p q ≡ Less → path_order q r ≡ Less → path_order p r ≡ Less }
    ensures smaller_root_first { (p q : PathData) → p.root < q.root → path_order p q ≡ Less }
    ensures prefix_first { (p : PathData) (more : List ℕ) → more ≢ [] →
        path_order p (record p { fields = p.fields ++ more }) ≡ Less }
    ensures same { (p q : PathData) → (path_eq p q ≡ true) ↔ (p ≡ q) }
{}
