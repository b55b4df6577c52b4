//! Nodes in one list. Equal trees have one number.
ghost use Rattle.std.specs.Prelude.{◌≡◌, ◌<◌, [], length, slice_get, IfOk, IfSome};
ghost use Rattle.conditions.specs.Conditions.{LeafC, TestC, IsCanonical};
ghost use Rattle.conditions.specs.Operations.{node};
ghost use Rattle.conditions.specs.Nodes.{items_of, basic_in, test_of, tree_at, item_tree, AreBefore, IsTable, KeepsTrees, StandsForTree};

use algebra::Basic;
use indexmap::IndexSet;
use paths::Path;
use std::alloc::{AllocError as NoMemory, Global};
use std::marker::Model;

/// What a number stands for: a basic, or a test with the number of the part where its path is held, then of the part
/// where it isn't.
#[derive(Debug, Drop)]
pub enum Item {
    Leaf(Basic),
    Test(Path, usize, usize),
}

/// A test with the numbers of its two parts.
#[derive(Debug, Drop, PartialEq, Eq, Hash)]
pub struct Decision {
    pub path: Path,
    pub held: usize,
    pub free: usize,
}

/// The number of the first decision: the five basics come before.
pub(crate) const BASICS: usize = 5;

/// How many hints a table has.
pub const HINTS: usize = 256;

/// A list of nodes. The five basics have the first numbers and take no memory. A hint tells where a decision may stand
/// in the list, so that one which was asked for lately is found without a search.
#[derive(Drop)]
pub struct Rows {
    decisions: IndexSet<Decision>,
    hints: [usize; HINTS],
}

impl Model for Rows {
    ghost use Rattle.std.specs.Prelude.{List};
    ghost use Rattle.conditions.specs.declared.rows.Item.{Item};
    ghost use Rattle.conditions.specs.Nodes.{items_of, IsTable};

    ghost Value = { List Item };

    ghost view = { λ t. items_of t.decisions.keys };

    ghost invariant = { λ t. IsTable (items_of t.decisions.keys) };
}

impl Rows {
    /// The basics alone.
    pub fn new(alloc: Global) -> Rows
        ensures { result ≡ items_of [] }
    {
        Rows {
            decisions: IndexSet::new(alloc),
            hints: [0; HINTS],
        }
    }

    /// How many numbers there are.
    pub fn count(&self) -> usize
        ensures count { result ≡ length self.now }
        ensures table { IsTable self.now }
    {
        BASICS + self.decisions.len()
    }

    /// The number of a basic.
    pub fn leaf(&self, b: Basic) -> usize
        ensures { StandsForTree self.now result (LeafC b) }
    {
        // Only the proof needs this: the invariant of a struct is known where one of its fields is used.
        let _ = &self.decisions;
        match b {
            Basic::Const => 0,
            Basic::Mover => 1,
            Basic::Atomic => 2,
            Basic::Cmpd => 3,
            Basic::Error => 4,
        }
    }

    /// The basic that a number stands for, where it is one.
    pub fn basic_of(&self, n: usize) -> Option<Basic>
        ensures basic { IfSome result (λ b. tree_at self.now n ≡ LeafC b) }
        ensures exact { result ≡ basic_in (slice_get self.now n) }
        ensures table { IsTable self.now }
    {
        // Only the proof needs this: the invariant of a struct is known where one of its fields is used.
        let _ = &self.decisions;
        match n {
            0 => Some(Basic::Const),
            1 => Some(Basic::Mover),
            2 => Some(Basic::Atomic),
            3 => Some(Basic::Cmpd),
            4 => Some(Basic::Error),
            _ => None,
        }
    }

    /// What a number stands for.
    pub fn item(&self, n: usize) -> Item
        requires { n < length self.now }
        ensures tree { tree_at self.now n ≡ item_tree self.now result }
        ensures before { AreBefore n result }
        ensures table { IsTable self.now }
    {
        match n {
            0 => Item::Leaf(Basic::Const),
            1 => Item::Leaf(Basic::Mover),
            2 => Item::Leaf(Basic::Atomic),
            3 => Item::Leaf(Basic::Cmpd),
            4 => Item::Leaf(Basic::Error),
            _ => copy_of(self.decisions.get_index(n - BASICS).unwrap()),
        }
    }

    /// The number of a test, or of both its parts where they are one.
    pub fn node(&mut self, p: &Path, held: usize, free: usize) -> Result<usize, NoMemory>
        requires held_there { held < length self.old }
        requires free_there { free < length self.old }
        requires canonical { IsCanonical (node p.now (tree_at self.old held) (tree_at self.old free)) }
        ensures stands { IfOk result (λ n. StandsForTree self.new n (node p.now (tree_at self.old held) (tree_at self.old free))) }
        ensures grows { KeepsTrees self.old self.new }
    {
        // Only the proof needs this: the invariant of a struct is known where one of its fields is used.
        let _decisions = &self.decisions;
        if held == free {
            return Ok(held);
        }
        let hint = hint_of_path(p, held, free);
        if let Some(known) = self.hinted(hint, p, held, free) {
            return Ok(known);
        }
        self.add(
            hint,
            Decision {
                path: p.copy(),
                held,
                free,
            },
        )
    }

    /// The number of a test, where the hint tells it.
    fn hinted(&self, hint: usize, p: &Path, held: usize, free: usize) -> Option<usize>
        requires { hint < 256 }
        ensures stands { IfSome result (λ n. StandsForTree self.now n (TestC p.now (tree_at self.now held) (tree_at self.now free))) }
        ensures table { IsTable self.now }
    {
        let at = self.hints[hint];
        // Only the proof needs this: the length bounds the sum below.
        let _len = self.decisions.len();
        let decision = self.decisions.get_index(at)?;
        if decision.held == held && decision.free == free && decision.path.same(p) {
            Some(BASICS + at)
        } else {
            None
        }
    }

    /// The number of a decision, which is found or added. The hint tells it from now on.
    fn add(&mut self, hint: usize, decision: Decision) -> Result<usize, NoMemory>
        requires hint { hint < 256 }
        requires held_there { decision.held < length self.old }
        requires free_there { decision.free < length self.old }
        requires canonical { IsCanonical (TestC decision.path (tree_at self.old decision.held) (tree_at self.old decision.free)) }
        ensures stands { IfOk result (λ n. StandsForTree self.new n (TestC decision.path (tree_at self.old decision.held) (tree_at self.old decision.free))) }
        ensures grows { KeepsTrees self.old self.new }
    {
        // Only the proof needs this: the length bounds the sum below.
        let _len = self.decisions.len();
        let (n, _) = self.decisions.insert_full(decision)?;
        self.hints[hint] = n;
        Ok(BASICS + n)
    }
}

/// A number of a path, by which it has a hint.
#[inline(always)]
fn number_of(p: &Path) -> usize {
    let root = p.root as usize;
    match p.fields.as_slice().last() {
        Some(field) => root
            .wrapping_add(8)
            .wrapping_add((field.0 as usize).wrapping_mul(16)),
        None => root,
    }
}

/// Which hint is that of three numbers.
#[inline(always)]
pub fn hint_at(first: usize, second: usize, third: usize) -> usize
    ensures { result < 256 }
{
    first
        .wrapping_add(second.wrapping_mul(29))
        .wrapping_add(third.wrapping_mul(47))
        % HINTS
}

/// Which hint is that of a path and two numbers.
#[inline(always)]
pub fn hint_of_path(p: &Path, second: usize, third: usize) -> usize
    ensures { result < 256 }
{
    hint_at(number_of(p), second, third)
}

/// A decision as an item.
fn copy_of(decision: &Decision) -> Item
    ensures { result ≡ test_of decision.now }
{
    Item::Test(decision.path.copy(), decision.held, decision.free)
}
