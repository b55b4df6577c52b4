//! Sees in one walk down and up the lines of classes which methods override well: what is known of the methods of each name
//! above the class where the walk stands is kept in a table.

ghost use Rattle.std.specs.Prelude.{◌≡◌, IfOk, OnOk, map, length, slice_set};
ghost use Rattle.std.specs.Option.{is_some};
ghost use Rattle.classes.specs.Alike.{Alike, is_well, joined_standing, standing_at, number_in, standing_of, count_well, with_heading, with_headings, left, all_left, line_after, well_after, well_after_all, AreWell};
ghost use Rattle.classes.specs.LineViews.{standing_data, line_state};
ghost use Rattle.classes.specs.Families.{tree_of, IsFamily, locks_data, heading_data, rows_data, class_headings};

use crate::family::Family;
use crate::names::NameSet;
use crate::overriding::{Heading, is_same_signature};
use forest::{Step, walk};
use std::alloc::{AllocError as NoMemory, Global};

/// What is known of the methods with one name: there are none, all are alike with this one, or two may be apart.
#[derive(Clone, Copy)]
pub(crate) enum Standing<'h, 'p, 'a> {
    Nowhere,
    Alike(&'h Heading<'p, 'a>),
    Apart,
}

/// What was known of the name with a number.
#[derive(Clone, Copy)]
pub(crate) struct Saved<'h, 'p, 'a> {
    number: usize,
    known: Standing<'h, 'p, 'a>,
}

/// What is known of the methods of each name in a line of classes, and what was known before.
#[derive(Drop)]
pub(crate) struct Line<'h, 'p, 'a> {
    known: Vec<Standing<'h, 'p, 'a>>,
    saved: Vec<Saved<'h, 'p, 'a>>,
}

/// Whether the locks of a method are known.
fn has_known_locks(one: &Heading) -> bool
    ensures { result ≡ is_some (locks_data one.now.locks) }
{
    match &one.locks {
        Some(_) => true,
        None => false,
    }
}

/// Whether a method has the signature of each of those of its name.
fn is_well(known: &Standing, one: &Heading) -> bool
    ensures { result ≡ is_well (standing_data known.now) (heading_data one.now) }
{
    match known {
        Standing::Nowhere => true,
        Standing::Alike(other) => is_same_signature(one, other),
        Standing::Apart => false,
    }
}

/// What is known of methods that are alike with one, and one more.
fn joined_alike<'h, 'p, 'a>(
    other: &'h Heading<'p, 'a>,
    one: &'h Heading<'p, 'a>,
) -> Standing<'h, 'p, 'a>
    ensures { standing_data result ≡ joined_standing (Alike (heading_data other.entry.now)) (heading_data one.entry.now) }
{
    if !is_same_signature(one, other) {
        Standing::Apart
    } else if has_known_locks(other) {
        Standing::Alike(other)
    } else {
        Standing::Alike(one)
    }
}

/// What is known of the methods of a name, and one more.
fn joined_standing<'h, 'p, 'a>(
    known: &Standing<'h, 'p, 'a>,
    one: &'h Heading<'p, 'a>,
) -> Standing<'h, 'p, 'a>
    ensures { standing_data result ≡ joined_standing (standing_data known.now) (heading_data one.entry.now) }
{
    match known {
        Standing::Nowhere => Standing::Alike(one),
        Standing::Alike(other) => joined_alike(other, one),
        Standing::Apart => Standing::Apart,
    }
}

/// The number of a name. One that is not there has the number behind them.
fn number_in(names: &NameSet, text: &str) -> usize
    ensures { result ≡ number_in names.now text.now }
{
    match names.number_of(text) {
        Some(number) => number,
        None => names.len(),
    }
}

/// Writes what is known of the name with a number: it comes last, and then takes the place of what was known.
#[tactic(auto, using(crate::proofs::AlikeLemmas::put_in_place))]
fn put<'h, 'p, 'a>(
    all: &mut Vec<Standing<'h, 'p, 'a>>,
    number: usize,
    known: Standing<'h, 'p, 'a>,
) -> Result<(), NoMemory>
    ensures { OnOk result (map standing_data all.new.items ≡ slice_set (map standing_data all.old.items) number (standing_data known.entry)) }
{
    if number < all.len() {
        all.push(known)?;
        all.swap_remove(number);
    }
    Ok(())
}

impl<'h, 'p, 'a> Line<'h, 'p, 'a> {
    /// No names.
    fn new(alloc: Global) -> Line<'h, 'p, 'a> {
        Line {
            known: Vec::new(alloc),
            saved: Vec::new(alloc),
        }
    }

    /// Adds the names of these methods, of which no method is known.
    fn add_names(
        &mut self,
        names: &mut NameSet<'a>,
        row: &'h [Heading<'p, 'a>],
    ) -> Result<(), NoMemory> {
        for one in row {
            let name = one.name;
            if names.add(name.text)? {
                self.known.push(Standing::Nowhere)?;
            }
        }
        Ok(())
    }

    fn add_all_names(
        &mut self,
        names: &mut NameSet<'a>,
        rows: &'h [Vec<Heading<'p, 'a>>],
    ) -> Result<(), NoMemory> {
        for row in rows {
            self.add_names(names, row.as_slice())?;
        }
        Ok(())
    }

    /// What is known of the name with a number.
    fn standing_at(&self, number: usize) -> Standing<'h, 'p, 'a>
        ensures { standing_data result ≡ standing_at (line_state self.now).known number }
    {
        match self.known.get(number) {
            Some(known) => *known,
            None => Standing::Apart,
        }
    }

    /// What is known of the name of a method.
    fn standing_of(&self, names: &NameSet, one: &Heading) -> Standing<'h, 'p, 'a>
        ensures { standing_data result ≡ standing_of names.now (line_state self.now).known (heading_data one.now) }
    {
        let name = one.name;
        self.standing_at(number_in(names, name.text))
    }

    fn write(&mut self, number: usize, known: Standing<'h, 'p, 'a>) -> Result<(), NoMemory>
        ensures known { OnOk result ((line_state self.new).known ≡ slice_set (line_state self.old).known number (standing_data known.entry)) }
        ensures saved { (line_state self.new).saved ≡ (line_state self.old).saved }
    {
        put(&mut self.known, number, known)
    }

    /// How many of these methods, from the first on, override well.
    fn count_well(&self, names: &NameSet, row: &[Heading]) -> usize
        ensures { result ≡ count_well names.now (line_state self.now).known (map heading_data row.now) }
    {
        let mut count = 0;
        for one in row {
            if !is_well(&self.standing_of(names, one), one) {
                return count;
            }
            count += 1;
        }
        count
    }

    /// Adds a method.
    fn enter(&mut self, names: &NameSet, one: &'h Heading<'p, 'a>) -> Result<(), NoMemory>
        ensures { OnOk result (line_state self.new ≡ with_heading names.now (line_state self.old) (heading_data one.entry.now)) }
    {
        let name = one.name;
        let number = number_in(names, name.text);
        let known = self.standing_at(number);
        let next = joined_standing(&known, one);
        self.saved.push(Saved { number, known })?;
        self.write(number, next)
    }

    /// Adds these methods.
    fn enter_all(&mut self, names: &NameSet, row: &'h [Heading<'p, 'a>]) -> Result<(), NoMemory>
        ensures { OnOk result (line_state self.new ≡ with_headings names.now (map heading_data row.entry.now) (line_state self.old)) }
    {
        for one in row {
            self.enter(names, one)?;
        }
        Ok(())
    }

    /// Takes back the last method.
    fn leave(&mut self) -> Result<(), NoMemory>
        ensures { OnOk result (line_state self.new ≡ left (line_state self.old)) }
    {
        match self.saved.pop() {
            Some(saved) => self.write(saved.number, saved.known),
            None => Ok(()),
        }
    }

    /// Takes back so many methods.
    fn leave_all(&mut self, count: usize) -> Result<(), NoMemory>
        ensures { OnOk result (line_state self.new ≡ all_left count (line_state self.old)) }
    {
        let mut left = count;
        while left > 0 {
            self.leave()?;
            left -= 1;
        }
        Ok(())
    }

    /// Goes down to a class with these methods. How many of them, from the first on, override well.
    fn go_down(&mut self, names: &NameSet, row: &'h [Heading<'p, 'a>]) -> Result<usize, NoMemory>
        ensures line { OnOk result (line_state self.new ≡ with_headings names.now (map heading_data row.entry.now) (line_state self.old)) }
        ensures well { IfOk result (λ n. n ≡ count_well names.now (line_state self.old).known (map heading_data row.entry.now)) }
    {
        let well = self.count_well(names, row);
        self.enter_all(names, row)?;
        Ok(well)
    }

    /// Takes a step of a walk, and notes how many methods of the class to which it goes down override well.
    fn take_step(
        &mut self,
        names: &NameSet,
        rows: &'h [Vec<Heading<'p, 'a>>],
        step: Step,
        well: &mut Vec<usize>,
    ) -> Result<(), NoMemory>
        ensures line { OnOk result (line_state self.new ≡ line_after (class_headings (rows_data rows.entry.now)) names.now step (line_state self.old)) }
        ensures well { OnOk result (well.new.items ≡ well_after (class_headings (rows_data rows.entry.now)) names.now step (line_state self.old) well.old.items) }
    {
        match step {
            Step::Down(class) => {
                let count = self.go_down_to(names, rows, class)?;
                write(well, class, count);
            }
            Step::Up(class) => self.go_up_from(rows, class)?,
        }
        Ok(())
    }

    /// Takes these steps.
    fn take_steps(
        &mut self,
        names: &NameSet,
        rows: &'h [Vec<Heading<'p, 'a>>],
        steps: &[Step],
        well: &mut Vec<usize>,
    ) -> Result<(), NoMemory>
        ensures { OnOk result (well.new.items ≡ well_after_all (class_headings (rows_data rows.entry.now)) names.now steps.now (line_state self.old) well.old.items) }
    {
        for step in steps {
            self.take_step(names, rows, *step, well)?;
        }
        Ok(())
    }

    fn go_down_to(
        &mut self,
        names: &NameSet,
        rows: &'h [Vec<Heading<'p, 'a>>],
        class: usize,
    ) -> Result<usize, NoMemory>
        ensures line { OnOk result (line_state self.new ≡ with_headings names.now (class_headings (rows_data rows.entry.now) class) (line_state self.old)) }
        ensures well { IfOk result (λ n. n ≡ count_well names.now (line_state self.old).known (class_headings (rows_data rows.entry.now) class)) }
    {
        match rows.get(class) {
            Some(row) => self.go_down(names, row.as_slice()),
            None => Ok(0),
        }
    }

    fn go_up_from(&mut self, rows: &[Vec<Heading>], class: usize) -> Result<(), NoMemory>
        ensures { OnOk result (line_state self.new ≡ all_left (length (class_headings (rows_data rows.now) class)) (line_state self.old)) }
    {
        match rows.get(class) {
            Some(row) => self.leave_all(row.len()),
            None => Ok(()),
        }
    }
}

fn write(numbers: &mut Vec<usize>, place: usize, number: usize)
    ensures { numbers.new.items ≡ slice_set numbers.old.items place number }
{
    if let Some(cell) = numbers.get_mut(place) {
        *cell = number;
    }
}

/// For each class with methods how many of them, from the first on, are known to override well.
pub(crate) fn well_overriding(
    alloc: Global,
    family: &Family,
    rows: &[Vec<Heading>],
) -> Result<Vec<usize>, NoMemory>
    requires { IsFamily family.now }
    ensures { IfOk result (λ well. AreWell (tree_of family.now) (class_headings (rows_data rows.now)) well.items) }
{
    let mut names = NameSet::new(alloc);
    let mut line = Line::new(alloc);
    line.add_all_names(&mut names, rows)?;
    let steps = walk(alloc, family.above.as_slice())?;
    let mut well = vec![in alloc; 0; rows.len()]?;
    line.take_steps(&names, rows, steps.as_slice(), &mut well)?;
    Ok(well)
}
