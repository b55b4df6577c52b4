//! The heap: the objects by their addresses.
ghost use Rattle.std.specs.Prelude.{◌≡◌, ◌<◌, Some, None, MatchOption, IfOk, OnOk, OnErr, slice_get};
ghost use Rattle.std.specs.FinMap as map;
ghost use Rattle.state.specs.Memory.{with_value, with_field, made_by};
ghost use Rattle.state.specs.Stored.{found_object, HasField};

use crate::grid::Grid;
use crate::row::Copied;
use crate::value::{Address, Value};
use paths::ClassId;
use std::alloc::{AllocError as NoMemory, Global};
use std::marker::Model;

/// An object.
#[derive(Drop)]
pub(crate) struct Cell {
    class: ClassId,
    values: Vec<Value>,
}

impl Model for Cell {
    ghost use Rattle.state.specs.Memory.{Object};
    ghost use Rattle.state.specs.Codes.{object_code};

    ghost Value = { Object };

    ghost coded = { object_code };

    ghost view = { λ c. record { class = c.class; values = c.values.items } };
}

impl Cell {
    /// Writes the value of a field.
    pub(crate) fn set(&mut self, index: u16, v: Value)
        ensures { self.new ≡ with_value index v self.old }
    {
        if let Some(old) = self.values.get_mut(index as usize) {
            *old = v;
        }
    }
}

impl Copied for Cell {
    fn copied(&self, alloc: Global) -> Result<Cell, NoMemory> {
        let mut values = Vec::with_capacity(alloc, self.values.len())?;
        values.extend_from_slice(self.values.as_slice())?;
        Ok(Cell {
            class: self.class,
            values,
        })
    }
}

/// The objects by their addresses. A contract sees the map of them.
#[derive(Drop)]
pub struct Heap {
    cells: Grid<Cell>,
}

impl Model for Heap {
    ghost use Rattle.std.specs.FinMap as map;
    ghost use Rattle.state.specs.Memory.{address_cmp, Object};
    ghost use Rattle.state.specs.Slots.{address_code};
    ghost use Rattle.state.specs.Codes.{object_code};

    ghost Value = { map.FinMap address_cmp Object };

    ghost coded = { map.code address_code object_code };

    ghost view = { λ h. h.cells };
}

impl Heap {
    /// A heap without objects, which takes no memory.
    pub fn new(alloc: Global) -> Heap
        ensures { result ≡ map.empty }
    {
        Heap {
            cells: Grid::new(alloc),
        }
    }

    /// The number of objects.
    pub fn len(&self) -> usize
        ensures { result ≡ map.len self.now }
    {
        self.cells.len()
    }

    /// How many objects a thread made: the count in the address of its next one.
    pub fn made(&self, thread: u32) -> usize
        ensures { result ≡ made_by thread self.now }
    {
        self.cells.filled(thread)
    }

    /// The object at a place, in ascending order of addresses: its address, its class and the values of its fields.
    pub fn at(&self, place: usize) -> Option<(Address, ClassId, &[Value])>
        ensures { MatchOption result (slice_get (map.entries self.now) place ≡ None)
            (λ e. slice_get (map.entries self.now) place ≡ Some (e.0, record { class = e.1; values = e.2.now })) }
    {
        match self.cells.nth(place) {
            Some((address, cell)) => Some((address, cell.class, cell.values.as_slice())),
            None => None,
        }
    }

    /// The object at an address: its class and the values of its fields.
    pub fn find(&self, a: Address) -> Option<(ClassId, &[Value])>
        ensures { found_object result ≡ map.get self.now a }
    {
        match self.cells.get(a) {
            Some(cell) => Some((cell.class, cell.values.as_slice())),
            None => None,
        }
    }

    /// Adds an object at an address where there is none.
    pub fn add(
        &mut self,
        alloc: Global,
        a: Address,
        class: ClassId,
        values: Vec<Value>,
    ) -> Result<(), NoMemory>
        requires { map.get self.old a ≡ None }
        ensures ok { OnOk result (self.new ≡ map.insert self.old a (record { class = class; values = values.items })) }
        ensures err { OnErr result (self.new ≡ self.old) }
    {
        self.cells.put(alloc, a, Cell { class, values })
    }

    /// Writes the value of a field that the object has, by its index; takes no memory.
    pub fn set(&mut self, a: Address, index: u16, v: Value)
        requires { HasField self.old a index }
        ensures { self.new ≡ with_field a index v self.old }
    {
        self.cells.set_value(a, index, v);
    }

    /// An equal heap.
    pub fn copy(&self, alloc: Global) -> Result<Heap, NoMemory>
        ensures { IfOk result (λ h. h ≡ self.now) }
    {
        let cells = self.cells.copy(alloc)?;
        Ok(Heap { cells })
    }
}
