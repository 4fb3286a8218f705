//! Memory that is used again.

ghost use Rattle.std.specs.Prelude.{◌≡◌, []};

use rbc_price::Prices;
use rbc_steps::{Grade, Speed};
use std::alloc::Global;
use std::mem;

/// What the last block was read into. The next one is read into the same memory, so that as long as no block is larger
/// than those before it little has to be asked for.
#[derive(Drop)]
pub struct Spare {
    alloc: Global,
    told: Vec<(u32, i64)>,
    speeds: Vec<(u32, Speed)>,
    grades: Vec<(u32, Grade)>,
    table: Prices,
    rows: Prices,
}

impl Spare {
    /// Nothing was read yet.
    pub fn new(alloc: Global) -> Spare {
        Spare {
            alloc,
            told: Vec::new(alloc),
            speeds: Vec::new(alloc),
            grades: Vec::new(alloc),
            table: Vec::new(alloc),
            rows: Vec::new(alloc),
        }
    }

    /// Where further memory is asked for.
    pub(crate) fn alloc(&self) -> Global {
        self.alloc
    }

    /// No steps as they are told, with room for some.
    pub(crate) fn told(&mut self) -> Vec<(u32, i64)>
        ensures { result.items ≡ [] }
    {
        emptied(self.alloc, &mut self.told)
    }

    /// No steps of speeds, with room for some.
    pub(crate) fn speeds(&mut self) -> Vec<(u32, Speed)>
        ensures { result.items ≡ [] }
    {
        emptied(self.alloc, &mut self.speeds)
    }

    /// No steps of gradients, with room for some.
    pub(crate) fn grades(&mut self) -> Vec<(u32, Grade)>
        ensures { result.items ≡ [] }
    {
        emptied(self.alloc, &mut self.grades)
    }

    /// No rows, with room for some.
    pub(crate) fn table(&mut self) -> Prices
        ensures { result.items ≡ [] }
    {
        emptied(self.alloc, &mut self.table)
    }

    /// No prices, with room for some.
    pub(crate) fn row(&mut self) -> Vec<u64>
        ensures { result.items ≡ [] }
    {
        match self.rows.pop() {
            Some(mut row) => {
                row.clear();
                row
            }
            None => Vec::new(self.alloc),
        }
    }

    /// Takes back the steps of a block as they were told.
    pub(crate) fn keep_told(&mut self, told: Vec<(u32, i64)>) {
        self.told = told;
    }

    /// Takes back steps of speeds.
    pub(crate) fn keep_speeds(&mut self, speeds: Vec<(u32, Speed)>) {
        self.speeds = speeds;
    }

    /// Takes back steps of gradients.
    pub(crate) fn keep_grades(&mut self, grades: Vec<(u32, Grade)>) {
        self.grades = grades;
    }

    /// Takes back a table. Where there is no memory to keep its rows, they are let go.
    pub(crate) fn keep_table(&mut self, mut table: Prices) {
        let _ = self.rows.append(&mut table);
        self.table = table;
    }
}

/// Takes a list away, and empties it.
fn emptied<T: Drop>(alloc: Global, list: &mut Vec<T>) -> Vec<T>
    ensures { result.items ≡ [] }
{
    let mut emptied = mem::replace(list, Vec::new(alloc));
    emptied.clear();
    emptied
}
