// The arrays of a machine.

ghost use Rattle.std.specs.Prelude.{◌≡◌, ◌≤◌, ◌<◌, length, IfSome, slice_set};
ghost use Rattle.sig_types.specs.Pass.{cell_at, cell_place as place_of_cell};

use sig_types::FaultKind;
use std::alloc::{AllocError, Global};
use std::marker::Model;

/// The arrays, seen as lists of cells.
#[derive(Drop)]
pub struct Arrays {
    rows: Vec<Vec<i32>>,
}

impl Model for Arrays {
    ghost use Rattle.std.specs.Prelude.{List, ℤ, map, length, ◌≤◌};
    ghost use Rattle.std.specs.List.{All};

    ghost Value = { List (List ℤ) };

    ghost view = { λ a. map (λ r. r.items) a.rows.items };

    ghost invariant = { λ a. All (λ r. length r.items ≤ 1024) a.rows.items };
}

impl Arrays {
    ghost use Rattle.std.specs.Prelude.{◌≡◌, ◌<◌, ◌≤◌, [], map, length, slice_set, slice_index_or, IfOk};
    ghost use Rattle.std.specs.List.{All};
    ghost use Rattle.sig_types.specs.Pass.{cell_at, cell_place};

    /// Arrays with these cells.
    pub fn of(alloc: Global, arrays: &[Vec<i32>]) -> Result<Arrays, AllocError>
        requires { All (λ a. length a.items ≤ 1024) arrays.now }
        ensures { IfOk result (λ a. a ≡ map (λ r. r.items) arrays.now) }
    {
        let mut rows = Vec::with_capacity(alloc, arrays.len())?;
        for array in arrays {
            rows.push(array.to_vec(alloc)?)?;
        }
        Ok(Arrays { rows })
    }

    /// How many arrays there are.
    pub fn count(&self) -> usize
        ensures { result ≡ length self.now }
    {
        self.rows.len()
    }

    /// The cell of an array at a place from 1; fault Index where there is no such array or no such cell.
    pub fn cell(&self, a: usize, i: i32) -> Result<i32, FaultKind>
        ensures { result ≡ cell_at (slice_index_or self.now a [])
            (cell_place i (length (slice_index_or self.now a []))) }
    {
        if a < self.rows.len() {
            self.read(a, i)
        } else {
            read_cell(&[], i)
        }
    }

    /// The cell of an array at a place from 1.
    pub fn read(&self, a: usize, i: i32) -> Result<i32, FaultKind>
        requires { a < length self.now }
        ensures { result ≡ cell_at (slice_index_or self.now a [])
            (cell_place i (length (slice_index_or self.now a []))) }
    {
        read_cell(&self.rows[a], i)
    }

    /// Where in an array the cell at a place from 1 lies, if there is one.
    pub fn place(&self, a: usize, i: i32) -> Option<usize>
        requires { a < length self.now }
        ensures same { result ≡ cell_place i (length (slice_index_or self.now a [])) }
        ensures within { IfSome result (λ k. k < length (slice_index_or self.now a [])) }
    {
        cell_place(i, self.rows[a].len())
    }

    /// Writes the cell that lies there.
    pub fn write(&mut self, a: usize, k: usize, value: i32)
        requires a { a < length self.old }
        requires k { k < length (slice_index_or self.old a []) }
        ensures { self.new ≡ slice_set self.old a (slice_set (slice_index_or self.old a []) k value) }
    {
        write_cell(&mut self.rows[a], k, value);
    }

    /// Takes over the cells of other arrays of the same lengths.
    pub fn copy_from(&mut self, other: &Arrays)
        requires { map length self.old ≡ map length other.now }
        ensures { self.new ≡ other.now }
    {
        for a in 0..self.rows.len() {
            self.rows[a].copy_from_slice(&other.rows[a]);
        }
    }
}

fn cell_place(i: i32, cells: usize) -> Option<usize>
    requires { cells ≤ 1024 }
    ensures same { result ≡ place_of_cell i cells }
    ensures within { IfSome result (λ k. k < cells) }
{
    if i >= 1 && i <= cells as i32 {
        Some(i as usize - 1)
    } else {
        None
    }
}

fn read_cell(cells: &[i32], i: i32) -> Result<i32, FaultKind>
    requires { length cells.now ≤ 1024 }
    ensures { result ≡ cell_at cells.now (place_of_cell i (length cells.now)) }
{
    match cell_place(i, cells.len()) {
        Some(place) => Ok(cells[place]),
        None => Err(FaultKind::Index),
    }
}

fn write_cell(cells: &mut Vec<i32>, k: usize, value: i32)
    requires { k < length cells.old.items }
    ensures { cells.new.items ≡ slice_set cells.old.items k value }
{
    cells[k] = value;
}
