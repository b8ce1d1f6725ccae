//! Halls: grids of cells with walls.
ghost use Rattle.std.specs.Prelude.{◌≡◌, ◌*◌, ◌<◌, ◌≤◌, OnOk, OnErr};
ghost use Rattle.model.specs.Hall.{beside, cells, columns_apart, rows_apart, wall_answer, with_wall, within};
ghost use Rattle.model.specs.Limits.{most_places, most_rows, most_columns, most_radius};

use crate::Site;
use model::limits::{MOST_COLUMNS, MOST_PLACES, MOST_RADIUS, MOST_ROWS};
use model::refusal::Refusal;

/// A grid of cells, numbered row by row. Walls are closed; a carrier steps to the eight cells around it, and is heard within a
/// radius.
#[derive(Drop)]
pub struct Hall {
    rows: usize,
    columns: usize,
    radius: usize,
    base: usize,
    // An array, and no set on the heap: nothing here can fail for want of memory.
    walls: [bool; MOST_PLACES],
    ghost long: { rows ≤ most_rows },
    ghost wide: { columns ≤ most_columns },
    ghost some: { 0 < columns },
    ghost near: { radius ≤ most_radius },
    ghost inside: { base < rows * columns },
}

impl Hall {
    ghost use Rattle.site.specs.Halls.{Made, grid};

    /// A hall without walls: 1 to 16 rows and columns, a radius up to 30, and a base inside. Other numbers are refused.
    pub fn new(rows: usize, columns: usize, radius: usize, base: usize) -> Result<Self, Refusal>
        ensures { Made rows columns radius base result }
    {
        if !(1..=MOST_ROWS).contains(&rows)
            || !(1..=MOST_COLUMNS).contains(&columns)
            || radius > MOST_RADIUS
            || base >= rows * columns
        {
            return Err(Refusal::NumberOutOfRange);
        }
        Ok(Hall {
            rows,
            columns,
            radius,
            base,
            walls: [false; MOST_PLACES],
        })
    }

    /// Puts a wall at p. A number that is no place and a wall that is there already are refused, and nothing changes.
    pub fn add_wall(&mut self, p: usize) -> Result<(), Refusal>
        ensures answer { result ≡ wall_answer (grid self.old) p }
        ensures after { OnOk result (grid self.new ≡ with_wall p (grid self.old)) }
        ensures unchanged { OnErr result (grid self.new ≡ grid self.old) }
    {
        if p >= self.cells() {
            return Err(Refusal::NumberOutOfRange);
        }
        if self.walls[p] {
            return Err(Refusal::GivenTwice);
        }
        self.walls[p] = true;
        Ok(())
    }

    /// How many cells there are.
    fn cells(&self) -> usize
        ensures product { result ≡ cells (grid self.now) }
        ensures few { result ≤ most_places }
    {
        self.rows * self.columns
    }

    /// How many rows are p and q apart?
    fn rows_apart(&self, p: usize, q: usize) -> usize
        ensures { result ≡ rows_apart (grid self.now) p q }
    {
        (p / self.columns).abs_diff(q / self.columns)
    }

    /// How many columns are p and q apart?
    fn columns_apart(&self, p: usize, q: usize) -> usize
        ensures { result ≡ columns_apart (grid self.now) p q }
    {
        (p % self.columns).abs_diff(q % self.columns)
    }

    /// Do rows and columns each differ by at most 1?
    fn is_beside(&self, p: usize, q: usize) -> bool
        ensures { result ≡ beside (grid self.now) p q }
    {
        self.rows_apart(p, q) <= 1 && self.columns_apart(p, q) <= 1
    }

    /// Do the squares of both differences add up to at most the radius squared?
    fn is_within(&self, p: usize, q: usize) -> bool
        requires from { p < most_places }
        requires to { q < most_places }
        ensures { result ≡ within (grid self.now) p q }
    {
        let down = self.rows_apart(p, q);
        let across = self.columns_apart(p, q);
        down * down + across * across <= self.radius * self.radius
    }
}

impl Site for Hall {
    ghost use Rattle.site.specs.Halls.{hall_lawful, hall_meaning};

    ghost meaning = { hall_meaning };

    fn places(&self) -> usize {
        self.cells()
    }

    fn base(&self) -> usize {
        self.base
    }

    fn is_open(&self, p: usize) -> bool {
        p < self.cells() && !self.walls[p]
    }

    fn has_move(&self, p: usize, q: usize) -> bool {
        p < self.cells() && q < self.cells() && self.is_beside(p, q)
    }

    fn in_contact(&self, p: usize, q: usize) -> bool {
        p < self.cells() && q < self.cells() && self.is_within(p, q)
    }

    ghost lawful = { hall_lawful };
}
