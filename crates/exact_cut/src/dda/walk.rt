//! A facet's crossings with the rows of a lattice, one row after another, at the cost of a few additions a row.
ghost use Rattle.std.specs.Prelude.{◌≡◌, ◌∷◌, ◌+◌, ◌-◌, ◌<◌, ◌≤◌, ◌<ℤ◌, MatchOption, length, pos, slice_index, ℕ};
ghost use Rattle.exact_int.specs.Bounds.{IsAtMost};
ghost use Rattle.geometry.specs.Facet.{twice};
ghost use Rattle.exact_cut.specs.Column.{IsLeastColumn};
ghost use Rattle.exact_cut.specs.Crossing.{IsUnit};
ghost use Rattle.exact_cut.specs.Lattice.{IsUncrossed, row_y};
ghost use Rattle.exact_cut.specs.Section.{den_between, num_between};
ghost use Rattle.exact_cut.specs.Walk.{IsWalkOf, Walk};
ghost use Rattle.geometry.specs.declared.limits.TheConstants.{CENTRE_LIMIT};

use crate::dda::lattice::Lattice;
use crate::dda::{Dda, dda_between, followed};
use crate::scanline::clamped;
use crate::scanline::cut_point::CutPoint;
use crate::scanline::section::Section;
use geometry::Facet;
use std::marker::Model;

/// The crossings of a facet with the rows of a lattice that it passes, one row after another.
#[derive(Drop)]
pub struct Walk {
    row: u32,
    left: u32,
    sign: i32,
    columns: u32,
    dda: Dda,
}

impl Model for Walk {
    ghost use Rattle.exact_cut.specs.Walk.{Walk};
    ghost use Rattle.exact_cut.specs.Dda.{IsOnRows, columns_along};

    ghost Value = { Walk };

    ghost view = { λ w. record { row = w.row; sign = w.sign; columns = columns_along w.left w.columns w.dda } };

    ghost invariant = { λ w. IsOnRows w.row w.left w.sign w.dda };
}

impl Walk {
    /// The crossings of a facet at the height `z2` with the rows of a lattice, or `None` if it crosses none of them. The height
    /// is in half-micrometres, within `CENTRE_LIMIT` of 0.
    #[inline(always)]
    pub fn start(f: &Facet, z2: i64, lattice: &Lattice) -> Option<Walk>
        requires { IsAtMost CENTRE_LIMIT z2 }
        ensures { MatchOption result (IsUncrossed (twice f.now) z2 lattice.now)
            (λ w. IsWalkOf (twice f.now) z2 lattice.now w) }
    {
        let ends = Section::at_height(f, z2)?;
        let down = lattice.first_row(&ends.down);
        let up = lattice.first_row(&ends.up);
        if down == up {
            return None;
        }
        // One call for both signs: which comes next follows no pattern in a mesh, so a branch would often be mispredicted.
        let (sign, row, end, near, far) = if down < up {
            (1, down, up, ends.down, ends.up)
        } else {
            (-1, up, down, ends.up, ends.down)
        };
        Some(Walk::between(sign, row, end, &near, &far, lattice))
    }

    /// The crossings of the line through two cut points with the rows from `row` to `end`, which is excluded.
    #[inline(always)]
    fn between(
        sign: i32,
        row: u32,
        end: u32,
        near: &CutPoint,
        far: &CutPoint,
        lattice: &Lattice,
    ) -> Walk
        requires unit { IsUnit sign }
        requires some { row < end }
        requires in_rows { end ≤ lattice.now.rows }
        requires den_positive { pos 0 <ℤ den_between near.now far.now }
        ensures row { result.row ≡ row }
        ensures sign { result.sign ≡ sign }
        ensures length { length result.columns ≡ end - row }
        ensures columns { (n : ℕ) → n < end - row
            → IsLeastColumn (num_between near.now far.now (row_y lattice.now (row + n)))
            (den_between near.now far.now) lattice.now.x2 lattice.now.step
            lattice.now.columns (slice_index result.columns n) }
    {
        Walk {
            row,
            left: end - row,
            sign,
            columns: lattice.columns,
            dda: dda_between(near, far, lattice, row, end - row),
        }
    }

    /// The row of the next crossing.
    #[inline(always)]
    pub fn row(&self) -> u32
        ensures { result ≡ self.now.row }
    {
        self.row
    }

    /// One past the row of the last crossing.
    #[inline(always)]
    pub fn end(&self) -> u32
        ensures { result ≡ self.now.row + length self.now.columns }
    {
        self.row + self.left
    }

    /// The facet's winding round each of the rows, 1 or -1.
    #[inline(always)]
    pub fn sign(&self) -> i32
        ensures value { result ≡ self.now.sign }
        ensures unit { IsUnit result }
    {
        self.sign
    }

    /// Returns the column of the next crossing, and steps to the next row. This is the first column whose centre is not left of
    /// the crossing, or the number of columns if there is none. A crossing must be left: `row` is below `end`.
    #[inline(always)]
    pub fn next_column(&mut self) -> u32
        requires { 0 < length self.old.columns }
        ensures column { self.old.columns ≡ result ∷ self.new.columns }
        ensures row { self.new.row ≡ self.old.row + 1 }
        ensures sign { self.new.sign ≡ self.old.sign }
    {
        let column = clamped(self.dda.whole, self.columns);
        self.dda = followed(&self.dda, self.left);
        self.row += 1;
        self.left -= 1;
        column
    }
}
