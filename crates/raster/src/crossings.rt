//! The crossings of a layer's rows with the mesh, by column and sign.
ghost use Rattle.std.specs.Prelude.{◌≡◌, ◌≢◌, ◌<◌, ◌≤◌, ◌++◌, ◌∷◌, ◌+◌, ◌+ℤ◌, ◌-ℤ◌, [], All, IsPermutation, OnErr, OnOk, drop, length, nat_le, pos, take, true, ℕ};
ghost use Rattle.std.specs.List.{list_all};
ghost use Rattle.std.specs.Mem.{FitsInMemory};
ghost use Rattle.std.specs.Ordering.{int_eq};
ghost use Rattle.exact_int.specs.Bounds.{IsAtMost};
ghost use Rattle.geometry.specs.Facet.{twice};
ghost use Rattle.geometry.specs.Winding.{hit, total, wind};
ghost use Rattle.plane_segments.specs.Segment.{segments};
ghost use Rattle.exact_cut.specs.Lattice.{pixel, row_y};
ghost use Rattle.raster.specs.ColumnSums.{AreZero};
ghost use Rattle.raster.specs.Crossings.{AreCrossingsWithin, crossings_along, crossings_in, row_passed, row_signs};
ghost use Rattle.raster.specs.RowCrossing.{row_crossing_limit, crossing_sign, signs};
ghost use Rattle.raster.specs.RowSpans.{AreRowSpans};
ghost use Rattle.geometry.specs.declared.limits.TheConstants.{CENTRE_LIMIT, COLUMN_LIMIT};

use crate::column_sums::ColumnSums;
use crate::row_spans::fill_row;
use crate::rule::Rule;
use crate::span::Span;
use exact_cut::{Lattice, Walk};
use geometry::Facet;
use mesh_weld::Solid;
use plane_segments::Segment;
use smallvec::SmallVec;
use std::alloc::{AllocError, Allocator};
use std::marker::Model;
use std::mem::{ManuallyDrop, size_of_val};

/// The greatest capacity that a row keeps from one layer to the next, in crossings. A row with more frees its memory.
const KEPT_CAPACITY: usize = 512;

/// The number of crossings that fit a row without an allocation. Most rows of a layer have two.
const IN_PLACE: usize = 4;

/// A crossing of the mesh by a scanline: its column and its sign.
#[derive(Clone, Copy, Default)]
pub(crate) struct RowCrossing {
    /// The least column whose centre is not left of the crossing; at most `COLUMN_LIMIT`.
    pub(crate) column: u16,
    /// Whether the sign of the crossing is 1; else it is -1.
    pub(crate) is_up: bool,
}

/// A sum of signs with the sign of one more crossing added.
pub(crate) fn with_sign(sum: i64, crossing: RowCrossing) -> i64
    requires { IsAtMost row_crossing_limit sum }
    ensures value { result ≡ sum +ℤ crossing_sign crossing }
    ensures small { (n : ℕ) → IsAtMost n sum → IsAtMost (n + 1) result }
{
    if crossing.is_up { sum + 1 } else { sum - 1 }
}

/// The crossings of a row.
type Row<A> = SmallVec<RowCrossing, IN_PLACE, A>;

/// The crossings of a layer's rows. Those of a row are in the order in which they were added.
pub(crate) struct RowCrossings<A: Allocator> {
    rows: Vec<Row<A>, A>,
}

impl<A: Allocator> Model for RowCrossings<A> {
    ghost use Rattle.std.specs.Prelude.{List, map};
    ghost use Rattle.raster.specs.declared.crossings.RowCrossing.{RowCrossing};

    ghost Value = { List (List RowCrossing) };

    ghost view = { λ m. map (λ row. row.items) m.rows.items };
}

impl<A: Allocator> Drop for RowCrossings<A> {
    fn drop(self) {
        let RowCrossings { rows } = self;
        if !fits_in_memory::<Row<A>>() {
            // Never reached: no rows are made of a type that does not fit in memory. To drop them would need a proof of that.
            let _rows = unsafe { ManuallyDrop::new_unchecked(rows) };
        }
    }
}

impl<A: Allocator + Copy> RowCrossings<A> {
    /// No rows. It allocates no memory.
    pub(crate) fn new(alloc: A) -> RowCrossings<A> {
        RowCrossings {
            rows: Vec::new(alloc),
        }
    }

    /// Removes all crossings, and adds rows until there are at least `rows`.
    pub(crate) fn start(&mut self, alloc: A, rows: u32) -> Result<(), AllocError>
        ensures empty { OnOk result ((j : ℕ) → crossings_in self.new j ≡ []) }
        ensures rows { OnOk result (rows ≤ length self.new) }
    {
        if !fits_in_memory::<Row<A>>() {
            return Err(AllocError);
        }
        forget_all(alloc, &mut self.rows);
        make_room(alloc, &mut self.rows, rows as usize)
    }

    /// Adds a crossing to a row. On an error the rows are as before.
    pub(crate) fn push(&mut self, row: u32, crossing: RowCrossing) -> Result<(), AllocError>
        requires { row < length self.old }
        ensures rows { length self.new ≡ length self.old }
        ensures here { OnOk result (crossings_in self.new row ≡ crossings_in self.old row ++ crossing ∷ []) }
        ensures elsewhere { (j : ℕ) → j ≢ row → crossings_in self.new j ≡ crossings_in self.old j }
        ensures failed { OnErr result (self.new ≡ self.old) }
    {
        if !fits_in_memory::<Row<A>>() {
            return Err(AllocError);
        }
        push(&mut self.rows[row as usize], crossing)
    }
}

impl<A: Allocator> RowCrossings<A> {
    /// Adds the spans of a row of `width` columns, from the left, by its crossings, which may be sorted in place. On an error
    /// `out` may have some of them.
    pub(crate) fn fill_row(
        &mut self,
        rule: Rule,
        row: u32,
        width: u16,
        columns: &mut ColumnSums<A>,
        out: &mut Vec<Span, A>,
    ) -> Result<(), AllocError>
        // a row within the columns, which leaves the mesh as often as it enters it
        requires row { row < length self.old }
        requires within { list_all (λ m. nat_le m.column width) (crossings_in self.old row) ≡ true }
        requires balanced { signs (crossings_in self.old row) ≡ pos 0 }
        // all sums are 0 between two rows
        requires between_rows { AreZero columns.old.sums.items }
        ensures between_rows { AreZero columns.new.sums.items }
        // the crossings stay, those of this row perhaps in another order
        ensures rows { length self.new ≡ length self.old }
        ensures here { IsPermutation (crossings_in self.old row) (crossings_in self.new row) }
        ensures elsewhere { (j : ℕ) → j ≢ row → crossings_in self.new j ≡ crossings_in self.old j }
        // the spans of the row come after those before
        ensures kept { OnOk result (take (length out.old.items) out.new.items ≡ out.old.items) }
        ensures added { OnOk result (AreRowSpans rule row (crossings_in self.old row) (drop (length out.old.items) out.new.items)) }
    {
        if !fits_in_memory::<Row<A>>() {
            return Err(AllocError);
        }
        let crossings = self.rows[row as usize].as_mut_slice();
        fill_row(rule, row, width, crossings, columns, out)
    }
}

/// Whether a value of a type takes less than half the address space. It does, whatever the type, and the compiler knows it. But
/// no proof knows it of the type of an allocator.
fn fits_in_memory<T>() -> bool
    ensures { result ≡ true → FitsInMemory T.row }
{
    let none: Option<T> = None;
    let fits = size_of_val(&none) <= isize::MAX as usize;
    // `none` holds no `T`, so nothing is lost if it is not dropped
    let _none = unsafe { ManuallyDrop::new_unchecked(none) };
    fits
}

/// Removes the crossings of all rows.
fn forget_all<A: Allocator + Copy>(alloc: A, rows: &mut Vec<Row<A>, A>)
    ensures empty { All (λ row. row.items ≡ []) rows.new.items }
    ensures count { length rows.new.items ≡ length rows.old.items }
{
    for row in 0..rows.len() {
        forget(alloc, &mut rows[row]);
    }
}

/// Adds empty rows until there are `count`.
fn make_room<A: Allocator + Copy>(
    alloc: A,
    rows: &mut Vec<Row<A>, A>,
    count: usize,
) -> Result<(), AllocError>
    requires { All (λ row. row.items ≡ []) rows.old.items }
    ensures empty { OnOk result (All (λ row. row.items ≡ []) rows.new.items) }
    ensures count { OnOk result (count ≤ length rows.new.items) }
{
    for _row in rows.len()..count {
        rows.push(SmallVec::new(alloc))?;
    }
    Ok(())
}

/// Removes the crossings of a row, and frees its memory if its capacity is above `KEPT_CAPACITY`.
fn forget<A: Allocator + Copy>(alloc: A, crossings: &mut Row<A>)
    ensures { crossings.new.items ≡ [] }
{
    if crossings.spilled() && crossings.capacity() <= KEPT_CAPACITY {
        crossings.clear();
    } else {
        *crossings = SmallVec::new(alloc);
    }
}

/// Adds a crossing to those of a row. On an error they are as before.
fn push<A: Allocator + Copy>(
    crossings: &mut Row<A>,
    crossing: RowCrossing,
) -> Result<(), AllocError>
    ensures added { OnOk result (crossings.new.items ≡ crossings.old.items ++ crossing ∷ []) }
    ensures failed { OnErr result (crossings.new ≡ crossings.old) }
{
    // wakes the invariant: a row's capacity is at least `IN_PLACE`
    let _capacity = crossings.capacity();
    if crossings.len() < IN_PLACE {
        crossings.push_reserved(crossing);
        Ok(())
    } else {
        Ok(crossings.push(crossing)?)
    }
}

/// Adds the crossings of all facets with the rows of a lattice at the height `z2`, in half-micrometres, by the segments there:
/// a facet without a segment crosses no row. On an error `out` may have some of them.
pub(crate) fn push_facets<A: Allocator + Copy>(
    s: &Solid<A>,
    z2: i64,
    lattice: &Lattice,
    list: &[Segment],
    out: &mut RowCrossings<A>,
) -> Result<(), AllocError>
    requires height { IsAtMost CENTRE_LIMIT z2 }
    requires list { list.now ≡ segments s.now.facets z2 }
    requires empty { (j : ℕ) → crossings_in out.old j ≡ [] }
    requires rows { lattice.now.rows ≤ length out.old }
    ensures rows { length out.new ≡ length out.old }
    ensures signs { OnOk result ((j : ℕ) → j < lattice.now.rows
        → row_signs out.new j ≡ total (λ t. wind (twice t) (row_y lattice.now j) z2) s.now.facets) }
    ensures passed { OnOk result ((i j : ℕ) → i < lattice.now.columns → j < lattice.now.rows
        → row_passed out.new j i
        ≡ total (λ t. wind (twice t) (row_y lattice.now j) z2 -ℤ hit (twice t) (pixel lattice.now z2 i j)) s.now.facets) }
    ensures within { OnOk result (AreCrossingsWithin lattice.now.columns out.new) }
{
    for segment in list {
        push_facet(&s.facet(segment.facet), z2, lattice, out)?;
    }
    Ok(())
}

/// Adds the crossings of a facet with the rows of a lattice at the height `z2`, in half-micrometres. On an error `out` may
/// have some of them.
#[inline(always)]
fn push_facet<A: Allocator + Copy>(
    facet: &Facet,
    z2: i64,
    lattice: &Lattice,
    out: &mut RowCrossings<A>,
) -> Result<(), AllocError>
    requires height { IsAtMost CENTRE_LIMIT z2 }
    requires rows { lattice.now.rows ≤ length out.old }
    ensures rows { length out.new ≡ length out.old }
    ensures signs { OnOk result ((j : ℕ) → j < lattice.now.rows
        → row_signs out.new j ≡ row_signs out.old j +ℤ wind (twice facet.now) (row_y lattice.now j) z2) }
    ensures passed { OnOk result ((i j : ℕ) → i < lattice.now.columns → j < lattice.now.rows
        → row_passed out.new j i ≡ row_passed out.old j i
        +ℤ (wind (twice facet.now) (row_y lattice.now j) z2 -ℤ hit (twice facet.now) (pixel lattice.now z2 i j))) }
    ensures within { AreCrossingsWithin lattice.now.columns out.old → OnOk result (AreCrossingsWithin lattice.now.columns out.new) }
{
    match Walk::start(facet, z2, lattice) {
        Some(walk) => push_walk(walk, out),
        None => Ok(()),
    }
}

/// Adds the crossings of a walk, one in each of its rows. On an error `out` may have some of them.
#[inline(always)]
fn push_walk<A: Allocator + Copy>(
    mut walk: Walk,
    out: &mut RowCrossings<A>,
) -> Result<(), AllocError>
    requires few_rows { walk.row + length walk.columns ≤ COLUMN_LIMIT }
    requires few_columns { All (λ column. column ≤ COLUMN_LIMIT) walk.columns }
    requires rows { walk.row + length walk.columns ≤ length out.old }
    ensures rows { length out.new ≡ length out.old }
    ensures added { OnOk result ((j : ℕ) → crossings_in out.new j
        ≡ crossings_in out.old j ++ crossings_along walk.row (int_eq walk.sign (pos 1)) walk.columns j) }
{
    let is_up = walk.sign() == 1;
    for row in walk.row()..walk.end() {
        let column = walk.next_column();
        let crossing = RowCrossing {
            column: column as u16,
            is_up,
        };
        out.push(row, crossing)?;
    }
    Ok(())
}
