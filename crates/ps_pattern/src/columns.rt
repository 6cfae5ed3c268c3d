//! What the variables under an ellipsis stand for, from what they stand for in each form.

ghost use Rattle.std.specs.Prelude.{◌≡◌, map, take, IfOk, OnOk};
ghost use Rattle.ps_pattern.specs.Meaning.{nth_bound};
ghost use Rattle.ps_pattern.specs.Matching.{column, columns};

use crate::bound::{Binds, Bound};
use ps_base::Items;
use std::alloc::{AllocError, Global};

/// Of so many variables, what each stands for in all rows. A row has what they stand for in one form.
pub fn columns_of(alloc: Global, rows: Vec<Binds>, width: usize) -> Result<Binds, AllocError>
    ensures { IfOk result (λ r. r ≡ columns width rows.items) }
{
    let mut rows = rows;
    let mut columns = Vec::new(alloc);
    for v in (0..width).rev() {
        columns.push(column_of(alloc, rows.as_mut_slice(), v)?)?;
    }
    columns.reverse();
    Ok(Items::from_vec(columns))
}

// What one variable stands for in all rows, which lose it.
fn column_of(alloc: Global, rows: &mut [Binds], v: usize) -> Result<Bound, AllocError>
    ensures value { IfOk result (λ r. r ≡ column rows.old v) }
    ensures before { OnOk result (map (take v) rows.new ≡ map (take v) rows.old) }
{
    let mut bounds = Items::new(alloc);
    for row in rows.iter_mut() {
        bounds.push(take_out(alloc, row, v))?;
    }
    Ok(Bound::Many(bounds))
}

// What one variable stands for in a row, which loses it.
fn take_out(alloc: Global, row: &mut Binds, v: usize) -> Bound
    ensures value { result ≡ nth_bound v row.old }
    ensures before { take v row.new ≡ take v row.old }
{
    if v < row.len() {
        row.remove(v)
    } else {
        Bound::Many(Items::new(alloc))
    }
}
