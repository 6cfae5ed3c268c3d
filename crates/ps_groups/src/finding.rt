//! Finding groups.

ghost use Rattle.std.specs.Prelude.{◌≡◌, ◌<◌, ◌+◌, length, map, None, OnOk, IfOk};
ghost use Rattle.ps_groups.specs.Groups.{IsTable, AreGroups};
ghost use Rattle.ps_groups.specs.InsideSearch.{IsDoneBelow, group_in, mark_at};

use crate::search::{Mark, Search, enter, known, turn};
use ps_base::{Items, NoMemory};
use std::alloc::{AllocError, Global};

/// The group of each number of a table, whose rows name the numbers that each mentions. Numbers of one group have one entry, and
/// no entry of what a number mentions is higher than its own.
///
/// # Errors
///
/// `NoMemory` where memory runs out.
pub fn groups(alloc: Global, rows: &Items<Items<u32>>) -> Result<Items<usize>, NoMemory>
    requires table { IsTable rows.now }
    ensures { IfOk result (λ groups. AreGroups rows.now groups) }
{
    let mut search = start(alloc, rows)?;
    for node in 0..rows.len() {
        reach(rows, &mut search, node)?;
    }
    Ok(told(alloc, &search)?)
}

// No node was met.
fn start(alloc: Global, rows: &Items<Items<u32>>) -> Result<Search, AllocError>
    ensures { IfOk result (λ search. IsDoneBelow rows.now 0 search) }
{
    Ok(Search {
        marks: Items::from_vec(vec![in alloc; Mark::New; rows.len()]?),
        stack: Items::new(alloc),
        starts: Items::new(alloc),
        frames: Items::new(alloc),
        order: Items::new(alloc),
    })
}

// A node is met, where it was not met before, and all that it reaches.
fn reach(rows: &Items<Items<u32>>, search: &mut Search, node: usize) -> Result<(), AllocError>
    requires table { IsTable rows.now }
    requires node { node < length rows.now }
    requires search { IsDoneBelow rows.now node search.old }
    ensures { OnOk result (IsDoneBelow rows.now (node + 1) search.new) }
{
    match known(search, node) {
        Mark::New => search_from(rows, search, node),
        Mark::Held(_) => Ok(()),
        Mark::Done(_) => Ok(()),
    }
}

fn search_from(rows: &Items<Items<u32>>, search: &mut Search, node: usize) -> Result<(), AllocError>
    requires table { IsTable rows.now }
    requires node { node < length rows.now }
    requires search { IsDoneBelow rows.now node search.old }
    requires new { mark_at search.old.marks node ≡ Mark.New }
    ensures { OnOk result (IsDoneBelow rows.now (node + 1) search.new) }
{
    enter(rows, search, node)?;
    while let Some(frame) = search.frames.pop() {
        turn(rows, search, frame)?;
    }
    Ok(())
}

// The groups of the nodes.
fn told(alloc: Global, search: &Search) -> Result<Items<usize>, AllocError>
    ensures { IfOk result (λ groups. groups ≡ map group_in search.now.marks) }
{
    let mut groups = Items::new(alloc);
    for mark in search.marks.as_slice() {
        groups.push(group_in(*mark))?;
    }
    Ok(groups)
}

fn group_in(mark: Mark) -> usize
    ensures { result ≡ group_in mark }
{
    match mark {
        Mark::New => 0,
        Mark::Held(_) => 0,
        Mark::Done(group) => group,
    }
}
