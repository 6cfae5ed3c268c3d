//! The steps of a search through a graph, which keeps the path that it is on, with the nodes that it can not yet tell apart.

ghost use Rattle.std.specs.Prelude.{◌≡◌, ◌<◌, ◌≤◌, ◌-◌, ◌+◌, length, slice_set, ◌++◌, [], ◌∷◌, slice_get, slice_index_or, Option, Some, None, OnOk, MatchOption};
ghost use Rattle.ps_groups.specs.Groups.{row, IsTable};
ghost use Rattle.ps_groups.specs.InsideSearch.{opened, mark_at, Contracted, Climbs, last_of, Leaves, LeavesPart, Closes, Closed, IsSearch, pushed, edge_of, AfterEdge, Turns};

use ps_base::Items;
use std::alloc::AllocError;

/// What is known of a node.
#[derive(Clone, Copy, Debug)]
pub enum Mark {
    /// Nothing: the search did not come to it.
    New,
    /// It stands at this place of the stack.
    Held(usize),
    /// It is of the group of this number.
    Done(usize),
}

/// A node of the path: its place in the stack, and how many of those that it mentions are still to be looked at.
#[derive(Clone, Copy, Debug)]
pub struct Frame {
    /// Its place.
    pub place: usize,
    /// How many are left.
    pub left: usize,
}

/// Where the search stands.
#[derive(Drop)]
pub struct Search {
    /// What is known of each node.
    pub marks: Items<Mark>,
    /// The nodes that have no group yet, in the order in which the search came to them.
    pub stack: Items<usize>,
    /// Where the parts of the stack begin. Those of one part reach each other.
    pub starts: Items<usize>,
    /// The path.
    pub frames: Items<Frame>,
    /// The nodes that have groups, group by group. The number of a group is how many nodes had one before it.
    pub order: Items<usize>,
}

/// A frame's turn: it is the top, and was taken off.
pub fn turn(rows: &Items<Items<u32>>, search: &mut Search, frame: Frame) -> Result<(), AllocError>
    requires table { IsTable rows.now }
    requires search { IsSearch rows.now None (pushed frame search.old) }
    ensures { OnOk result (Turns rows.now (pushed frame search.old) search.new) }
{
    match edge(rows, search, frame) {
        None => leave(search, frame),
        Some(node) => {
            let left = frame.left - 1;
            search.frames.push(Frame {
                place: frame.place,
                left,
            })?;
            follow(rows, search, node)
        }
    }
}

/// The search comes to a node that is new.
pub fn enter(rows: &Items<Items<u32>>, search: &mut Search, node: usize) -> Result<(), AllocError>
    requires { node < length search.old.marks }
    ensures { OnOk result (search.new ≡ opened rows.now node search.old) }
{
    let place = search.stack.len();
    let left = width(rows, node);
    search.marks.set(node, Mark::Held(place));
    search.stack.push(node)?;
    search.starts.push(place)?;
    search.frames.push(Frame { place, left })
}

/// What is known of a node.
pub fn known(search: &Search, node: usize) -> Mark
    ensures { result ≡ mark_at search.now.marks node }
{
    match search.marks.get(node) {
        Some(mark) => *mark,
        None => Mark::New,
    }
}

// How many nodes a node mentions.
fn width(rows: &Items<Items<u32>>, node: usize) -> usize
    ensures { result ≡ length (row rows.now node) }
{
    match rows.get(node) {
        Some(row) => row.len(),
        None => 0,
    }
}

// The node that a frame looks at next.
fn edge(rows: &Items<Items<u32>>, search: &Search, frame: Frame) -> Option<usize>
    ensures { result ≡ edge_of rows.now search.now.stack frame }
{
    if frame.left == 0 {
        return None;
    }
    match search.stack.get(frame.place) {
        None => None,
        Some(node) => entry(rows, *node, frame.left - 1),
    }
}

fn entry(rows: &Items<Items<u32>>, node: usize, at: usize) -> Option<usize>
    ensures { result ≡ slice_get (row rows.now node) at }
{
    match rows.get(node) {
        None => None,
        Some(row) => match row.get(at) {
            None => None,
            Some(other) => Some(*other as usize),
        },
    }
}

// The search comes to a node that the top mentions.
fn follow(rows: &Items<Items<u32>>, search: &mut Search, node: usize) -> Result<(), AllocError>
    requires node { node < length search.old.marks }
    requires climbs { Climbs 0 search.old.starts }
    ensures { OnOk result (AfterEdge rows.now node search.old search.new (mark_at search.old.marks node)) }
{
    match known(search, node) {
        Mark::New => enter(rows, search, node),
        Mark::Held(place) => {
            contract(search, place);
            Ok(())
        }
        Mark::Done(_) => Ok(()),
    }
}

// What stands from a place on is one part.
fn contract(search: &mut Search, place: usize)
    requires { Climbs 0 search.old.starts }
    ensures { Contracted place search.old search.new }
{
    while let Some(start) = last(&search.starts) {
        if start <= place {
            return;
        }
        search.starts.pop();
    }
}

fn last(places: &Items<usize>) -> Option<usize>
    ensures { result ≡ last_of places.now }
{
    let count = places.len();
    if count == 0 {
        return None;
    }
    match places.get(count - 1) {
        None => None,
        Some(place) => Some(*place),
    }
}

// The top is left: its part is a group, where it begins there.
fn leave(search: &mut Search, frame: Frame) -> Result<(), AllocError>
    requires { frame.place ≤ length search.old.stack }
    ensures { OnOk result (Leaves frame.place search.old search.new) }
{
    match last(&search.starts) {
        None => Ok(()),
        Some(start) => {
            if start == frame.place {
                leave_part(search, frame.place)
            } else {
                Ok(())
            }
        }
    }
}

// The last part is a group.
fn leave_part(search: &mut Search, place: usize) -> Result<(), AllocError>
    requires start { last_of search.old.starts ≡ Some place }
    requires place { place ≤ length search.old.stack }
    ensures { OnOk result (LeavesPart place search.old search.new) }
{
    search.starts.pop();
    close(search, place)
}

// What stands from a place on has a group.
fn close(search: &mut Search, place: usize) -> Result<(), AllocError>
    requires { place ≤ length search.old.stack }
    ensures { OnOk result (Closes place search.old search.new) }
{
    let group = search.order.len();
    while search.stack.len() > place {
        match search.stack.pop() {
            None => return Ok(()),
            Some(node) => settle(search, node, group)?,
        }
    }
    Ok(())
}

fn settle(search: &mut Search, node: usize, group: usize) -> Result<(), AllocError>
    ensures { OnOk result (search.new ≡ record search.old {
      marks = slice_set search.old.marks node (Mark.Done group);
      order = search.old.order ++ node ∷ [];
    }) }
{
    if node < search.marks.len() {
        search.marks.set(node, Mark::Done(group));
    }
    search.order.push(node)
}
