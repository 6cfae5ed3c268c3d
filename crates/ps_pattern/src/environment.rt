//! What the variables of a template stand for, by reference.

ghost use Rattle.std.specs.Prelude.{◌≡◌, [], List, map, ◌++◌, OnOk, IfOk, length};
ghost use Rattle.ps_pattern.specs.Meaning.{nth_bound};
ghost use Rattle.ps_pattern.specs.Filling.{items_of, counts, all_are, first_count, at_step, turned, walked};
ghost use Rattle.ps_pattern.specs.declared.bound.Bound.TheVariants as b;

use crate::bound::Bound;
use sqlite_items::at;
use std::alloc::{AllocError, Global};
use std::marker::Model;

/// What was bound where a rule matched, and the turns of the ellipses around, from the outermost inwards. Contracts see what
/// each variable stands for in these turns. `empty` is what a variable out of range stands for.
#[derive(Drop)]
pub struct Environment<'a> {
    binds: &'a [Bound],
    path: Vec<usize>,
    empty: &'a Bound,
}

impl<'a> Model for Environment<'a> {
    ghost use Rattle.std.specs.Prelude.{◌≡◌, [], List, map};
    ghost use Rattle.ps_pattern.specs.declared.bound.Bound.{Bound};
    ghost use Rattle.ps_pattern.specs.declared.bound.Bound.TheVariants as b;
    ghost use Rattle.ps_pattern.specs.Filling.{walked};
    ghost use Rattle.ps_pattern.specs.contracts.bound.Bound as e;
    ghost use Rattle.std.specs.Coded.{codes};

    ghost Value = { List Bound };

    ghost coded = { Prim.hlevel (codes, e.the_row.coded) };

    ghost view = { λ e. map (walked e.path.items) e.binds.now };

    ghost invariant = { λ e. e.empty.now ≡ b.Many [] };
}

fn count_items(bound: &Bound) -> usize
    ensures { result ≡ length (items_of bound.now) }
{
    match bound {
        Bound::One(_) => 0,
        Bound::Many(bounds) => bounds.len(),
    }
}

// What a variable stands for in one turn.
fn turn<'a>(bound: &'a Bound, i: usize, empty: &'a Bound) -> &'a Bound
    requires { empty.now ≡ b.Many [] }
    ensures { result.now ≡ turned i bound.now }
{
    match bound {
        Bound::One(_) => bound,
        Bound::Many(bounds) => match at(bounds.as_slice(), i) {
            Some(bound) => bound,
            None => empty,
        },
    }
}

// What it stands for in all turns.
fn walk<'a>(path: &[usize], bound: &'a Bound, empty: &'a Bound) -> &'a Bound
    requires { empty.now ≡ b.Many [] }
    ensures { result.now ≡ walked path.now bound.now }
{
    match path {
        [] => bound,
        [i, path @ ..] => walk(path, turn(bound, *i, empty), empty),
    }
}

fn all_have(binds: &Environment, through: &[usize], n: usize) -> bool
    ensures { result ≡ all_are n (counts through.now binds.now) }
{
    for v in through {
        if n != binds.count(*v) {
            return false;
        }
    }
    true
}

impl<'a> Environment<'a> {
    /// What variables stand for outside all ellipses.
    pub fn new(alloc: Global, binds: &'a [Bound], empty: &'a Bound) -> Environment<'a>
        requires { empty.now ≡ b.Many [] }
        ensures { result ≡ binds.now }
    {
        let path = Vec::new(alloc);
        Environment { binds, path, empty }
    }

    /// What a variable stands for.
    pub fn get(&self, v: usize) -> &'a Bound
        ensures { result.now ≡ nth_bound v self.now }
    {
        match at(self.binds, v) {
            Some(bound) => walk(self.path.as_slice(), bound, self.empty),
            None => self.empty,
        }
    }

    fn count(&self, v: usize) -> usize
        ensures { result ≡ length (items_of (nth_bound v self.now)) }
    {
        count_items(self.get(v))
    }

    /// How many forms the first of the variables stands for.
    pub fn find_count(&self, through: &[usize]) -> usize
        ensures { result ≡ first_count (counts through.now self.now) }
    {
        match through {
            [] => 0,
            [v, ..] => self.count(*v),
        }
    }

    /// Whether each of the variables stands for so many forms.
    pub fn have_count(&self, through: &[usize], n: usize) -> bool
        ensures { result ≡ all_are n (counts through.now self.now) }
    {
        all_have(self, through, n)
    }

    /// The environment of one turn of an ellipsis.
    pub fn step(&self, alloc: Global, i: usize) -> Result<Environment<'a>, AllocError>
        ensures { IfOk result (λ r. r ≡ at_step self.now i) }
    {
        let mut path = Vec::from_slice(alloc, self.path.as_slice())?;
        path.push(i)?;
        Ok(Environment {
            binds: self.binds,
            path,
            empty: self.empty,
        })
    }
}
