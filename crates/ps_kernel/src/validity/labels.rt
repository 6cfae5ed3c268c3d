//! A walk over the test of a branch, which compares the key with each label.

ghost use Rattle.std.specs.Prelude.{◌≡◌};
ghost use Rattle.std.specs.List.{fold};
ghost use Rattle.ps_kernel.specs.InsideSteps.{OneLabel, Leaf, SomeLabel, label_of, steps};
ghost use Rattle.ps_kernel.specs.InsideWalks.{step};

use crate::kernel::Kernel;
use crate::validity::passing::{meet_node, meet_too_deep};
use crate::validity::walk::Walk;

// The key, a label, true or false.
fn walk_leaf(walk: &mut Walk, kernel: &Kernel, tail: bool, left: u32)
    ensures { walk.new ≡ fold (step kernel.now) walk.old (steps kernel.now left tail Leaf) }
{
    if left == 0 {
        meet_too_deep(walk, kernel);
    } else {
        meet_node(walk, kernel);
    }
}

// A comparison of the key with a label.
fn walk_label(walk: &mut Walk, kernel: &Kernel, tail: bool, left: u32)
    ensures { walk.new ≡ fold (step kernel.now) walk.old (steps kernel.now left tail OneLabel) }
{
    if left == 0 {
        meet_too_deep(walk, kernel);
    } else {
        meet_node(walk, kernel);
        walk_leaf(walk, kernel, false, left - 1);
        walk_leaf(walk, kernel, false, left - 1);
    }
}

/// Comparisons with each label in order.
pub fn walk_labels(walk: &mut Walk, kernel: &Kernel, labels: &[i64], tail: bool, left: u32)
    ensures { walk.new ≡ fold (step kernel.now) walk.old (steps kernel.now left tail (label_of labels.now)) }
{
    match labels.split_first() {
        None => walk_leaf(walk, kernel, tail, left),
        Some((_, rest)) => {
            if rest.is_empty() {
                walk_label(walk, kernel, tail, left);
            } else if left == 0 {
                meet_too_deep(walk, kernel);
            } else {
                meet_node(walk, kernel);
                walk_label(walk, kernel, false, left - 1);
                walk_leaf(walk, kernel, tail, left - 1);
                walk_labels(walk, kernel, rest, tail, left - 1);
            }
        }
    }
}
