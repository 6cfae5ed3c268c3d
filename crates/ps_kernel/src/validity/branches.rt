//! The branches of a case: whether their labels are such as may stand there. A case has at most 1,023 labels, so that each
//! is compared with those behind it, and no table is made.

ghost use Rattle.std.specs.Prelude.{◌≡◌, nat_le, length};
ghost use Rattle.std.specs.List.{list_all};
ghost use Rattle.ps_kernel.specs.Most.{most_labels};
ghost use Rattle.ps_kernel.specs.Rules.{are_branches, differ, is_among, is_branch, is_label, labels_in};
ghost use Rattle.ps_kernel.specs.InsideWalks.{differ_before};

use crate::expr::{CaseKind, Labelled};

// The most labels that a case has, over all its branches.
const LABELS: usize = 1_023;

/// Whether a case of a kind may have these branches.
pub fn may_stand(kind: CaseKind, branches: &[Labelled]) -> bool
    ensures { result ≡ are_branches kind branches.now }
{
    if branches.is_empty() {
        return false;
    }
    if !have_labels(kind, branches) {
        return false;
    }
    if !are_few(branches) {
        return false;
    }
    all_differ(branches)
}

// Whether each branch has labels, which may stand in a case of a kind.
fn have_labels(kind: CaseKind, branches: &[Labelled]) -> bool
    ensures { result ≡ list_all (is_branch kind) branches.now }
{
    for branch in branches {
        if !has_labels(kind, branch) {
            return false;
        }
    }
    true
}

// The same of a branch.
fn has_labels(kind: CaseKind, branch: &Labelled) -> bool
    ensures { result ≡ is_branch kind branch.now }
{
    if branch.labels.is_empty() {
        return false;
    }
    are_labels(kind, branch.labels.as_slice())
}

// Whether labels may stand in a case of a kind.
fn are_labels(kind: CaseKind, labels: &[i64]) -> bool
    ensures { result ≡ list_all (is_label kind) labels.now }
{
    for label in labels {
        if !is_label(kind, *label) {
            return false;
        }
    }
    true
}

// The same of a label.
fn is_label(kind: CaseKind, label: i64) -> bool
    ensures { result ≡ is_label kind label }
{
    match kind {
        CaseKind::Integer => true,
        CaseKind::Char => label >= 0 && label < 256,
    }
}

// Whether the branches have no more labels than a case may have.
fn are_few(branches: &[Labelled]) -> bool
    ensures { result ≡ nat_le (length (labels_in branches.now)) most_labels }
{
    let mut left = LABELS;
    for branch in branches {
        if branch.labels.len() > left {
            return false;
        }
        left -= branch.labels.len();
    }
    true
}

// Whether no label of the branches stands at two places.
fn all_differ(branches: &[Labelled]) -> bool
    ensures { result ≡ differ (labels_in branches.now) }
{
    let mut rest = branches;
    while let Some((branch, more)) = rest.split_first() {
        if !differ_from(branch.labels.as_slice(), more) {
            return false;
        }
        rest = more;
    }
    true
}

// Whether none of some labels stands again among them or in the branches behind them.
fn differ_from(labels: &[i64], branches: &[Labelled]) -> bool
    ensures { result ≡ differ_before labels.now (labels_in branches.now) }
{
    let mut rest = labels;
    while let Some((label, more)) = rest.split_first() {
        if stands_among(label, more) {
            return false;
        }
        if stands_in_branches(label, branches) {
            return false;
        }
        rest = more;
    }
    true
}

// Whether a label is one of these.
fn stands_among(label: &i64, labels: &[i64]) -> bool
    ensures { result ≡ is_among label.now labels.now }
{
    for other in labels {
        if *label == *other {
            return true;
        }
    }
    false
}

// Whether it is one of the labels of these branches.
fn stands_in_branches(label: &i64, branches: &[Labelled]) -> bool
    ensures { result ≡ is_among label.now (labels_in branches.now) }
{
    for branch in branches {
        if stands_among(label, branch.labels.as_slice()) {
            return true;
        }
    }
    false
}
