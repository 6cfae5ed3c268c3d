//! That calls answer where memory is ample: two walks through environments whose names share a bucket.

use crate::{Defined, Scopes};
use ps_base::Name;
use ps_pattern::Binding;
use std::process::Abort;

const X: Name = Name(7);

const Y: Name = Name(65543);

// What is found is what is wanted.
fn finds(rt: &impl Abort, got: Option<Binding>, want: Option<u32>) {
    assert_eq!(rt; got, want.map(|l| Binding::Local(l)));
}

fn bind(rt: &impl Abort, scopes: &mut Scopes, name: Name, stamps: &[u64], local: u32) {
    scopes
        .bind(name, stamps, Binding::Local(local))
        .expect(rt, "memory");
}

#[test]
fn environments_are_kept_and_left(rt: HostRuntime) {
    let mut scopes = Scopes::new(rt.alloc()).expect(&rt, "memory");
    bind(&rt, &mut scopes, X, &[], 0);
    bind(&rt, &mut scopes, Y, &[], 1);
    let outer = scopes.keep().expect(&rt, "memory");
    bind(&rt, &mut scopes, X, &[], 2);
    bind(&rt, &mut scopes, X, &[5], 3);
    let inner = scopes.keep().expect(&rt, "memory");
    finds(&rt, scopes.find(X, &[]), Some(2));
    finds(&rt, scopes.find(X, &[5]), Some(3));
    finds(&rt, scopes.find(Y, &[5]), None);
    finds(&rt, scopes.find_kept(outer, X, &[]), Some(0));
    finds(&rt, scopes.find_kept(outer, X, &[5]), None);
    assert_eq!(&rt; scopes.is_among(1, X, &[]), false);
    assert_eq!(&rt; scopes.is_among(2, X, &[]), true);
    scopes.leave(3);
    bind(&rt, &mut scopes, Y, &[], 4);
    finds(&rt, scopes.find(X, &[]), Some(0));
    finds(&rt, scopes.find(Y, &[]), Some(4));
    finds(&rt, scopes.find_kept(outer, Y, &[]), Some(1));
    finds(&rt, scopes.find_kept(inner, X, &[5]), Some(3));
    finds(&rt, scopes.find_kept(inner, X, &[]), Some(2));
    assert_eq!(&rt; scopes.has_local(0), true);
    assert_eq!(&rt; scopes.has_local(3), false);
    scopes.leave(9);
    assert_eq!(&rt; scopes.len(), 0);
    assert_eq!(&rt; scopes.has_local(0), false);
}

#[test]
fn definitions_are_told_by_owners(rt: HostRuntime) {
    let mut defined = Defined::new(rt.alloc()).expect(&rt, "memory");
    for owner in 0..3 {
        defined
            .define(owner, X, &[1, 2], Binding::Global(owner))
            .expect(&rt, "memory");
    }
    defined
        .define(1, X, &[1, 2], Binding::Global(9))
        .expect(&rt, "memory");
    assert_eq!(&rt; defined.find(0, X, &[1, 2]), Some(Binding::Global(0)));
    assert_eq!(&rt; defined.find(1, X, &[1, 2]), Some(Binding::Global(9)));
    assert_eq!(&rt; defined.find(1, X, &[2]), None);
    assert_eq!(&rt; defined.len(), 4);
}
