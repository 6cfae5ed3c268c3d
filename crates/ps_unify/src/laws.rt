//! Laws of bindings. Each is the contract of a function that does nothing.

ghost use Rattle.ps_unify.specs.Laws.{ExtensionsAreInstances, InstancesExtend, OthersMayBeAny};

/// Whatever extends bindings is an instance of what they mean, and every instance of that extends them.
pub fn extensions_are_instances()
    ensures instances { ExtensionsAreInstances }
    ensures extend { InstancesExtend }
{}

/// Variables that stand in nothing that kept variables mean may be any types beside them.
pub fn others_may_be_any()
    ensures { OthersMayBeAny }
{}
