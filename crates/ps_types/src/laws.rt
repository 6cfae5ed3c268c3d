//! Laws of substitutions. Each is the contract of a function that does nothing.

ghost use Rattle.ps_types.specs.Laws.{InstancesAreNoSmaller, InstancesCompose, OwnVariablesDecide, SubstitutionsCompose};

/// A type at one substitution and then at another is the type at the two in one, and it turns on what they give its own
/// variables alone.
pub fn substitutions_compose()
    ensures compose { SubstitutionsCompose }
    ensures decide { OwnVariablesDecide }
{}

/// No instance of a type is smaller than the type, and an instance of an instance is an instance.
pub fn instances_are_no_smaller()
    ensures smaller { InstancesAreNoSmaller }
    ensures compose { InstancesCompose }
{}
