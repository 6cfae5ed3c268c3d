//! What holds of compiled rules.

ghost use Rattle.ps_pattern.specs.Fitting.{ReadTemplatesFit, CompiledRulesFit};
ghost use Rattle.ps_pattern.specs.Shapes.{MatchesAreShaped, TurnsAreShaped, FormsStay, VariablesHaveForms};

/// What is read as a template fits its pattern's variables.
pub fn templates_fit()
    ensures law { ReadTemplatesFit }
{}

/// The variables of a compiled rule's template are those of its pattern, each under exactly its ellipses.
pub fn rules_fit()
    ensures law { CompiledRulesFit }
{}

/// What a pattern's variables stand for has the depths of these variables.
pub fn matches_shaped()
    ensures law { MatchesAreShaped }
{}

/// In each turn of an ellipsis, what stood for a list is one ellipsis less deep, and a form stays: so where a template fits,
/// each variable in it has a form and each that an ellipsis goes through has a list, and no default of filling is reached.
pub fn turns_shaped()
    ensures turns { TurnsAreShaped }
    ensures forms { FormsStay }
    ensures variables { VariablesHaveForms }
{}
