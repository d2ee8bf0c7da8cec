//! A bare name of an accepted tree is in the run what it means by the text.
#![tactic(auto)]

ghost use Rattle.bare_names.specs.OpenVariables.{BodiesBeginWithParameters, FieldParametersLoseTheirNames, NamesAgree};
ghost use Rattle.bare_names.specs.Owners.{CallsItsCallee};

/// At each use in a body of an accepted tree, with the variables that are open there, the run takes
/// a name to be of the body exactly where the text means a local or a parameter, of `this` exactly
/// where it means a member, and of the unit exactly where it means a declaration of the text: a
/// variable, or what is called.
pub fn bare_names_mean_what_the_text_says()
    ensures { NamesAgree }
{}

/// A bare call in the run is a call of `this` or of a declaration of the text, as `callee` says.
pub fn bare_calls_go_to_their_callee()
    ensures { CallsItsCallee }
{}

/// The names that are open where a body begins are those of the run's variables there.
pub fn bodies_begin_with_their_parameters()
    ensures entered { BodiesBeginWithParameters }
    ensures constructed { FieldParametersLoseTheirNames }
{}
