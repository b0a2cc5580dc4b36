ghost use Rattle.actions_form_laws.specs.Sound.{OperatorsAreSound, SpecsAreSound};

/// What Init and Next of a specification in order are made of has the levels of its parts and the specification's variables.
pub fn sound_law()
    ensures { SpecsAreSound }
{}

/// The same of the body of each definition with a name.
pub fn operator_law()
    ensures { OperatorsAreSound }
{}
