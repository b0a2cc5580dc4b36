ghost use Rattle.names_specification_laws.specs.Faultless.{DefinitionsAreFaultless, MentionedAreFaultless, BodiesAreFaultless, ReachedAreFaultless};
ghost use Rattle.names_specification_laws.specs.FormLaws.{SpelledAreFormed, ModulesAreFormed};
ghost use Rattle.names_specification_laws.specs.ShapeLaws.{ShapesAreInOrder, ShapesMention};
ghost use Rattle.names_specification_laws.specs.Laws.{MeaningsAreInOrder, MentionedHaveMeaning, TreesHaveTerms, DefinitionsHaveMeaning, BodiesMentionMeant, MeantAreInOrder, ReachedAreInOrder};

/// What a tree means is in order, and each definition that it mentions has a meaning; so each definition that is reached from those with
/// meanings is in order. The definitions of a program have meanings, where nothing is wrong with their names.
pub fn spec_laws()
    ensures rows { MeaningsAreInOrder }
    ensures mentioned { MentionedHaveMeaning }
    ensures trees { TreesHaveTerms }
    ensures definitions { DefinitionsHaveMeaning }
    ensures bodies { BodiesMentionMeant }
    ensures meant { MeantAreInOrder }
    ensures reached { ReachedAreInOrder }
{}

/// What a text spells has as many parts as the grammar asks for.
pub fn form_laws()
    ensures trees { SpelledAreFormed }
    ensures modules { ModulesAreFormed }
{}

/// Init and Next, as the operator of SPECIFICATION gives them, are in order where it is, and mention nothing that it does not.
pub fn shape_laws()
    ensures order { ShapesAreInOrder }
    ensures mentioned { ShapesMention }
{}

/// Where nothing is wrong with the levels of what is needed, nothing is with those of what is reached from it.
pub fn fault_laws()
    ensures definitions { DefinitionsAreFaultless }
    ensures mentioned { MentionedAreFaultless }
    ensures bodies { BodiesAreFaultless }
    ensures reached { ReachedAreFaultless }
{}
