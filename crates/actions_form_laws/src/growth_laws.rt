ghost use Rattle.actions_form_laws.specs.Growth.{FormsAlike, FormsGrow, FormsSpeak, FormsStay, FormsWithin, WholeStays};

/// What was fixed before an action stays fixed.
pub fn growth_law()
    ensures { FormsGrow }
{}

/// An action that has a form has one where more is fixed before, and fixes the same; and only what is fixed counts, however it was said.
pub fn staying_laws()
    ensures stay { FormsStay }
    ensures alike { FormsAlike }
{}

/// What fixes every variable fixes every variable where more is fixed before.
pub fn whole_law()
    ensures { WholeStays }
{}

/// An action fixes no variable but those of which it speaks, and so none but the specification's.
pub fn speaking_laws()
    ensures speak { FormsSpeak }
    ensures within { FormsWithin }
{}
