//! What stays where calls are spelled out.

ghost use Rattle.names_tlc_calls.specs.Laws.{ConstantsStay, NamesStay, OperatorsStay, VariablesStay, WithoutCallsStays, WithoutTlcStays};

/// What is declared stays where calls are spelled out, and so do the names of definitions. Without TLC all stays, and where none
/// of its operators is called.
pub fn spelling_laws()
    ensures variables { VariablesStay }
    ensures constants { ConstantsStay }
    ensures operators { OperatorsStay }
    ensures names { NamesStay }
    ensures without { WithoutTlcStays }
    ensures uncalled { WithoutCallsStays }
{}
