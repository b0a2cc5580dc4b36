ghost use Rattle.values_json.specs.Prints.{PrintsReadBack};
ghost use Rattle.values_json.specs.Reads.{ReadsOneValue};

/// That what is printed of a value reads as that value and as no other, and that no JSON reads as two values.
pub fn json_laws()
    ensures printed { PrintsReadBack }
    ensures one_value { ReadsOneValue }
{}
