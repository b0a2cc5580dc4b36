ghost use Rattle.std.specs.Prelude.{◌≡◌};
ghost use Rattle.run_texts.specs.Spelled.{foreign_text};

use reading_tokens::Foreign;

/// How a token outside the profile is spelled.
pub(crate) fn foreign_text(token: Foreign) -> &'static str
    ensures { result.now ≡ foreign_text token }
{
    match token {
        Foreign::Lambda => "LAMBDA",
        Foreign::Local => "LOCAL",
        Foreign::Instance => "INSTANCE",
        Foreign::Recursive => "RECURSIVE",
        Foreign::With => "WITH",
        Foreign::Proof => "PROOF",
        Foreign::Prove => "PROVE",
        Foreign::By => "BY",
        Foreign::Obvious => "OBVIOUS",
        Foreign::Omitted => "OMITTED",
        Foreign::Qed => "QED",
        Foreign::Module => "MODULE",
        Foreign::MinusMinus => "--",
        Foreign::PlusPlus => "++",
        Foreign::StarStar => "**",
        Foreign::SlashSlash => "//",
        Foreign::Slash => "/",
        Foreign::CaretCaret => "^^",
        Foreign::QuestionQuestion => "??",
        Foreign::ExclamationExclamation => "!!",
        Foreign::HashHash => "##",
        Foreign::Dollar => "$",
        Foreign::DollarDollar => "$$",
        Foreign::Ampersand => "&",
        Foreign::AmpersandAmpersand => "&&",
        Foreign::Bar => "|",
        Foreign::BarBar => "||",
        Foreign::LessColon => "<:",
        Foreign::ColonEqual => ":=",
        Foreign::ColonColonEqual => "::=",
        Foreign::DotDotDot => "...",
        Foreign::CaretPlus => "^+",
        Foreign::CaretStar => "^*",
        Foreign::CaretHash => "^#",
        Foreign::PlusArrow => "-+->",
        Foreign::BarMinus => "|-",
        Foreign::BarEqual => "|=",
        Foreign::MinusBar => "-|",
        Foreign::EqualBar => "=|",
        Foreign::ActionComposition => "\\cdot",
        Foreign::TemporalForAll => "\\AA",
        Foreign::TemporalExists => "\\EE",
        Foreign::Underscore => "_",
    }
}
