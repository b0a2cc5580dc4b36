ghost use Rattle.std.specs.Prelude.{◌≡◌, ◌++◌, IfOk, codes, decimal, string_bytes};
ghost use Rattle.run_texts.specs.Answers.{fault_text};
ghost use Rattle.run_texts.specs.Verdicts.{reason_text, verdict_text};

use crate::answers::faulted;
use base_core::{Names, NoMemory, Place};
use states_core::EvalKind;
use states_verdicts::{Reason, Verdict};
use std::alloc::Global;

/// The report of a verdict on so many states.
pub fn verdict_text(
    alloc: Global,
    files: &Names,
    states: usize,
    verdict: Verdict,
) -> Result<String, NoMemory>
    ensures { IfOk result (λ t. string_bytes t ≡ verdict_text files.now states verdict) }
{
    match verdict {
        Verdict::Valid => valid(alloc, states),
        Verdict::Invalid { index, reason } => invalid(alloc, index, reason),
        Verdict::Fault { index, kind, at } => state_fault(alloc, files, index, kind, at),
    }
}

fn valid(alloc: Global, states: usize) -> Result<String, NoMemory>
    ensures { IfOk result (λ t. string_bytes t ≡ codes "VALID states=" ++ decimal states ++ codes "\n") }
{
    let text = format!(in alloc; "VALID states={states}\n")?;
    Ok(text)
}

fn invalid(alloc: Global, index: u32, reason: Reason) -> Result<String, NoMemory>
    ensures { IfOk result (λ t. string_bytes t ≡ codes "INVALID index=" ++ decimal index ++ codes " reason=" ++ reason_text reason ++ codes "\n") }
{
    let why = reason_text(reason);
    let mut text = format!(in alloc; "INVALID index={index} reason=")?;
    text.push_str(why)?;
    text.push_str("\n")?;
    Ok(text)
}

fn state_fault(
    alloc: Global,
    files: &Names,
    index: u32,
    kind: EvalKind,
    at: Place,
) -> Result<String, NoMemory>
    ensures { IfOk result (λ t. string_bytes t ≡ codes "FAULT " ++ fault_text files.now kind at ++ codes " index=" ++ decimal index ++ codes "\n") }
{
    let mut text = faulted(alloc, "FAULT ", files, kind, at, " index=")?;
    write!(text, "{index}\n")?;
    Ok(text)
}

/// Why a state is not clean.
fn reason_text(reason: Reason) -> &'static str
    ensures { result.now ≡ reason_text reason }
{
    match reason {
        Reason::NoState => "NoState",
        Reason::WrongMark => "WrongMark",
        Reason::NotInit => "NotInit",
        Reason::TooManySilent => "TooManySilent",
        Reason::WrongLine => "WrongLine",
        Reason::NotSilent => "NotSilent",
        Reason::NotStep => "NotStep",
        Reason::NotSeen => "NotSeen",
        Reason::LinesLeft => "LinesLeft",
    }
}
