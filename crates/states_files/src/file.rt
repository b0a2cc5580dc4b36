ghost use Rattle.std.specs.Prelude.{◌≡◌, ◌<◌, ◌==◌, ◌∷◌, [], All, IfOk, IfSome, MatchOption, position, length};
ghost use Rattle.values_core.specs.IsValue.{IsValue};
ghost use Rattle.states_files.specs.Files.{StateFileSays, pieces_of};
ghost use Rattle.states_files.specs.Walks.{WalksOn};

use crate::kind::StateLine;
use crate::known::said_values;
use crate::line::read_line;
use crate::refusal::StateRefusal;
use base_core::{Names, NoMemory, Text};
use states_core::Behaviour;
use std::alloc::Global;

/// The states that a file says, over the variables of these names, or the first refusal.
pub fn read_states(
    alloc: Global,
    variables: &Names,
    bytes: &[u8],
) -> Result<Result<Behaviour, StateRefusal>, NoMemory>
    requires short { length bytes.now < 4294967295 }
    ensures says { IfOk result (StateFileSays variables.now bytes.now) }
    ensures long { IfOk result (λ r. IfOk r (λ w. All (λ x. length x.state ≡ length variables.now) w)) }
    ensures values { IfOk result (λ r. IfOk r (λ w. All (λ x. All IsValue x.state) w)) }
{
    let said = read_lines(alloc, variables.items(), bytes)?;
    said_values(&said);
    Ok(said)
}

/// Reads line by line.
fn read_lines(
    alloc: Global,
    names: &[Text],
    bytes: &[u8],
) -> Result<Result<Behaviour, StateRefusal>, NoMemory>
    requires short { length bytes.now < 4294967295 }
    ensures { IfOk result (StateFileSays names.now bytes.now) }
{
    let mut found = Behaviour::new(alloc);
    let mut number = 1;
    let mut rest = bytes;
    loop {
        let (piece, after) = cut_line(rest);
        let walked = walk_on(alloc, names, number, found, piece)?;
        match walked {
            Err(refusal) => return Ok(Err(refusal)),
            Ok(next) => match after {
                Some(after) => {
                    found = next;
                    number += 1;
                    rest = after;
                }
                None => return Ok(Ok(next)),
            },
        }
    }
}

/// The bytes before the first line feed, and those behind it, if there is one.
fn cut_line(bytes: &[u8]) -> (&[u8], Option<&[u8]>)
    ensures { MatchOption result.1 (pieces_of bytes.now ≡ result.0.now ∷ [])
        (λ r. (pieces_of bytes.now ≡ result.0.now ∷ pieces_of r.now) × (length r.now < length bytes.now)) }
{
    match line_feed(bytes) {
        Some(i) => (&bytes[..i], Some(&bytes[i + 1..])),
        None => (bytes, None),
    }
}

fn line_feed(bytes: &[u8]) -> Option<usize>
    ensures place { result ≡ position (λ b. b == 10) bytes.now }
    ensures within { IfSome result (λ i. i < length bytes.now) }
{
    bytes.iter().position(|b| *b == b'\n')
}

/// Reads the line of this number behind the states that were found.
#[tactic(auto, using(crate::proofs::WalkLemmas::state_taken, crate::proofs::WalkLemmas::line_skipped, crate::proofs::WalkLemmas::line_refused))]
fn walk_on(
    alloc: Global,
    names: &[Text],
    number: u32,
    mut found: Behaviour,
    piece: &[u8],
) -> Result<Result<Behaviour, StateRefusal>, NoMemory>
    ensures { IfOk result (WalksOn names.now number found piece.now) }
{
    let outcome = read_line(alloc, names, piece)?;
    match outcome {
        StateLine::Skipped => Ok(Ok(found)),
        StateLine::State(shown) => {
            found.push(shown)?;
            Ok(Ok(found))
        }
        StateLine::Refused(kind) => Ok(Err(StateRefusal { kind, line: number })),
    }
}
