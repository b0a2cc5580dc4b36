ghost use Rattle.std.specs.Prelude.{◌≡◌, ◌≤◌, ◌<◌, ◌+◌, ◌∷◌, ◌==◌, [], ◌++◌, Some, IfOk, IfSome, MatchOption, position, length};
ghost use Rattle.logs_lines.specs.Files.{FileSays, behind_init, behind_step, first_line, pieces_of};
ghost use Rattle.logs_lines.specs.Walks.{IsCounted, WalksOn};

use crate::clocks::ClockForm;
use crate::kind::{LogKind, Outcome};
use crate::names::SpecNames;
use crate::position::Position;
use crate::reading::line_within;
use base_core::NoMemory;
use logs_shapes::LineScratch;
use logs_updates::{Line, LineList, Sees};
use std::alloc::Global;
use thiserror::Error;

/// What the lines of one file say: what is seen at first, where its first line tells of that, and
/// the steps in their order.
#[derive(Drop)]
pub struct FileLines {
    pub init: Option<Sees>,
    pub steps: LineList,
    /// The form of the first clock that was read, in this file or one before.
    pub form: ClockForm,
}

/// Why a file is refused, and at which line of it, from 1.
#[derive(Debug, Drop, Error)]
#[error("{kind} at line {line}")]
pub struct Refusal {
    pub kind: LogKind,
    pub line: u32,
}

/// What was found before a line, and where it stands.
#[derive(Drop)]
pub(crate) struct Walk {
    pub(crate) at: Position,
    pub(crate) found: FileLines,
}

/// What the lines of a file say, or the first refusal.
pub fn read_log<N: SpecNames>(
    alloc: Global,
    names: &N,
    file: u32,
    many: bool,
    room: u32,
    form: ClockForm,
    bytes: &[u8],
) -> Result<Result<FileLines, Refusal>, NoMemory>
    requires short { length bytes.now < 4294967294 }
    ensures { IfOk result (FileSays (N.setting names.now) (first_line file many room form) bytes.now) }
{
    let steps = LineList::with_capacity(alloc, most_steps(bytes, room))?;
    let mut walk = Walk {
        at: Position::first_line(file, many, room, form),
        found: FileLines {
            init: None,
            steps,
            form,
        },
    };
    let mut scratch = LineScratch::new(alloc);
    let mut rest = bytes;
    loop {
        let (piece, after) = cut_line(rest);
        let walked = walk_on(alloc, &mut scratch, names, walk, piece)?;
        match walked {
            Err(refusal) => return Ok(Err(refusal)),
            Ok(next) => match after {
                Some(after) => {
                    walk = next;
                    rest = after;
                }
                None => return Ok(Ok(next.found)),
            },
        }
    }
}

/// A number of steps that the file does not pass: that of its lines, or what it has room for.
fn most_steps(bytes: &[u8], room: u32) -> usize {
    let feeds = bytes.iter().filter(|b| **b == b'\n').count();
    feeds.saturating_add(1).min(room as usize)
}

/// The bytes before the first line feed, and those behind it, if there is one.
fn cut_line(bytes: &[u8]) -> (&[u8], Option<&[u8]>)
    ensures { MatchOption result.1 (pieces_of bytes.now ≡ result.0.now ∷ [])
        (λ r. (pieces_of bytes.now ≡ result.0.now ∷ pieces_of r.now) × (length r.now < length bytes.now)) }
{
    match line_feed(bytes) {
        Some(i) => (&bytes[..i], Some(&bytes[i + 1..])),
        None => (bytes, None),
    }
}

fn line_feed(bytes: &[u8]) -> Option<usize>
    ensures place { result ≡ position (λ b. b == 10) bytes.now }
    ensures within { IfSome result (λ i. i < length bytes.now) }
{
    bytes.iter().position(|b| *b == b'\n')
}

/// Reads one more line.
fn walk_on<N: SpecNames>(
    alloc: Global,
    scratch: &mut LineScratch,
    names: &N,
    walk: Walk,
    piece: &[u8],
) -> Result<Result<Walk, Refusal>, NoMemory>
    requires line { walk.at.line < 4294967295 }
    requires steps { walk.at.steps < walk.at.line }
    ensures says { IfOk result (WalksOn (N.setting names.now) walk piece.now) }
    ensures counted { IfOk result (λ r. IfOk r (IsCounted walk)) }
{
    let outcome = line_within(alloc, scratch, names, &walk.at, piece)?;
    match outcome {
        Outcome::Blank => Ok(Ok(Walk {
            at: walk.at.behind_blank(),
            found: walk.found,
        })),
        Outcome::Init(sees) => Ok(Ok(with_init(walk, sees))),
        Outcome::Step(line, form) => {
            let next = with_step(alloc, walk, line, form)?;
            Ok(Ok(next))
        }
        Outcome::Refused(kind) => Ok(Err(Refusal {
            kind,
            line: walk.at.line,
        })),
    }
}

fn with_init(walk: Walk, sees: Sees) -> Walk
    requires { walk.at.line < 4294967295 }
    ensures at { result.at ≡ behind_init walk.at }
    ensures found { result.found ≡ record { init = Some sees; steps = walk.found.steps; form = walk.found.form } }
{
    Walk {
        at: walk.at.behind_init(),
        found: FileLines {
            init: Some(sees),
            steps: walk.found.steps,
            form: walk.found.form,
        },
    }
}

fn with_step(alloc: Global, walk: Walk, line: Line, form: ClockForm) -> Result<Walk, NoMemory>
    requires line { walk.at.line < 4294967295 }
    requires steps { walk.at.steps < 4294967295 }
    ensures at { IfOk result (λ next. next.at ≡ behind_step walk.at form line.clock) }
    ensures found { IfOk result (λ next. next.found ≡ record { init = walk.found.init; steps = walk.found.steps ++ line ∷ []; form = form }) }
{
    let clock = line.clock.copy(alloc)?;
    let at = walk.at.behind_step(form, clock);
    let FileLines {
        init,
        mut steps,
        ..
    } = walk.found;
    steps.push(line)?;
    Ok(Walk {
        at,
        found: FileLines { init, steps, form },
    })
}
