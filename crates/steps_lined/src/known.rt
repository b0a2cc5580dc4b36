//! What the types of names and of lines tell a proof.

ghost use Rattle.std.specs.Prelude.{All, IsUtf8};
ghost use Rattle.steps_lined.specs.Held.{ArePlaced, IsPlaced};

use base_core::{Names, Text};
use logs_tied::Lined;
use logs_updates::{Line, LineList};

/// That names are UTF-8.
pub(crate) fn known_texts(names: &Names)
    ensures { All IsUtf8 names.now }
{
    are_texts(names.items());
}

fn are_texts(texts: &[Text])
    ensures { All IsUtf8 texts.now }
{
    for text in texts {
        text.is_text();
    }
}

/// That each line has its place: numbers of 32 bits.
pub(crate) fn known_places(lined: &Lined)
    ensures { ArePlaced lined.now }
{
    match lined {
        Lined::Sequence(log) => are_placed(log.lines.items()),
        Lined::Tied(logs) => all_placed(logs.files.as_slice()),
    }
}

fn all_placed(files: &[LineList])
    ensures { All (λ lines. All IsPlaced lines) files.now }
{
    for lines in files {
        are_placed(lines.items());
    }
}

fn are_placed(lines: &[Line])
    ensures { All IsPlaced lines.now }
{
    for line in lines {
        is_placed(line);
    }
}

fn is_placed(line: &Line)
    ensures { IsPlaced line.now }
{
    let _file = line.at.file;
    let _line = line.at.line;
}
