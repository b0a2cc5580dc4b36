ghost use Rattle.std.specs.Prelude.{◌≡◌, ◌≤◌, ◌<◌, ◌+◌, ◌-◌, ◌++◌, ◌∷◌, [], All, Bool, IfOk, length};
ghost use Rattle.logs_lines.specs.Files.{FileSays, first_line};
ghost use Rattle.logs_lines.specs.declared.clocks.ClockForm.TheVariants.{Free};
ghost use Rattle.logs_files.specs.Logs.{FilesSay, texts_of};
ghost use Rattle.logs_files.specs.Reads.{ReadsOn, found_items};

use crate::logs::LogRefusal;
use base_core::NoMemory;
use logs_lines::{ClockForm, FileLines, Refusal, SpecNames, line_laws, read_log};
use std::alloc::Global;

/// What was found in the files before one, the number of that one, the room that is left, and the form of the clocks.
#[derive(Drop)]
pub(crate) struct Reading {
    pub(crate) file: u32,
    pub(crate) left: u32,
    pub(crate) form: ClockForm,
    pub(crate) found: Vec<FileLines>,
}

/// What each file says, in their order, or the first refusal.
pub(crate) fn read_files<N: SpecNames>(
    alloc: Global,
    names: &N,
    many: bool,
    room: u32,
    texts: &[Vec<u8>],
) -> Result<Result<Vec<FileLines>, LogRefusal>, NoMemory>
    requires few { length texts.now ≤ 64 }
    requires short { All (λ text. length text.items < 67108865) texts.now }
    ensures { IfOk result (λ r. FilesSay (N.setting names.now) many 1 room Free [] (texts_of texts.now) (found_items r)) }
{
    let found = Vec::with_capacity(alloc, texts.len())?;
    let mut reading = Reading {
        file: 1,
        left: room,
        form: ClockForm::Free,
        found,
    };
    for text in texts {
        let read = read_on(alloc, names, many, reading, text.as_slice())?;
        match read {
            Ok(next) => reading = next,
            Err(refusal) => return Ok(Err(refusal)),
        }
    }
    Ok(Ok(reading.found))
}

/// Reads one more file.
fn read_on<N: SpecNames>(
    alloc: Global,
    names: &N,
    many: bool,
    reading: Reading,
    text: &[u8],
) -> Result<Result<Reading, LogRefusal>, NoMemory>
    requires short { length text.now < 67108865 }
    requires file { reading.file < 4294967295 }
    ensures says { IfOk result (ReadsOn (N.setting names.now) many reading text.now) }
    ensures counted { IfOk result (λ r. IfOk r (λ next. next.file ≡ reading.file + 1)) }
{
    let read = read_file(
        alloc,
        names,
        reading.file,
        many,
        reading.left,
        reading.form,
        text,
    )?;
    match read {
        Ok(found) => {
            let next = with_file(reading, found)?;
            Ok(Ok(next))
        }
        Err(refusal) => Ok(Err(LogRefusal {
            file: reading.file,
            refusal,
        })),
    }
}

/// What one file says. It has no more steps than there is room for.
fn read_file<N: SpecNames>(
    alloc: Global,
    names: &N,
    file: u32,
    many: bool,
    room: u32,
    form: ClockForm,
    text: &[u8],
) -> Result<Result<FileLines, Refusal>, NoMemory>
    requires { length text.now < 67108865 }
    ensures says { IfOk result (FileSays (N.setting names.now) (first_line file many room form) text.now) }
    ensures within { IfOk result (λ r. IfOk r (λ f. length f.steps ≤ room)) }
{
    line_laws(names);
    read_log(alloc, names, file, many, room, form, text)
}

fn with_file(reading: Reading, found: FileLines) -> Result<Reading, NoMemory>
    requires file { reading.file < 4294967295 }
    requires room { length found.steps ≤ reading.left }
    ensures file { IfOk result (λ next. next.file ≡ reading.file + 1) }
    ensures left { IfOk result (λ next. next.left ≡ reading.left - length found.steps) }
    ensures form { IfOk result (λ next. next.form ≡ found.form) }
    ensures found { IfOk result (λ next. next.found.items ≡ reading.found.items ++ found ∷ []) }
{
    let file = reading.file + 1;
    let left = reading.left - found.steps.len() as u32;
    let form = found.form;
    let mut files = reading.found;
    files.push(found)?;
    Ok(Reading {
        file,
        left,
        form,
        found: files,
    })
}
