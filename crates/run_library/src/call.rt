//! A call of the program.

ghost use Rattle.std.specs.Prelude.{◌≡◌, ◌≤◌, ℕ, List, IfOk};
ghost use Rattle.run_library.specs.Calls.{CallEnds, IsFolderOf, IsFolderOfJob, LibraryAt};
ghost use Rattle.run_words.specs.Line.{words_of};
ghost use Rattle.run_words.specs.Names.{IsModule};
ghost use Rattle.run_words.specs.Words.{MeetsRules};
ghost use Rattle.reading_modules.specs.Paths.{IsPath};

use crate::behind::WithLibrary;
use base_core::{Files, NoMemory, Sink, Text};
use reading_modules::parts_of;
use run_call::{Status, run};
use run_words::{Job, Words, read_words};
use std::alloc::Global;

/// The folder in the path of a module's file.
fn folder_in(alloc: Global, path: &str) -> Result<Text, NoMemory>
    requires { (folder : List ℕ) × (name : List ℕ) × IsPath path.now folder name }
    ensures { IfOk result (λ folder. (name : List ℕ) × IsPath path.now folder name) }
{
    let Some((folder, _)) = parts_of(path) else {
        unreachable!()
    };
    Text::from_text(alloc, folder)
}

/// The folder of the job's module, where the job has the word.
fn folder_of_job(alloc: Global, job: &Job) -> Result<Option<Text>, NoMemory>
    requires { IsModule job.now.module }
    ensures { IfOk result (IsFolderOfJob job.now) }
{
    if job.wide {
        return Ok(Some(folder_in(alloc, job.module.as_str())?));
    }
    Ok(None)
}

/// The folder of a command's module, where the command has the word.
fn folder_of(alloc: Global, command: &Words) -> Result<Option<Text>, NoMemory>
    requires { MeetsRules command.now }
    ensures { IfOk result (IsFolderOf command.now) }
{
    match command {
        Words::Validate(job) => folder_of_job(alloc, job),
        Words::Check(job, _) => folder_of_job(alloc, job),
        Words::SelfRun(_) => Ok(None),
    }
}

/// The folder in which the library stands behind the files, if the words call for it.
fn library_folder(alloc: Global, words: &[String]) -> Result<Option<Text>, NoMemory>
    ensures { IfOk result (LibraryAt (words_of words.now)) }
{
    let read = read_words(alloc, words)?;
    match read {
        Some(command) => folder_of(alloc, &command),
        None => Ok(None),
    }
}

/// Does what the words say, as `run`, and writes the report: over the files and, where the words have `--wide`, with the modules of the library behind them, in the folder
/// of the main module. So a file of one's own is found first, and the library where it is missing.
pub fn run_with_library<F: Files + Drop, S: Sink>(
    alloc: Global,
    words: &[String],
    files: &mut WithLibrary<F>,
    out: &mut S,
) -> Status
    ensures ends { CallEnds (words_of words.now) (F.holds files.old.files) (F.faults files.old.files) (F.faults files.new.files) (S.faults out.old) (S.faults out.new)
        (F.failures files.old.files) (F.failures files.new.files) (S.written out.old) (S.written out.new) result }
    ensures files_later { F.faults files.old.files ≤ F.faults files.new.files }
    ensures out_later { S.faults out.old ≤ S.faults out.new }
{
    match library_folder(alloc, words) {
        Ok(folder) => {
            files.folder = folder;
            run(alloc, words, files, out)
        }
        Err(_) => Status::Memory,
    }
}
