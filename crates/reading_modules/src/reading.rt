//! One module, from its file.

ghost use Rattle.std.specs.Prelude.{◌≡◌, ◌≢◌, ◌≤◌, length, IfOk, IfErr, OnOk, OnErr};
ghost use Rattle.reading_modules.specs.Flattened.{most_modules, number_of, with_name};
ghost use Rattle.reading_modules.specs.Paths.{file_of};
ghost use Rattle.reading_modules.specs.Refusals.{module_limit, AreTexts, IsText, IsModule, Refuses, RefusesBytes, IsUnreadFile, IsCaused, StopsBy, told_by};

use crate::fault::{LoadWhy, Stop};
use crate::names::{is_among, number_of};
use crate::path::file_of;
use crate::reader::{ModuleReader, SpelledModule};
use base_core::limits::MAX_MODULE_BYTES;
use base_core::{Files, Names, ReadFault, Text, read_file};
use std::alloc::Global;

/// The bytes of a module's file.
fn text_of<F: Files>(alloc: Global, files: &mut F, file: &Text) -> Result<Vec<u8>, Stop>
    ensures text { IfOk result (λ bytes. IsText (F.holds files.old) file.now bytes.items) }
    ensures refused { IfErr result (StopsBy (IsUnreadFile (F.holds files.old) file.now)) }
    ensures caused { IfErr result (StopsBy (IsCaused (F.holds files.old) (F.faults files.old) (F.faults files.new))) }
    ensures quiet { OnOk result (F.failures files.new ≡ F.failures files.old) }
    ensures told { IfErr result (StopsBy (λ why. F.failures files.new ≡ told_by why (F.failures files.old))) }
    ensures same { F.holds files.new ≡ F.holds files.old }
    ensures later { F.faults files.old ≤ F.faults files.new }
{
    match read_file(alloc, files, file, MAX_MODULE_BYTES) {
        Ok(bytes) => Ok(bytes),
        Err(ReadFault::NoMemory) => Err(Stop::NoMemory),
        Err(ReadFault::Missing) => Err(unread(file, ReadFault::Missing)),
        Err(ReadFault::Failed) => Err(unread(file, ReadFault::Failed)),
        Err(ReadFault::TooLong) => Err(unread(file, ReadFault::TooLong)),
    }
}

/// The refusal of a file that was not read.
fn unread(file: &Text, fault: ReadFault) -> Stop
    ensures { StopsBy (λ why. why ≡ LoadWhy.Read file.now fault) result }
{
    match file.copy() {
        Ok(name) => Stop::Refused(LoadWhy::Read(name, fault)),
        Err(_) => Stop::NoMemory,
    }
}

/// A module that is to have this name.
fn named<N: Drop>(read: SpelledModule<N>, name: &Text) -> Result<SpelledModule<N>, Stop>
    ensures same { IfOk result (λ s. s ≡ read) }
    ensures named { OnOk result (read.module.name ≡ name.now) }
    ensures refused { IfErr result (λ s. s ≡ Stop.Refused (LoadWhy.WrongName read.module.name read.module.at)) }
    ensures other { OnErr result (read.module.name ≢ name.now) }
{
    if read.module.name.as_str() == name.as_str() {
        return Ok(read);
    }
    let module = read.module;
    Err(Stop::Refused(LoadWhy::WrongName(module.name, module.at)))
}

/// The module of that name that bytes spell.
fn spelled_as<R: ModuleReader>(
    alloc: Global,
    reader: &R,
    number: u32,
    bytes: &[u8],
    name: &Text,
) -> Result<SpelledModule<R::Note>, Stop>
    requires { length bytes.now ≤ module_limit }
    ensures spelled { IfOk result (λ s. (R.reading reader.now).Spells number bytes.now s.module s.notes.items) }
    ensures named { IfOk result (λ s. s.module.name ≡ name.now) }
    ensures refused { IfErr result (StopsBy (RefusesBytes (R.reading reader.now) number bytes.now name.now)) }
{
    match reader.read(alloc, number, bytes) {
        Ok(read) => named(read, name),
        Err(stop) => Err(stop),
    }
}

/// Sees to it that the text of the module of that name is kept: its file is read, if it was not read before.
fn keep_text<F: Files>(
    alloc: Global,
    files: &mut F,
    folder: &str,
    modules: &mut Names,
    texts: &mut Vec<Vec<u8>>,
    name: &Text,
) -> Result<(), Stop>
    requires kept { AreTexts (F.holds files.old) folder.now modules.old texts.old.items }
    ensures kept { OnOk result (AreTexts (F.holds files.old) folder.now modules.new texts.new.items) }
    ensures sought { OnOk result (modules.new ≡ with_name modules.old name.now) }
    ensures last { IfErr result (StopsBy (λ _. modules.new ≡ with_name modules.old name.now)) }
    ensures refused { IfErr result (StopsBy (IsUnreadFile (F.holds files.old) (file_of folder.now name.now))) }
    ensures caused { IfErr result (StopsBy (IsCaused (F.holds files.old) (F.faults files.old) (F.faults files.new))) }
    ensures quiet { OnOk result (F.failures files.new ≡ F.failures files.old) }
    ensures told { IfErr result (StopsBy (λ why. F.failures files.new ≡ told_by why (F.failures files.old))) }
    ensures same { F.holds files.new ≡ F.holds files.old }
    ensures later { F.faults files.old ≤ F.faults files.new }
{
    if is_among(name, modules.items()) {
        return Ok(());
    }
    modules.push(name.copy()?)?;
    let file = file_of(alloc, folder, name)?;
    match text_of(alloc, files, &file) {
        Ok(bytes) => {
            texts.push(bytes)?;
            Ok(())
        }
        Err(stop) => Err(stop),
    }
}

/// Reads the module of that name. Its file has the number that its name has among the modules whose files were sought.
pub fn read_module<F: Files, R: ModuleReader>(
    alloc: Global,
    files: &mut F,
    reader: &R,
    folder: &str,
    modules: &mut Names,
    texts: &mut Vec<Vec<u8>>,
    name: &Text,
) -> Result<SpelledModule<R::Note>, Stop>
    requires few { length modules.old ≤ most_modules }
    requires kept { AreTexts (F.holds files.old) folder.now modules.old texts.old.items }
    ensures kept { OnOk result (AreTexts (F.holds files.old) folder.now modules.new texts.new.items) }
    ensures sought { OnOk result (modules.new ≡ with_name modules.old name.now) }
    ensures last { IfErr result (StopsBy (λ _. modules.new ≡ with_name modules.old name.now)) }
    ensures read { IfOk result (λ s. IsModule (R.reading reader.now) (F.holds files.old) folder.now (number_of name.now modules.old) name.now s.module s.notes.items) }
    ensures refused { IfErr result (StopsBy (Refuses (R.reading reader.now) (F.holds files.old) folder.now (number_of name.now modules.old) name.now)) }
    ensures caused { IfErr result (StopsBy (IsCaused (F.holds files.old) (F.faults files.old) (F.faults files.new))) }
    ensures quiet { OnOk result (F.failures files.new ≡ F.failures files.old) }
    ensures told { IfErr result (StopsBy (λ why. F.failures files.new ≡ told_by why (F.failures files.old))) }
    ensures same { F.holds files.new ≡ F.holds files.old }
    ensures later { F.faults files.old ≤ F.faults files.new }
{
    let number = number_of(name, modules.items());
    match keep_text(alloc, files, folder, modules, texts, name) {
        Ok(()) => spelled_as(alloc, reader, number as u32, &texts[number], name),
        Err(stop) => Err(stop),
    }
}
