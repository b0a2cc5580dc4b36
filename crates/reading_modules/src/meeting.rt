//! The modules that a module extends, and those of its instances.

ghost use Rattle.std.specs.Prelude.{◌≡◌, ◌≤◌, ◌<◌, ◌∷◌, ◌++◌, [], Ok, Err, length, false, true, IfOk, IfErr, OnOk, MatchOption};
ghost use Rattle.reading_modules.specs.Flattened.{HasRoom, IsFull, IsCycle, Meets, Follows, Visits, Makes, MakesAll};
ghost use Rattle.reading_modules.specs.Parts.{Ends, EndsRefused, IsGoing, Stays};
ghost use Rattle.reading_modules.specs.Refusals.{IsCaused, StopsBy, told_by};
ghost use Rattle.reading_modules.specs.Standard.{is_among};

use crate::fault::{LoadWhy, Stop};
use crate::instances::{add_instance, check_nested, made_by};
use crate::names::{is_among, number_of};
use crate::reader::{ModuleReader, SpelledModule};
use crate::reading::read_module;
use crate::so_far::{Gathered, list_standard};
use crate::standard::is_standard;
use base_core::limits::MAX_MODULES;
use base_core::{Files, Names, NoMemory, Text};
use reading_trees::{Made, Unit};
use std::alloc::Global;
use std::mem::replace;

/// The names on the path from this name on, and the name again, if it stands there.
fn cycle_of(alloc: Global, path: &[Text], name: &Text) -> Result<Option<Names>, NoMemory>
    ensures { IfOk result (λ o. MatchOption o (is_among name.now path.now ≡ false) (IsCycle path.now name.now)) }
{
    for (i, other) in path.iter().enumerate() {
        if other.as_str() == name.as_str() {
            let names = round(alloc, &path[i..], name)?;
            return Ok(Some(names));
        }
    }
    Ok(None)
}

/// These names, and one more.
fn round(alloc: Global, path: &[Text], name: &Text) -> Result<Names, NoMemory>
    ensures { IfOk result (λ names. names ≡ path.now ++ name.now ∷ []) }
{
    let mut names = Names::new(alloc);
    for other in path {
        names.push(other.copy()?)?;
    }
    names.push(name.copy()?)?;
    Ok(names)
}

/// Whether there is no room for one more module of this name: in this program, or in the files.
fn is_full<N: Drop>(so: &Gathered<N>, name: &Text) -> bool
    ensures full { result ≡ true → IsFull so.now name.now }
    ensures room { result ≡ false → HasRoom so.now name.now }
{
    so.own.len() >= MAX_MODULES
        || (!is_among(name, so.modules.items()) && so.modules.len() >= MAX_MODULES)
}

/// Meets the name of a module, under EXTENDS or of an instance.
#[cycle(meeting)]
fn meet<F: Files, R: ModuleReader>(
    alloc: Global,
    files: &mut F,
    reader: &R,
    folder: &str,
    path: &mut Vec<Text>,
    texts: &mut Vec<Vec<u8>>,
    so: &mut Gathered<R::Note>,
    name: &Text,
) -> Result<(), Stop>
    requires going { IsGoing (F.holds files.old) folder.now so.old texts.old.items }
    ensures met { OnOk result (Meets (R.reading reader.now) (F.holds files.old) folder.now path.old.items so.old name.now (Ok so.new)) }
    ensures stopped { IfErr result (StopsBy (λ why. Meets (R.reading reader.now) (F.holds files.old) folder.now path.old.items so.old name.now (Err (so.new.modules, why)))) }
    ensures caused { IfErr result (StopsBy (IsCaused (F.holds files.old) (F.faults files.old) (F.faults files.new))) }
    ensures quiet { OnOk result (F.failures files.new ≡ F.failures files.old) }
    ensures told { IfErr result (StopsBy (λ why. F.failures files.new ≡ told_by why (F.failures files.old))) }
    ensures path { OnOk result (path.new.items ≡ path.old.items) }
    ensures going { OnOk result (IsGoing (F.holds files.new) folder.now so.new texts.new.items) }
    ensures stays { OnOk result (Stays so.old so.new) }
    ensures same { F.holds files.new ≡ F.holds files.old }
    ensures later { F.faults files.old ≤ F.faults files.new }
{
    if let Some(names) = cycle_of(alloc, path, name)? {
        return Err(Stop::Refused(LoadWhy::Cycle(names)));
    }
    if is_standard(name) {
        return list_standard(so, name);
    }
    if is_among(name, so.own.items()) {
        return Ok(());
    }
    if is_full(so, name) {
        return Err(Stop::Refused(LoadWhy::TooMany(name.copy()?)));
    }
    visit(alloc, files, reader, folder, path, texts, so, name)
}

/// Meets the names under EXTENDS, one behind the other.
#[cycle(meeting)]
fn follow<F: Files, R: ModuleReader>(
    alloc: Global,
    files: &mut F,
    reader: &R,
    folder: &str,
    path: &mut Vec<Text>,
    texts: &mut Vec<Vec<u8>>,
    so: &mut Gathered<R::Note>,
    names: &[Text],
) -> Result<(), Stop>
    requires going { IsGoing (F.holds files.old) folder.now so.old texts.old.items }
    ensures followed { OnOk result (Follows (R.reading reader.now) (F.holds files.old) folder.now path.old.items so.old names.now (Ok so.new)) }
    ensures stopped { IfErr result (StopsBy (λ why. Follows (R.reading reader.now) (F.holds files.old) folder.now path.old.items so.old names.now (Err (so.new.modules, why)))) }
    ensures caused { IfErr result (StopsBy (IsCaused (F.holds files.old) (F.faults files.old) (F.faults files.new))) }
    ensures quiet { OnOk result (F.failures files.new ≡ F.failures files.old) }
    ensures told { IfErr result (StopsBy (λ why. F.failures files.new ≡ told_by why (F.failures files.old))) }
    ensures path { OnOk result (path.new.items ≡ path.old.items) }
    ensures going { OnOk result (IsGoing (F.holds files.new) folder.now so.new texts.new.items) }
    ensures stays { OnOk result (Stays so.old so.new) }
    ensures same { F.holds files.new ≡ F.holds files.old }
    ensures later { F.faults files.old ≤ F.faults files.new }
{
    for name in names {
        match meet(alloc, files, reader, folder, path, texts, so, name) {
            Ok(()) => {}
            Err(stop) => return Err(stop),
        }
    }
    Ok(())
}

/// Makes an instance: the program of its module, from nothing. In the program of an instance it is passed over.
#[cycle(meeting)]
fn make<F: Files, R: ModuleReader>(
    alloc: Global,
    files: &mut F,
    reader: &R,
    folder: &str,
    path: &mut Vec<Text>,
    texts: &mut Vec<Vec<u8>>,
    so: &mut Gathered<R::Note>,
    made: &Made,
) -> Result<(), Stop>
    requires going { IsGoing (F.holds files.old) folder.now so.old texts.old.items }
    ensures made { OnOk result (Makes (R.reading reader.now) (F.holds files.old) folder.now path.old.items so.old made.now (Ok so.new)) }
    ensures stopped { IfErr result (StopsBy (λ why. Makes (R.reading reader.now) (F.holds files.old) folder.now path.old.items so.old made.now (Err (so.new.modules, why)))) }
    ensures caused { IfErr result (StopsBy (IsCaused (F.holds files.old) (F.faults files.old) (F.faults files.new))) }
    ensures quiet { OnOk result (F.failures files.new ≡ F.failures files.old) }
    ensures told { IfErr result (StopsBy (λ why. F.failures files.new ≡ told_by why (F.failures files.old))) }
    ensures path { OnOk result (path.new.items ≡ path.old.items) }
    ensures going { OnOk result (IsGoing (F.holds files.new) folder.now so.new texts.new.items) }
    ensures stays { OnOk result (Stays so.old so.new) }
    ensures same { F.holds files.new ≡ F.holds files.old }
    ensures later { F.faults files.old ≤ F.faults files.new }
{
    if so.of_instance {
        return Ok(());
    }
    let modules = replace(&mut so.modules, Names::new(alloc));
    let mut inner = Gathered::of_instance(alloc, modules);
    match meet(
        alloc,
        files,
        reader,
        folder,
        path,
        texts,
        &mut inner,
        &made.module_name,
    ) {
        Ok(()) => add_instance(alloc, folder, so, made, inner),
        Err(stop) => {
            so.modules = inner.modules;
            Err(stop)
        }
    }
}

/// Makes the instances among units, one behind the other.
#[cycle(meeting)]
fn make_all<F: Files, R: ModuleReader>(
    alloc: Global,
    files: &mut F,
    reader: &R,
    folder: &str,
    path: &mut Vec<Text>,
    texts: &mut Vec<Vec<u8>>,
    so: &mut Gathered<R::Note>,
    units: &[Unit],
) -> Result<(), Stop>
    requires going { IsGoing (F.holds files.old) folder.now so.old texts.old.items }
    ensures made { OnOk result (MakesAll (R.reading reader.now) (F.holds files.old) folder.now path.old.items so.old units.now (Ok so.new)) }
    ensures stopped { IfErr result (StopsBy (λ why. MakesAll (R.reading reader.now) (F.holds files.old) folder.now path.old.items so.old units.now (Err (so.new.modules, why)))) }
    ensures caused { IfErr result (StopsBy (IsCaused (F.holds files.old) (F.faults files.old) (F.faults files.new))) }
    ensures quiet { OnOk result (F.failures files.new ≡ F.failures files.old) }
    ensures told { IfErr result (StopsBy (λ why. F.failures files.new ≡ told_by why (F.failures files.old))) }
    ensures path { OnOk result (path.new.items ≡ path.old.items) }
    ensures going { OnOk result (IsGoing (F.holds files.new) folder.now so.new texts.new.items) }
    ensures stays { OnOk result (Stays so.old so.new) }
    ensures same { F.holds files.new ≡ F.holds files.old }
    ensures later { F.faults files.old ≤ F.faults files.new }
{
    for unit in units {
        if let Some(made) = made_by(unit) {
            match make(alloc, files, reader, folder, path, texts, so, made) {
                Ok(()) => {}
                Err(stop) => return Err(stop),
            }
        }
    }
    Ok(())
}

/// Follows the EXTENDS of a module that was read, makes its instances, and adds its units and notes.
#[cycle(meeting)]
fn finish<F: Files, R: ModuleReader>(
    alloc: Global,
    files: &mut F,
    reader: &R,
    folder: &str,
    path: &mut Vec<Text>,
    texts: &mut Vec<Vec<u8>>,
    so: &mut Gathered<R::Note>,
    number: u32,
    read: SpelledModule<R::Note>,
) -> Result<(), Stop>
    requires going { IsGoing (F.holds files.old) folder.now so.old texts.old.items }
    ensures followed { OnOk result (Ends (R.reading reader.now) (F.holds files.old) folder.now path.old.items so.old number read.module read.notes.items so.new) }
    ensures stopped { IfErr result (StopsBy (λ why. EndsRefused (R.reading reader.now) (F.holds files.old) folder.now path.old.items so.old read.module (so.new.modules, why))) }
    ensures caused { IfErr result (StopsBy (IsCaused (F.holds files.old) (F.faults files.old) (F.faults files.new))) }
    ensures quiet { OnOk result (F.failures files.new ≡ F.failures files.old) }
    ensures told { IfErr result (StopsBy (λ why. F.failures files.new ≡ told_by why (F.failures files.old))) }
    ensures path { OnOk result (path.new.items ≡ path.old.items) }
    ensures going { OnOk result (IsGoing (F.holds files.new) folder.now so.new texts.new.items) }
    ensures stays { OnOk result (Stays so.old so.new) }
    ensures same { F.holds files.new ≡ F.holds files.old }
    ensures later { F.faults files.old ≤ F.faults files.new }
{
    let module = read.module;
    path.push(module.name)?;
    match follow(
        alloc,
        files,
        reader,
        folder,
        path,
        texts,
        so,
        module.extends.items(),
    ) {
        Ok(()) => {}
        Err(stop) => return Err(stop),
    }
    match make_all(
        alloc,
        files,
        reader,
        folder,
        path,
        texts,
        so,
        module.units.items(),
    ) {
        Ok(()) => {}
        Err(stop) => return Err(stop),
    }
    path.pop();
    so.units.append(module.units)?;
    so.notes.add(number, read.notes)?;
    Ok(())
}

/// Reads a module, and those that it extends.
#[cycle(meeting)]
pub fn visit<F: Files, R: ModuleReader>(
    alloc: Global,
    files: &mut F,
    reader: &R,
    folder: &str,
    path: &mut Vec<Text>,
    texts: &mut Vec<Vec<u8>>,
    so: &mut Gathered<R::Note>,
    name: &Text,
) -> Result<(), Stop>
    requires room { HasRoom so.old name.now }
    requires going { IsGoing (F.holds files.old) folder.now so.old texts.old.items }
    ensures visited { OnOk result (Visits (R.reading reader.now) (F.holds files.old) folder.now path.old.items so.old name.now (Ok so.new)) }
    ensures stopped { IfErr result (StopsBy (λ why. Visits (R.reading reader.now) (F.holds files.old) folder.now path.old.items so.old name.now (Err (so.new.modules, why)))) }
    ensures caused { IfErr result (StopsBy (IsCaused (F.holds files.old) (F.faults files.old) (F.faults files.new))) }
    ensures quiet { OnOk result (F.failures files.new ≡ F.failures files.old) }
    ensures told { IfErr result (StopsBy (λ why. F.failures files.new ≡ told_by why (F.failures files.old))) }
    ensures path { OnOk result (path.new.items ≡ path.old.items) }
    ensures going { OnOk result (IsGoing (F.holds files.new) folder.now so.new texts.new.items) }
    ensures stays { OnOk result (Stays so.old so.new) }
    ensures same { F.holds files.new ≡ F.holds files.old }
    ensures later { F.faults files.old ≤ F.faults files.new }
{
    let number = number_of(name, so.modules.items()) as u32;
    let read = match read_module(alloc, files, reader, folder, &mut so.modules, texts, name) {
        Ok(read) => read,
        Err(stop) => return Err(stop),
    };
    match check_nested(reader, so, &read.module) {
        Ok(()) => {}
        Err(stop) => return Err(stop),
    }
    so.own.push(name.copy()?)?;
    finish(alloc, files, reader, folder, path, texts, so, number, read)
}
