ghost use Rattle.std.specs.Prelude.{◌≡◌, ◌++◌, IfOk, OnOk, codes, string_bytes};
ghost use Rattle.run_texts.specs.Places.{place_text, at_place, detail, refused};
ghost use Rattle.run_texts.specs.Modules.{read_refusal, parse_refusal, names_text, earlier_text, module_refusal, piece_refusal};

use crate::files::{device_text, missing_text, too_long_text};
use crate::places::{
    push_at, push_detail, push_place, refusal, refused_alone, refused_at, refused_detail,
};
use crate::spelled::foreign_text;
use base_core::{Names, NoMemory, Place, ReadFault, Text};
use reading_expressions::ParseFault;
use reading_modules::LoadWhy;
use std::alloc::Global;

/// The line for modules that are refused, with the files so far.
pub fn module_refusal(alloc: Global, files: &Names, why: &LoadWhy) -> Result<String, NoMemory>
    ensures { IfOk result (λ t. string_bytes t ≡ module_refusal files.now why.now) }
{
    match why {
        LoadWhy::Read(name, fault) => read_refusal(alloc, name.as_str(), *fault),
        LoadWhy::Lex(_, at) | LoadWhy::Lay(at) => refused_at(alloc, files, why.code(), *at),
        LoadWhy::Parse(fault) => parse_refusal(alloc, files, fault),
        LoadWhy::Cycle(names) => cycle_refusal(alloc, why.code(), names),
        LoadWhy::TooMany(name) => refused_alone(alloc, why.code(), name.as_str()),
        LoadWhy::Twice(name, at, earlier) => {
            twice_refusal(alloc, files, why.code(), name.as_str(), *at, *earlier)
        }
        LoadWhy::WrongName(name, at) | LoadWhy::Nested(name, at) => {
            refused_detail(alloc, files, why.code(), name.as_str(), *at)
        }
    }
}

/// The lines for a piece of a module that is refused and that the name needs.
pub fn piece_refusal(
    alloc: Global,
    files: &Names,
    why: &LoadWhy,
    root: &Text,
) -> Result<String, NoMemory>
    ensures { IfOk result (λ t. string_bytes t ≡ piece_refusal files.now why.now root.now) }
{
    let mut text = module_refusal(alloc, files, why)?;
    text.push_str("NEEDED BY ")?;
    text.push_str(root.as_str())?;
    text.push_str("\n")?;
    Ok(text)
}

/// The line for a file that is not read.
fn read_refusal(alloc: Global, name: &str, fault: ReadFault) -> Result<String, NoMemory>
    ensures { IfOk result (λ t. string_bytes t ≡ read_refusal name.now fault) }
{
    match fault {
        ReadFault::Missing => missing_text(alloc, name),
        ReadFault::TooLong => too_long_text(alloc, name),
        ReadFault::Failed => device_text(alloc, name),
        ReadFault::NoMemory => String::from_str(alloc, ""),
    }
}

/// The line for tokens that are no module.
fn parse_refusal(alloc: Global, files: &Names, fault: &ParseFault) -> Result<String, NoMemory>
    ensures { IfOk result (λ t. string_bytes t ≡ parse_refusal files.now fault.now) }
{
    match fault {
        ParseFault::Expected(at) | ParseFault::TooNested(at) => {
            refused_at(alloc, files, fault.code(), *at)
        }
        ParseFault::Conflict(first, second) => {
            conflict_refusal(alloc, files, fault.code(), *first, *second)
        }
        ParseFault::OutOfProfile(token, at) => {
            refused_detail(alloc, files, fault.code(), foreign_text(*token), *at)
        }
        ParseFault::NoMemory => String::from_str(alloc, ""),
    }
}

/// The line for two operators of which neither may have the other's term as its operand.
fn conflict_refusal(
    alloc: Global,
    files: &Names,
    what: &str,
    first: Place,
    second: Place,
) -> Result<String, NoMemory>
    ensures { IfOk result (λ t. string_bytes t ≡ refused what.now (at_place files.now first ++ codes " and " ++ place_text files.now second)) }
{
    let mut text = refusal(alloc, what)?;
    push_at(&mut text, files, first)?;
    push_and(&mut text, files, second)?;
    text.push_str("\n")?;
    Ok(text)
}

/// Adds a further place.
fn push_and(text: &mut String, files: &Names, at: Place) -> Result<(), NoMemory>
    ensures { OnOk result (string_bytes text.new ≡ string_bytes text.old ++ (codes " and " ++ place_text files.now at)) }
{
    text.push_str(" and ")?;
    push_place(text, files, at)
}

/// The line for a module that extends itself.
fn cycle_refusal(alloc: Global, what: &str, names: &Names) -> Result<String, NoMemory>
    ensures { IfOk result (λ t. string_bytes t ≡ refused what.now (names_text names.now)) }
{
    let mut text = refusal(alloc, what)?;
    push_names(&mut text, names)?;
    text.push_str("\n")?;
    Ok(text)
}

/// Adds each name behind a blank.
fn push_names(text: &mut String, names: &Names) -> Result<(), NoMemory>
    ensures { OnOk result (string_bytes text.new ≡ string_bytes text.old ++ names_text names.now) }
{
    for name in names.items() {
        push_detail(text, name.as_str())?;
    }
    Ok(())
}

/// The line for a name that is declared twice.
fn twice_refusal(
    alloc: Global,
    files: &Names,
    what: &str,
    name: &str,
    at: Place,
    earlier: Option<Place>,
) -> Result<String, NoMemory>
    ensures { IfOk result (λ t. string_bytes t ≡ refused what.now (detail name.now ++ at_place files.now at ++ earlier_text files.now earlier)) }
{
    let mut text = refusal(alloc, what)?;
    push_detail(&mut text, name)?;
    push_at(&mut text, files, at)?;
    push_earlier(&mut text, files, earlier)?;
    text.push_str("\n")?;
    Ok(text)
}

/// Adds where a name stands before.
fn push_earlier(text: &mut String, files: &Names, earlier: Option<Place>) -> Result<(), NoMemory>
    ensures { OnOk result (string_bytes text.new ≡ string_bytes text.old ++ earlier_text files.now earlier) }
{
    match earlier {
        Some(at) => push_and(text, files, at),
        None => text.push_str(" and standard"),
    }
}
