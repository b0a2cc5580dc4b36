ghost use Rattle.std.specs.Prelude.{◌≡◌, ◌++◌, IfOk, OnOk, codes, string_bytes};
ghost use Rattle.run_texts.specs.Places.{name_at, place_text, at_place, detail, found_needed, refused};

use base_core::{Names, NoMemory, Place};
use std::alloc::Global;

/// The name of that number, from 0; past the end the empty text.
pub fn name_at(names: &Names, i: usize) -> &str
    ensures { result.now ≡ name_at names.now i }
{
    match names.get(i) {
        Some(name) => name.as_str(),
        None => "",
    }
}

/// Adds a place.
pub(crate) fn push_place(text: &mut String, files: &Names, at: Place) -> Result<(), NoMemory>
    ensures { OnOk result (string_bytes text.new ≡ string_bytes text.old ++ place_text files.now at) }
{
    let line = at.line;
    let col = at.col;
    text.push_str(name_at(files, at.file as usize))?;
    write!(text, ":{line}:{col}")
}

/// Adds a place, behind " at ".
pub fn push_at(text: &mut String, files: &Names, at: Place) -> Result<(), NoMemory>
    ensures { OnOk result (string_bytes text.new ≡ string_bytes text.old ++ at_place files.now at) }
{
    text.push_str(" at ")?;
    push_place(text, files, at)
}

/// Adds a detail, behind a blank.
pub(crate) fn push_detail(text: &mut String, told: &str) -> Result<(), NoMemory>
    ensures { OnOk result (string_bytes text.new ≡ string_bytes text.old ++ detail told.now) }
{
    text.push_str(" ")?;
    text.push_str(told)
}

/// Adds how many there are, and how many there are to be.
pub(crate) fn push_found_needed(
    text: &mut String,
    found: usize,
    needed: usize,
) -> Result<(), NoMemory>
    ensures { OnOk result (string_bytes text.new ≡ string_bytes text.old ++ found_needed found needed) }
{
    write!(text, " found={found} needed={needed}")
}

/// The beginning of a refusal's line: its code and name.
pub(crate) fn refusal(alloc: Global, what: &str) -> Result<String, NoMemory>
    ensures { IfOk result (λ t. string_bytes t ≡ codes "REFUSED " ++ what.now) }
{
    let mut text = String::from_str(alloc, "REFUSED ")?;
    text.push_str(what)?;
    Ok(text)
}

/// The line of a refusal that has a place alone.
pub(crate) fn refused_at(
    alloc: Global,
    files: &Names,
    what: &str,
    at: Place,
) -> Result<String, NoMemory>
    ensures { IfOk result (λ t. string_bytes t ≡ refused what.now (at_place files.now at)) }
{
    let mut text = refusal(alloc, what)?;
    push_at(&mut text, files, at)?;
    text.push_str("\n")?;
    Ok(text)
}

/// The line of a refusal that has a detail and a place.
pub(crate) fn refused_detail(
    alloc: Global,
    files: &Names,
    what: &str,
    told: &str,
    at: Place,
) -> Result<String, NoMemory>
    ensures { IfOk result (λ t. string_bytes t ≡ refused what.now (detail told.now ++ at_place files.now at)) }
{
    let mut text = refusal(alloc, what)?;
    push_detail(&mut text, told)?;
    push_at(&mut text, files, at)?;
    text.push_str("\n")?;
    Ok(text)
}

/// The line of a refusal that has a detail alone.
pub(crate) fn refused_alone(alloc: Global, what: &str, told: &str) -> Result<String, NoMemory>
    ensures { IfOk result (λ t. string_bytes t ≡ refused what.now (detail told.now)) }
{
    let mut text = refusal(alloc, what)?;
    push_detail(&mut text, told)?;
    text.push_str("\n")?;
    Ok(text)
}
