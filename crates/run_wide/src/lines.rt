//! What is told of what is passed over.

ghost use Rattle.std.specs.Prelude.{◌≡◌, ◌++◌, IfOk, OnOk, map};
ghost use Rattle.run_wide.specs.Lines.{has_feed, in_one_line, is_silent, named_line, over_line, passed_lines, piece_lines, placed_line, unread_lines, word_of};

use base_core::{Names, NoMemory, Place, Text};
use names_pruning::{PassedOver, told};
use reading_modules::Noted;
use reading_pieces::Mark;
use reading_trees::Units;
use reading_wide_modules::Unread;
use run_texts::push_at;
use std::alloc::Global;

/// The word for a piece that begins so.
fn word_of(begins: Mark) -> &'static str
    ensures { result.now ≡ word_of begins }
{
    match begins {
        Mark::Assume => "ASSUME",
        Mark::Instance => "INSTANCE",
        Mark::Declare => "DECLARATION",
        Mark::Local | Mark::Name => "DEFINITION",
        _ => "UNIT",
    }
}

/// Whether nothing is told of a piece that begins so.
fn is_silent(begins: Mark) -> bool
    ensures { result ≡ is_silent begins }
{
    matches!(
        begins,
        Mark::Theorem | Mark::Dashes | Mark::Use | Mark::Recursive
    )
}

/// Whether a line feed stands in the text.
fn has_feed(text: &str) -> bool
    ensures { result ≡ has_feed text.now }
{
    text.as_bytes().iter().any(|byte| *byte == b'\n')
}

/// The text, or the word alone where it is more than one line.
fn in_one_line(alloc: Global, word: &str, text: &str) -> Result<Text, NoMemory>
    ensures { IfOk result (λ t. t ≡ in_one_line word.now text.now) }
{
    if has_feed(text) {
        return Text::from_text(alloc, word);
    }
    Text::from_text(alloc, text)
}

/// The line of a thing without a name.
fn placed_line(alloc: Global, files: &Names, word: &str, at: Place) -> Result<Text, NoMemory>
    ensures { IfOk result (λ t. t ≡ placed_line files.now word.now at) }
{
    let mut text = String::from_str(alloc, word)?;
    push_at(&mut text, files, at)?;
    in_one_line(alloc, word, &text)
}

/// The line of a thing that has a name.
fn named_line(
    alloc: Global,
    files: &Names,
    word: &str,
    at: Place,
    name: &Text,
) -> Result<Text, NoMemory>
    ensures { IfOk result (λ t. t ≡ named_line files.now word.now at name.now) }
{
    let mut text = String::from_str(alloc, word)?;
    text.push_str(" ")?;
    text.push_str(name.as_str())?;
    push_at(&mut text, files, at)?;
    in_one_line(alloc, word, &text)
}

/// Adds a line for each of the names.
fn add_named(
    alloc: Global,
    files: &Names,
    word: &str,
    at: Place,
    names: &[Text],
    lines: &mut Names,
) -> Result<(), NoMemory>
    ensures { OnOk result (lines.new ≡ lines.old ++ map (named_line files.now word.now at) names.now) }
{
    for name in names {
        let line = named_line(alloc, files, word, at, name)?;
        lines.push(line)?;
    }
    Ok(())
}

/// Adds the lines of a piece that was not read.
fn add_piece(
    alloc: Global,
    files: &Names,
    unread: &Unread,
    lines: &mut Names,
) -> Result<(), NoMemory>
    ensures { OnOk result (lines.new ≡ lines.old ++ piece_lines files.now unread.now.begins unread.now.at unread.now.names) }
{
    if is_silent(unread.begins) {
        return Ok(());
    }
    let word = word_of(unread.begins);
    let names = unread.names.items();
    if names.is_empty() {
        let line = placed_line(alloc, files, word, unread.at)?;
        return lines.push(line);
    }
    add_named(alloc, files, word, unread.at, names, lines)
}

/// Adds the lines of the pieces that were not read.
fn add_unread(
    alloc: Global,
    files: &Names,
    unread: &[Noted<Unread>],
    lines: &mut Names,
) -> Result<(), NoMemory>
    ensures { OnOk result (lines.new ≡ lines.old ++ unread_lines files.now unread.now) }
{
    for noted in unread {
        add_piece(alloc, files, &noted.note, lines)?;
    }
    Ok(())
}

/// The line of a unit that is passed over.
fn over_line(alloc: Global, files: &Names, over: &PassedOver) -> Result<Text, NoMemory>
    ensures { IfOk result (λ t. t ≡ over_line files.now over.now) }
{
    match over {
        PassedOver::Definition(name, at) => named_line(alloc, files, "DEFINITION", *at, name),
        PassedOver::Assumption(at) => placed_line(alloc, files, "ASSUME", *at),
    }
}

/// Adds the lines of units that are passed over.
fn add_over(
    alloc: Global,
    files: &Names,
    over: &[PassedOver],
    lines: &mut Names,
) -> Result<(), NoMemory>
    ensures { OnOk result (lines.new ≡ lines.old ++ map (over_line files.now) over.now) }
{
    for gone in over {
        let line = over_line(alloc, files, gone)?;
        lines.push(line)?;
    }
    Ok(())
}

/// The lines of the pieces that were not read, and behind them those of units that are passed over.
pub(crate) fn passed_lines(
    alloc: Global,
    files: &Names,
    unread: &[Noted<Unread>],
    over: &Units,
) -> Result<Names, NoMemory>
    ensures { IfOk result (λ lines. lines ≡ passed_lines files.now unread.now over.now) }
{
    let mut lines = Names::new(alloc);
    add_unread(alloc, files, unread, &mut lines)?;
    let over = told(alloc, over)?;
    add_over(alloc, files, &over, &mut lines)?;
    Ok(lines)
}
