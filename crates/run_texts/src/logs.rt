ghost use Rattle.std.specs.Prelude.{◌≡◌, ◌++◌, IfOk, OnOk, codes, string_bytes};
ghost use Rattle.run_texts.specs.Places.{detail, found_needed, refused};
ghost use Rattle.run_texts.specs.Logs.{line_text, at_line, clocks_text, kind_refusal, log_refusal, node_text};

use crate::places::{push_detail, push_found_needed, refusal};
use base_core::{NoMemory, Text};
use logs_lines::{LogKind, Refusal};
use std::alloc::Global;

/// The line for a log of this name that is refused.
pub fn log_refusal(alloc: Global, name: &str, refused: Refusal) -> Result<String, NoMemory>
    ensures { IfOk result (λ t. string_bytes t ≡ log_refusal name.now refused) }
{
    kind_refusal(alloc, name, refused.kind, refused.line)
}

fn kind_refusal(alloc: Global, name: &str, kind: LogKind, line: u32) -> Result<String, NoMemory>
    ensures { IfOk result (λ t. string_bytes t ≡ kind_refusal name.now kind line) }
{
    match kind {
        LogKind::BadField(key) | LogKind::BadValue(key) => {
            refused_told(alloc, kind.code(), key.text(), name, line)
        }
        LogKind::WrongArgs(found, needed) => {
            refused_args(alloc, kind.code(), found, needed, name, line)
        }
        LogKind::ClockBack(before, now) => {
            refused_clock(alloc, kind.code(), before, now, name, line)
        }
        LogKind::VectorBack(node, before, now) => {
            refused_vector(alloc, &node, before, now, name, line)
        }
        LogKind::NotJson
        | LogKind::NotObject
        | LogKind::UnknownVariable
        | LogKind::UnknownEvent
        | LogKind::InitNotFirst
        | LogKind::NoClock
        | LogKind::ClockKind
        | LogKind::LineTooLong
        | LogKind::EventNotFixed
        | LogKind::TooManyLines => refused_line(alloc, kind.code(), name, line),
    }
}

/// Adds a line of a log.
pub fn push_line(text: &mut String, name: &str, line: u32) -> Result<(), NoMemory>
    ensures { OnOk result (string_bytes text.new ≡ string_bytes text.old ++ line_text name.now line) }
{
    text.push_str(name)?;
    write!(text, ":{line}")
}

/// Adds a line of a log, behind " at ".
fn push_at_line(text: &mut String, name: &str, line: u32) -> Result<(), NoMemory>
    ensures { OnOk result (string_bytes text.new ≡ string_bytes text.old ++ at_line name.now line) }
{
    text.push_str(" at ")?;
    push_line(text, name, line)
}

/// The line of a refusal that has a line of a file alone.
pub(crate) fn refused_line(
    alloc: Global,
    what: &str,
    name: &str,
    line: u32,
) -> Result<String, NoMemory>
    ensures { IfOk result (λ t. string_bytes t ≡ refused what.now (at_line name.now line)) }
{
    let mut text = refusal(alloc, what)?;
    push_at_line(&mut text, name, line)?;
    text.push_str("\n")?;
    Ok(text)
}

/// The line of a refusal that has a detail and a line of a file.
pub(crate) fn refused_told(
    alloc: Global,
    what: &str,
    told: &str,
    name: &str,
    line: u32,
) -> Result<String, NoMemory>
    ensures { IfOk result (λ t. string_bytes t ≡ refused what.now (detail told.now ++ at_line name.now line)) }
{
    let mut text = refusal(alloc, what)?;
    push_detail(&mut text, told)?;
    push_at_line(&mut text, name, line)?;
    text.push_str("\n")?;
    Ok(text)
}

/// The line for an event with another number of arguments than its operator has.
fn refused_args(
    alloc: Global,
    what: &str,
    found: usize,
    needed: usize,
    name: &str,
    line: u32,
) -> Result<String, NoMemory>
    ensures { IfOk result (λ t. string_bytes t ≡ refused what.now (found_needed found needed ++ at_line name.now line)) }
{
    let mut text = refusal(alloc, what)?;
    push_found_needed(&mut text, found, needed)?;
    push_at_line(&mut text, name, line)?;
    text.push_str("\n")?;
    Ok(text)
}

/// The line for a clock that falls.
fn refused_clock(
    alloc: Global,
    what: &str,
    before: i64,
    now: i64,
    name: &str,
    line: u32,
) -> Result<String, NoMemory>
    ensures { IfOk result (λ t. string_bytes t ≡ refused what.now (at_line name.now line ++ clocks_text before now)) }
{
    let mut text = refusal(alloc, what)?;
    push_at_line(&mut text, name, line)?;
    push_clocks(&mut text, before, now)?;
    text.push_str("\n")?;
    Ok(text)
}

/// The line for a clock of nodes in which the number of this node falls.
fn refused_vector(
    alloc: Global,
    node: &Text,
    before: u64,
    now: u64,
    name: &str,
    line: u32,
) -> Result<String, NoMemory>
    ensures { IfOk result (λ t. string_bytes t ≡ refused (codes "O14 VectorBack") (at_line name.now line ++ node_text node.now before now)) }
{
    let mut text = refusal(alloc, "O14 VectorBack")?;
    push_at_line(&mut text, name, line)?;
    push_node(&mut text, node, before, now)?;
    text.push_str("\n")?;
    Ok(text)
}

/// Adds a node, its number before, and this one.
fn push_node(text: &mut String, node: &Text, before: u64, now: u64) -> Result<(), NoMemory>
    ensures { OnOk result (string_bytes text.new ≡ string_bytes text.old ++ node_text node.now before now) }
{
    text.push_str(" node ")?;
    text.push_str(node.as_str())?;
    write!(text, " clocks {before} and {now}")
}

/// Adds the clock before, and this one.
fn push_clocks(text: &mut String, before: i64, now: i64) -> Result<(), NoMemory>
    ensures { OnOk result (string_bytes text.new ≡ string_bytes text.old ++ clocks_text before now) }
{
    write!(text, " clocks {before} and {now}")
}
