//! What stands in a text, term by term.

ghost use Rattle.std.specs.Prelude.{◌≡◌, ◌≤◌, ◌<◌, ◌||◌, ◌++◌, ℕ, Contains, OnOk, IfOk, length};
ghost use Rattle.names_term_levels.specs.Findings.{Adds, LetFinds, LetsFind, NamedFinds, Reads, ReadsUse, SlotFinds, IsTold};
ghost use Rattle.names_term_parts.specs.Parts.{part};
ghost use Rattle.names_term_parts.specs.Slots.{MentionsBelow};
ghost use Rattle.names_term_levels.specs.Arguments.{argued, argued_from, arguments_from, earlier_of, TakesIn};
ghost use Rattle.names_term_parts.specs.Waiting.{waiting};

use crate::note::Note;
use base_core::{NoMemory, Place};
use names_term_parts::{
    LevelFault, Pending, Slots, Special, check_limits, earlier, is_above, push, push_parts,
    special_of,
};
use names_terms::{DefIds, Level, Operator, Term};
use std::alloc::Global;

fn either(first: bool, second: bool) -> bool
    ensures { result ≡ (first || second) }
{
    first || second
}

/// Puts arguments on the stack: under a prime where their parameter stands under one.
fn push_arguments<'a>(
    stack: &mut Vec<Pending<'a>>,
    primed: bool,
    parameters: &Slots,
    outer: usize,
    arguments: &'a [Term],
) -> Result<(), NoMemory>
    ensures { OnOk result (waiting stack.new.items ≡ waiting stack.old.items ++ arguments_from parameters.now outer primed 0 arguments.now) }
{
    for (index, argument) in arguments.iter().enumerate() {
        push(
            stack,
            either(primed, parameters.has_behind(outer, index)),
            argument,
        )?;
    }
    Ok(())
}

/// The earlier of what was found and that an argument is no constant whose parameter stands under a prime or does not.
fn in_argument(found: Option<LevelFault>, primed: bool, argument: &Term) -> Option<LevelFault>
    ensures { result ≡ argued primed argument.now found }
{
    if primed && is_above(argument.level, Level::Constant) {
        return earlier(found, LevelFault::PrimedArgument(argument.at));
    }
    found
}

fn in_arguments(
    found: Option<LevelFault>,
    parameters: &Slots,
    outer: usize,
    arguments: &[Term],
) -> Option<LevelFault>
    ensures { result ≡ argued_from parameters.now outer 0 arguments.now found }
{
    let mut found = found;
    for (index, argument) in arguments.iter().enumerate() {
        found = in_argument(found, parameters.has_behind(outer, index), argument);
    }
    found
}

/// The slots of a definition that are slots of the text around it.
fn absorb(note: &mut Note, other: &Note, outer: usize, primed: bool) -> Result<(), NoMemory>
    ensures { OnOk result (TakesIn outer primed other.now note.old note.new) }
{
    note.occurs.absorb(&other.occurs, outer)?;
    note.primed.absorb(&other.primed, outer)?;
    if primed {
        return note.primed.absorb(&other.occurs, outer);
    }
    Ok(())
}

fn read_slot(note: &mut Note, primed: bool, slot: usize) -> Result<(), NoMemory>
    ensures { OnOk result (Adds (SlotFinds slot primed) note.old note.new) }
{
    note.occurs.add(slot)?;
    if primed {
        return note.primed.add(slot);
    }
    Ok(())
}

fn read_named(
    table: &[Operator],
    notes: &[Note],
    note: &mut Note,
    primed: bool,
    number: usize,
) -> Result<(), NoMemory>
    requires known { length notes.now ≤ length table.now }
    requires below { number < length notes.now }
    ensures { OnOk result (Adds (NamedFinds table.now notes.now primed number) note.old note.new) }
{
    absorb(note, &notes[number], table[number].outer, primed)
}

/// Keeps the earlier of the note's fault and another.
pub fn read_fault(note: &mut Note, fault: Option<LevelFault>)
    ensures { note.new ≡ record note.old { fault = earlier_of note.old.fault fault } }
{
    if let Some(fault) = fault {
        note.fault = earlier(note.fault, fault);
    }
}

fn read_definition(
    table: &[Operator],
    notes: &[Note],
    note: &mut Note,
    primed: bool,
    number: usize,
) -> Result<(), NoMemory>
    requires known { length notes.now ≤ length table.now }
    requires below { number < length notes.now }
    ensures { OnOk result (Adds (LetFinds table.now notes.now primed number) note.old note.new) }
{
    read_named(table, notes, note, primed, number)?;
    read_fault(note, notes[number].fault);
    Ok(())
}

fn read_let(
    table: &[Operator],
    notes: &[Note],
    note: &mut Note,
    primed: bool,
    numbers: &DefIds,
) -> Result<(), NoMemory>
    requires known { length notes.now ≤ length table.now }
    requires below { (k : ℕ) → Contains numbers.now k → k < length notes.now }
    ensures { OnOk result (Adds (LetsFind table.now notes.now primed numbers.now) note.old note.new) }
{
    for index in 0..numbers.len() {
        match numbers.get(index) {
            Some(number) => read_definition(table, notes, note, primed, number.0)?,
            None => return Ok(()),
        }
    }
    Ok(())
}

/// A use of a definition: the slots around it, and its arguments.
fn read_use<'a>(
    table: &[Operator],
    notes: &[Note],
    stack: &mut Vec<Pending<'a>>,
    note: &mut Note,
    primed: bool,
    number: usize,
    arguments: &'a [Term],
) -> Result<(), NoMemory>
    requires known { length notes.now ≤ length table.now }
    requires below { number < length notes.now }
    ensures { OnOk result (ReadsUse table.now notes.now primed number arguments.now (waiting stack.old.items) (waiting stack.new.items) note.old note.new) }
{
    read_named(table, notes, note, primed, number)?;
    let outer = table[number].outer;
    let parameters = &notes[number].primed;
    note.fault = in_arguments(note.fault, parameters, outer, arguments);
    push_arguments(stack, primed, parameters, outer, arguments)
}

/// Reads one term: what it tells goes into the note, and its parts go on the stack.
fn read<'a>(
    table: &[Operator],
    notes: &[Note],
    stack: &mut Vec<Pending<'a>>,
    note: &mut Note,
    term: &'a Term,
    primed: bool,
) -> Result<(), NoMemory>
    requires known { length notes.now ≤ length table.now }
    requires below { MentionsBelow (length notes.now) term.now }
    ensures { OnOk result (Reads table.now notes.now (length notes.now) (part primed term.now) (waiting stack.old.items) (waiting stack.new.items) note.old note.new) }
{
    let node = &*term.node;
    note.fault = check_limits(note.fault, term.at, node);
    match special_of(node) {
        Special::Slot(slot) => read_slot(note, primed, slot),
        Special::Use(number, terms) => {
            read_use(table, notes, stack, note, primed, number, terms.items())
        }
        Special::Let(numbers) => {
            read_let(table, notes, note, primed, numbers)?;
            push_parts(stack, primed, node)
        }
        Special::Other => push_parts(stack, primed, node),
    }
}

/// What is told of a text where notes tell of its definitions, without whether it means fairness.
pub fn read_text(
    alloc: Global,
    table: &[Operator],
    notes: &[Note],
    term: &Term,
) -> Result<Note, NoMemory>
    requires known { length notes.now ≤ length table.now }
    requires below { MentionsBelow (length notes.now) term.now }
    ensures { IfOk result (λ n. IsTold table.now notes.now term.now n) }
{
    let mut note = Note {
        occurs: Slots::new(alloc),
        primed: Slots::new(alloc),
        fault: None,
        fair: false,
    };
    let mut stack = Vec::new(alloc);
    push(&mut stack, false, term)?;
    while let Some(pending) = stack.pop() {
        read(
            table,
            notes,
            &mut stack,
            &mut note,
            pending.term,
            pending.primed,
        )?;
    }
    Ok(note)
}
