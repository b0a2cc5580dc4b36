ghost use Rattle.std.specs.Prelude.{◌≡◌, ◌≤◌, ◌<◌, ◌^◌, ◌+◌, ◌++◌, IfOk, OnOk, string_bytes};
ghost use Rattle.run_ring.specs.Ring.{clock_part, count_line, last_line, pass_part, ring_log, seen_part};

use base_core::NoMemory;
use std::alloc::Global;

/// The log of so many lines: each tells how often the token was passed, and the last names its event.
pub fn ring_log(alloc: Global, lines: u32) -> Result<String, NoMemory>
    requires { 1 ≤ lines }
    ensures { IfOk result (λ t. string_bytes t ≡ ring_log lines) }
{
    let mut text = String::new(alloc);
    for passed in 0..lines - 1 {
        push_count(&mut text, passed + 1)?;
    }
    push_last(&mut text, lines)?;
    Ok(text)
}

/// A line that tells how often the token was passed.
fn push_count(text: &mut String, number: u32) -> Result<(), NoMemory>
    ensures { OnOk result (string_bytes text.new ≡ string_bytes text.old ++ count_line number) }
{
    push_clock(text, number)?;
    push_seen(text, number)
}

/// The line of the last pass, by the holder 0.
fn push_last(text: &mut String, number: u32) -> Result<(), NoMemory>
    ensures { OnOk result (string_bytes text.new ≡ string_bytes text.old ++ last_line number) }
{
    push_pass(text, number)?;
    push_seen(text, number)
}

#[tactic(auto, unfolding(crate::specs::Ring::clock_part))]
fn push_clock(text: &mut String, number: u32) -> Result<(), NoMemory>
    ensures { OnOk result (string_bytes text.new ≡ string_bytes text.old ++ clock_part number) }
{
    write!(text, "{{\"clock\":{number},")
}

#[tactic(auto, unfolding(crate::specs::Ring::pass_part))]
fn push_pass(text: &mut String, number: u32) -> Result<(), NoMemory>
    ensures { OnOk result (string_bytes text.new ≡ string_bytes text.old ++ pass_part number) }
{
    write!(
        text,
        "{{\"args\":[0],\"clock\":{number},\"event\":\"Pass\","
    )
}

#[tactic(auto, unfolding(crate::specs::Ring::seen_part))]
fn push_seen(text: &mut String, number: u32) -> Result<(), NoMemory>
    ensures { OnOk result (string_bytes text.new ≡ string_bytes text.old ++ seen_part number) }
{
    write!(text, "\"see\":[[\"count\",{number}]]}}\n")
}
