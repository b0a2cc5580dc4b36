ghost use Rattle.std.specs.Prelude.{◌≡◌, ◌≤◌, IfOk};
ghost use Rattle.run_ring.specs.Ring.{ring_files, ring_module};

use crate::log::ring_log;
use base_core::{NoMemory, SureFiles, Text};
use std::alloc::Global;

/// The module, in which a token goes round five holders and each pass is counted.
const RING: &str = "---- MODULE Ring ----
EXTENDS Integers
VARIABLES holder, count
Init == holder \\in 0..4 /\\ count = 0
Pass(n) == /\\ holder = n
           /\\ holder' = (n + 1) % 5
           /\\ count' = count + 1
Next == \\E n \\in 0..4 : Pass(n)
====
";

/// The files of the smoke test over so many lines: the module Ring and its log.
pub fn ring_files(alloc: Global, lines: u32) -> Result<SureFiles, NoMemory>
    requires { 1 ≤ lines }
    ensures { IfOk result (λ f. f.files ≡ ring_files lines) }
{
    let log = ring_log(alloc, lines)?;
    let mut files = Vec::new(alloc);
    files.push((Text::from_text(alloc, "Ring.tla")?, bytes_of(alloc, RING)?))?;
    files.push((Text::from_text(alloc, "Ring.log")?, log.into_bytes()))?;
    Ok(SureFiles::new(files))
}

/// The bytes of a text.
fn bytes_of(alloc: Global, text: &str) -> Result<Vec<u8>, NoMemory>
    ensures { IfOk result (λ b. b.items ≡ text.now) }
{
    Ok(String::from_str(alloc, text)?.into_bytes())
}
