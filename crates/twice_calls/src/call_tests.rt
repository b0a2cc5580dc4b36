ghost use Rattle.std.specs.Prelude.{◌≡◌, IfOk};
ghost use Rattle.base_core.specs.Device.{AreDistinct};
ghost use Rattle.base_core.specs.Memory.{files_of};

use crate::call::run_ends;
use base_core::{MemoryFiles, MemorySink, Text};
use run_call::Status;
use std::alloc::{AllocError, Global};
use std::rt::HostRuntime;
use std::test::Fail;

const COUNTER: &[u8] =
    b"---- MODULE Counter ----\nEXTENDS Integers\nVARIABLE x\nInit == x = 0\nNext == x' = x + 1\n====\n";

const TWO_LINES: &[u8] = b"{\"see\":[[\"x\",1]]}\n{\"see\":[[\"x\",2]]}\n";

const EXPLAINED: &str =
    "EXPLAINED lines=2 widest=1\n{\"state\":{\"x\":0},\"step\":\"init\"}\n{\"file\":1,\"line\":1,\"state\":{\"x\":1},\"step\":\"line\"}\n{\"file\":1,\"line\":2,\"state\":{\"x\":2},\"step\":\"line\"}\n";

fn words(alloc: Global) -> Result<Vec<String>, AllocError> {
    let mut list = Vec::new(alloc);
    for word in ["validate", "Counter.tla", "c.log"] {
        list.push(String::from_str(alloc, word)?)?;
    }
    Ok(list)
}

/// A file of this name that has these bytes.
fn file(alloc: Global, name: &str, bytes: &[u8]) -> Result<(Text, Vec<u8>), AllocError>
    ensures { IfOk result (λ f. f.0 ≡ name.now) }
{
    let name = Text::from_text(alloc, name)?;
    Ok((name, Vec::from_slice(alloc, bytes)?))
}

/// A module and its log.
fn files(alloc: Global) -> Result<Vec<(Text, Vec<u8>)>, AllocError>
    ensures { IfOk result (λ v. AreDistinct (files_of v.items)) }
{
    let module = file(alloc, "Counter.tla", COUNTER)?;
    let log = file(alloc, "c.log", TWO_LINES)?;
    Ok(Vec::from_array(alloc, [module, log])?)
}

#[test]
fn a_call_ends_as_run_does(rt: HostRuntime) -> Result<(), Fail> {
    let alloc = rt.alloc();
    let words = words(alloc)?;
    let mut files = MemoryFiles::new(files(alloc)?, Vec::new(alloc));
    let mut sink = MemorySink::new(Vec::with_capacity(alloc, 999)?, 999, Vec::new(alloc));
    let status = run_ends(alloc, &words, &mut files, &mut sink);
    assert!(rt; status == Status::Done);
    assert!(rt; sink.written() == EXPLAINED.as_bytes());
    Ok(())
}
