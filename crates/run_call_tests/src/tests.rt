ghost use Rattle.std.specs.Prelude.{◌≡◌, IfOk};
ghost use Rattle.base_core.specs.Device.{AreDistinct};
ghost use Rattle.base_core.specs.Memory.{files_of};

use base_core::{MemoryFiles, MemorySink, Text};
use run_call::{Status, run};
use std::alloc::{AllocError, Global};
use std::rt::HostRuntime;
use std::test::Fail;

const COUNTER: &[u8] =
    b"---- MODULE Counter ----\nEXTENDS Integers\nVARIABLE x\nInit == x = 0\nNext == x' = x + 1\n====\n";

const TWO_LINES: &[u8] = b"{\"see\":[[\"x\",1]]}\n{\"see\":[[\"x\",2]]}\n";

const CONFIGURATION: &[u8] = b"SPECIFICATION Spec\n";

const SPECIFIED: &[u8] =
    b"---- MODULE Specified ----\nEXTENDS Counter\nSpec == Init /\\ [][Next]_x\nJump(n) == x' = n\n====\n";

const EVENTS: &[u8] = b"{\"event\":\"Jump\",\"args\":[2]}\n{\"update\":[[\"set\",\"x\",2]]}\n";

const SILENT: &str =
    "EXPLAINED lines=2 widest=1\n{\"state\":{\"x\":0},\"step\":\"init\"}\n{\"state\":{\"x\":1},\"step\":\"silent\"}\n{\"file\":1,\"line\":1,\"state\":{\"x\":2},\"step\":\"line\"}\n{\"file\":1,\"line\":2,\"state\":{\"x\":2},\"step\":\"line\"}\n";

const EXPLAINED: &str =
    "EXPLAINED lines=2 widest=1\n{\"state\":{\"x\":0},\"step\":\"init\"}\n{\"file\":1,\"line\":1,\"state\":{\"x\":1},\"step\":\"line\"}\n{\"file\":1,\"line\":2,\"state\":{\"x\":2},\"step\":\"line\"}\n";

const ANOTHER: &str =
    "{\"state\":{\"x\":0},\"step\":\"init\"}\n{\"file\":1,\"line\":1,\"state\":{\"x\":1},\"step\":\"line\"}\n{\"file\":1,\"line\":2,\"state\":{\"x\":3},\"step\":\"line\"}\n";

const TESTED: &str =
    "SELFRUN 3 widest=5 check=valid\n{\"state\":{\"count\":0,\"holder\":3},\"step\":\"init\"}\n{\"file\":1,\"line\":3,\"state\":{\"count\":3,\"holder\":1},\"step\":\"line\"}\n";

/// The calls on the files that fail, those on the sink that fail, and the room of the sink.
#[derive(Clone, Copy, Drop)]
struct Given<'a> {
    reads: &'a [u64],
    writes: &'a [u64],
    room: usize,
}

fn words_of(alloc: Global, words: &[&str]) -> Result<Vec<String>, AllocError> {
    let mut list = Vec::new(alloc);
    for word in words {
        list.push(String::from_str(alloc, word)?)?;
    }
    Ok(list)
}

/// A file of this name that has these bytes.
fn file(alloc: Global, name: &str, bytes: &[u8]) -> Result<(Text, Vec<u8>), AllocError>
    ensures { IfOk result (λ f. f.0 ≡ name.now) }
{
    let name = Text::from_text(alloc, name)?;
    Ok((name, Vec::from_slice(alloc, bytes)?))
}

/// The files of the texts above.
fn files(alloc: Global) -> Result<Vec<(Text, Vec<u8>)>, AllocError>
    ensures { IfOk result (λ v. AreDistinct (files_of v.items)) }
{
    let module = file(alloc, "Counter.tla", COUNTER)?;
    let log = file(alloc, "c.log", TWO_LINES)?;
    let specified = file(alloc, "Specified.tla", SPECIFIED)?;
    let configuration = file(alloc, "s.cfg", CONFIGURATION)?;
    let events = file(alloc, "e.log", EVENTS)?;
    let states = file(alloc, "w.txt", EXPLAINED.as_bytes())?;
    let others = file(alloc, "v.txt", ANOTHER.as_bytes())?;
    let files = [
        module,
        log,
        specified,
        configuration,
        events,
        states,
        others,
    ];
    Ok(Vec::from_array(alloc, files)?)
}

/// What `run` answers where the texts above are the files, and what the sink then holds.
fn answer(alloc: Global, words: &[&str], given: Given) -> Result<(Status, Vec<u8>), AllocError> {
    let words = words_of(alloc, words)?;
    let mut files = MemoryFiles::new(files(alloc)?, Vec::from_slice(alloc, given.reads)?);
    let buffer = Vec::with_capacity(alloc, given.room)?;
    let mut sink = MemorySink::new(buffer, given.room, Vec::from_slice(alloc, given.writes)?);
    let status = run(alloc, &words, &mut files, &mut sink);
    Ok((status, Vec::from_slice(alloc, sink.written())?))
}

/// The words of a call, its failing reads and writes and its room, and what it answers.
#[derive(Drop)]
struct Case<'a>(&'a [&'a str], &'a [u64], &'a [u64], usize, Status, &'a str);

const CASES: [Case<'static>; 15] = [
    Case(&[], &[], &[], 999, Status::Words, "WORDS REFUSED\n"),
    Case(
        &["validate", "Counter.tla"],
        &[],
        &[],
        999,
        Status::Words,
        "WORDS REFUSED\n",
    ),
    Case(&["selfrun", "3"], &[], &[], 999, Status::Done, TESTED),
    Case(
        &["validate", "Counter.tla", "c.log"],
        &[],
        &[],
        999,
        Status::Done,
        EXPLAINED,
    ),
    Case(
        &[
            "validate",
            "--config",
            "s.cfg",
            "--within",
            "2",
            "--silent",
            "Next",
            "--stutter",
            "Specified.tla",
            "e.log",
        ],
        &[],
        &[],
        999,
        Status::Done,
        SILENT,
    ),
    Case(
        &["validate", "Other.tla", "c.log"],
        &[],
        &[],
        999,
        Status::Reading,
        "REFUSED Missing Other.tla\n",
    ),
    Case(
        &["validate", "Counter.tla", "d.log"],
        &[],
        &[],
        999,
        Status::Reading,
        "REFUSED Missing d.log\n",
    ),
    Case(
        &["check", "--witness", "w.txt", "Counter.tla", "c.log"],
        &[],
        &[],
        999,
        Status::Done,
        "VALID states=3\n",
    ),
    Case(
        &["check", "--witness", "v.txt", "Counter.tla", "c.log"],
        &[],
        &[],
        999,
        Status::Not,
        "INVALID index=2 reason=NotStep\n",
    ),
    Case(
        &["check", "--witness", "m.txt", "Counter.tla", "c.log"],
        &[],
        &[],
        999,
        Status::Reading,
        "REFUSED Missing m.txt\n",
    ),
    Case(
        &["validate", "Counter.tla", "c.log"],
        &[1],
        &[],
        999,
        Status::Device,
        "DEVICE FAULT Counter.tla\n",
    ),
    Case(
        &["validate", "Counter.tla", "c.log"],
        &[4],
        &[],
        999,
        Status::Device,
        "DEVICE FAULT c.log\n",
    ),
    Case(
        &["validate", "Counter.tla", "c.log"],
        &[1],
        &[1],
        999,
        Status::Device,
        "",
    ),
    Case(
        &["validate", "Counter.tla", "c.log"],
        &[],
        &[1],
        999,
        Status::Device,
        "",
    ),
    Case(
        &["validate", "Counter.tla", "c.log"],
        &[],
        &[],
        9,
        Status::Device,
        "EXPLAINED",
    ),
];

#[test]
fn words_and_files(rt: HostRuntime) -> Result<(), Fail> {
    let alloc = rt.alloc();
    for Case(words, reads, writes, room, status, report) in &CASES {
        let given = Given {
            reads,
            writes,
            room: *room,
        };
        let told = answer(alloc, words, given)?;
        assert_eq!(rt; told.0, *status, "{report}");
        assert!(rt; told.1.as_slice() == report.as_bytes(), "{report}");
    }
    Ok(())
}
