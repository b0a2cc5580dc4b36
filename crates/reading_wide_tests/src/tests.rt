ghost use Rattle.std.specs.Prelude.{◌≡◌, IfOk};
ghost use Rattle.base_core.specs.Device.{AreDistinct};
ghost use Rattle.base_core.specs.Memory.{files_of};

use base_core::{MemoryFiles, Names, Text};
use reading_modules::{LoadFault, Loaded, SpelledModule, Stop, parts_of};
use reading_wide_modules::{Unread, load_modules, read_wide};
use std::alloc::{AllocError, Global};
use std::rt::HostRuntime;
use std::test::Fail;

/// A proof by steps, in which no piece begins.
const STEPS: &str = "---- MODULE A ----
EXTENDS Naturals
VARIABLE x
Init == x = 0
Next == x' = x + 1
THEOREM Safe == Init => x = 0
<1>1. ASSUME NEW y, CONSTANT c PROVE y = y
  <2>1. QED OBVIOUS
<1> DEFINE Next == 1
           More(z) == z
<1>2. QED
  <2>4. x = x
  <2>. QED BY <1>1, <2>4 DEF Init
Inv == x >= 0
====";

/// Proofs without steps, and theorems without proofs.
const LEAVES: &str = "---- MODULE A ----
VARIABLE x
LEMMA ASSUME NEW CONSTANT c PROVE c = c
PROOF OBVIOUS
Init == x = 0
THEOREM Init BY ONLY <1>1, <2>3 DEF Init
USE DEF Init
Next == x' = x
THEOREM Init
COROLLARY Init OMITTED
ASSUME TRUE
====";

/// What this project does not read, beside what it does.
const FOREIGN: &str = "---- MODULE A ----
EXTENDS Naturals
CONSTANTS N, F(_)
VARIABLE x
RECURSIVE S(_)
S(n) == IF n = 0 THEN 0 ELSE S(n - 1)
LOCAL K == 3
Each(f(_), s) == {f(y) : y \\in s}
Some == Each(LAMBDA y : y, {1})
g[i \\in {1, 2}] == i
I == INSTANCE M WITH y <- x
ASSUME Positive == N > 0
-----
Next == LET d == 1 e(a) == a IN x' = d + e(2)
INSTANCE M
====";

/// What LOCAL stands before, and instances without a name.
const BROUGHT: &str = "---- MODULE A ----
EXTENDS Integers
LOCAL INSTANCE Sequences
VARIABLE x
INSTANCE TLC
LOCAL D == Len(<<x>>)
LOCAL E == LAMBDA y : y
INSTANCE M
INSTANCE Naturals WITH x <- 1
LOCAL F(n) == n
====";

/// A piece that is not finished.
const UNFINISHED: &str = "---- MODULE A ----
VARIABLE x
Init == LET a == 1
Next == x' = x
VARIABLE y
Last == y = (1
Inv == y = y
====";

/// A list of names without a comma.
const NO_COMMA: &str = "---- MODULE A ----
EXTENDS Naturals Sequences
VARIABLE x
====";

/// A module inside another.
const NESTED: &str = "---- MODULE A ----
VARIABLE x
---- MODULE Inner ----
Init == x = 0
====
Next == x' = x
====";

/// A main module, and one that it extends. Of each one unit is not read.
const MAIN: &[u8] =
    b"---- MODULE Main ----\nEXTENDS Below\nBad == Worse(LAMBDA y : y)\nNext == x' = x\n====\n";

const BELOW: &[u8] =
    b"---- MODULE Below ----\nVARIABLE x\nWorse(f(_)) == f(1)\nInit == x = 0\n====\n";

fn add_names(told: &mut String, names: &Names) -> Result<(), AllocError> {
    told.push_str(" [")?;
    for (i, name) in names.items().iter().enumerate() {
        if i > 0 {
            told.push_str(",")?;
        }
        told.push_str(name.as_str())?;
    }
    told.push_str("]")?;
    Ok(())
}

fn told_of(alloc: Global, read: &SpelledModule<Unread>) -> Result<String, AllocError> {
    let mut told = format!(in alloc; "{}", read.module.units.len())?;
    for piece in &read.notes {
        add_names(&mut told, &piece.names)?;
    }
    Ok(told)
}

/// The number of the units that are read, and the names of each piece that is not, or the code of the refusal.
fn told(alloc: Global, text: &str) -> Result<String, AllocError> {
    if text.len() > 1_048_576 {
        return Err(AllocError);
    }
    match read_wide(alloc, 0, text.as_bytes()) {
        Ok(read) => told_of(alloc, &read),
        Err(Stop::Refused(why)) => String::from_str(alloc, why.code()),
        Err(Stop::NoMemory) => Err(AllocError),
    }
}

#[test]
fn pieces_are_read(rt: HostRuntime) -> Result<(), Fail> {
    let rows = [
        (STEPS, "4 []"),
        (LEAVES, "5 [] [] [] []"),
        (FOREIGN, "9 [N,F] [Each] [Some] []"),
        (BROUGHT, "3 [E] [] []"),
        (UNFINISHED, "3 [Init] [Last]"),
        (NO_COMMA, "P1 Expected"),
        (NESTED, "P4 OutOfProfile"),
    ];
    for (text, want) in rows {
        let found = told(rt.alloc(), text)?;
        assert!(rt; found.as_str() == want, "{want}");
    }
    Ok(())
}

/// The modules that are extended.
fn extended(alloc: Global, text: &str) -> Result<String, AllocError> {
    if text.len() > 1_048_576 {
        return Err(AllocError);
    }
    match read_wide(alloc, 0, text.as_bytes()) {
        Ok(read) => {
            let mut told = String::new(alloc);
            add_names(&mut told, &read.module.extends)?;
            Ok(told)
        }
        Err(Stop::Refused(why)) => String::from_str(alloc, why.code()),
        Err(Stop::NoMemory) => Err(AllocError),
    }
}

#[test]
fn standard_modules_are_brought(rt: HostRuntime) -> Result<(), Fail> {
    let rows = [
        (FOREIGN, " [Naturals]"),
        (BROUGHT, " [Integers,Sequences,TLC]"),
    ];
    for (text, want) in rows {
        let found = extended(rt.alloc(), text)?;
        assert!(rt; found.as_str() == want, "{want}");
    }
    Ok(())
}

/// A file of this name that has these bytes.
fn file(alloc: Global, name: &str, bytes: &[u8]) -> Result<(Text, Vec<u8>), AllocError>
    ensures { IfOk result (λ f. f.0 ≡ name.now) }
{
    let name = Text::from_text(alloc, name)?;
    Ok((name, Vec::from_slice(alloc, bytes)?))
}

fn files(alloc: Global) -> Result<Vec<(Text, Vec<u8>)>, AllocError>
    ensures { IfOk result (λ v. AreDistinct (files_of v.items)) }
{
    let main = file(alloc, "dir/Main.tla", MAIN)?;
    let below = file(alloc, "dir/Below.tla", BELOW)?;
    Ok(Vec::from_array(alloc, [main, below])?)
}

fn told_of_all(alloc: Global, loaded: &Loaded<Unread>) -> Result<String, AllocError> {
    let mut told = format!(in alloc; "{}", loaded.program.program.units.len())?;
    for noted in loaded.notes.items() {
        let file = format!(in alloc; " {}", noted.file)?;
        told.push_str(file.as_str())?;
        add_names(&mut told, &noted.note.names)?;
    }
    Ok(told)
}

/// The number of the units of the whole program, and of each piece that is not read its file and its names.
fn loaded(alloc: Global, path: &str) -> Result<String, AllocError> {
    let Some((_folder, _name)) = parts_of(path) else {
        return Err(AllocError);
    };
    let mut files = MemoryFiles::new(files(alloc)?, Vec::new(alloc));
    match load_modules(alloc, true, &mut files, path) {
        Ok(loaded) => told_of_all(alloc, &loaded),
        Err(LoadFault::Refused(_, why)) => String::from_str(alloc, why.code()),
        Err(LoadFault::NoMemory) => Err(AllocError),
    }
}

#[test]
fn pieces_of_all_modules_are_told(rt: HostRuntime) -> Result<(), Fail> {
    let found = loaded(rt.alloc(), "dir/Main.tla")?;
    assert!(rt; found.as_str() == "3 1 [Worse] 0 [Bad]");
    Ok(())
}
