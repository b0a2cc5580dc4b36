ghost use Rattle.std.specs.Prelude.{◌≡◌, ◌≤◌, None, Some, length, IfSome, IfOk, is_ok, if◌then◌else◌};
ghost use Rattle.base_core.specs.Device.{count_after};
ghost use Rattle.base_core.specs.Failures.{after_next, after_open, no_failures};

use crate::asked::Asked;
use crate::device::{Failed, Files, OpenFault, Sink};
use crate::text::Text;
use std::fs::File;
use std::io::{ErrorKind, Read};
use std::marker::Model;
use std::rt;

/// The runtime's files, seen as their count of faults and as which calls failed. They do not tell what they hold.
#[derive(Drop)]
pub struct HostFiles<R: rt::Files> {
    rt: R,
    open: Option<R::File>,
    faults: u64,
    asked: Asked,
}

impl<R: rt::Files> Model for HostFiles<R> {
    ghost use Rattle.base_core.specs.Memory.{OnHost};

    ghost Value = { OnHost };

    ghost view = { λ h. record { faults = h.faults; course = h.asked } };
}

impl<R: rt::Files> HostFiles<R> {
    /// The runtime's files, of which none is open.
    pub fn new(rt: R) -> HostFiles<R>
        ensures faults { result.faults ≡ 0 }
        ensures asked { result.course.asked ≡ None }
        ensures failures { result.course.failures ≡ no_failures }
    {
        HostFiles {
            rt,
            open: None,
            faults: 0,
            asked: Asked::new(),
        }
    }
}

impl<R: rt::Files + Drop> Files for HostFiles<R> {
    ghost holds = { λ h. None };

    ghost at = { λ h. None };

    ghost faults = { λ h. h.faults };

    ghost asked = { λ h. h.course.asked };

    ghost failures = { λ h. h.course.failures };

    fn open(&mut self, name: Text) -> Result<(), OpenFault>
        ensures counted { self.new.faults ≡ (if is_ok result then self.old.faults else count_after self.old.faults) }
        ensures asked { self.new.course.asked ≡ Some name }
        ensures told { self.new.course.failures ≡ after_open name result self.old.course.failures }
        ensures later { self.old.faults ≤ self.new.faults }
    {
        self.open = None;
        let opened = File::open(&self.rt, name.as_str());
        self.asked.ask(name);
        match opened {
            Ok(file) => {
                self.open = Some(file);
                Ok(())
            }
            Err(error) => {
                self.faults = self.faults.saturating_add(1);
                match error.kind() {
                    ErrorKind::NotFound => Err(OpenFault::Missing),
                    ErrorKind::OutOfMemory => Err(OpenFault::NoMemory),
                    _ => {
                        self.asked.fail();
                        Err(OpenFault::Failed)
                    }
                }
            }
        }
    }

    fn next(&mut self, room: &mut [u8]) -> Result<usize, Failed>
        ensures bound { IfOk result (λ n. n ≤ length room.new) }
        ensures counted { self.new.faults ≡ (if is_ok result then self.old.faults else count_after self.old.faults) }
        ensures asked { self.new.course.asked ≡ self.old.course.asked }
        ensures told { self.new.course.failures ≡ after_next self.old.course.asked result self.old.course.failures }
        ensures later { self.old.faults ≤ self.new.faults }
    {
        let Some(file) = &mut self.open else {
            return Ok(0);
        };
        if let Some(count) = read_some(file, room) {
            return Ok(count);
        }
        self.faults = self.faults.saturating_add(1);
        self.asked.fail();
        Err(Failed)
    }

    fn faults(&self) -> u64 {
        self.faults
    }
}

/// How many bytes were read, or none where the read failed. A read that was interrupted is tried
/// again.
fn read_some<F: Read>(file: &mut F, room: &mut [u8]) -> Option<usize>
    ensures { IfSome result (λ n. n ≤ length room.new) }
{
    for _ in 0..u64::MAX {
        match file.read(room) {
            Ok(count) => return Some(count),
            Err(error) if error.kind() == ErrorKind::Interrupted => {}
            Err(_) => return None,
        }
    }
    None
}

/// The runtime's standard output, seen as its count of faults. It does not tell what it holds.
#[derive(Drop)]
pub struct HostSink<P: Print> {
    out: P,
    faults: u64,
}

impl<P: Print> Model for HostSink<P> {
    ghost use Rattle.std.specs.Prelude.{ℕ};

    ghost Value = { ℕ };

    ghost view = { λ h. h.faults };
}

impl<P: Print> HostSink<P> {
    /// The output, with no fault so far.
    pub fn new(out: P) -> HostSink<P>
        ensures { result ≡ 0 }
    {
        HostSink { out, faults: 0 }
    }
}

impl<P: Print + Drop> Sink for HostSink<P> {
    ghost written = { λ h. None };

    ghost faults = { λ h. h };

    fn put(&mut self, piece: &[u8]) -> Result<(), Failed>
        ensures counted { self.new ≡ (if is_ok result then self.old else count_after self.old) }
        ensures later { self.old ≤ self.new }
    {
        if write_whole(&self.out, piece) {
            return Ok(());
        }
        self.faults = self.faults.saturating_add(1);
        Err(Failed)
    }

    fn faults(&self) -> u64 {
        self.faults
    }
}

/// Writes the piece, and tells whether all of it was written. A write that was interrupted is tried
/// again.
fn write_whole<P: Print>(out: &P, piece: &[u8]) -> bool {
    let mut rest = piece;
    for _ in 0..u64::MAX {
        if rest.is_empty() {
            return true;
        }
        match out.write_some(rest) {
            Ok(0) => return false,
            Ok(count) => rest = &rest[count..],
            Err(error) if error.kind() == ErrorKind::Interrupted => {}
            Err(_) => return false,
        }
    }
    false
}
