ghost use Rattle.std.specs.Prelude.{◌≡◌, ◌≤◌, ◌+◌, ◌-◌, ◌^◌, min, drop, None, length};
ghost use Rattle.base_core.specs.Device.{TakesNext, TakesOf};
ghost use Rattle.base_core.specs.Memory.{files_of, left_of, FindsAt, Finds};

use crate::text::Text;

/// Files that are held in memory, and where the open one is read on.
#[derive(Debug, Drop)]
pub(crate) struct Held {
    pub(crate) files: Vec<(Text, Vec<u8>)>,
    pub(crate) current: Option<usize>,
    pub(crate) from: usize,
}

impl Held {
    /// These files, of which none is open.
    pub(crate) fn new(files: Vec<(Text, Vec<u8>)>) -> Held
        ensures files { result.files ≡ files }
        ensures closed { result.current ≡ None }
    {
        Held {
            files,
            current: None,
            from: 0,
        }
    }

    /// Closes the open file.
    pub(crate) fn close(&mut self)
        ensures files { self.new.files.items ≡ self.old.files.items }
        ensures closed { self.new.current ≡ None }
    {
        self.current = None;
    }

    /// Opens the file of that name with all its bytes left, or tells that there is none and opens
    /// nothing.
    pub(crate) fn open(&mut self, name: &str) -> bool
        ensures files { self.new.files.items ≡ self.old.files.items }
        ensures finds { Finds name.now (files_of self.old.files.items) result (left_of (files_of self.new.files.items) self.new.current self.new.from) }
    {
        match position(&self.files, name) {
            Some(file) => {
                self.current = Some(file);
                self.from = 0;
                true
            }
            None => {
                self.current = None;
                false
            }
        }
    }

    /// Takes the next bytes of the open file into the room, and none where no file is open.
    pub(crate) fn next(&mut self, room: &mut [u8]) -> usize
        ensures files { self.new.files.items ≡ self.old.files.items }
        ensures bound { result ≤ length room.new }
        ensures taken { TakesOf (left_of (files_of self.old.files.items) self.old.current self.old.from) result room.new (left_of (files_of self.new.files.items) self.new.current self.new.from) }
    {
        let Some(file) = self.current else {
            return 0;
        };
        let Some((_, bytes)) = self.files.get(file) else {
            return 0;
        };
        let count = fill(bytes, self.from, room);
        let from = self.from.saturating_add(count);
        self.from = from;
        count
    }
}

/// Copies the bytes from that index on into the front of the room, as many as there are or as it
/// takes.
fn fill(bytes: &[u8], from: usize, room: &mut [u8]) -> usize
    ensures bound { result ≤ length room.new }
    ensures taken { TakesNext (drop from bytes.now) result room.new (drop (min (from + result) (2 ^ 64 - 1)) bytes.now) }
{
    if from >= bytes.len() {
        return 0;
    }
    let count = (bytes.len() - from).min(room.len());
    room[..count].copy_from_slice(&bytes[from..from + count]);
    count
}

/// The index of the first file of that name.
fn position(files: &[(Text, Vec<u8>)], name: &str) -> Option<usize>
    ensures { FindsAt name.now (files_of files.now) result }
{
    for (i, file) in files.iter().enumerate() {
        if file.0.as_str() == name {
            return Some(i);
        }
    }
    None
}
