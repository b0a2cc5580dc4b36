//! Where characters stand.

ghost use Rattle.std.specs.Prelude.{◌≡◌, ◌+◌, ◌*◌, ◌^◌, ◌<◌, ◌≤◌, length};
ghost use Rattle.reading_tokens.specs.Tokens.{place_after, place_behind, start_of};

use base_core::Place;

/// The place of the first character.
pub fn start_of(file: u32) -> Place
    ensures { result ≡ start_of file }
{
    Place {
        file,
        line: 1,
        col: 1,
    }
}

fn behind_one(at: Place, b: u8) -> Place
    requires line { at.line + 1 < 2 ^ 32 }
    requires col { at.col + 8 < 2 ^ 32 }
    ensures { result ≡ place_after at b }
{
    if b == b'\n' {
        Place {
            file: at.file,
            line: at.line + 1,
            col: 1,
        }
    } else if b == b'\t' {
        Place {
            file: at.file,
            line: at.line,
            col: 8 * ((at.col + 7) / 8) + 1,
        }
    } else if 128 <= b && b < 192 {
        at
    } else {
        Place {
            file: at.file,
            line: at.line,
            col: at.col + 1,
        }
    }
}

/// The place behind these bytes, which stand at a place.
pub fn behind(at: Place, bytes: &[u8]) -> Place
    requires line { at.line + length bytes.now < 2 ^ 32 }
    requires col { at.col + 8 * length bytes.now < 2 ^ 32 }
    requires first { 1 ≤ at.col }
    ensures value { result ≡ place_behind at bytes.now }
    ensures line { result.line ≤ at.line + length bytes.now }
    ensures col { result.col ≤ at.col + 8 * length bytes.now }
    ensures first { 1 ≤ result.col }
{
    let mut place = at;
    for b in bytes {
        place = behind_one(place, *b);
    }
    place
}
