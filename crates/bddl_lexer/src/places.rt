//! Lines and columns.

ghost use Rattle.std.specs.Prelude.{◌≡◌, ◌≤◌, length};
ghost use Rattle.bddl_model.specs.Reading.{place_at};

use bddl_model::Place;

/// The place of the byte of this number. The number of bytes gives the place just past the text.
pub fn place_of(bytes: &[u8], at: u32) -> Place
    requires within { at ≤ length bytes.now }
    requires fits { at ≤ 4294967294 }
    ensures { result ≡ place_at bytes.now at }
{
    let mut line = 1;
    let mut column = 1;
    for b in &bytes[..at as usize] {
        if *b == b'\n' {
            line += 1;
            column = 1;
        } else {
            column += 1;
        }
    }
    Place { line, column }
}
