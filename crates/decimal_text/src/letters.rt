//! Bytes laid one after the other.
ghost use Rattle.std.specs.Prelude.{◌+◌, ◌≤◌, length};
ghost use Rattle.decimal_text.specs.Texts.{Laid};

/// A part laid at a place, and the place after it. What lies before stays.
pub fn put(out: &mut [u8], at: usize, part: &[u8]) -> usize
    requires { at + length part.now ≤ length out.old }
    ensures { Laid at part.now out.old out.new result }
{
    let end = at + part.len();
    out[at..end].copy_from_slice(part);
    end
}
