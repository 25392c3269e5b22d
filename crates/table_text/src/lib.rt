//! Text in columns, for people.
#![tactic(auto)]

ghost use Rattle.std.specs.Prelude.{◌≡◌, ◌-◌, ◌≤◌};
ghost use Rattle.lines.specs.Cursors.{Kept};
ghost use Rattle.table_text.specs.Bars.{most_forty};

use decimal_text::write_six;
use lines::output::Writer;
use wholes::size;

// How many spaces stand beside a text in a column; none where it is too long.
fn room(width: usize, length: usize) -> usize
    ensures { result ≡ width - length }
{
    width.saturating_sub(length)
}

fn repeat(w: &mut Writer, b: u8, n: usize)
    ensures { Kept w.old w.new }
{
    for _ in 0..n {
        w.byte(b);
    }
}

// The decimal digits of n, which stand at the start of letters.
fn digits(n: u64, letters: &mut [u8; 20]) -> &[u8] {
    let k = io::decimal(n, letters);
    &letters[..k]
}

/// A text at the right end of a column.
pub fn right(w: &mut Writer, width: usize, text: &[u8])
    ensures { Kept w.old w.new }
{
    repeat(w, b' ', room(width, text.len()));
    w.text(text);
}

/// A text at the left end of a column.
pub fn left(w: &mut Writer, width: usize, text: &[u8])
    ensures { Kept w.old w.new }
{
    w.text(text);
    repeat(w, b' ', room(width, text.len()));
}

/// A count at the right end of a column.
pub fn count(w: &mut Writer, width: usize, n: u64)
    ensures { Kept w.old w.new }
{
    let mut letters = [0u8; 20];
    right(w, width, digits(n, &mut letters));
}

fn negative(w: &mut Writer, width: usize, n: u64)
    ensures { Kept w.old w.new }
{
    let mut letters = [0u8; 20];
    let text = digits(n, &mut letters);
    repeat(w, b' ', room(room(width, 1), text.len()));
    w.byte(b'-');
    w.text(text);
}

/// A whole number at the right end of a column.
pub fn whole(w: &mut Writer, width: usize, x: i32)
    ensures { Kept w.old w.new }
{
    if x < 0 {
        negative(w, width, size(x));
    } else {
        count(w, width, size(x));
    }
}

/// A float to six places, at the right end of a column.
pub fn six(w: &mut Writer, width: usize, x: f64)
    ensures { Kept w.old w.new }
{
    let mut letters = [0u8; 320];
    let n = write_six(x, &mut letters);
    right(w, width, &letters[..n]);
}

#[tactic(auto, unfolding(crate::specs::Bars::most_forty))]
fn most_forty(marks: u64) -> usize
    ensures { (result ≡ most_forty marks) × (result ≤ 40) }
{
    if marks < 40 {
        return marks as usize;
    }
    40
}

/// A bar of forty places.
pub fn bar(w: &mut Writer, marks: u64)
    ensures { Kept w.old w.new }
{
    let n = most_forty(marks);
    repeat(w, b'#', n);
    repeat(w, b'.', 40 - n);
}
