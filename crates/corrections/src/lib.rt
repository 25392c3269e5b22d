//! Step F's minimum and step G of the search. The square lies at stride 64; sets of rows and columns are marks, or columns in a list.
#![tactic(auto)]

ghost use Rattle.std.specs.Prelude.{◌≡◌, Bool, false, ℕ, ◌+◌, ◌*◌, ◌≤◌, ◌<◌, List, length, get_or, drop, true};
ghost use Rattle.std.specs.Float.{nan, binary64};
ghost use Rattle.std.specs.Float.Ieee.{add, sub, lt};
ghost use Rattle.std.specs.List.{All};
ghost use Rattle.floats.specs.Float.{is_zero};
ghost use Rattle.square.specs.Index.{Picked};
ghost use Rattle.square.specs.Square.{line};
ghost use Rattle.corrections.specs.Correction.{least_over, useful_of, shift_of};
ghost use Rattle.corrections.specs.Inner.{Columns, least_in, Listed, Hot};

/// The first place from `from` on whose listed column has an entry below m, or the number of listed columns.
fn next_below(line: &[f64], columns: &[usize], from: usize, m: f64) -> usize
    requires { All (λ j. j < length line.now) columns.now × (length columns.now ≤ 64) × (length line.now ≡ 64) × (from ≤ length columns.now) }
    ensures first { (t : ℕ) → from ≤ t → t < result → lt (get_or line.now (get_or columns.now t 0) nan) m ≡ false }
    ensures below { (from ≤ result) × (result ≤ length columns.now) × (least_in line.now (drop from columns.now) m ≡ least_in line.now (drop result columns.now) m)
        × (result < length columns.now → lt (get_or line.now (get_or columns.now result 0) nan) m ≡ true) }
{
    // Kept: an index counted by hand, and the length where there is none. `position`, and a `for` with an Option, took 4 to 12 in 100 more
    // instructions for a search of 64 by 64 products.
    let mut t = from;
    while t < columns.len() {
        if line[columns[t]] < m {
            return t;
        }
        t += 1;
    }
    t
}

/// The smaller of `least` and a row's entries in the listed columns, NaN passed over. Few are smaller than all before them: it goes from one
/// of these to the next, and tests the others only.
fn least_row(line: &[f64], columns: &[usize], least: f64) -> f64
    requires { All (λ j. j < length line.now) columns.now × (length columns.now ≤ 64) × (length line.now ≡ 64) }
    ensures { result ≡ least_in line.now columns.now least }
{
    let mut m = least;
    let mut t = next_below(line, columns, 0, m);
    while t < columns.len() {
        m = line[columns[t]];
        t = next_below(line, columns, t + 1, m);
    }
    m
}

/// The minimum over the marked rows and the listed columns, which are those outside some C.
// Kept: an array with a used count, since the clauses of `least_over` and `shift` may not change.
pub fn least_over(c: &[f64], n: usize, rs: &[bool; 64], columns: &[usize; 64], used: usize) -> f64
    requires { (n ≤ 64) × (n * 64 ≤ length c.now) × Columns columns.now used }
    ensures { (C : List Bool) → Picked false C n columns.now used → result ≡ least_over c.now n rs.now C }
{
    let columns = &columns[..used];
    let mut m = 1.0 / 0.0;
    for (row, marked) in rs[..n].iter().enumerate() {
        if *marked {
            m = least_row(&c[row * 64..row * 64 + 64], columns, m);
        }
    }
    m
}

/// Whether a correction by m is of use: m is finite and above 0.
pub fn useful(m: f64) -> bool
    ensures { result ≡ useful_of m }
{
    if m <= 0.0 {
        return false;
    }
    floats::is_finite(m)
}

/// A row's listed entries less m, and whether one of them is a zero then.
fn take_off(entries: &mut [f64], columns: &[usize], m: f64) -> bool
    requires { All (λ j. j < length entries.old) columns.now × (length entries.old ≡ 64) }
    ensures taken { entries.new ≡ line (Listed columns.now) (length columns.now) (λ _ x. sub binary64 x m) entries.old }
    ensures zeros { result ≡ false → (t : ℕ) → t < length columns.now → is_zero (get_or entries.new (Listed columns.now t) nan) ≡ false }
{
    let mut zero = false;
    for col in columns {
        let x = entries[*col] - m;
        entries[*col] = x;
        if floats::is_zero(x) {
            zero = true;
        }
    }
    zero
}

/// A row's listed entries and m.
fn put_on(entries: &mut [f64], columns: &[usize], m: f64)
    requires { All (λ j. j < length entries.old) columns.now × (length entries.old ≡ 64) }
    ensures { entries.new ≡ line (Listed columns.now) (length columns.now) (λ _ x. add binary64 x m) entries.old }
{
    for col in columns {
        entries[*col] += m;
    }
}

/// Step G: m is taken off in R outside C, whose columns are listed, and put on outside R in C. `hot` gets marks at the rows of R that have a new zero.
pub fn shift(
    c: &mut [f64],
    n: usize,
    rs: &[bool; 64],
    cs: &[bool; 64],
    away: &[usize; 64],
    aways: usize,
    m: f64,
    hot: &mut [bool; 64],
)
    requires { (n ≤ 64) × (n * 64 ≤ length c.old) × Picked false cs.now n away.now aways × (length hot.old ≡ 64) }
    ensures shifted { c.new ≡ shift_of n rs.now cs.now m c.old }
    ensures marked { Hot n rs.now cs.now c.new hot.new }
{
    let mut inside = [0usize; 64];
    let homes = square::pick(cs, n, true, &mut inside);
    let away = &away[..aways];
    let home = &inside[..homes];
    for (row, marked) in rs[..n].iter().enumerate() {
        let entries = &mut c[row * 64..row * 64 + 64];
        if *marked {
            hot[row] = take_off(entries, away, m);
        } else {
            hot[row] = false;
            put_on(entries, home, m);
        }
    }
}
