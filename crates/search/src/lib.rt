//! Steps D to G of the search. The square lies at stride 64; in the tables n or more is no partner; sets of rows and columns are marks.
#![tactic(auto)]

ghost use Rattle.std.specs.Prelude.{◌≡◌, false, ℕ, ◌*◌, ◌≤◌, ◌<◌, List, length, take, nat_lt, MatchOption, true};
ghost use Rattle.std.specs.List.{list_all};
ghost use Rattle.square.specs.Index.{on};
ghost use Rattle.paths.specs.State.{state, Ok, paired};
ghost use Rattle.search.specs.Run.{Run};
ghost use Rattle.search.specs.Inner.{Freed, RowDone, ColDone, Looked, Met, Marked, Corrected};

/// Whether every row has a partner.
fn all_paired(rows: &[usize; 64], n: usize) -> bool
    requires { n ≤ 64 }
    ensures { result ≡ list_all (λ partner. nat_lt partner n) (take n rows.now) }
{
    rows[..n].iter().all(|partner| *partner < n)
}

/// Step D: the free rows, marked; `None` where every row is paired.
fn free_rows(rows: &[usize; 64], n: usize) -> Option<[bool; 64]>
    requires { n ≤ 64 }
    ensures { MatchOption result ((i : ℕ) → i < n → paired n rows.now i ≡ true) (λ free. (length free ≡ 64) × Freed n rows.now free) }
{
    if all_paired(rows, n) {
        return None;
    }
    let mut free = [false; 64];
    for (row, partner) in rows[..n].iter().enumerate() {
        free[row] = n <= *partner;
    }
    Some(free)
}

/// The rows and columns reached, as marks.
#[derive(Drop)]
struct Reached {
    rows: [bool; 64],
    cols: [bool; 64],
}

impl Reached {
    /// The row routine of step F: marks a row, and every column that a zero leads to. True where a free column is met: it stops there.
    #[cycle(reach_col_reach_row)]
    fn reach_row(&mut self, c: &[f64], n: usize, cols: &[usize; 64], row: usize) -> bool
        requires { (n ≤ 64) × (row < n) × (length self.old.rows ≡ 64) × (length self.old.cols ≡ 64) × (n * 64 ≤ length c.now) }
        ensures { RowDone result c.now n cols.now row self.old.rows self.old.cols self.new.rows self.new.cols }
    {
        self.rows[row] = true;
        for (col, x) in c[row * 64..row * 64 + n].iter().enumerate() {
            if floats::is_zero(*x) && !self.cols[col] && self.reach_col(c, n, cols, col) {
                return true;
            }
        }
        false
    }

    /// The column routine: marks a column that is not marked yet, and goes on to its partner row.
    #[cycle(reach_col_reach_row)]
    fn reach_col(&mut self, c: &[f64], n: usize, cols: &[usize; 64], col: usize) -> bool
        requires { (n ≤ 64) × (col < n) × (length self.old.rows ≡ 64) × (length self.old.cols ≡ 64) × (on self.old.cols col ≡ false) × (n * 64 ≤ length c.now) }
        ensures { ColDone result c.now n cols.now col self.old.rows self.old.cols self.new.rows self.new.cols }
    {
        self.cols[col] = true;
        let row = cols[col];
        if n <= row {
            return true;
        }
        if self.rows[row] {
            return false;
        }
        self.reach_row(c, n, cols, row)
    }

    /// Goes through the rows marked in `look`, and gives the one at which a free column is met.
    fn spread(
        &mut self,
        c: &[f64],
        n: usize,
        cols: &[usize; 64],
        look: &[bool; 64],
    ) -> Option<usize>
        requires { (n ≤ 64) × (length self.old.rows ≡ 64) × (length self.old.cols ≡ 64) × (n * 64 ≤ length c.now) }
        ensures { MatchOption result
            (Looked n c.now n cols.now look.now self.old.rows self.old.cols self.new.rows self.new.cols)
            (λ row. (row < n) × Met row c.now n cols.now look.now self.old.rows self.old.cols self.new.rows self.new.cols) }
    {
        for (row, looked) in look[..n].iter().enumerate() {
            if *looked && self.reach_row(c, n, cols, row) {
                return Some(row);
            }
        }
        None
    }
}

/// How many corrections were made, and whether the minimum was of no use in the end.
// Kept: both ends have a count, so an enum or an Option of it is no plainer.
#[derive(Clone, Copy)]
pub struct Corrections {
    pub times: usize,
    pub stuck: bool,
}

/// Steps F and G, from step F's sets on: a correction keeps what was reached, so the sets only grow, until a free column is reached.
fn correct(c: &mut [f64], n: usize, cols: &[usize; 64], reached: &mut Reached) -> Corrections
    requires { (rows : List ℕ) × Marked n c.old rows cols.now reached.old.rows reached.old.cols }
    ensures { (rows : List ℕ) → Marked n c.old rows cols.now reached.old.rows reached.old.cols → Corrected result.stuck n result.times c.old rows cols.now c.new }
{
    let mut times = 0usize;
    // Kept: a `loop`, since a turn may end it at two places within; no range or iterator says that.
    loop {
        let mut outside = [0usize; 64];
        let aways = square::pick(&reached.cols, n, false, &mut outside);
        let m = corrections::least_over(c, n, &reached.rows, &outside, aways);
        if !corrections::useful(m) {
            return Corrections { times, stuck: true };
        }
        let mut hot = [false; 64];
        corrections::shift(
            c,
            n,
            &reached.rows,
            &reached.cols,
            &outside,
            aways,
            m,
            &mut hot,
        );
        times += 1;
        if reached.spread(c, n, cols, &hot).is_some() {
            return Corrections {
                times,
                stuck: false,
            };
        }
    }
}

/// How many corrections and path changes were made.
#[derive(Clone, Copy)]
pub struct Counts {
    pub corrections: usize,
    pub paths: usize,
}

/// Steps D to G, with no cap.
pub fn search(c: &mut [f64], n: usize, rows: &mut [usize; 64], cols: &mut [usize; 64]) -> Counts
    requires { Ok n (state c.old rows.old cols.old) }
    ensures { Run n (state c.old rows.old cols.old) result.corrections result.paths (state c.new rows.new cols.new) }
{
    let mut corrections = 0usize;
    let mut paths = 0usize;
    while let Some(free) = free_rows(rows, n) {
        let mut reached = Reached {
            rows: [false; 64],
            cols: [false; 64],
        };
        if let Some(start) = reached.spread(c, n, cols, &free) {
            paths::augment(c, n, rows, cols, start);
            paths += 1;
        } else {
            let made = correct(c, n, cols, &mut reached);
            corrections += made.times;
            if made.stuck {
                break;
            }
        }
    }
    Counts { corrections, paths }
}
