// A table of slots as one lent run of numbers, nine columns of as many places as the table has: the form in which a state is
// changed in place and goes over the border to C.
#![tactic(auto)]

ghost use Rattle.std.specs.Prelude.{◌≡◌, length};
ghost use Rattle.columns.specs.Columns.{Within, cells_at, put};

use slot_cells::Cells;

/// The numbers at a place of a run with so many places a column.
#[tactic(auto, unfolding(crate::specs::Columns::cells_at))]
pub fn read(run: &[i32], places: usize, k: usize) -> Cells
    requires { Within (length run.now) places k }
    ensures { result ≡ cells_at run.now places k }
{
    // Kept: nine places one by one, since `put` and `cells_at`, which may not change, name them so; a loop would still name each field.
    let b = k + places;
    let c = b + places;
    let d = c + places;
    let e = d + places;
    let f = e + places;
    let g = f + places;
    let h = g + places;
    let i = h + places;
    Cells {
        id: run[k],
        first: run[b],
        last: run[c],
        tracked: run[d],
        detected: run[e],
        fragmentations: run[f],
        matched: run[g],
        known: run[h],
        partner: run[i],
    }
}

/// The numbers at a place, written over.
#[tactic(auto, unfolding(crate::specs::Columns::put))]
pub fn write(run: &mut [i32], places: usize, k: usize, cells: Cells)
    requires { Within (length run.old) places k }
    ensures { run.new ≡ put run.old places k cells }
{
    let Cells {
        id,
        first,
        last,
        tracked,
        detected,
        fragmentations,
        matched,
        known,
        partner,
    } = cells;
    run[k] = id;
    let b = k + places;
    run[b] = first;
    let c = b + places;
    run[c] = last;
    let d = c + places;
    run[d] = tracked;
    let e = d + places;
    run[e] = detected;
    let f = e + places;
    run[f] = fragmentations;
    let g = f + places;
    run[g] = matched;
    let h = g + places;
    run[h] = known;
    let i = h + places;
    run[i] = partner;
}
