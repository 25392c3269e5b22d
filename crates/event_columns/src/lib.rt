// A log of events as two lent runs of numbers: the form in which a log is changed in place and goes over the border to C.
// Four columns of 1,024 whole numbers, frame, kind, truth and hypothesis, and one of 1,024 distances.
#![tactic(auto)]

ghost use Rattle.std.specs.Prelude.{◌≡◌, length, set};
ghost use Rattle.event_columns.specs.Columns.{what_of, event_of, cells_of, Within, cells_at, put_numbers};

use events::{Event, What};

/// The five numbers of an event, one of each column. Kinds: 0 match, 1 switch, 2 miss, any other a false positive.
// Kept: a kind is a number, as it stands so in a column that goes over the border to C.
#[derive(Clone, Copy)]
pub struct Cells {
    pub frame: i32,
    pub kind: i32,
    pub truth: i32,
    pub hypothesis: i32,
    pub distance: f64,
}

fn what_of(kind: i32, truth: i32, hypothesis: i32, distance: f64) -> What
    ensures { result ≡ what_of kind truth hypothesis distance }
{
    match kind {
        0 => What::Match(truth, hypothesis, distance),
        1 => What::Switch(truth, hypothesis, distance),
        2 => What::Miss(truth),
        _ => What::FalsePositive(hypothesis),
    }
}

/// The event that five numbers stand for.
impl From<Cells> for Event {
    ghost from_gives = { λ cells event. event ≡ event_of cells };

    #[tactic(auto, unfolding(crate::specs::Columns::event_of))]
    fn from(cells: Cells) -> Event {
        Event {
            frame: cells.frame,
            what: what_of(cells.kind, cells.truth, cells.hypothesis, cells.distance),
        }
    }
}

/// The five numbers that an event is written as: 0 where it has no use for a column.
impl From<Event> for Cells {
    ghost from_gives = { λ event cells. cells ≡ cells_of event };

    #[tactic(auto, unfolding(crate::specs::Columns::cells_of))]
    fn from(event: Event) -> Cells {
        let none = Cells {
            frame: event.frame,
            kind: 3,
            truth: 0,
            hypothesis: 0,
            distance: 0.0,
        };
        match event.what {
            What::Match(truth, hypothesis, distance) => Cells {
                kind: 0,
                truth,
                hypothesis,
                distance,
                ..none
            },
            What::Switch(truth, hypothesis, distance) => Cells {
                kind: 1,
                truth,
                hypothesis,
                distance,
                ..none
            },
            What::Miss(truth) => Cells {
                kind: 2,
                truth,
                ..none
            },
            What::FalsePositive(hypothesis) => Cells { hypothesis, ..none },
        }
    }
}

/// The numbers at a place of a log.
#[tactic(auto, unfolding(crate::specs::Columns::cells_at))]
pub fn read(numbers: &[i32], distances: &[f64], k: usize) -> Cells
    requires { Within (length numbers.now) (length distances.now) k }
    ensures { result ≡ cells_at numbers.now distances.now k }
{
    Cells {
        frame: numbers[k],
        kind: numbers[k + 1024],
        truth: numbers[k + 2 * 1024],
        hypothesis: numbers[k + 3 * 1024],
        distance: distances[k],
    }
}

/// The numbers at a place, written over.
#[tactic(auto, unfolding(crate::specs::Columns::put_numbers))]
pub fn write(numbers: &mut [i32], distances: &mut [f64], k: usize, cells: Cells)
    requires { Within (length numbers.old) (length distances.old) k }
    ensures numbers_after { numbers.new ≡ put_numbers numbers.old k cells }
    ensures distances_after { distances.new ≡ set distances.old k cells.distance }
{
    numbers[k] = cells.frame;
    numbers[k + 1024] = cells.kind;
    numbers[k + 2 * 1024] = cells.truth;
    numbers[k + 3 * 1024] = cells.hypothesis;
    distances[k] = cells.distance;
}
