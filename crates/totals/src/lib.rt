// The counters of the extended accumulator's state beside its table, and what a frame does to them.
// Ported from norfair-rs, internal/motmetrics/accumulator.rs, which follows py-motmetrics (NOTICE).
#![tactic(auto)]

ghost use Rattle.std.specs.Prelude.{◌≡◌, true, ◌&&◌, []};
ghost use Rattle.totals.specs.Totals.{totals_sound, new_totals, state_with, Few, next_frame, room_for_all, raised_totals};

/// What a frame adds to each of the six counters.
#[derive(Clone, Copy)]
pub struct Shares {
    pub matches: usize,
    pub misses: usize,
    pub false_positives: usize,
    pub switches: usize,
    pub objects: usize,
}

/// What a state holds beside its table.
#[derive(Clone, Copy)]
pub struct Totals {
    pub used: usize,
    pub frame_id: i32,
    pub num_matches: i32,
    pub num_misses: i32,
    pub num_false_positives: i32,
    pub num_switches: i32,
    pub num_objects: i32,
    pub total_distance: f64,
}

impl Totals {
    /// Frame 0, and nothing counted: with a table of zeros a new state.
    pub fn new() -> Self
        ensures { result ≡ new_totals }
    {
        Self {
            used: 0,
            frame_id: 0,
            num_matches: 0,
            num_misses: 0,
            num_false_positives: 0,
            num_switches: 0,
            num_objects: 0,
            total_distance: 0.0,
        }
    }
}

/// The number of the frame to come. At the last number it stays: such a frame is refused in the end.
#[tactic(auto, unfolding(crate::specs::Totals::next_frame))]
pub fn next_frame(frame_id: i32) -> i32
    ensures { result ≡ next_frame frame_id }
{
    if counts::room_for(frame_id, 1) {
        counts::add(frame_id, 1)
    } else {
        frame_id
    }
}

/// Whether all three of the tests hold.
// Kept: wrong versions of it are tried (must-fail/), and the two tests below are proved by it.
pub fn all_three(a: bool, b: bool, c: bool) -> bool
    ensures { result ≡ (a && (b && c)) }
{
    a && b && c
}

/// Whether each counter can take its share of a frame.
#[tactic(auto, unfolding(crate::specs::Totals::room_for_all))]
pub fn room_for_all(t: Totals, by: Shares) -> bool
    requires { Few by }
    ensures { result ≡ room_for_all (state_with [] t) by }
{
    // Kept: six tests joined by `&&` leave a goal that neither the search nor grind closed with the definition unfolded.
    all_three(
        counts::room_for(t.frame_id, 1),
        counts::room_for(t.num_matches, by.matches),
        counts::room_for(t.num_misses, by.misses),
    ) && all_three(
        counts::room_for(t.num_false_positives, by.false_positives),
        counts::room_for(t.num_switches, by.switches),
        counts::room_for(t.num_objects, by.objects),
    )
}

/// The totals after a frame that there is room for.
#[tactic(auto, unfolding(crate::specs::Totals::room_for_all))]
pub fn raised_by(t: Totals, by: Shares, distance: f64) -> Totals
    requires few { Few by }
    requires by_value { room_for_all (state_with [] t) by ≡ true }
    ensures { result ≡ raised_totals t by distance }
{
    Totals {
        frame_id: counts::add(t.frame_id, 1),
        num_matches: counts::add(t.num_matches, by.matches),
        num_misses: counts::add(t.num_misses, by.misses),
        num_false_positives: counts::add(t.num_false_positives, by.false_positives),
        num_switches: counts::add(t.num_switches, by.switches),
        num_objects: counts::add(t.num_objects, by.objects),
        total_distance: distance,
        ..t
    }
}

/// Whether none of the six counters is negative.
#[tactic(auto, unfolding(crate::specs::Totals::totals_sound))]
pub fn totals_sound(t: Totals) -> bool
    ensures { result ≡ totals_sound (state_with [] t) }
{
    // Kept: as in `room_for_all`.
    all_three(
        counts::not_negative(t.frame_id),
        counts::not_negative(t.num_matches),
        counts::not_negative(t.num_misses),
    ) && all_three(
        counts::not_negative(t.num_false_positives),
        counts::not_negative(t.num_switches),
        counts::not_negative(t.num_objects),
    )
}
