//! A row for each truth id: its lifecycle.
use lifecycle::TrackLifecycle;
use lifecycle_parts::{Class, class_of};
use lines::output::Writer;
use rows::ExtendedMOTAccumulator;
use table_text::{six, whole};

pub fn say_class(w: &mut Writer, class: Class) {
    match class {
        Class::MostlyTracked => w.text(b"mostly tracked"),
        Class::PartiallyTracked => w.text(b"partly tracked"),
        Class::MostlyLost => w.text(b"mostly lost"),
    }
}

fn say_life(w: &mut Writer, it: TrackLifecycle) {
    let coverage = it.coverage();
    whole(w, 8, it.gt_id);
    whole(w, 13, it.first_frame);
    whole(w, 12, it.last_frame);
    whole(w, 10, it.detected_frames);
    whole(w, 9, it.tracked_frames);
    six(w, 10, coverage.value);
    whole(w, 16, it.fragmentations);
    w.text(b"  ");
    say_class(w, class_of(coverage.value));
    w.byte(b'\n');
}

/// A state that says that more slots are used than there are has no rows.
pub fn say_lives(w: &mut Writer, s: &ExtendedMOTAccumulator) {
    w.text(
        b"truth id  first frame  last frame  detected  tracked  coverage  fragmentations  class\n",
    );
    if s.used > 256 {
        return;
    }
    for slot in &s.slots[..s.used] {
        say_life(w, slot.lifecycle);
    }
}
