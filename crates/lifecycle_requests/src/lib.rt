//! A lifecycle as words, and the requests of one (oracle/PROTOCOL.md).
#![tactic(auto)]

use lifecycle::{TrackLifecycle, Updated};
use lines::input::Reader;
use lines::output::Writer;
use lines::session::Session;

/// 1 is true and 0 false; None where it is neither.
pub fn flag(reader: &mut Reader) -> Option<bool> {
    match reader.count()? {
        0 => Some(false),
        1 => Some(true),
        _ => {
            reader.mark(true);
            None
        }
    }
}

pub fn read_lifecycle(reader: &mut Reader) -> Option<TrackLifecycle> {
    Some(TrackLifecycle {
        gt_id: reader.whole()?,
        first_frame: reader.whole()?,
        last_frame: reader.whole()?,
        tracked_frames: reader.whole()?,
        detected_frames: reader.whole()?,
        fragmentations: reader.whole()?,
        was_matched: flag(reader)?,
    })
}

/// The seven words, with no space before the first.
pub fn say_lifecycle(w: &mut Writer, it: TrackLifecycle) {
    w.whole(it.gt_id);
    w.next_whole(it.first_frame);
    w.next_whole(it.last_frame);
    w.next_whole(it.tracked_frames);
    w.next_whole(it.detected_frames);
    w.next_whole(it.fragmentations);
    w.next_decimal(u64::from(it.was_matched));
}

pub fn lifecycle_new(s: &mut Session) -> Option<()> {
    let id = s.reader.whole()?;
    let frame = s.reader.whole()?;
    s.reader.end_line_unless_fault()?;
    say_lifecycle(&mut s.writer, TrackLifecycle::new(id, frame));
    Some(())
}

// The number, and the lifecycle as an update leaves it.
fn say_updated<F: Fn(TrackLifecycle, i32) -> Updated>(s: &mut Session, update: F) -> Option<()>
    requires { F.IsAlwaysCallable update }
{
    let it = read_lifecycle(&mut s.reader)?;
    let frame = s.reader.whole()?;
    s.reader.end_line_unless_fault()?;
    let updated = update(it, frame);
    s.writer.decimal(u64::from(updated.number));
    s.writer.byte(b' ');
    say_lifecycle(&mut s.writer, updated.lifecycle);
    Some(())
}

pub fn update_matched(s: &mut Session) -> Option<()> {
    say_updated(s, TrackLifecycle::update_matched)
}

pub fn update_missed(s: &mut Session) -> Option<()> {
    say_updated(s, TrackLifecycle::update_missed)
}

pub fn coverage(s: &mut Session) -> Option<()> {
    let it = read_lifecycle(&mut s.reader)?;
    s.reader.end_line_unless_fault()?;
    let c = it.coverage();
    s.writer.decimal(u64::from(c.number));
    s.writer.next_float(float_bits::computed(c.value));
    Some(())
}
