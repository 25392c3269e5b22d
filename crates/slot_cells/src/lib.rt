// A slot as nine numbers, one for each column of a table that is lent as a run of numbers.
#![tactic(auto)]

ghost use Rattle.std.specs.Prelude.{◌≡◌};
ghost use Rattle.slot_cells.specs.Cells.{partner_of, slot_of, cells_of};

use lifecycle::TrackLifecycle;
use slots::Slot;

/// The nine numbers of a slot, one of each column. A flag is 0 or not; a partner counts where it is known.
#[derive(Clone, Copy)]
pub struct Cells {
    pub id: i32,
    pub first: i32,
    pub last: i32,
    pub tracked: i32,
    pub detected: i32,
    pub fragmentations: i32,
    pub matched: i32,
    pub known: i32,
    pub partner: i32,
}

/// The last partner, where it is known.
pub fn partner_of(known: i32, partner: i32) -> Option<i32>
    ensures { result ≡ partner_of known partner }
{
    if !counts::same_id(known, 0) {
        return Some(partner);
    }
    None
}

impl From<Cells> for Slot {
    ghost from_gives = { λ cells slot. slot ≡ slot_of cells };

    /// The slot that nine numbers stand for.
    #[tactic(auto, unfolding(crate::specs::Cells::slot_of))]
    fn from(cells: Cells) -> Slot {
        Slot {
            lifecycle: TrackLifecycle {
                gt_id: cells.id,
                first_frame: cells.first,
                last_frame: cells.last,
                tracked_frames: cells.tracked,
                detected_frames: cells.detected,
                fragmentations: cells.fragmentations,
                was_matched: !counts::same_id(cells.matched, 0),
            },
            partner: partner_of(cells.known, cells.partner),
        }
    }
}

impl From<Slot> for Cells {
    ghost from_gives = { λ slot cells. cells ≡ cells_of slot };

    /// The nine numbers that a slot is written as.
    #[tactic(auto, unfolding(crate::specs::Cells::cells_of))]
    fn from(slot: Slot) -> Cells {
        let it = slot.lifecycle;
        Cells {
            id: it.gt_id,
            first: it.first_frame,
            last: it.last_frame,
            tracked: it.tracked_frames,
            detected: it.detected_frames,
            fragmentations: it.fragmentations,
            matched: i32::from(it.was_matched),
            known: i32::from(slot.partner.is_some()),
            partner: slot.partner.unwrap_or(0),
        }
    }
}

/// The slot that nine numbers stand for.
// Kept: what may not change is that this public function stands; `Slot::from` is the same.
pub fn slot_of(cells: Cells) -> Slot
    ensures { result ≡ slot_of cells }
{
    Slot::from(cells)
}
