//! Tables of ids as words.
#![tactic(auto)]

use lines::input::Reader;
use lines::output::Writer;
use lines::tables::{Given, places_shown};
use partners::Truths;
use seen::Hypotheses;
use state_requests::{read_partner, say_partner};

pub fn read_truths(reader: &mut Reader) -> Option<Given<Truths>> {
    let mut table = Truths::new();
    table.used = reader.count()? as usize;
    let given = reader.length(256)?;
    // Kept: by an index, as each place's two words go to two arrays; a zip of two iter_mut is no plainer.
    for i in 0..given {
        table.ids[i] = reader.whole()?;
        table.lasts[i] = read_partner(reader)?;
    }
    Some(Given { table, given })
}

pub fn read_hypotheses(reader: &mut Reader) -> Option<Given<Hypotheses>> {
    let mut table = Hypotheses::new();
    table.used = reader.count()? as usize;
    let given = reader.length(1024)?;
    for id in table.ids[..given].iter_mut() {
        *id = reader.whole()?;
    }
    Some(Given { table, given })
}

pub fn say_truths(w: &mut Writer, t: &Truths, given: usize) {
    let n = places_shown(t.used, given, 256);
    w.next_decimal(n as u64);
    for (id, last) in t.ids[..n].iter().zip(&t.lasts[..n]) {
        w.next_whole(*id);
        say_partner(w, *last);
    }
}

pub fn say_hypotheses(w: &mut Writer, h: &Hypotheses, given: usize) {
    let n = places_shown(h.used, given, 1024);
    w.next_decimal(n as u64);
    for id in &h.ids[..n] {
        w.next_whole(*id);
    }
}
