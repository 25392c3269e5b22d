//! A row for each frame, with the coverage so far.
use lines::output::Writer;
use summary::{Row, Running};
use table_text::{bar, count, six};

pub fn say_head(w: &mut Writer) {
    w.text(b"frame  matches  misses  false positives  switches  coverage so far\n");
}

pub fn say_row(w: &mut Writer, frame: u64, row: Row, running: Running) {
    count(w, 5, frame);
    count(w, 9, row.matches);
    count(w, 8, row.misses);
    count(w, 17, row.false_positives);
    count(w, 10, row.switches);
    six(w, 10, running.share);
    w.text(b"  ");
    bar(w, running.marks);
    w.byte(b'\n');
}
