//! The numbers of the refusals, by name.
use lines::output::Writer;

// Kept: by number, as each public call answers a refusal; done and a number of no refusal have a text too.
pub fn say_name(w: &mut Writer, number: u32) {
    match number {
        0 => w.text(b"done"),
        1 => w.text(b"a state that isn't sound"),
        2 => w.text(b"more than 64 boxes or ids on one side"),
        3 => w.text(b"ids and boxes that differ in number"),
        4 => w.text(b"a box with no width or no height"),
        5 => w.text(b"a table would hold too many ids"),
        6 => w.text(b"the log would pass its capacity"),
        7 => w.text(b"a count would pass 2147483647"),
        _ => w.text(b"a number with no name"),
    }
}

pub fn say_refusal(w: &mut Writer, frame: u64, by: &[u8], number: u32) {
    w.text(b"frame ");
    w.decimal(frame);
    w.text(b" refused by ");
    w.text(by);
    w.text(b": ");
    w.decimal(u64::from(number));
    w.text(b", ");
    say_name(w, number);
    w.text(b". The run ends here.\n");
}
