//! Decimal texts beside Python's "%.6f": a float's 16 hex digits a line in, its text a line out.
#![tactic(auto)]

use decimal_text::write_six;
use float_bits::float_of;
use lines::session::Session;
use numerals::digits::hex;

// The line's word as a text; `?` where it is no pattern, None where it is too long or not the only one.
fn answer_line(s: &mut Session) -> Option<()> {
    let mut word = [0u8; 64];
    let n = s.reader.first_word_unless_fault(&mut word)?;
    s.reader.end_line_unless_fault()?;
    match hex(&word[..n]) {
        Some(bits) => {
            let mut letters = [0u8; 320];
            let n = write_six(float_of(bits), &mut letters);
            s.writer.text(&letters[..n]);
        }
        None => s.writer.byte(b'?'),
    }
    Some(())
}

fn main(rt: HostRuntime) {
    Session::new(&rt).answer_lines(answer_line);
}
