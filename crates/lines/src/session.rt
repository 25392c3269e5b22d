//! The reading and the writing of a program that answers a line at a time.
use crate::input::{LONGEST_RUN, Reader};
use crate::output::Writer;

/// No more lines than these are answered.
const MOST_LINES: u64 = 0x100_0000_0000;

/// A request reads its words and the line's end by `?`, and then writes; a sequence's frames are answered as they are read. None is a
/// line that does not say it. The three runs are room that is made once: a request reads no more of them than it filled.
#[derive(Clone, Copy)]
pub struct Session {
    pub reader: Reader,
    pub writer: Writer,
    pub first: [f64; LONGEST_RUN],
    pub second: [f64; LONGEST_RUN],
    pub third: [f64; LONGEST_RUN],
}

impl Session {
    pub fn new(rt: &HostRuntime) -> Session {
        Session {
            reader: Reader::new(rt.stdin()),
            writer: Writer::new(rt.stdout()),
            first: [0.0; LONGEST_RUN],
            second: [0.0; LONGEST_RUN],
            third: [0.0; LONGEST_RUN],
        }
    }

    // Whether a line is left, and its answer can still be written.
    fn goes_on(&mut self) -> bool {
        if self.writer.failed {
            return false;
        }
        self.reader.peek();
        !self.reader.over
    }

    // A line's answer is ended; where the line did not say a request, what is left of it is skipped.
    fn end_answer(&mut self, answered: Option<()>) {
        if answered.is_none() {
            self.reader.skip_line();
            self.writer.byte(b'?');
        }
        self.writer.byte(b'\n');
    }

    /// One line after the other, up to the input's end or the first write that fails. `answer` writes what a line's answer is,
    /// and is None where the line does not say it: then its end is not passed yet, as what is left of the line is skipped.
    /// A fault ends with its line.
    pub fn answer_lines<F: Fn(&mut Session) -> Option<()>>(&mut self, answer: F)
        requires { F.IsAlwaysCallable answer }
    {
        for _ in 0..MOST_LINES {
            if !self.goes_on() {
                break;
            }
            self.reader.mark(false);
            let answered = answer(self);
            self.end_answer(answered);
        }
        self.writer.flush();
    }

    /// The frames of a sequence: how many they are, then one after the other, up to the first that the line does not say.
    pub fn play<S: Sequence>(&mut self, sequence: &mut S) -> Option<()> {
        for _ in 0..self.reader.count()? {
            sequence.play_frame(self)?;
        }
        Some(())
    }
}

/// What takes frames, one after the other.
pub trait Sequence {
    /// Reads all of a frame's words, and then answers it.
    fn play_frame(&mut self, s: &mut Session) -> Option<()>;
}
