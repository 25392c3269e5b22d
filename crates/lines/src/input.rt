//! Standard input, word by word. Where the line does not say what is asked for, a method answers None, and what it has read stays read.
//! That is a fault; it stays until the next line begins, and after it no word is read but by `first_word`.
ghost use Rattle.std.specs.Prelude.{◌≡◌, false, ◌||◌, ◌≤◌, length, is_none, IfSome, option_map};
ghost use Rattle.std.specs.Float.{binary64};
ghost use Rattle.std.specs.Float.Ieee.{of_bits};
ghost use Rattle.io.specs.Counts.{IsPrefixLen};
ghost use Rattle.numerals.specs.Numbers.{hex_of, decimal_of};
ghost use Rattle.wholes.specs.Wholes.{whole_of};

use float_bits::float_of;
use numerals::digits::{decimal, hex};
use std::io::{Read, Stdin};
use wholes::whole_in;

/// How many floats a run may have.
pub const LONGEST_RUN: usize = 8192;

/// Standard input through a buffer, in which what was read and not yet passed lies from `at` up to `end`.
// Kept: a buffer with its places and two flags beside it, which `Onward` and `Within` speak of by these names; the library crates have fixed memory and no heap.
#[derive(Clone, Copy)]
pub struct Reader {
    pub stdin: Stdin,
    pub buf: [u8; 65536],
    pub at: usize,
    pub end: usize,
    /// Nothing is left to read: the input has ended, or a read has failed.
    pub over: bool,
    /// The line does not say what is asked of it; it stays so until the next line.
    pub fault: bool,
    pub ghost inside: { at ≤ end },
    pub ghost held: { end ≤ 65536 },
}

/// What a word can say.
pub trait Word: Copy {
    /// What the word says; None where it says no such value.
    fn said(word: &[u8]) -> Option<Self>;
}

impl Word for f64 {
    /// The float whose bits are the word's 16 hexadecimal digits.
    fn said(word: &[u8]) -> Option<f64>
        ensures { result ≡ option_map (λ bits. of_bits binary64 bits) (hex_of word.now) }
    {
        hex(word).map(float_of)
    }
}

impl Word for u64 {
    fn said(word: &[u8]) -> Option<u64>
        ensures { result ≡ decimal_of word.now }
    {
        decimal(word)
    }
}

impl Word for i32 {
    fn said(word: &[u8]) -> Option<i32>
        ensures { result ≡ whole_of word.now }
    {
        whole_in(word)
    }
}

fn ends_word(b: u8) -> bool {
    b == b' ' || b == b'\n'
}

impl Reader {
    ghost use Rattle.lines.specs.Cursors.{Within, Front, Onward, next_byte, marked_of, passed_of};

    /// Nothing read yet, nothing over, and no fault.
    pub fn new(stdin: Stdin) -> Reader
        ensures handle { result.stdin ≡ stdin }
        ensures places { (result.at ≡ 0) × (result.end ≡ 0) }
        ensures over { result.over ≡ false }
        ensures fault { result.fault ≡ false }
    {
        Reader {
            stdin,
            buf: io::large_buffer(),
            at: 0,
            end: 0,
            over: false,
            fault: false,
        }
    }

    /// The same place, with or without a fault.
    pub fn mark(&mut self, fault: bool)
        ensures { self.new ≡ marked_of self.old fault }
    {
        self.fault = fault;
    }

    // Where all that was read is used up, more is read.
    fn fill(&mut self)
        ensures onward { Onward self.old self.new }
        ensures fault { self.new.fault ≡ self.old.fault }
    {
        if self.at < self.end || self.over {
            return;
        }
        self.at = 0;
        self.end = self.stdin.read(&mut self.buf).unwrap_or(0);
        self.over = self.end == 0;
    }

    /// The byte that stands next, which is not passed; a line's end where the input is over.
    pub fn peek(&mut self) -> u8
        ensures onward { Onward self.old self.new × Within self.new }
        ensures fault { self.new.fault ≡ self.old.fault }
        ensures byte_value { result ≡ next_byte self.new }
    {
        self.fill();
        if self.at < self.end {
            self.buf[self.at]
        } else {
            b'\n'
        }
    }

    /// Past the byte that stands next, where one is left.
    pub fn pass(&mut self)
        ensures at { self.new.at ≡ passed_of self.old }
        ensures kept { (self.new.stdin ≡ self.old.stdin) × (self.new.buf ≡ self.old.buf) × (self.new.end ≡ self.old.end) × (self.new.over ≡ self.old.over) × (self.new.fault ≡ self.old.fault) }
    {
        if self.at < self.end {
            self.at += 1;
        }
    }

    /// The bytes up to a space or the line's end, at the start of letters; None where they fill it. They are read after a fault too, which stays.
    pub fn first_word(&mut self, letters: &mut [u8]) -> Option<usize>
        ensures onward { Onward self.old self.new }
        ensures fault { self.new.fault ≡ (self.old.fault || is_none result) }
        ensures word { IfSome result (λ n. IsPrefixLen n letters.new) }
    {
        let before = self.fault;
        self.mark(false);
        let word = self.first_word_unless_fault(letters);
        self.mark(before || word.is_none());
        word
    }

    /// The same, but None after a fault, and nothing read.
    pub fn first_word_unless_fault(&mut self, letters: &mut [u8]) -> Option<usize>
        ensures onward { Onward self.old self.new }
        ensures fault { self.new.fault ≡ is_none result }
        ensures word { IfSome result (λ n. IsPrefixLen n letters.new) }
    {
        if self.fault {
            return None;
        }
        for (n, letter) in letters.iter_mut().enumerate() {
            let b = self.peek();
            if ends_word(b) {
                return Some(n);
            }
            *letter = b;
            self.pass();
        }
        self.mark(true);
        None
    }

    /// The next word of the line, with a space before it; None where none stands there, and after a fault.
    pub fn next_word(&mut self, letters: &mut [u8]) -> Option<usize>
        ensures onward { Onward self.old self.new }
        ensures fault { self.new.fault ≡ is_none result }
        ensures word { IfSome result (λ n. IsPrefixLen n letters.new) }
    {
        if self.fault || self.peek() != b' ' {
            self.mark(true);
            return None;
        }
        self.pass();
        self.first_word_unless_fault(letters)
    }

    // What the next word says; None where it says no such value.
    fn word<W: Word>(&mut self) -> Option<W>
        ensures onward { Onward self.old self.new }
        ensures fault { self.new.fault ≡ is_none result }
    {
        let mut letters = [0u8; 64];
        let n = self.next_word(&mut letters)?;
        let said = W::said(&letters[..n]);
        self.mark(said.is_none());
        said
    }

    pub fn float(&mut self) -> Option<f64>
        ensures onward { Onward self.old self.new }
        ensures fault { self.new.fault ≡ is_none result }
    {
        self.word()
    }

    pub fn count(&mut self) -> Option<u64>
        ensures onward { Onward self.old self.new }
        ensures fault { self.new.fault ≡ is_none result }
    {
        self.word()
    }

    pub fn whole(&mut self) -> Option<i32>
        ensures onward { Onward self.old self.new }
        ensures fault { self.new.fault ≡ is_none result }
    {
        self.word()
    }

    /// How many words or rows follow; None where they are more than `most`.
    pub fn length(&mut self, most: usize) -> Option<usize>
        ensures onward { Onward self.old self.new }
        ensures fault { self.new.fault ≡ is_none result }
        ensures within { IfSome result (λ n. n ≤ most) }
    {
        let n = self.count()?;
        if n > most as u64 {
            self.mark(true);
            return None;
        }
        Some(n as usize)
    }

    // A run's length and then its words, at the start of run; None where it is too long.
    fn run<W: Word>(&mut self, run: &mut [W], longest: usize) -> Option<usize>
        ensures onward { Onward self.old self.new }
        ensures fault { self.new.fault ≡ is_none result }
        ensures front { IfSome result (λ n. Front n run.new × (n ≤ longest)) }
        ensures run_len_unchanged { length run.new ≡ length run.old }
    {
        let n = self.length(longest.min(run.len()))?;
        for place in run[..n].iter_mut() {
            *place = self.word()?;
        }
        Some(n)
    }

    /// A run of floats, at the start of run; None where it is too long, for run too.
    pub fn floats(&mut self, run: &mut [f64]) -> Option<usize>
        ensures onward { Onward self.old self.new }
        ensures fault { self.new.fault ≡ is_none result }
        ensures front { IfSome result (λ n. Front n run.new × (n ≤ 8192)) }
    {
        self.run(run, LONGEST_RUN)
    }

    /// A run of whole numbers, at the start of run; None where it is too long for that.
    pub fn wholes(&mut self, run: &mut [i32]) -> Option<usize>
        ensures onward { Onward self.old self.new }
        ensures fault { self.new.fault ≡ is_none result }
        ensures front { IfSome result (λ n. Front n run.new) }
        ensures run_len_unchanged { length run.new ≡ length run.old }
    {
        let longest = run.len();
        self.run(run, longest)
    }

    /// Past the line's end; None where words are left, of which none is passed. It is passed after a fault too, which stays.
    pub fn end_line(&mut self) -> Option<()>
        ensures onward { Onward self.old self.new }
        ensures fault { self.new.fault ≡ (self.old.fault || is_none result) }
    {
        let before = self.fault;
        self.mark(false);
        let ended = self.end_line_unless_fault();
        self.mark(before || ended.is_none());
        ended
    }

    /// The same, but None after a fault, and nothing passed.
    pub fn end_line_unless_fault(&mut self) -> Option<()>
        ensures onward { Onward self.old self.new }
        ensures fault { self.new.fault ≡ is_none result }
    {
        if self.fault || self.peek() != b'\n' {
            self.mark(true);
            return None;
        }
        self.pass();
        Some(())
    }

    /// Past the line's end, and all words before it.
    pub fn skip_line(&mut self)
        ensures { Onward self.old self.new }
    {
        for _ in 0..u64::MAX {
            let b = self.peek();
            self.pass();
            if b == b'\n' {
                return;
            }
        }
    }
}
