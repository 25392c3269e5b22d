//! Standard output through a buffer, which goes out when it is full and where flush is called.
ghost use Rattle.std.specs.Prelude.{◌≡◌, false, ◌+◌, ◌≤◌, set};

use float_bits::{bits_of, computed};
use hex_text::spell;
use std::io::{Stdout, Write};
use wholes::size;

/// The first `at` bytes of the buffer wait. Once a write has failed, nothing is written.
// Kept: a buffer with its count and a flag beside it, which `Kept` speaks of by these names; the library crates have fixed memory and no heap.
#[derive(Clone, Copy)]
pub struct Writer {
    pub stdout: Stdout,
    pub buf: [u8; 65536],
    pub at: usize,
    pub failed: bool,
    pub ghost waits: { at ≤ 65536 },
}

impl Writer {
    ghost use Rattle.lines.specs.Cursors.{Kept, place_of};

    /// Nothing waits, and no write has failed.
    pub fn new(stdout: Stdout) -> Writer
        ensures handle { result.stdout ≡ stdout }
        ensures at { result.at ≡ 0 }
        ensures failed { result.failed ≡ false }
    {
        Writer {
            stdout,
            buf: io::large_buffer(),
            at: 0,
            failed: false,
        }
    }

    pub fn flush(&mut self)
        ensures kept { Kept self.old self.new × (self.new.at ≡ 0) }
        ensures buf_unchanged { self.new.buf ≡ self.old.buf }
    {
        self.failed = self.failed || self.stdout.write_all(&self.buf[..self.at]).is_err();
        self.at = 0;
    }

    pub fn byte(&mut self, b: u8)
        ensures kept { Kept self.old self.new × (self.new.at ≡ place_of self.old + 1) }
        ensures buf_after { self.new.buf ≡ set self.old.buf (place_of self.old) b }
    {
        if self.at == self.buf.len() {
            self.flush();
        }
        self.buf[self.at] = b;
        self.at += 1;
    }

    pub fn text(&mut self, bytes: &[u8])
        ensures { Kept self.old self.new }
    {
        for b in bytes {
            self.byte(*b);
        }
    }

    pub fn decimal(&mut self, n: u64)
        ensures { Kept self.old self.new }
    {
        let mut letters = [0u8; 20];
        let k = io::decimal(n, &mut letters);
        self.text(&letters[..k]);
    }

    pub fn whole(&mut self, x: i32)
        ensures { Kept self.old self.new }
    {
        if x < 0 {
            self.byte(b'-');
        }
        self.decimal(size(x));
    }

    pub fn float(&mut self, x: f64)
        ensures { Kept self.old self.new }
    {
        let letters = spell(bits_of(x));
        self.text(&letters);
    }

    /// A run, of which the first `written` places were computed and the others kept, the sign of a zero too.
    pub fn run(&mut self, xs: &[f64], written: usize)
        ensures { Kept self.old self.new }
    {
        let n = written.min(xs.len());
        self.decimal(xs.len() as u64);
        self.next_computed(&xs[..n]);
        for x in &xs[n..] {
            self.next_float(*x);
        }
    }

    /// A word that is a count, with the space before it.
    pub fn next_decimal(&mut self, n: u64)
        ensures { Kept self.old self.new }
    {
        self.byte(b' ');
        self.decimal(n);
    }

    /// A word that is a whole number, with the space before it.
    pub fn next_whole(&mut self, x: i32)
        ensures { Kept self.old self.new }
    {
        self.byte(b' ');
        self.whole(x);
    }

    /// A word that is a float, with the space before it.
    pub fn next_float(&mut self, x: f64)
        ensures { Kept self.old self.new }
    {
        self.byte(b' ');
        self.float(x);
    }

    /// Words that are computed floats, each with the space before it.
    pub fn next_computed(&mut self, xs: &[f64])
        ensures { Kept self.old self.new }
    {
        for x in xs {
            self.next_float(computed(*x));
        }
    }
}
