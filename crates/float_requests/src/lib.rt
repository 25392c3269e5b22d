//! The requests on single floats (oracle/PROTOCOL.md).
#![tactic(auto)]

use float_bits::computed;
use lines::session::Session;

fn read_one(s: &mut Session) -> Option<f64> {
    let x = s.reader.float()?;
    s.reader.end_line_unless_fault()?;
    Some(x)
}

// What an operation makes of the line's two floats.
fn say_of_two<F: Fn(f64, f64) -> f64>(s: &mut Session, operation: F) -> Option<()>
    requires { F.IsAlwaysCallable operation }
{
    let x = s.reader.float()?;
    let y = read_one(s)?;
    s.writer.float(computed(operation(x, y)));
    Some(())
}

// Whether the line's float passes a test: 1, or 0.
fn say_test<F: Fn(f64) -> bool>(s: &mut Session, test: F) -> Option<()>
    requires { F.IsAlwaysCallable test }
{
    let x = read_one(s)?;
    s.writer.decimal(u64::from(test(x)));
    Some(())
}

pub fn min(s: &mut Session) -> Option<()> {
    say_of_two(s, floats::min)
}

pub fn max(s: &mut Session) -> Option<()> {
    say_of_two(s, floats::max)
}

pub fn abs(s: &mut Session) -> Option<()> {
    let x = read_one(s)?;
    s.writer.float(computed(floats::abs(x)));
    Some(())
}

pub fn is_finite(s: &mut Session) -> Option<()> {
    say_test(s, floats::is_finite)
}

pub fn is_zero(s: &mut Session) -> Option<()> {
    say_test(s, floats::is_zero)
}
