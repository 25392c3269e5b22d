//! The requests of module 1: boxes, and the two matrices (oracle/PROTOCOL.md).
#![tactic(auto)]

ghost use Rattle.std.specs.Prelude.{◌≤◌, length};

use boxes::Box;
use float_bits::computed;
use lines::input::Reader;
use lines::output::Writer;
use lines::session::Session;
use refusals::Refusal;

fn next_box(reader: &mut Reader) -> Option<Box> {
    Some(Box {
        x_min: reader.float()?,
        y_min: reader.float()?,
        x_max: reader.float()?,
        y_max: reader.float()?,
    })
}

fn box_pair(reader: &mut Reader) -> Option<(Box, Box)> {
    let a = next_box(reader)?;
    let b = next_box(reader)?;
    reader.end_line_unless_fault()?;
    Some((a, b))
}

pub fn iou_distance(s: &mut Session) -> Option<()> {
    let (a, b) = box_pair(&mut s.reader)?;
    let (number, x) = match iou::iou_distance(a, b) {
        Ok(x) => (0, x),
        Err(refusal) => (refusal.number(), 0.0),
    };
    s.writer.decimal(u64::from(number));
    s.writer.next_float(computed(x));
    Some(())
}

pub fn iou_share(s: &mut Session) -> Option<()> {
    let (a, b) = box_pair(&mut s.reader)?;
    s.writer.float(computed(iou::iou_share(a, b)));
    Some(())
}

// The number, and the places, of which those that the matrix has come first.
fn say_matrix<F: Fn(&[f64], &[f64], &mut [f64]) -> Result<(), Refusal>>(
    w: &mut Writer,
    fill: F,
    truth: &[f64],
    predicted: &[f64],
    places: &mut [f64],
)
    requires sizes { (length truth.now ≤ 8192) × (length predicted.now ≤ 8192) }
    requires fill { F.IsAlwaysCallable fill }
{
    let (number, written) = match fill(truth, predicted, places) {
        Ok(()) => (0, (truth.len() / 4) * (predicted.len() / 4)),
        Err(refusal) => (refusal.number(), 0),
    };
    w.decimal(u64::from(number));
    w.byte(b' ');
    w.run(places, written);
}

fn filled_matrix<F: Fn(&[f64], &[f64], &mut [f64]) -> Result<(), Refusal>>(
    s: &mut Session,
    fill: F,
) -> Option<()>
    requires { F.IsAlwaysCallable fill }
{
    let t = s.reader.floats(&mut s.first)?;
    let p = s.reader.floats(&mut s.second)?;
    let k = s.reader.floats(&mut s.third)?;
    s.reader.end_line_unless_fault()?;
    let places = &mut s.third[..];
    say_matrix(
        &mut s.writer,
        fill,
        &s.first[..t],
        &s.second[..p],
        &mut places[..k],
    );
    Some(())
}

pub fn compute_iou_distance_matrix(s: &mut Session) -> Option<()> {
    filled_matrix(s, matrix::write_distances)
}

pub fn iou_matrix(s: &mut Session) -> Option<()> {
    filled_matrix(s, matrix::write_shares)
}
