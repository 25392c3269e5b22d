//! The port's side of the comparison: a request a line in, an answer a line out (oracle/PROTOCOL.md).
#![tactic(auto)]

use lines::session::Session;

// None where no request has the name, or the line does not say what it needs.
fn answer(name: &[u8], s: &mut Session) -> Option<()> {
    match name {
        b"min" => float_requests::min(s),
        b"max" => float_requests::max(s),
        b"abs" => float_requests::abs(s),
        b"is_finite" => float_requests::is_finite(s),
        b"is_zero" => float_requests::is_zero(s),
        b"iou_distance" => box_requests::iou_distance(s),
        b"iou_share" => box_requests::iou_share(s),
        b"compute_iou_distance_matrix" => box_requests::compute_iou_distance_matrix(s),
        b"iou_matrix" => box_requests::iou_matrix(s),
        b"linear_sum_assignment" => search_requests::linear_sum_assignment(s),
        b"lifecycle_new" => lifecycle_requests::lifecycle_new(s),
        b"update_matched" => lifecycle_requests::update_matched(s),
        b"update_missed" => lifecycle_requests::update_missed(s),
        b"coverage" => lifecycle_requests::coverage(s),
        b"extended" => extended_requests::extended(s),
        b"mot" => mot_requests::mot(s),
        b"metrics" => metric_requests::metrics(s),
        _ => None,
    }
}

fn answer_request(s: &mut Session) -> Option<()> {
    let mut letters = [0u8; 64];
    let n = s.reader.first_word_unless_fault(&mut letters)?;
    answer(&letters[..n], s)
}

// An empty line's answer is an empty line.
fn answer_line(s: &mut Session) -> Option<()> {
    if s.reader.peek() == b'\n' {
        return s.reader.end_line_unless_fault();
    }
    answer_request(s)
}

fn main(rt: HostRuntime) {
    Session::new(&rt).answer_lines(answer_line);
}
