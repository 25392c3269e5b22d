//! A scene played frame by frame through both accumulators, and what is said of it.
#![tactic(auto)]

ghost use Rattle.std.specs.Prelude.{◌≡◌, ◌<◌};
ghost use Rattle.replay.specs.Replay.{new_both};
ghost use Rattle.score_scene.specs.Playing.{scene_step, run_after, played_of, Stands};

use lines::output::Writer;
use metrics::MOTAccumulator;
use replay::{Both, Step};
use rows::ExtendedMOTAccumulator;
use scenes::Scene;
use score_text::frames::{say_head, say_row};
use score_text::lives::say_lives;
use score_text::reasons::say_refusal;
use score_totals::say_totals;
use summary::running_coverage;

// Where a run stands: the states, and whether a refusal has ended it.
// Kept: a flag beside the states, which `Stands` sets beside the definitions' `Run`; a Result would hold the same states in both cases.
#[derive(Clone, Copy)]
struct Played {
    both: Both,
    over: bool,
}

// Two new states.
fn start() -> Both
    ensures { result ≡ new_both }
{
    let extended = ExtendedMOTAccumulator::new();
    let metrics = MOTAccumulator::new();
    Both { extended, metrics }
}

// A refusal ends a run: the rows before it stand, and the states are those after the last row.
fn say_step(w: &mut Writer, frame: u64, step: Step) -> Played
    ensures { Stands result.both result.over (run_after step) }
{
    let both = step.both;
    // Kept: two numbers, by which `run_after` tells the refusals, and which are printed.
    if step.extended_number != 0 {
        say_refusal(w, frame, b"the extended accumulator", step.extended_number);
        return Played { both, over: true };
    }
    if step.metrics_number != 0 {
        say_refusal(w, frame, b"module 4's accumulator", step.metrics_number);
        return Played { both, over: true };
    }
    say_row(w, frame, step.row, running_coverage(both.extended));
    Played { both, over: false }
}

// The scene's frame of this number, from 0; the accumulators and the table count from 1.
fn play_frame(w: &mut Writer, scene: Scene, number: usize, p: Played) -> Played
    requires { number < 10000 }
    ensures { Stands result.both result.over (run_after (scene_step scene number p.both)) }
{
    let mut truth_ids = [0i32; 64];
    let mut truth_boxes = [0.0; 256];
    let mut ids = [0i32; 64];
    let mut boxes = [0.0; 256];
    let n = scenes::frame_at(
        scene,
        number,
        &mut truth_ids,
        &mut truth_boxes,
        &mut ids,
        &mut boxes,
    );
    let frame = number + 1;
    let step = replay::play_frame(
        p.both,
        frame as i32,
        &truth_ids[..n.truths],
        &truth_boxes[..n.truth_floats],
        &ids[..n.predictions],
        &boxes[..n.predicted_floats],
    );
    say_step(w, frame as u64, step)
}

// All frames, up to the first that is refused.
fn play(w: &mut Writer, scene: Scene, frames: usize) -> Played
    requires { frames < 10000 }
    ensures { Stands result.both result.over (played_of scene frames) }
{
    let both = start();
    let mut p = Played { both, over: false };
    for number in 0..frames {
        if p.over {
            return p;
        }
        p = play_frame(w, scene, number, p);
    }
    p
}

fn say_end(w: &mut Writer, both: Both) {
    w.byte(b'\n');
    say_lives(w, &both.extended);
    w.byte(b'\n');
    say_totals(w, both.extended, both.metrics);
}

/// The whole of a scene: its frames, its truth ids, its scores.
pub fn score(w: &mut Writer, scene: Scene) {
    say_head(w);
    let p = play(w, scene, scenes::frames(scene));
    say_end(w, p.both);
}
