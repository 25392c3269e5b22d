// The scenes that are shipped, and the one place where their frames come from.
#![tactic(auto)]

ghost use Rattle.std.specs.Prelude.{◌≡◌, ◌≤◌, ◌<◌, length};
ghost use Rattle.scenes.specs.Frames.{frames_in, truths_in, predictions_in, Few, Lent, Shown};

use crate::frame_tables::{FLAT_FRAMES, INCIDENT_FRAMES, MATCH_FRAMES};
use crate::prediction_tables::{FLAT_PREDICTIONS, INCIDENT_PREDICTIONS, MATCH_PREDICTIONS};
use crate::truth_tables::{FLAT_TRUTHS, INCIDENT_TRUTHS, MATCH_TRUTHS};
use scene_rows::{digits_at, side};

mod frame_tables;
mod prediction_tables;
mod truth_tables;

#[derive(Clone, Copy)]
pub enum Scene {
    Match,
    Incident,
    Flat,
}

// How many ids and box floats a frame has on each side.
#[derive(Clone, Copy)]
pub struct Sizes {
    pub truths: usize,
    pub truth_floats: usize,
    pub predictions: usize,
    pub predicted_floats: usize,
}

// A frame of a scene's three tables.
fn frame_of(
    frames: &[u64],
    truths: &[u64],
    predictions: &[u64],
    number: usize,
    truth_ids: &mut [i32],
    truth_boxes: &mut [f64],
    ids: &mut [i32],
    boxes: &mut [f64],
) -> Sizes
    requires { (64 ≤ length truth_ids.old) × (256 ≤ length truth_boxes.old) × (64 ≤ length ids.old) × (256 ≤ length boxes.old) }
    ensures shown { Shown frames.now truths.now predictions.now number result truth_ids.new truth_boxes.new ids.new boxes.new }
    ensures few { Few result }
    ensures truth_ids_len_unchanged { (length truth_ids.new ≡ length truth_ids.old) × (length truth_boxes.new ≡ length truth_boxes.old) }
    ensures ids_len_unchanged { (length ids.new ≡ length ids.old) × (length boxes.new ≡ length boxes.old) }
{
    let digits = digits_at(frames, number);
    let n = side(
        truths,
        (digits / 100_000_000) as usize,
        (digits / 1_000_000 % 100) as usize,
        truth_ids,
        truth_boxes,
    );
    let m = side(
        predictions,
        (digits / 100 % 10_000) as usize,
        (digits % 100) as usize,
        ids,
        boxes,
    );
    Sizes {
        truths: n,
        truth_floats: n * 4,
        predictions: m,
        predicted_floats: m * 4,
    }
}

// How many frames a scene has.
pub fn frames(scene: Scene) -> usize
    ensures { (result ≡ length (frames_in scene)) × (result < 10000) }
{
    match scene {
        Scene::Match => MATCH_FRAMES.len(),
        Scene::Incident => INCIDENT_FRAMES.len(),
        Scene::Flat => FLAT_FRAMES.len(),
    }
}

// Where frames come from: a scene's frame of this number, from 0, in memory that is lent.
pub fn frame_at(
    scene: Scene,
    number: usize,
    truth_ids: &mut [i32; 64],
    truth_boxes: &mut [f64; 256],
    ids: &mut [i32; 64],
    boxes: &mut [f64; 256],
) -> Sizes
    ensures shown { Shown (frames_in scene) (truths_in scene) (predictions_in scene) number result truth_ids.new truth_boxes.new ids.new boxes.new }
    ensures lent { Lent result.truths result.truth_floats truth_ids.new truth_boxes.new }
    ensures lent_2 { Lent result.predictions result.predicted_floats ids.new boxes.new }
{
    match scene {
        Scene::Match => frame_of(
            &MATCH_FRAMES,
            &MATCH_TRUTHS,
            &MATCH_PREDICTIONS,
            number,
            truth_ids,
            truth_boxes,
            ids,
            boxes,
        ),
        Scene::Incident => frame_of(
            &INCIDENT_FRAMES,
            &INCIDENT_TRUTHS,
            &INCIDENT_PREDICTIONS,
            number,
            truth_ids,
            truth_boxes,
            ids,
            boxes,
        ),
        Scene::Flat => frame_of(
            &FLAT_FRAMES,
            &FLAT_TRUTHS,
            &FLAT_PREDICTIONS,
            number,
            truth_ids,
            truth_boxes,
            ids,
            boxes,
        ),
    }
}
