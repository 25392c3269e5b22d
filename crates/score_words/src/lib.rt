//! The words of a command line, each the name of a scene.
#![tactic(auto)]

use lines::output::Writer;
use scenes::Scene;
use score_scene::score;
use std::env::{Env, FillError};

fn say_scene(w: &mut Writer, title: &[u8], scene: Scene) {
    w.text(title);
    w.text(b"\n\n");
    score(w, scene);
}

fn say_help(w: &mut Writer) {
    w.text(b"score plays a scene through both accumulators and prints what they count.\n\n");
    w.text(b"  ./run               the scene match\n");
    w.text(b"  ./run SCENE ..      these scenes\n");
    w.text(b"  ./run answers ..    requests and their answers instead (./run answers --help)\n");
    w.text(b"  ./run --help        this text\n\n");
    w.text(b"The scenes:\n\n");
    w.text(
        b"  match      36 frames of football: a miss, a re-entry, an identity switch, false positives\n",
    );
    w.text(b"  incident   36 frames in which two players carry one truth id\n");
    w.text(b"  flat       4 frames, the third with a box that has no width: a refusal\n");
}

/// No letters: the scene match. A word that is no scene's: what there is.
pub fn answer_word(w: &mut Writer, word: &[u8]) {
    match word {
        b"" | b"match" => say_scene(
            w,
            b"match: football, with a miss, a re-entry, an identity switch and false positives",
            Scene::Match,
        ),
        b"incident" => say_scene(
            w,
            b"incident: two players carry one truth id, and make one lifecycle",
            Scene::Incident,
        ),
        b"flat" => say_scene(
            w,
            b"flat: the third frame has a box with no width",
            Scene::Flat,
        ),
        _ => say_help(w),
    }
}

// The command line's word of this number, from 1. One that is not there has no letters; one that is too long is no scene's.
fn answer_argument(rt: &HostRuntime, w: &mut Writer, i: usize) {
    let mut letters = [0u8; 32];
    match rt.arg(i, &mut letters) {
        Ok(n) => answer_word(w, &letters[..n]),
        Err(FillError::NotPresent) => answer_word(w, b""),
        Err(FillError::TooLong) => say_help(w),
    }
}

// How many arguments the program has, its own name among them.
fn argument_count(rt: &HostRuntime) -> usize {
    let mut letters = [0u8; 32];
    for i in 0..usize::MAX {
        if let Err(FillError::NotPresent) = rt.arg(i, &mut letters) {
            return i;
        }
    }
    usize::MAX
}

// How many words are answered: one where there is none. (The first argument is the program's name.)
fn words(arguments: usize) -> usize {
    arguments.max(2) - 1
}

/// Every word in its turn, with an empty line between two.
pub fn answer_words(rt: &HostRuntime) {
    let mut w = Writer::new(rt.stdout());
    for i in 0..words(argument_count(rt)) {
        if i > 0 {
            w.byte(b'\n');
        }
        answer_argument(rt, &mut w, i + 1);
    }
    w.flush();
}
