// Scores the scenes that the command line names.
#![tactic(auto)]

fn main(rt: HostRuntime) {
    score_words::answer_words(&rt);
}
