// Indices, marks and squares, for the search and for what is proved of it.
#![tactic(auto)]

ghost use Rattle.std.specs.Prelude.{◌≡◌, ◌≤◌, replicate};
ghost use Rattle.square.specs.Index.{Picked};

/// The numbers below `n` whose mark is as wanted, rising, in lent places that hold zeros, and how many they are.
pub fn pick(marks: &[bool; 64], n: usize, wanted: bool, places: &mut [usize]) -> usize
    requires { (n ≤ 64) × (places.old ≡ replicate 64 0) }
    ensures { Picked wanted marks.now n places.new result }
{
    let mut used = 0;
    for (i, &mark) in marks[..n].iter().enumerate() {
        if mark == wanted {
            places[used] = i;
            used += 1;
        }
    }
    used
}
