// Ids and counters, i32 as the Rust has them: each test and each sum of them once; a place as an index, and one test or another.
#![tactic(auto)]

ghost use Rattle.std.specs.Prelude.{◌≡◌, true, ◌||◌, ◌≤◌, pos, ◌+ℤ◌};
ghost use Rattle.std.specs.Int.Signed.{non_neg};
ghost use Rattle.counts.specs.Counts.{same_id, room_for, one_if};

// What a counter may reach; refusal 7 is for one that would pass it.
const MOST: i32 = i32::MAX;

/// Whether two ids are the same.
// Kept: `same_id` may not change, and wrong versions of it are tried (must-fail/).
pub fn same_id(a: i32, b: i32) -> bool
    ensures { result ≡ same_id a b }
{
    a == b
}

/// Whether a counter is one that refusal 1 lets by.
// Kept: `not_negative` may not change, and wrong versions of it are tried (must-fail/).
pub fn not_negative(n: i32) -> bool
    ensures { result ≡ non_neg n }
{
    n >= 0
}

/// Whether a counter can be raised by more without passing what it may reach.
pub fn room_for(n: i32, more: usize) -> bool
    requires { more ≤ 2147483647 }
    ensures { result ≡ room_for n more }
{
    n <= MOST - more as i32
}

/// A counter raised by more.
pub fn add(n: i32, more: usize) -> i32
    requires more_bound { more ≤ 2147483647 }
    requires more_value { room_for n more ≡ true }
    ensures { result ≡ n +ℤ pos more }
{
    n + more as i32
}

/// What a thing that happened, or did not, adds to a counter.
pub fn one_if(happened: bool) -> usize
    ensures { result ≡ one_if happened }
{
    usize::from(happened)
}

/// A place, kept narrow, as an index.
// Kept: `wide` may not change, and wrong versions of it are tried (must-fail/).
pub fn wide(place: u32) -> usize
    ensures { result ≡ place }
{
    place as usize
}

/// Whether one of two things is so.
// Kept: `either` may not change, and wrong versions of it are tried (must-fail/).
pub fn either(a: bool, b: bool) -> bool
    ensures { result ≡ (a || b) }
{
    a || b
}
