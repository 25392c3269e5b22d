//! Whole numbers of up to 315 digits in limbs of nine, the least first. A limb is below 1,000,000,000;
//! no proof hangs on it.
ghost use Rattle.std.specs.Prelude.{◌*◌, ◌≤◌, ◌<◌, ◌+◌};

// n times the factor and some more. What passes the last limb is lost; a float's millionths fit.
fn scale(n: &mut [u32; 35], factor: u64, more: u64)
    requires { (factor ≤ 536870912) × (more ≤ 4611686018427387904) }
{
    let mut carry = more;
    for limb in n.iter_mut() {
        let amount = u64::from(*limb) * factor + carry;
        *limb = (amount % 1_000_000_000) as u32;
        carry = amount / 1_000_000_000;
    }
}

// n times a power of two, up to 29 doublings at a time.
fn double(n: &mut [u32; 35], times: u64) {
    for _ in 0..times / 29 {
        scale(n, 1 << 29, 0);
    }
    for _ in 0..times % 29 {
        scale(n, 2, 0);
    }
}

// Half of n, which has no more than three limbs, and whether one is left over.
fn halve(n: &mut [u32; 35]) -> bool {
    let mut carry = 0;
    for i in (0..3).rev() {
        let amount = carry * 1_000_000_000 + u64::from(n[i]);
        n[i] = (amount / 2) as u32;
        carry = amount % 2;
    }
    carry == 1
}

// What rounding adds: half is the first bit that was cut off, rest any bit after it.
fn rounding(n: &[u32; 35], half: bool, rest: bool) -> u64
    ensures { result ≤ 1 }
{
    if !half {
        0
    } else if rest {
        1
    } else {
        u64::from(n[0] % 2)
    }
}

// n halved so often and rounded to the nearest, ties to even.
fn halve_rounded(n: &mut [u32; 35], times: u64) {
    let mut half = false;
    let mut rest = false;
    for _ in 0..times {
        rest = rest || half;
        half = halve(n);
    }
    let more = rounding(n, half, rest);
    scale(n, 1, more);
}

/// A float of this exponent and fraction times a million, rounded to a whole number. n comes as zero.
pub fn millionths(exponent: u64, fraction: u64, n: &mut [u32; 35])
    requires { fraction < 4503599627370496 }
{
    if exponent == 0 {
        // below 2^-1022, which is far below a millionth
        return;
    }
    scale(n, 1, fraction + 4503599627370496);
    scale(n, 1000000, 0);
    if exponent < 1075 {
        // of 53 bits times a million 75 halvings leave less than a quarter
        halve_rounded(n, (1075 - exponent).min(75));
    } else {
        double(n, exponent - 1075);
    }
}
