// The columns or rows whose centres lie in an interval. A guess is tested as it stands, and searched from only where it is wrong.
#![tactic(auto)]

ghost use Rattle.std.specs.Prelude.{◌≡◌, true, false, ℕ, ◌≤◌, ◌<◌};
ghost use Rattle.pixels.specs.Pixel.{centre};
ghost use Rattle.rules.specs.Scan as scan;
ghost use Rattle.boxes.specs.Reach.{reached, FirstReached, Settled};

// An end of an interval, in pixels.
#[derive(Clone, Copy)]
pub enum End {
    Lower(f32),
    Upper(f32),
}

// Whether centre i has come to the lower end, or is past the upper end.
#[tactic(auto, unfolding(crate::specs::Reach::reached))]
fn has_reached(end: End, i: usize) -> bool
    requires { i ≤ 4096 }
    ensures { result ≡ reached end i }
{
    match end {
        End::Lower(x) => x <= pixels::centre(i),
        End::Upper(x) => !(pixels::centre(i) <= x),
    }
}

// A number to begin with: nothing rests on it but speed.
fn guess(end: End, n: usize) -> usize
    ensures { result ≤ n }
{
    match end {
        End::Lower(x) => pixels::nearest_held(x, n),
        End::Upper(x) => pixels::nearest_held(x, n),
    }
}

// Whether the one before i has reached the end.
#[tactic(auto, using(crate::proofs::Reaching::settled_none))]
fn before_reached(end: End, i: usize) -> bool
    requires { i ≤ 4096 }
    ensures { result ≡ false → Settled end 4096 i }
{
    0 < i && has_reached(end, i - 1)
}

// Whether i is the first of n that has reached the end.
#[tactic(auto, using(crate::proofs::Reaching::first_end))]
fn is_first(end: End, n: usize, i: usize) -> bool
    requires n_bound { n ≤ 4096 }
    requires i_le_n { i ≤ n }
    ensures { result ≡ true → FirstReached end n i }
{
    !before_reached(end, i) && (n <= i || has_reached(end, i))
}

// Back from a number while the one before has reached the end.
#[tactic(auto, using(crate::proofs::Reaching::settled_none))]
fn settle_back(end: End, from: usize) -> usize
    requires { from ≤ 4096 }
    ensures { Settled end from result }
{
    for i in (0..from).rev() {
        if !has_reached(end, i) {
            return i + 1;
        }
    }
    0
}

// On from a number, which none before has reached the end, to the first that has.
#[tactic(auto, using(crate::proofs::Reaching::settled_more, crate::proofs::Reaching::first_last))]
fn settle_on(end: End, n: usize, from: usize) -> usize
    requires n_bound { n ≤ 4096 }
    requires settled { Settled end n from }
    ensures { FirstReached end n result }
{
    for i in from..n {
        if has_reached(end, i) {
            return i;
        }
    }
    n
}

// The first of n columns or rows that has reached the end, or n.
#[tactic(auto, using(crate::proofs::Reaching::settled_most))]
pub fn first_reached(end: End, n: usize) -> usize
    requires { n ≤ 4096 }
    ensures { FirstReached end n result }
{
    let g = guess(end, n);
    if is_first(end, n, g) {
        return g;
    }
    settle_on(end, n, settle_back(end, g))
}

// Whether an interval can hold a centre of the image at all.
#[tactic(auto, using(crate::proofs::Reaching::misses_low, crate::proofs::Reaching::misses_high))]
pub fn meets(low: f32, high: f32, n: usize) -> bool
    requires some { 1 ≤ n }
    requires most { n ≤ 4096 }
    ensures { result ≡ false → (i : ℕ) → i < n → scan.between low high (centre i) ≡ false }
{
    low <= pixels::centre(n - 1) && pixels::centre(0) <= high
}
