// The columns or rows that an edge's box meets. A guess is tested as it stands, and searched from only where it is wrong. The tests hold for infinities, and a
// NaN is passed over: what is left of the box is its other end.
#![tactic(auto)]

ghost use Rattle.std.specs.Prelude.{◌≡◌, true, ◌+◌, ◌≤◌};
ghost use Rattle.outlines.specs.Covered.{meets_side};
ghost use Rattle.outline_spans.specs.Narrowed.{NoneBefore, NoneFrom, Narrowed};

use boxes::lines::Span;

// Does line i begin before all that lies from a to b, either first?
fn is_before(a: f32, b: f32, n: usize, i: usize) -> bool
    requires { i ≤ 4096 }
    ensures { result ≡ true → NoneBefore (meets_side a b) n i }
{
    let edge = pixels::as_float(i);
    !(a <= edge) && !(b <= edge)
}

// Does line i of n begin past all of it?
fn is_past(a: f32, b: f32, n: usize, i: usize) -> bool
    requires { i ≤ 4096 }
    ensures { result ≡ true → NoneFrom (meets_side a b) n i }
{
    let edge = pixels::as_float(i);
    !(edge <= a) && !(edge <= b)
}

// A line off the border, before which none of n is met.
fn first_line(a: f32, b: f32, n: usize) -> usize
    requires { n ≤ 4096 }
    ensures least { 1 ≤ result }
    ensures missed { NoneBefore (meets_side a b) n result }
{
    let guess = pixels::nearest_held(a.min(b) - 0.5, n);
    for i in (1..guess).rev() {
        if is_before(a, b, n, i + 1) {
            return i + 1;
        }
    }
    1
}

// A line up to the last of n, from which on none is met.
fn past_line(a: f32, b: f32, n: usize) -> usize
    requires some { 1 ≤ n }
    requires most { n ≤ 4096 }
    ensures most { result + 1 ≤ n }
    ensures missed { NoneFrom (meets_side a b) n result }
{
    let last = n - 1;
    let guess = pixels::nearest_held(a.max(b) + 0.5, last);
    for i in guess..last {
        if is_past(a, b, n, i) {
            return i;
        }
    }
    last
}

// Of n lines, those that what lies from a to b, either first, meets.
pub fn lines_of(a: f32, b: f32, n: usize) -> Span
    requires some { 1 ≤ n }
    requires most { n ≤ 4096 }
    ensures { Narrowed (meets_side a b) n result }
{
    Span {
        start: first_line(a, b, n),
        end: past_line(a, b, n),
    }
}
