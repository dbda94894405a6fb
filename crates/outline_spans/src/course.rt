// How the side of an edge on which a corner lies changes along a row of corners: where it is known never to rise, or never to fall, a corner tells of all
// before it and all after it.
#![tactic(auto)]

ghost use Rattle.std.specs.Prelude.{◌≡◌, true, ◌≤◌, ◌<◌};
ghost use Rattle.std.specs.Option.{ForSome};
ghost use Rattle.pixels.specs.Pixel.{pixel};
ghost use Rattle.outlines.specs.Covered.{covers};
ghost use Rattle.outlines.specs.Answer.{ends_of};
ghost use Rattle.outline_spans.specs.Course as spec;
ghost use Rattle.outline_spans.specs.Course.{Runs};
ghost use Rattle.outline_spans.specs.Narrowed.{NoneBefore, NoneFrom};

use outlines::Ends;
use pixels::ImageSize;

// Never rising on the way right, or never falling.
#[derive(Clone, Copy)]
pub enum Course {
    Falling,
    Rising,
}

// k times the way from c to line i.
#[tactic(auto, unfolding(crate::specs::Course::stretched))]
fn stretched(k: f32, c: f32, i: usize) -> f32
    requires { i ≤ 4096 }
    ensures { result ≡ spec.stretched k c i }
{
    k * (pixels::as_float(i) - c)
}

// Is that finite at the first line and at line n?
#[tactic(auto, unfolding(crate::specs::Course::ends_finite))]
fn ends_finite(k: f32, c: f32, n: usize) -> bool
    requires { n ≤ 4096 }
    ensures { result ≡ spec.ends_finite k c n }
{
    geometry::finite(stretched(k, c, 0)) && geometry::finite(stretched(k, c, n))
}

// The course of an edge in an image: none where a product is not finite, and none where the edge is level, since its box is then all that it covers.
pub fn course_of(size: ImageSize, e: Ends) -> Option<Course>
    ensures { ForSome result (λ k. Runs k (ends_of e) size.w size.h) }
{
    let right = e.q1.x - e.q0.x;
    let down = e.q1.y - e.q0.y;
    if !ends_finite(right, e.q0.y, size.h) || !ends_finite(down, e.q0.x, size.w) {
        return None;
    }
    if 0.0 < down {
        return Some(Course::Falling);
    }
    if down < 0.0 {
        return Some(Course::Rising);
    }
    None
}

impl Course {
    // In row y, do the corners in column x tell that the edge covers no pixel before it?
    pub fn misses_before(self, size: ImageSize, e: Ends, x: usize, y: usize) -> bool
        requires runs { Runs self (ends_of e) size.w size.h }
        requires column { x ≤ size.w }
        requires row { y < size.h }
        ensures { result ≡ true → NoneBefore (λ i. covers (ends_of e) (pixel i y)) size.w x }
    {
        match self {
            Course::Falling => outlines::above_at(e, x, y),
            Course::Rising => outlines::below_at(e, x, y),
        }
    }

    // Do they tell that it covers none from x on?
    pub fn misses_from(self, size: ImageSize, e: Ends, x: usize, y: usize) -> bool
        requires runs { Runs self (ends_of e) size.w size.h }
        requires column { x ≤ size.w }
        requires row { y < size.h }
        ensures { result ≡ true → NoneFrom (λ i. covers (ends_of e) (pixel i y)) size.w x }
    {
        match self {
            Course::Falling => outlines::below_at(e, x, y),
            Course::Rising => outlines::above_at(e, x, y),
        }
    }
}
