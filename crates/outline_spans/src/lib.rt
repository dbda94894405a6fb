// 02, Point 1: the rows and columns of an image that an outline edge may cover, found by guesses and exact tests. Values in, value out. No function here is a
// public call.
#![tactic(auto)]

mod course;
mod extent;

ghost use Rattle.std.specs.Prelude.{◌≡◌, ◌+◌, ◌≤◌, ◌<◌};
ghost use Rattle.std.specs.Option.{ForSome};
ghost use Rattle.pixels.specs.Pixel.{pixel};
ghost use Rattle.outlines.specs.Covered.{covers, meets_side};
ghost use Rattle.outlines.specs.Answer.{ends_of};
ghost use Rattle.outline_spans.specs.Narrowed.{NoneBefore, NoneFrom, Narrowed, Boxed};
ghost use Rattle.outline_spans.specs.Course.{Runs};

use boxes::lines::Span;
use course::Course;
use outlines::Ends;
use pixels::ImageSize;

// An edge, and the rows and columns of the image that its box meets. The slope, columns to a row, is for guesses alone.
#[derive(Clone, Copy)]
pub struct Reach {
    pub size: ImageSize,
    pub e: Ends,
    pub rows: Span,
    box_columns: Span,
    course: Option<Course>,
    slope: f32,
    pub ghost extent: { Narrowed (λ y. meets_side e.q0.y e.q1.y y) size.h rows },
    ghost boxed: { Boxed (ends_of e) size.w box_columns },
    ghost runs: { ForSome course (λ k. Runs k (ends_of e) size.w size.h) },
}

// The columns that the edge may cover in any row: none where a coordinate is NaN.
fn box_columns(size: ImageSize, e: Ends) -> Span
    ensures { Boxed (ends_of e) size.w result }
{
    if outlines::has_nan(e) {
        return Span { start: 1, end: 0 };
    }
    extent::lines_of(e.q0.x, e.q1.x, size.w)
}

// What an edge may cover of an image.
pub fn reach_of(size: ImageSize, e: Ends) -> Reach
    ensures size { result.size ≡ size }
    ensures ends { result.e ≡ e }
{
    Reach {
        size,
        e,
        rows: extent::lines_of(e.q0.y, e.q1.y, size.h),
        box_columns: box_columns(size, e),
        course: course::course_of(size, e),
        slope: (e.q1.x - e.q0.x) / (e.q1.y - e.q0.y),
    }
}

impl Reach {
    // Where the line through the edge's ends passes from row y to the next: a guess, and a little to each side.
    fn guess(&self, y: usize) -> Span
        requires { y ≤ 4096 }
        ensures start { result.start ≤ self.now.box_columns.end }
    {
        let x = self.e.q0.x + (pixels::as_float(y) - self.e.q0.y) * self.slope;
        let next = x + self.slope;
        let (left, right) = if self.slope < 0.0 {
            (next, x)
        } else {
            (x, next)
        };
        let end = pixels::nearest_held(right + 0.515625, self.box_columns.end);
        Span {
            start: pixels::nearest_held(left - 0.515625, self.box_columns.end),
            end: end.max(self.box_columns.start),
        }
    }

    // From a guess back to a column off the border, before which the edge covers nothing in row y.
    fn first_column(&self, course: Course, y: usize, guess: usize) -> usize
        requires runs { Runs course (ends_of self.now.e) self.now.size.w self.now.size.h }
        requires row { y < self.now.size.h }
        requires guess { guess ≤ self.now.box_columns.end }
        ensures least { 1 ≤ result }
        ensures missed { NoneBefore (λ x. covers (ends_of self.now.e) (pixel x y)) self.now.size.w result }
    {
        for x in (self.box_columns.start..guess).rev() {
            if course.misses_before(self.size, self.e, x + 1, y) {
                return x + 1;
            }
        }
        self.box_columns.start
    }

    // From a guess on to a column from which on it covers nothing there.
    fn past_column(&self, course: Course, y: usize, guess: usize) -> usize
        requires runs { Runs course (ends_of self.now.e) self.now.size.w self.now.size.h }
        requires row { y < self.now.size.h }
        ensures most { result + 1 ≤ self.now.size.w }
        ensures missed { NoneFrom (λ x. covers (ends_of self.now.e) (pixel x y)) self.now.size.w result }
    {
        for x in guess..self.box_columns.end {
            if course.misses_from(self.size, self.e, x, y) {
                return x;
            }
        }
        self.box_columns.end
    }

    // The columns of a row that the edge may cover.
    pub fn columns(&self, y: usize) -> Span
        requires { y < self.now.size.h }
        ensures { Narrowed (λ x. covers (ends_of self.now.e) (pixel x y)) self.now.size.w result }
    {
        let Some(course) = self.course else {
            return self.box_columns;
        };
        let guess = self.guess(y);
        Span {
            start: self.first_column(course, y, guess.start),
            end: self.past_column(course, y, guess.end),
        }
    }
}
