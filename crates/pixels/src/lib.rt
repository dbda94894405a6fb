// Pixels: the size of an image, whole numbers as floats, centres, and the pairs of neighbouring pixels along an axis. No function here is a public call.
#![tactic(auto)]

ghost use Rattle.std.specs.Prelude.{◌≡◌, ◌+◌, ◌*◌, ◌<◌, ◌≤◌};
ghost use Rattle.questions.specs.Laws.{Sized};
ghost use Rattle.geometry.specs.Answer.{point2};
ghost use Rattle.pixels.specs.Pixel as spec;
ghost use Rattle.pixels.specs.Edge as edge;

use geometry::Vec2;

// The width and height of an image in pixels, once question 1 is answered yes.
#[derive(Clone, Copy)]
pub struct ImageSize {
    pub w: usize,
    pub h: usize,
    pub ghost sized: { Sized 1 w h },
}

impl ImageSize {
    // How many pixels there are.
    #[tactic(auto, using(questions::specs::Laws::area))]
    pub fn pixels(self) -> usize
        ensures count { result ≡ self.w * self.h }
        ensures bound { result ≤ 16777216 }
    {
        self.w * self.h
    }

    // The number of a pixel: row by row from the top, each from the left, from 0 on.
    #[tactic(auto, using(crate::specs::Laws::number_below, questions::specs::Laws::area))]
    pub fn number(self, p: Pixel) -> usize
        requires in_row { p.x < self.w }
        requires in_column { p.y < self.h }
        ensures number { result ≡ p.y * self.w + p.x }
        ensures bound { result < self.w * self.h }
    {
        p.y * self.w + p.x
    }
}

// How many pairs an image has along an axis.
#[tactic(auto, using(crate::specs::Laws::edges_few))]
pub fn edge_count(img_w: usize, img_h: usize, axis: Axis) -> usize
    requires width { img_w ≤ 4096 }
    requires height { img_h ≤ 4096 }
    requires columns { axis.right ≤ img_w }
    requires rows { axis.down ≤ img_h }
    ensures { result ≡ edge.edge_count (edge.axis axis.right axis.down) img_w img_h }
{
    (img_h - axis.down) * (img_w - axis.right)
}

// A column, counted from the left, and a row, counted from the top, both from 0 on.
#[derive(Clone, Copy)]
pub struct Pixel {
    pub x: usize,
    pub y: usize,
}

// The way from a pair's first pixel to its second: so many columns to the right, so many rows down. Any number: who walks an axis
// asks that it lies in the image.
#[derive(Clone, Copy)]
pub struct Axis {
    pub right: usize,
    pub down: usize,
}

impl Axis {
    // Pairs that lie one above the other.
    pub const HEDGE: Axis = Axis { right: 0, down: 1 };

    // Pairs that lie side by side.
    pub const VEDGE: Axis = Axis { right: 1, down: 0 };
}

// n as f32, of a column, a row or a number of pixels.
pub fn as_float(n: usize) -> f32
    requires { n ≤ 4096 }
    ensures { result ≡ spec.as_float n }
{
    n as u32 as f32
}

// The centre of column or row i, in pixels from the picture's left or upper edge.
#[tactic(auto, unfolding(crate::specs::Pixel::centre))]
pub fn centre(i: usize) -> f32
    requires { i ≤ 4096 }
    ensures { result ≡ spec.centre i }
{
    as_float(i) + 0.5
}

// The centre of a pixel, in pixels from the picture's left and upper edge.
#[tactic(auto, unfolding(crate::specs::Pixel::centre_of))]
pub fn centre_of(p: Pixel) -> Vec2
    requires column { p.x ≤ 4096 }
    requires row { p.y ≤ 4096 }
    ensures { point2 result ≡ spec.centre_of (spec.pixel p.x p.y) }
{
    Vec2 {
        x: centre(p.x),
        y: centre(p.y),
    }
}

// The whole number nearest to x, held between 0 and n: a guess, on which nothing rests but speed. Above 2^23 an f32 has no fraction, and its last digits are
// the number.
pub fn nearest_held(x: f32, n: usize) -> usize
    ensures { result ≤ n }
{
    let t = x + 8388608.0;
    if t < 8388608.0 {
        return 0;
    }
    if t < 8396800.0 {
        return n.min((t.to_bits() % 16384) as usize);
    }
    n
}
