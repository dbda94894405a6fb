// The values on the edges of an axis as a grid, and the value between four of its places. No function here is a public call.
#![tactic(auto)]

ghost use Rattle.std.specs.Prelude.{◌≡◌, ◌-◌, ◌≤◌, ◌<◌, length};
ghost use Rattle.geometry.specs.Arith.{floats};
ghost use Rattle.geometry.specs.Answer.{point2};
ghost use Rattle.pixels.specs.Edge as edge;
ghost use Rattle.grids.specs.Cell as spec;
ghost use Rattle.grids.specs.Grid as grid;
ghost use Rattle.pixels.specs.Answer.{axis_of};
ghost use Rattle.grids.specs.Steps.{stand_of, Below};

use geometry::Vec2;
use pixels::{Axis, ImageSize};
use std::num::saturating_f32_to_usize;

// Two neighbouring grid places and the fraction of the way between them.
#[derive(Clone, Copy)]
pub struct Stand {
    pub low: usize,
    pub high: usize,
    pub t: f32,
}

// The values on the edges of an axis, of an image with sides of at least 2 pixels.
#[derive(Clone, Copy)]
pub struct Grid<'a> {
    pub size: ImageSize,
    pub axis: Axis,
    pub values: &'a [f32],
    pub ghost wide: { 2 ≤ size.w },
    pub ghost tall: { 2 ≤ size.h },
    pub ghost right_most: { axis.right ≤ 1 },
    pub ghost down_most: { axis.down ≤ 1 },
    pub ghost whole: { length values.now ≡ edge.edge_count (axis_of axis) size.w size.h },
}

// The greatest whole number not above x, held between 0 and `most`; 0 for NaN.
#[tactic(auto, using(crate::proofs::Floor::cell_cut))]
fn cell(most: usize, x: f32) -> usize
    requires { most ≤ 4096 }
    ensures cell { result ≡ spec.cell most x }
    ensures most { result ≤ most }
{
    saturating_f32_to_usize(x).min(most)
}

// NaN and -0 pass.
#[tactic(auto, unfolding(crate::specs::Cell::clamp_unit))]
fn clamp_unit(x: f32) -> f32
    ensures { result ≡ spec.clamp_unit x }
{
    x.clamp(0.0, 1.0)
}

// An edge lies at 1 along its axis, at 0.5 across.
#[tactic(auto, unfolding(crate::specs::Grid::offset))]
fn offset(along: usize) -> f32
    ensures { result ≡ grid.offset along }
{
    if along == 0 { 0.5 } else { 1.0 }
}

// Where x stands along a side of `size` pixels, on which the grid has `along` places less.
#[tactic(auto, unfolding(crate::specs::Cell::stand_at, crate::specs::Cell::stand_from))]
fn stand_at(size: usize, along: usize, x: f32) -> Stand
    requires size_least { 2 ≤ size }
    requires size_most { size ≤ 4096 }
    requires along_most { along ≤ 1 }
    ensures stand { stand_of result ≡ spec.stand_at size (size - along) (floats.sub x (grid.offset along)) }
    ensures below { Below (size - along) result.low result.high }
{
    let x = x - offset(along);
    let low = cell(size - 2, x);
    Stand {
        low,
        high: (low + 1).min(size - along - 1),
        t: clamp_unit(x - pixels::as_float(low)),
    }
}

#[tactic(auto, unfolding(crate::specs::Grid::bilinear))]
fn bilinear(tx: f32, ty: f32, f00: f32, f10: f32, f01: f32, f11: f32) -> f32
    ensures { result ≡ grid.bilinear floats tx ty f00 f10 f01 f11 }
{
    (1.0 - tx) * (1.0 - ty) * f00 + tx * (1.0 - ty) * f10 + (1.0 - tx) * ty * f01 + tx * ty * f11
}

impl Grid<'_> {
    // The value at a column and a row.
    fn value(&self, column: usize, row: usize) -> f32
        requires in_row { column < self.now.size.w - self.now.axis.right }
        requires in_column { row < self.now.size.h - self.now.axis.down }
        ensures { result ≡ grid.value_at self.now.values.now (self.now.size.w - self.now.axis.right) column row }
    {
        self.values[row * (self.size.w - self.axis.right) + column]
    }

    // The value between four places.
    #[tactic(auto, unfolding(crate::specs::Grid::between))]
    fn between(&self, a: Stand, b: Stand) -> f32
        requires in_row { Below (self.now.size.w - self.now.axis.right) a.low a.high }
        requires in_column { Below (self.now.size.h - self.now.axis.down) b.low b.high }
        ensures { result ≡ grid.between self.now.values.now (self.now.size.w - self.now.axis.right) (stand_of a) (stand_of b) }
    {
        let f00 = self.value(a.low, b.low);
        let f10 = self.value(a.high, b.low);
        let f01 = self.value(a.low, b.high);
        let f11 = self.value(a.high, b.high);
        bilinear(a.t, b.t, f00, f10, f01, f11)
    }

    // The value at a point of the image, less the offsets of an edge.
    #[tactic(auto, unfolding(crate::specs::Grid::sample))]
    #[inline(always)]
    pub fn sample(&self, p: Vec2) -> f32
        ensures { result ≡ grid.sample (axis_of self.now.axis) self.now.size.w self.now.size.h self.now.values.now (point2 p) }
    {
        let a = stand_at(self.size.w, self.axis.right, p.x);
        let b = stand_at(self.size.h, self.axis.down, p.y);
        self.between(a, b)
    }
}
