// The buffers of a layer as a call is lent them.
ghost use Rattle.std.specs.Prelude.{◌≡◌, ◌*◌, ◌<◌};
ghost use Rattle.cells.specs.Layer.{layer};
ghost use Rattle.cells.specs.Steps.{Spans};

use crate::places;
use geometry::Weights;
use pixels::ImageSize;

// What a pixel holds: a depth, and of the candidate that brought it the face's number and the weights.
#[derive(Clone, Copy)]
pub struct Cell {
    pub depth: f32,
    pub number: u32,
    pub weights: Weights,
}

// A layer that is read, its buffers of any lengths.
#[derive(Clone, Copy)]
pub struct Layer<'a> {
    pub pix2tri: &'a [u32],
    pub pix2depth: &'a [f32],
    pub pix2weights: &'a [f32],
}

// A layer of an image, once questions 1 and 4 are answered yes, that is written.
#[derive(Drop)]
pub struct LayerMut<'a> {
    pub size: ImageSize,
    pub pix2tri: &'a mut [u32],
    pub pix2depth: &'a mut [f32],
    pub pix2weights: &'a mut [f32],
    pub ghost spans: { Spans (layer pix2tri.now pix2depth.now pix2weights.now) (size.w * size.h) },
}

// The steps on the three buffers, of a layer of an image.
impl LayerMut<'_> {
    ghost use Rattle.cells.specs.Cell.{clear};
    ghost use Rattle.cells.specs.Layer.{pixelwise, at};
    ghost use Rattle.cells.specs.Steps.{stepped};
    ghost use Rattle.offers.specs.Offer.{pick};
    ghost use Rattle.cells.specs.Lent.{held, lent, cell_of, SameBuffers};

    // Every pixel is cleared.
    pub fn clear(&mut self)
        ensures same { SameBuffers self.old self.new }
        ensures clear { held self.new ≡ pixelwise (self.old.size.w * self.old.size.h) (λ p. clear) }
    {
        places::clear(
            self.pix2tri,
            self.pix2depth,
            self.pix2weights,
            self.size.pixels(),
        );
    }

    // A candidate is brought to pixel p.
    pub fn put(&mut self, p: usize, c: Cell)
        requires { p < self.old.size.w * self.old.size.h }
        ensures same { SameBuffers self.old self.new }
        ensures stepped { held self.new ≡ stepped (held self.old) p (cell_of c) }
    {
        places::put(self.pix2tri, self.pix2depth, self.pix2weights, p, c);
    }

    // At every pixel the right layer's cell when its depth is greater.
    pub fn join(&mut self, right: &Layer)
        requires spans { Spans (lent right.now) (self.old.size.w * self.old.size.h) }
        ensures same { SameBuffers self.old self.new }
        ensures joined { held self.new ≡ pixelwise (self.old.size.w * self.old.size.h) (λ p. pick (at (held self.old) p) (at (lent right.now) p)) }
    {
        places::join(
            self.pix2tri,
            self.pix2depth,
            self.pix2weights,
            right,
            self.size.pixels(),
        );
    }
}
