// One pixel of three lent buffers, and n of them: beside the methods of `LayerMut`, which call these, since they ask less than a layer of an image says: that
// the buffers reach the pixel, or span the n.
ghost use Rattle.std.specs.Prelude.{◌≡◌, cond};
ghost use Rattle.std.specs.Float.Ieee.{lt};
ghost use Rattle.offers.specs.Offer as offer;
ghost use Rattle.cells.specs.Cell as cell;
ghost use Rattle.cells.specs.Layer.{layer, pixelwise, at};
ghost use Rattle.cells.specs.Steps.{Spans, Reaches, written, stepped};
ghost use Rattle.cells.specs.Lent.{lent, cell_of};

use crate::buffers::{Cell, Layer};
use geometry::Weights;

// Depth −infinity, the map's entry 4294967295 and three zeros at n pixels, in one pass over the three buffers: each filled by the library's word takes 1.28 of
// its time, and asks for C's `memset`.
#[tactic(auto, using(crate::proofs::Laws::Pixels::spans_reaches))]
pub fn clear(pix2tri: &mut [u32], pix2depth: &mut [f32], pix2weights: &mut [f32], n: usize)
    requires { Spans (layer pix2tri.old pix2depth.old pix2weights.old) n }
    ensures { layer pix2tri.new pix2depth.new pix2weights.new ≡ pixelwise n (λ p. cell.clear) }
{
    let clear = Cell {
        depth: f32::NEG_INFINITY,
        number: questions::EMPTY,
        weights: Weights {
            b0: 0.0,
            b1: 0.0,
            b2: 0.0,
        },
    };
    for i in 0..n {
        write(pix2tri, pix2depth, pix2weights, i, clear);
    }
}

// A cell at pixel p.
#[tactic(auto, unfolding(crate::specs::Steps::with_weights))]
fn write(pix2tri: &mut [u32], pix2depth: &mut [f32], pix2weights: &mut [f32], p: usize, c: Cell)
    requires { Reaches (layer pix2tri.old pix2depth.old pix2weights.old) p }
    ensures { layer pix2tri.new pix2depth.new pix2weights.new ≡ written (layer pix2tri.old pix2depth.old pix2weights.old) p (cell_of c) }
{
    pix2tri[p] = c.number;
    pix2depth[p] = c.depth;
    let at = 3 * p;
    pix2weights[at] = c.weights.b0;
    pix2weights[at + 1] = c.weights.b1;
    pix2weights[at + 2] = c.weights.b2;
}

// A candidate is written at pixel p, its depth, number and weights, only when the depth is greater than the stored one.
#[tactic(auto, using(crate::proofs::Laws::Put::kept_step))]
pub fn put(pix2tri: &mut [u32], pix2depth: &mut [f32], pix2weights: &mut [f32], p: usize, c: Cell)
    requires { Reaches (layer pix2tri.old pix2depth.old pix2weights.old) p }
    ensures { layer pix2tri.new pix2depth.new pix2weights.new ≡ stepped (layer pix2tri.old pix2depth.old pix2weights.old) p (cell_of c) }
{
    if pix2depth[p] < c.depth {
        write(pix2tri, pix2depth, pix2weights, p, c);
    }
}

// Of two pixels of the depths a and b, what belongs to the one that is left.
#[tactic(auto, using(lists::specs::Laws::Tests::then_is, lists::specs::Laws::Tests::else_is))]
fn pick<T: Copy>(a: f32, b: f32, of_a: T, of_b: T) -> T
    ensures { result ≡ cond (lt a b) of_b of_a }
{
    if a < b { of_b } else { of_a }
}

// The right layer's cell at pixel p, when its depth is greater. Each of the five is a choice between two values and no branch, so that a compiler can join
// several pixels at a time.
fn join_pixel(
    pix2tri: &mut [u32],
    pix2depth: &mut [f32],
    pix2weights: &mut [f32],
    right: &Layer,
    p: usize,
)
    requires left { Reaches (layer pix2tri.old pix2depth.old pix2weights.old) p }
    requires right { Reaches (lent right.now) p }
    ensures { layer pix2tri.new pix2depth.new pix2weights.new
        ≡ written (layer pix2tri.old pix2depth.old pix2weights.old) p (offer.pick (at (layer pix2tri.old pix2depth.old pix2weights.old) p) (at (lent right.now) p)) }
{
    let at = 3 * p;
    let a = pix2depth[p];
    let b = right.pix2depth[p];
    let weights = Weights {
        b0: pick(a, b, pix2weights[at], right.pix2weights[at]),
        b1: pick(a, b, pix2weights[at + 1], right.pix2weights[at + 1]),
        b2: pick(a, b, pix2weights[at + 2], right.pix2weights[at + 2]),
    };
    let number = pick(a, b, pix2tri[p], right.pix2tri[p]);
    let depth = pick(a, b, a, b);
    write(
        pix2tri,
        pix2depth,
        pix2weights,
        p,
        Cell {
            depth,
            number,
            weights,
        },
    );
}

// At each of n pixels the right layer's cell when its depth is greater.
#[tactic(auto, using(crate::proofs::Laws::Pixels::spans_reaches))]
pub fn join(
    pix2tri: &mut [u32],
    pix2depth: &mut [f32],
    pix2weights: &mut [f32],
    right: &Layer,
    n: usize,
)
    requires left { Spans (layer pix2tri.old pix2depth.old pix2weights.old) n }
    requires right { Spans (lent right.now) n }
    ensures { layer pix2tri.new pix2depth.new pix2weights.new
        ≡ pixelwise n (λ p. offer.pick (at (layer pix2tri.old pix2depth.old pix2weights.old) p) (at (lent right.now) p)) }
{
    for p in 0..n {
        join_pixel(pix2tri, pix2depth, pix2weights, right, p);
    }
}
