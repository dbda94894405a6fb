// Layers: the public calls `clear` and `join`, with C's parameters in C's order.
#![tactic(auto)]

ghost use Rattle.std.specs.Prelude.{◌≡◌, ◌*◌};
ghost use Rattle.questions.specs.Questions.{outcome};
ghost use Rattle.questions.specs.Answer.{code_of};
ghost use Rattle.cells.specs.Layer.{layer};
ghost use Rattle.cells.specs.Lent.{lent};
ghost use Rattle.layers.specs.Calls.{exact_layer, clear_code, clearing, join_code, joining};

use cells::{Layer, LayerMut};
use pixels::ImageSize;
use questions::{Refusal, ask};

// Question 4 of a layer.
#[tactic(auto, unfolding(questions::specs::Questions::exact))]
pub fn layer_ok(size: ImageSize, layer: &Layer) -> bool
    ensures { result ≡ exact_layer size.w size.h (lent layer.now) }
{
    let n = size.pixels();
    layer.pix2tri.len() == n && layer.pix2depth.len() == n && layer.pix2weights.len() == 3 * n
}

// Questions 1 and 4 of `clear`.
#[tactic(auto, using(questions::specs::Laws::sized), unfolding(crate::specs::Calls::clear_code, questions::specs::Questions::first_no))]
fn ask_clear(layer: &Layer, img_w: usize, img_h: usize) -> Result<(), Refusal>
    ensures { code_of result ≡ clear_code (lent layer.now) img_w img_h }
{
    ask(questions::sizes_ok(1, img_w, img_h), Refusal::Size)?;
    let size = ImageSize { w: img_w, h: img_h };
    ask(layer_ok(size, layer), Refusal::Lengths)
}

// Questions 1 and 4 of `join`.
#[tactic(auto, using(questions::specs::Laws::sized), unfolding(crate::specs::Calls::join_code, questions::specs::Questions::first_no))]
fn ask_join(left: &Layer, right: &Layer, img_w: usize, img_h: usize) -> Result<(), Refusal>
    ensures { code_of result ≡ join_code (lent left.now) (lent right.now) img_w img_h }
{
    ask(questions::sizes_ok(1, img_w, img_h), Refusal::Size)?;
    let size = ImageSize { w: img_w, h: img_h };
    ask(
        layer_ok(size, left) && layer_ok(size, right),
        Refusal::Lengths,
    )
}

// Depth −infinity, the map's entry 4294967295 and three zeros at every pixel.
pub fn clear(
    pix2tri: &mut [u32],
    pix2depth: &mut [f32],
    pix2weights: &mut [f32],
    img_w: usize,
    img_h: usize,
) -> Result<(), Refusal>
    ensures { outcome (code_of result) (layer pix2tri.new pix2depth.new pix2weights.new) ≡ clearing (layer pix2tri.old pix2depth.old pix2weights.old) img_w img_h }
{
    ask_clear(
        &Layer {
            pix2tri,
            pix2depth,
            pix2weights,
        },
        img_w,
        img_h,
    )?;
    let size = ImageSize { w: img_w, h: img_h };
    let mut layer = LayerMut {
        size,
        pix2tri,
        pix2depth,
        pix2weights,
    };
    layer.clear();
    Ok(())
}

// At every pixel the right layer's depth, number and weights when its depth is greater, else the left's; written into the left.
pub fn join(
    left_pix2tri: &mut [u32],
    left_pix2depth: &mut [f32],
    left_pix2weights: &mut [f32],
    right_pix2tri: &[u32],
    right_pix2depth: &[f32],
    right_pix2weights: &[f32],
    img_w: usize,
    img_h: usize,
) -> Result<(), Refusal>
    ensures { outcome (code_of result) (layer left_pix2tri.new left_pix2depth.new left_pix2weights.new)
        ≡ joining (layer left_pix2tri.old left_pix2depth.old left_pix2weights.old)
        (layer right_pix2tri.now right_pix2depth.now right_pix2weights.now) img_w img_h }
{
    let lent_left = Layer {
        pix2tri: left_pix2tri,
        pix2depth: left_pix2depth,
        pix2weights: left_pix2weights,
    };
    let right = Layer {
        pix2tri: right_pix2tri,
        pix2depth: right_pix2depth,
        pix2weights: right_pix2weights,
    };
    ask_join(&lent_left, &right, img_w, img_h)?;
    let size = ImageSize { w: img_w, h: img_h };
    let mut left = LayerMut {
        size,
        pix2tri: left_pix2tri,
        pix2depth: left_pix2depth,
        pix2weights: left_pix2weights,
    };
    left.join(&right);
    Ok(())
}
