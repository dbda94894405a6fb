// Pairs of neighbouring pixels, as both edge passes ask of them: each by its first pixel and the axis along which its second one lies.
// No function here is a public call.
#![tactic(auto)]

ghost use Rattle.std.specs.Prelude.{◌≡◌, true, ◌+◌, ◌-◌, ◌*◌, ◌/◌, ◌≤◌, ◌<◌, length};
ghost use Rattle.questions.specs.Questions.{names_face};
ghost use Rattle.questions.specs.Laws.{Channels};
ghost use Rattle.pairs.specs.Pairs.{answered, all_answered, both_answered};
ghost use Rattle.pairs.specs.Gradient as gradient;
ghost use Rattle.pairs.specs.Gradient.{pixel_values, exact_pixels, channel_term};
ghost use Rattle.pairs.specs.Steps.{SoundValues, Within, PairAt, row_passes};
ghost use Rattle.pairs.specs.Answer.{axis_of, edge_of, seen_of};

use meshes::View;
use pixels::{Axis, ImageSize, Pixel};

// The numbers of a pair's pixels, and their entries in the map.
#[derive(Clone, Copy)]
pub struct Pair {
    pub p: usize,
    pub q: usize,
    pub first: u32,
    pub second: u32,
}

// The second pixel of the pair whose first pixel is p.
pub fn neighbour(p: Pixel, axis: Axis) -> Pixel
    requires column { p.x + axis.right ≤ 4096 }
    requires row { p.y + axis.down ≤ 4096 }
    ensures column { result.x ≡ p.x + axis.right }
    ensures row { result.y ≡ p.y + axis.down }
{
    Pixel {
        x: p.x + axis.right,
        y: p.y + axis.down,
    }
}

// The pair of a map whose first pixel is p: it asks the size and the map alone, which is less than a view says.
#[tactic(auto, using(meshes::specs::Laws::entry_read))]
pub fn pair_at(size: ImageSize, pix2tri: &[u32], p: Pixel, axis: Axis) -> Pair
    requires map { length pix2tri.now ≡ size.w * size.h }
    requires within { Within size.w size.h axis.right axis.down p.x p.y }
    ensures { PairAt pix2tri.now size.w size.h (edge_of axis p) result }
{
    let i = size.number(p);
    let j = size.number(neighbour(p, axis));
    Pair {
        p: i,
        q: j,
        first: pix2tri[i],
        second: pix2tri[j],
    }
}

// The pair of a view, whose entries name faces that are there, or none.
#[tactic(auto, using(crate::specs::Laws::first_named, crate::specs::Laws::second_named))]
pub fn seen_pair(view: &View, p: Pixel, axis: Axis) -> Pair
    requires { Within view.now.size.w view.now.size.h axis.right axis.down p.x p.y }
    ensures pair { PairAt view.now.pix2tri.now view.now.size.w view.now.size.h (edge_of axis p) result }
    ensures first_named { names_face (length view.now.mesh.tri2vtx.now / 3) result.first ≡ true }
    ensures second_named { names_face (length view.now.mesh.tri2vtx.now / 3) result.second ≡ true }
{
    pair_at(view.size, view.pix2tri, p, axis)
}

// Question 8 of the pair whose first pixel is p.
#[tactic(auto, unfolding(crate::specs::Pairs::answered))]
fn pair_answered(view: &View, p: Pixel, axis: Axis) -> bool
    requires { Within view.now.size.w view.now.size.h axis.right axis.down p.x p.y }
    ensures { result ≡ answered (seen_of view.now) (edge_of axis p) }
{
    let pair = seen_pair(view, p, axis);
    pair.first == pair.second
        || inside::projects(&view.mesh, view.m, view.mesh.named(pair.first))
            && inside::projects(&view.mesh, view.m, view.mesh.named(pair.second))
}

// Question 8 of the pairs whose first pixels lie in row y.
fn row_answered(view: &View, axis: Axis, y: usize) -> bool
    requires columns { axis.right ≤ view.now.size.w }
    requires row { y + axis.down < view.now.size.h }
    ensures { result ≡ row_passes (answered (seen_of view.now)) (axis_of axis) view.now.size.w y }
{
    (0..view.size.w - axis.right).all(|x| pair_answered(view, Pixel { x, y }, axis))
}

// Question 8 of an axis, row by row.
fn all_answered(view: &View, axis: Axis) -> bool
    requires columns { axis.right ≤ view.now.size.w }
    requires rows { axis.down ≤ view.now.size.h }
    ensures { result ≡ all_answered (axis_of axis) view.now.size.h (seen_of view.now) }
{
    (0..view.size.h - axis.down).all(|y| row_answered(view, axis, y))
}

// Question 8 of both axes. It is answered yes where every vertex has a projection, which is quickly seen.
#[tactic(auto, using(crate::specs::Laws::all_projected))]
pub fn both_answered(view: &View) -> bool
    ensures { result ≡ both_answered view.now.size.h (seen_of view.now) }
{
    inside::all_project(view.mesh.vtx2xyz, view.m)
        || all_answered(view, Axis::HEDGE) && all_answered(view, Axis::VEDGE)
}

// Question 4 of the map, the values and the gradients.
#[tactic(auto, using(questions::specs::Laws::area_fits), unfolding(crate::specs::Gradient::exact_pixels, questions::specs::Questions::exact))]
pub fn pixels_ok(
    size: ImageSize,
    pix2tri: &[u32],
    num_vdim: usize,
    pix2val: &[f32],
    dldw_pix2val: &[f32],
) -> bool
    requires { Channels num_vdim }
    ensures { result ≡ exact_pixels size.w size.h pix2tri.now (pixel_values pix2val.now dldw_pix2val.now num_vdim) }
{
    let n = size.pixels();
    pix2tri.len() == n && pix2val.len() == n * num_vdim && dldw_pix2val.len() == n * num_vdim
}

// The values that so many pixels show, and their gradients: `num_vdim` numbers a pixel of each.
#[derive(Clone, Copy)]
pub struct PixelValues<'a> {
    pub pixels: usize,
    pub num_vdim: usize,
    pub pix2val: &'a [f32],
    pub dldw_pix2val: &'a [f32],
    pub ghost sound: { SoundValues (pixel_values pix2val.now dldw_pix2val.now num_vdim) pixels },
}

impl PixelValues<'_> {
    ghost use Rattle.pairs.specs.Values.{values_of};

    // Channel k of `dldr`, at the places i and j of the values and the gradients.
    #[tactic(auto, unfolding(crate::specs::Gradient::channel_term))]
    fn channel_term(&self, i: usize, j: usize) -> f32
        requires first { i < length self.now.pix2val.now }
        requires second { j < length self.now.pix2val.now }
        ensures { result ≡ channel_term self.now.dldw_pix2val.now self.now.pix2val.now i j }
    {
        (self.dldw_pix2val[i] + self.dldw_pix2val[j]) * 0.5 * (self.pix2val[i] - self.pix2val[j])
    }

    // `dldr` of the pixels p and q.
    #[tactic(auto, unfolding(crate::specs::Gradient::dldr, geometry::specs::Formula::sum_of))]
    pub fn dldr(&self, p: usize, q: usize) -> f32
        requires first { p < self.now.pixels }
        requires second { q < self.now.pixels }
        ensures { result ≡ gradient.dldr (values_of self.now) p q }
    {
        let at0 = p * self.num_vdim;
        let at1 = q * self.num_vdim;
        let mut sum = 0.0;
        for k in 0..self.num_vdim {
            sum += self.channel_term(at0 + k, at1 + k);
        }
        sum
    }
}
