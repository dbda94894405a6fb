// The shares of a pair, as definitions and laws, in specs/, and a pair as the steps of `bwd` take it. No function here is a public call.
#![tactic(auto)]

ghost use Rattle.std.specs.Prelude.{ℕ, ◌≡◌, true, IfSome, MatchOption, List, [], Float};
ghost use Rattle.geometry.specs.Answer.{point2};
ghost use Rattle.meshes.specs.Answer.{face_of, maybe_face};
ghost use Rattle.pairs.specs.Pairs.{answered};
ghost use Rattle.pairs.specs.Steps.{Within};
ghost use Rattle.pairs.specs.Answer.{axis_of, edge_of, seen_of};
ghost use Rattle.tris.specs.Tri.{Projects};
ghost use Rattle.share_rules.specs.Shares.{between, shares_at};
ghost use Rattle.share_rules.specs.Sides.{SidesProject, shares_of};
ghost use Rattle.share_rules.specs.Unequal.{UnequalAt};

use geometry::Vec2;
use meshes::{Face, View};
use pixels::{Axis, Pixel};

// The pairs of an axis. Question 8 is asked of the pair, or of the axis, where a step needs it.
#[derive(Clone, Copy)]
pub struct AxisPairs<'a> {
    pub view: View<'a>,
    pub axis: Axis,
}

// A face, and the centre of the pixel that shows it.
#[derive(Clone, Copy)]
pub struct PixelFace {
    pub face: Face,
    pub centre: Vec2,
}

// What the two pixels of a pair show: a face each, a face beside an empty pixel, of which the centre is left, or nothing.
#[derive(Clone, Copy)]
pub enum Sides {
    Both(PixelFace, PixelFace),
    Beside(PixelFace, Vec2),
    Neither,
}

// A pair whose entries are not equal: the numbers of its pixels, and what they show.
#[derive(Clone, Copy)]
pub struct Unequal {
    pub p: usize,
    pub q: usize,
    pub sides: Sides,
}

impl Sides {
    // Of what the pixels with the centres q0 and q1 show.
    #[tactic(auto, using(crate::specs::Laws::both_empty, crate::specs::Laws::after_empty, crate::specs::Laws::before_empty))]
    pub fn new(first: Option<Face>, second: Option<Face>, q0: Vec2, q1: Vec2) -> Sides
        ensures projects { (m xyz : List Float) → IfSome first (λ f. Projects m xyz (face_of f)) → IfSome second (λ f. Projects m xyz (face_of f))
            → SidesProject m xyz result }
        ensures shares { (axis : ℕ) (m xyz : List Float)
            → shares_of axis m xyz result ≡ between axis m xyz (maybe_face first) (maybe_face second) (point2 q0) (point2 q1) }
    {
        match (first, second) {
            (Some(f0), Some(f1)) => Sides::Both(
                PixelFace {
                    face: f0,
                    centre: q0,
                },
                PixelFace {
                    face: f1,
                    centre: q1,
                },
            ),
            (Some(face), None) => Sides::Beside(PixelFace { face, centre: q0 }, q1),
            (None, Some(face)) => Sides::Beside(PixelFace { face, centre: q1 }, q0),
            (None, None) => Sides::Neither,
        }
    }
}

impl AxisPairs<'_> {
    // The pair whose first pixel is p, none where its entries are equal.
    pub fn unequal(&self, p: Pixel) -> Option<Unequal>
        requires within { Within self.now.view.size.w self.now.view.size.h self.now.axis.right self.now.axis.down p.x p.y }
        requires answered { answered (seen_of self.now.view) (edge_of self.now.axis p) ≡ true }
        ensures { MatchOption result (shares_at (axis_of self.now.axis) (seen_of self.now.view) (edge_of self.now.axis p) ≡ [])
            (UnequalAt (axis_of self.now.axis) (seen_of self.now.view) self.now.view.size.h (edge_of self.now.axis p)) }
    {
        let pair = pairs::seen_pair(&self.view, p, self.axis);
        if pair.first == pair.second {
            return None;
        }
        let first = self.view.mesh.named(pair.first);
        let second = self.view.mesh.named(pair.second);
        let q0 = pixels::centre_of(p);
        let q1 = pixels::centre_of(pairs::neighbour(p, self.axis));
        Some(Unequal {
            p: pair.p,
            q: pair.q,
            sides: Sides::new(first, second, q0, q1),
        })
    }
}
