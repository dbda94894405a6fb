// The depth that a piece on the screen has at a pixel, or −infinity, worked out straight on, with no early end, so that a compiler can work out several pixels
// side by side; today's takes them one after another. It tells which pixels can be greater than what is stored; a visit of those works their depth out anew,
// and leaves off where there is none.
#![tactic(auto)]

ghost use Rattle.std.specs.Prelude.{◌≡◌, cond, Float};
ghost use Rattle.std.specs.Float.Ieee.{lt, le};
ghost use Rattle.geometry.specs.Answer.{point2, corners_of, weights_of};
ghost use Rattle.offers.specs.Offer.{lowest};
ghost use Rattle.rules.specs.Scan as rule;
ghost use Rattle.rules.specs.Weighs.{Weighs};
ghost use Rattle.lanes.specs.Answer.{within, or_lowest};

use geometry::{Triangle, Vec2, Vec3, Weights};
use rules::Facing;

// The sums that a drawing counts, an open interval: whatever its ends, what lies between is finite.
#[derive(Clone, Copy)]
pub struct Side {
    pub above: f32,
    pub below: f32,
}

impl Side {
    const ANY: Side = Side {
        above: f32::NEG_INFINITY,
        below: f32::INFINITY,
    };

    const POSITIVE: Side = Side {
        above: 0.0,
        below: f32::INFINITY,
    };

    const NEGATIVE: Side = Side {
        above: f32::NEG_INFINITY,
        below: 0.0,
    };

    // What a facing counts of a piece, of all sums that weights can have.
    pub fn of(facing: Facing, turned: bool) -> Side
        ensures { (s : Float) → Weighs s → within result s ≡ rule.counts facing turned s }
    {
        match facing {
            Facing::All => Side::ANY,
            Facing::Front if turned => Side::NEGATIVE,
            Facing::Front => Side::POSITIVE,
        }
    }

    // Whether a sum is one of them.
    #[tactic(auto, unfolding(crate::specs::Answer::within))]
    pub fn counts(self, s: f32) -> bool
        ensures { result ≡ within self s }
    {
        self.above < s && s < self.below
    }
}

// A weight below −1e-5 drops the pixel. A NaN passes, and the depth it makes is never greater than another.
fn below(b: f32) -> bool
    ensures { result ≡ lt b rule.drop_below }
{
    b < -1e-5
}

#[tactic(auto, unfolding(rules::specs::Scan::dropped))]
pub fn dropped(b: Weights) -> bool
    ensures { result ≡ rule.dropped (weights_of b) }
{
    below(b.b0) || below(b.b1) || below(b.b2)
}

// −infinity in the place of z where there is none.
#[tactic(auto, using(crate::proofs::Sides::minus_infinity))]
fn unless(none: bool, z: f32) -> f32
    ensures { result ≡ cond none lowest z }
{
    if none { f32::NEG_INFINITY } else { z }
}

// What the divisions give where there are no weights counts for nothing.
pub fn lane(s: Triangle<Vec3>, side: Side, q: Vec2) -> f32
    ensures { result ≡ or_lowest (rule.depth_at (within side) (corners_of s) (point2 q)) }
{
    let p0 = geometry::flat(s.p0);
    let p1 = geometry::flat(s.p1);
    let p2 = geometry::flat(s.p2);
    let a0 = geometry::cross2(q, p1, p2);
    let a1 = geometry::cross2(q, p2, p0);
    let a2 = geometry::cross2(q, p0, p1);
    let t = a0 + a1 + a2;
    let b = Weights {
        b0: a0 / t,
        b1: a1 / t,
        b2: a2 / t,
    };
    let z = geometry::blend(b, s.p0.z, s.p1.z, s.p2.z);
    let kept = unless(dropped(b), z);
    let weighed = unless(t == 0.0, kept);
    unless(!side.counts(t), weighed)
}

// z where q is not past the end, which is the centre of the last column or row.
#[tactic(auto, using(crate::proofs::Sides::minus_infinity))]
pub fn up_to(end: f32, q: f32, z: f32) -> f32
    ensures { result ≡ cond (le q end) z lowest }
{
    if q <= end { z } else { f32::NEG_INFINITY }
}
