// 02, Point 1: an outline in an image, as both outline passes see it: its questions, the ends of its edges, and the crossings at a pixel. No function here is a
// public call.
#![tactic(auto)]

ghost use Rattle.std.specs.Prelude.{◌≡◌, false, ◌&&◌, cond, ◌+◌, ◌*◌, ◌/◌, ◌≤◌, ◌<◌, length, [], IfOk, IfSome, Float};
ghost use Rattle.outlines.specs.Formula as formula;
ghost use Rattle.questions.specs.Answer.{code_of};
ghost use Rattle.pixels.specs.Answer.{axis_of};
ghost use Rattle.outlines.specs.Covered.{covers};
ghost use Rattle.outlines.specs.Neighbours.{pair_axis};
ghost use Rattle.outlines.specs.Answer.{ends_of, pixel_of};
ghost use Rattle.outlines.specs.Leaf.{crossing_between};
ghost use Rattle.pixels.specs.Pixel.{number_in, centre_of};
ghost use Rattle.outline_views.specs.Outline.{outline_edge_at, project_edge, edges_project, edge_projects, met_at, pixel_met, covered_met, shown_in, outline_view, exact_images, outline_code};
ghost use Rattle.outline_views.specs.Steps.{SoundOutline, Amid, OffBorder, both_met};

use outline_spans::Reach;
use outlines::{Crossing, Ends};
use pixels::{Axis, ImageSize, Pixel};
use questions::{Refusal, all_below, edge_slices_ok, sizes_ok};

// An edge by its two vertex numbers, each counted from 0.
#[derive(Clone, Copy)]
pub struct OutlineEdge {
    pub v0: usize,
    pub v1: usize,
}

// A crossing that a pass meets: of two neighbouring pixels, by their numbers, the first shows a face and the second is empty.
#[derive(Clone, Copy)]
pub struct Met {
    pub first: usize,
    pub second: usize,
    pub crossing: Crossing,
}

// An image's map and an outline of the mesh that it shows, once questions 1, 3, 4 and 10 are answered yes, and the matrix that the call takes with them, its
// sixteen numbers column by column.
#[derive(Clone, Copy)]
pub struct Outline<'a> {
    pub size: ImageSize,
    pub cedge2vtx: &'a [u32],
    pub vtx2xyz: &'a [f32],
    pub m: &'a [f32; 16],
    pub pix2tri: &'a [u32],
    pub ghost sound: { SoundOutline cedge2vtx.now vtx2xyz.now pix2tri.now size.w size.h },
}

// An edge in the picture: the pixels that it may cover, and the axis of their pairs.
#[derive(Clone, Copy)]
pub struct Traced {
    pub reach: Reach,
    pub axis: Axis,
    pub ghost pairs: { axis_of axis ≡ pair_axis (ends_of reach.e) },
    pub ghost right: { axis.right ≤ 1 },
    pub ghost down: { axis.down ≤ 1 },
}

// The lengths that question 4 asks of a pass: of two images beside the map, and whether its other buffers have theirs.
#[derive(Clone, Copy)]
pub struct Lengths {
    pub first: usize,
    pub second: usize,
    pub others: bool,
}

// Question 4, of a map so long too.
#[tactic(auto, unfolding(questions::specs::Questions::exact, crate::specs::Outline::exact_images))]
fn lengths_exact(size: ImageSize, map: usize, lengths: Lengths) -> bool
    ensures { result ≡ (exact_images size.w size.h map lengths.first lengths.second && lengths.others) }
{
    let n = size.pixels();
    map == n && lengths.first == n && lengths.second == n && lengths.others
}

impl Outline<'_> {
    ghost use Rattle.outline_views.specs.Answer.{seen_of, outline_edge_of, maybe_ends, mets_of, Lent};

    // Questions 1, 3, 4, 10 and 8, and the outline that they are asked of. (The parameters are the calls'.)
    #[tactic(auto, using(crate::proofs::Asked::asked), unfolding(questions::specs::Questions::first_no, crate::specs::Outline::outline_code))]
    pub fn ask<'a>(
        cedge2vtx: &'a [u32],
        vtx2xyz: &'a [f32],
        transform_world2pix: &'a [f32; 16],
        img_w: usize,
        img_h: usize,
        pix2tri: &'a [u32],
        lengths: Lengths,
    ) -> Result<Outline<'a>, Refusal>
        ensures code { code_of result ≡ outline_code (outline_view (shown_in pix2tri.now) cedge2vtx.now transform_world2pix.now vtx2xyz.now img_w img_h)
            (exact_images img_w img_h (length pix2tri.now) lengths.first lengths.second && lengths.others) }
        ensures lent { IfOk result (λ o. Lent o (outline_view (shown_in pix2tri.now) cedge2vtx.now transform_world2pix.now vtx2xyz.now img_w img_h)) }
    {
        questions::ask(sizes_ok(1, img_w, img_h), Refusal::Size)?;
        questions::ask(
            edge_slices_ok(cedge2vtx.len(), vtx2xyz.len()),
            Refusal::Slices,
        )?;
        let size = ImageSize { w: img_w, h: img_h };
        questions::ask(
            lengths_exact(size, pix2tri.len(), lengths),
            Refusal::Lengths,
        )?;
        questions::ask(all_below(vtx2xyz.len() / 3, cedge2vtx), Refusal::Edges)?;
        let outline = Outline {
            size,
            cedge2vtx,
            vtx2xyz,
            m: transform_world2pix,
            pix2tri,
        };
        questions::ask(outline.all_project(), Refusal::Projections)?;
        Ok(outline)
    }

    pub fn edge_count(&self) -> usize
        ensures { result ≡ length self.now.cedge2vtx.now / 2 }
    {
        self.cedge2vtx.len() / 2
    }

    // Edge number k.
    #[tactic(auto, unfolding(crate::specs::Outline::outline_edge_at))]
    pub fn edge(&self, k: usize) -> OutlineEdge
        requires { k < length self.now.cedge2vtx.now / 2 }
        ensures edge { outline_edge_of result ≡ outline_edge_at self.now.cedge2vtx.now k }
        ensures first { result.v0 < length self.now.vtx2xyz.now / 3 }
        ensures second { result.v1 < length self.now.vtx2xyz.now / 3 }
    {
        OutlineEdge {
            v0: self.cedge2vtx[2 * k] as usize,
            v1: self.cedge2vtx[2 * k + 1] as usize,
        }
    }

    // Its ends in the picture, none where one has no projection.
    #[tactic(auto, unfolding(crate::specs::Outline::project_edge, crate::specs::Outline::both_ends))]
    pub fn project(&self, f: OutlineEdge) -> Option<Ends>
        requires first { f.v0 < length self.now.vtx2xyz.now / 3 }
        requires second { f.v1 < length self.now.vtx2xyz.now / 3 }
        ensures { maybe_ends result ≡ project_edge self.now.m.now self.now.vtx2xyz.now (outline_edge_of f) }
    {
        let a = geometry::project(self.m, meshes::vertex(self.vtx2xyz, f.v0))?;
        let b = geometry::project(self.m, meshes::vertex(self.vtx2xyz, f.v1))?;
        Some(Ends {
            q0: geometry::flat(a.p),
            q1: geometry::flat(b.p),
        })
    }

    // The pixels that an edge may cover, and the axis of their pairs.
    pub fn trace(&self, e: Ends) -> Traced
        ensures ends { result.reach.e ≡ e }
        ensures size { result.reach.size ≡ self.now.size }
    {
        Traced {
            reach: outline_spans::reach_of(self.size, e),
            axis: outlines::pair_axis(e),
        }
    }

    // Have both ends of edge number k a projection?
    #[tactic(auto, unfolding(crate::specs::Outline::edge_projects, inside::specs::Inside::present))]
    fn edge_projects(&self, k: usize) -> bool
        requires { k < length self.now.cedge2vtx.now / 2 }
        ensures { result ≡ edge_projects (seen_of self.now) k }
    {
        self.project(self.edge(k)).is_some()
    }

    // Question 8, of each edge.
    fn all_project(&self) -> bool
        ensures { result ≡ edges_project (seen_of self.now) }
    {
        (0..self.edge_count()).all(|k| self.edge_projects(k))
    }

    // Whether a pixel shows a face.
    #[tactic(auto, using(meshes::specs::Laws::entry_read))]
    fn shows(&self, p: Pixel) -> bool
        requires in_row { p.x < self.now.size.w }
        requires in_column { p.y < self.now.size.h }
        ensures { result ≡ shown_in self.now.pix2tri.now (p.y * self.now.size.w + p.x) }
    {
        self.pix2tri[self.size.number(p)] != questions::EMPTY
    }

    // The crossing of an edge with the way between two neighbouring pixels, of which the first shows a face and the second is empty.
    #[tactic(auto, unfolding(crate::specs::Outline::met_at))]
    fn met(&self, e: Ends, first: Pixel, second: Pixel) -> Option<Met>
        requires first_column { first.x < self.now.size.w }
        requires first_row { first.y < self.now.size.h }
        requires second_column { second.x < self.now.size.w }
        requires second_row { second.y < self.now.size.h }
        ensures met { mets_of result
            ≡ met_at (number_in self.now.size.w (pixel_of first)) (number_in self.now.size.w (pixel_of second))
            (crossing_between (centre_of (pixel_of first)) (centre_of (pixel_of second)) (ends_of e)) }
        ensures first { IfSome result (λ k. k.first < self.now.size.w * self.now.size.h) }
        ensures second { IfSome result (λ k. k.second < self.now.size.w * self.now.size.h) }
    {
        let crossing = outlines::crossing_between(
            pixels::centre_of(first),
            pixels::centre_of(second),
            e,
        )?;
        Some(Met {
            first: self.size.number(first),
            second: self.size.number(second),
            crossing,
        })
    }

    // The crossing between a pixel and a neighbour of it, whichever shows a face, if one alone does.
    #[tactic(auto, using(crate::specs::Laws::met_nowhere))]
    pub fn met_between(&self, e: Ends, p: Pixel, q: Pixel) -> Option<Met>
        requires first_column { p.x < self.now.size.w }
        requires first_row { p.y < self.now.size.h }
        requires second_column { q.x < self.now.size.w }
        requires second_row { q.y < self.now.size.h }
        ensures met { mets_of result ≡ both_met (seen_of self.now) (ends_of e) (pixel_of p) (pixel_of q) }
        ensures first { IfSome result (λ k. k.first < self.now.size.w * self.now.size.h) }
        ensures second { IfSome result (λ k. k.second < self.now.size.w * self.now.size.h) }
    {
        if !self.shows(p) {
            if !self.shows(q) {
                return None;
            }
            return self.met(e, q, p);
        }
        if self.shows(q) {
            return None;
        }
        self.met(e, p, q)
    }

    // Whether a pixel and its two neighbours along an axis do not all show a face, nor are all empty. Where not, no crossing is there.
    #[tactic(auto, using(crate::specs::Laws::nothing_met))]
    fn parted(&self, axis: Axis, p: Pixel) -> bool
        requires { Amid (axis_of axis) self.now.size.w self.now.size.h (pixel_of p) }
        ensures { result ≡ false → (e : formula.Ends Float) → pair_axis e ≡ axis_of axis → pixel_met (seen_of self.now) e (pixel_of p) ≡ [] }
    {
        let here = self.shows(p);
        here != self.shows(outlines::before(axis, p))
            || here != self.shows(outlines::after(axis, p))
    }

    // Whether an edge covers a pixel off the border, and a crossing may be there.
    pub fn touches(&self, t: &Traced, p: Pixel) -> bool
        requires { OffBorder self.now.size.w self.now.size.h (pixel_of p) }
        ensures { covered_met (seen_of self.now) (ends_of t.now.reach.e) (pixel_of p)
            ≡ cond result (pixel_met (seen_of self.now) (ends_of t.now.reach.e) (pixel_of p)) [] }
    {
        self.parted(t.axis, p) && outlines::covers(t.reach.e, p)
    }
}
