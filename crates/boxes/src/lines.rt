// Three coordinates along the columns or the rows of an image: whether a centre can lie between, which do, and how many.
#![tactic(auto)]

ghost use Rattle.std.specs.Prelude.{◌≡◌, ◌≤◌, MatchOption};
ghost use Rattle.rules.specs.Scan as rule;
ghost use Rattle.lists.specs.Lists.{span, count};
ghost use Rattle.boxes.specs.Reach.{in_pixels, holds_centre, Tells};
ghost use Rattle.boxes.specs.Box.{Spanned, Unspanned};

use crate::reach::{self, End};

// Columns run right, and rows run down.
#[derive(Clone, Copy)]
pub enum Along {
    Columns,
    Rows,
}

// The columns or the rows of an image: so many.
#[derive(Clone, Copy)]
pub struct Lines {
    pub along: Along,
    pub n: usize,
    pub ghost most: { n ≤ 4096 },
}

// From one up to, and without, another.
#[derive(Clone, Copy)]
pub struct Span {
    pub start: usize,
    pub end: usize,
}

// The lesser and the greater as the document compares, NaN included: the library's `min` and `max` answer otherwise there.
#[tactic(auto, unfolding(rules::specs::Scan::lower))]
fn lower(a: f32, b: f32) -> f32
    ensures { result ≡ rule.lower a b }
{
    if b < a { b } else { a }
}

#[tactic(auto, unfolding(rules::specs::Scan::upper))]
fn upper(a: f32, b: f32) -> f32
    ensures { result ≡ rule.upper a b }
{
    if a < b { b } else { a }
}

#[tactic(auto, unfolding(rules::specs::Scan::least))]
pub fn least(a: f32, b: f32, c: f32) -> f32
    ensures { result ≡ rule.least a b c }
{
    lower(lower(a, b), c)
}

#[tactic(auto, unfolding(rules::specs::Scan::greatest))]
pub fn greatest(a: f32, b: f32, c: f32) -> f32
    ensures { result ≡ rule.greatest a b c }
{
    upper(upper(a, b), c)
}

impl Lines {
    pub fn columns(w: usize) -> Lines
        requires { w ≤ 4096 }
        ensures along { result.along ≡ Along.Columns }
        ensures n { result.n ≡ w }
    {
        Lines {
            along: Along::Columns,
            n: w,
        }
    }

    pub fn rows(h: usize) -> Lines
        requires { h ≤ 4096 }
        ensures along { result.along ≡ Along.Rows }
        ensures n { result.n ≡ h }
    {
        Lines {
            along: Along::Rows,
            n: h,
        }
    }

    // The coordinate in pixels, not whole, of a corner.
    pub fn in_pixels(self, c: f32) -> f32
        ensures { result ≡ in_pixels self.along self.n c }
    {
        match self.along {
            Along::Columns => (c + 1.0) * 0.5 * pixels::as_float(self.n),
            Along::Rows => (1.0 - c) * 0.5 * pixels::as_float(self.n),
        }
    }

    // Whether three corners' coordinates are finite in pixels and a centre can lie between. Where not, the scan holds no pixel.
    // Each is tested before the next is worked out: all at once, they would be loaded together, before what was stored one by one is there.
    #[tactic(auto, using(crate::proofs::Scans::first_lost, crate::proofs::Scans::second_lost, crate::proofs::Scans::third_lost, crate::proofs::Scans::all_there))]
    pub fn spans_centre(self, a: f32, b: f32, c: f32) -> bool
        requires { 1 ≤ self.n }
        ensures { Tells (in_pixels self.along self.n a) (in_pixels self.along self.n b) (in_pixels self.along self.n c) self.n result }
    {
        let p = self.in_pixels(a);
        if !geometry::finite(p) {
            return false;
        }
        let q = self.in_pixels(b);
        if !geometry::finite(q) {
            return false;
        }
        let s = self.in_pixels(c);
        if !geometry::finite(s) {
            return false;
        }
        reach::meets(least(p, q, s), greatest(p, q, s), self.n)
    }

    // The centres between three coordinates in pixels, if any.
    #[inline(always)]
    pub fn spanned(self, p: f32, q: f32, s: f32) -> Option<Span>
        ensures { MatchOption result (Unspanned p q s self.n) (λ r. Spanned p q s self.n r) }
    {
        let start = reach::first_reached(End::Lower(least(p, q, s)), self.n);
        let end = reach::first_reached(End::Upper(greatest(p, q, s)), self.n);
        if end <= start {
            return None;
        }
        Some(Span { start, end })
    }

    // How many centres lie between three corners' coordinates: none where one is not finite in pixels.
    #[tactic(auto, using(crate::proofs::Scans::some_counted, crate::proofs::Scans::none_counted, crate::proofs::Scans::unspanned))]
    pub fn count_centres(self, a: f32, b: f32, c: f32) -> usize
        requires { 1 ≤ self.n }
        ensures { result ≡ count (holds_centre (in_pixels self.along self.n a) (in_pixels self.along self.n b) (in_pixels self.along self.n c)) (span 0 self.n) }
    {
        if !self.spans_centre(a, b, c) {
            return 0;
        }
        match self.spanned(self.in_pixels(a), self.in_pixels(b), self.in_pixels(c)) {
            Some(r) => r.end - r.start,
            None => 0,
        }
    }
}
