// The pieces of a face: clipping against the near plane, as the Rust's branches choose, and what they are charged. All but `face_pieces` are total: values in, value out.
// No function here is a public call.
#![tactic(auto)]

ghost use Rattle.std.specs.Prelude.{◌≡◌, Bool, true, false, ℕ, ◌/◌, ◌<◌, length, List, ◌∷◌, [], Float};
ghost use Rattle.geometry.specs.Answer.{point3, corners_of};
ghost use Rattle.geometry.specs.Vector.{triangle};
ghost use Rattle.meshes.specs.Mesh.{face_at};
ghost use Rattle.rules.specs.Piece as rule;
ghost use Rattle.rules.specs.Offers.{scene, face_pieces};
ghost use Rattle.rules.specs.declared.Facing.{Facing};
ghost use Rattle.corners.specs.Answer.{corner_of};
ghost use Rattle.pieces.specs.Answer.{pieces_of, piece_of, corners_in};

use corners::Corner;
use geometry::{Triangle, Vec3};
use meshes::Mesh;

// The corners of a face that is cut, the one alone on its side of the near plane first, and whether they are so listed turned round.
#[derive(Clone, Copy)]
pub struct Lone {
    pub lone: Corner,
    pub a: Corner,
    pub b: Corner,
    pub turned: bool,
}

// The lone corner of One is beyond the near plane, that of Two before it.
#[derive(Clone, Copy)]
pub enum Pieces {
    Nothing,
    Whole(Triangle<Corner>),
    One(Lone),
    Two(Lone),
}

// The three projected corners of a piece travel as an array of arrays, by value, as the specification names it: `[[f32; 3]; 3]`, a row for each corner. Whether
// they are listed turned round stands beside the array.

// The corners that an array of arrays holds.
pub fn corners(ndc: [[f32; 3]; 3]) -> Triangle<Vec3>
    ensures { corners_of result ≡ corners_in ndc }
{
    Triangle {
        p0: Vec3 {
            x: ndc[0][0],
            y: ndc[0][1],
            z: ndc[0][2],
        },
        p1: Vec3 {
            x: ndc[1][0],
            y: ndc[1][1],
            z: ndc[1][2],
        },
        p2: Vec3 {
            x: ndc[2][0],
            y: ndc[2][1],
            z: ndc[2][2],
        },
    }
}

// The array of arrays of three corners.
fn rows(a: Vec3, b: Vec3, c: Vec3) -> [[f32; 3]; 3]
    ensures { corners_in result ≡ triangle (point3 a) (point3 b) (point3 c) }
{
    [[a.x, a.y, a.z], [b.x, b.y, b.z], [c.x, c.y, c.z]]
}

// The face whole.
#[tactic(auto, unfolding(rules::specs::Piece::whole))]
pub fn whole(t: Triangle<Corner>) -> [[f32; 3]; 3]
    ensures { piece_of false result ∷ [] ≡ rule.whole (corner_of t.p0) (corner_of t.p1) (corner_of t.p2) }
{
    rows(t.p0.p, t.p1.p, t.p2.p)
}

impl Lone {
    // The one piece at the corner that alone is beyond the near plane.
    #[tactic(auto, unfolding(rules::specs::Piece::one_piece))]
    pub fn one_piece(self) -> [[f32; 3]; 3]
        ensures { piece_of self.turned result ∷ [] ≡ rule.one_piece self.turned (corner_of self.lone) (corner_of self.a) (corner_of self.b) }
    {
        let ab = corners::cut(self.lone, self.a);
        let ac = corners::cut(self.lone, self.b);
        rows(self.lone.p, ab, ac)
    }

    // The first of two pieces, where one corner alone is before the near plane.
    #[tactic(auto, unfolding(rules::specs::Piece::first_piece))]
    pub fn first_piece(self) -> [[f32; 3]; 3]
        ensures { piece_of self.turned result ≡ rule.first_piece self.turned (corner_of self.lone) (corner_of self.a) (corner_of self.b) }
    {
        rows(self.a.p, self.b.p, corners::cut(self.a, self.lone))
    }

    // The second.
    #[tactic(auto, unfolding(rules::specs::Piece::second_piece))]
    pub fn second_piece(self) -> [[f32; 3]; 3]
        ensures { piece_of self.turned result ≡ rule.second_piece self.turned (corner_of self.lone) (corner_of self.a) (corner_of self.b) }
    {
        let bc = corners::cut(self.b, self.lone);
        let ac = corners::cut(self.a, self.lone);
        rows(self.b.p, bc, ac)
    }
}

impl Pieces {
    // What a face of these pieces is charged: none, one or two.
    #[tactic(auto, unfolding(rules::specs::Piece::whole, rules::specs::Piece::one_piece, rules::specs::Piece::two_pieces))]
    pub fn charge(self) -> u32
        ensures { result ≡ length (pieces_of self) }
    {
        match self {
            Pieces::Nothing => 0,
            Pieces::Whole(_) => 1,
            Pieces::One(_) => 1,
            Pieces::Two(_) => 2,
        }
    }
}

// The first corner is alone where l0, else the second where l1, else the third. With the second first the corners are listed turned round.
#[tactic(auto, unfolding(rules::specs::Piece::lone_first))]
fn lone_first(l0: bool, l1: bool, t: Triangle<Corner>) -> Lone
    ensures { (make : Bool → rule.Corner Float → rule.Corner Float → rule.Corner Float → List rule.Piece)
        → make result.turned (corner_of result.lone) (corner_of result.a) (corner_of result.b) ≡ rule.lone_first l0 l1 make (corner_of t.p0) (corner_of t.p1) (corner_of t.p2) }
{
    if l0 {
        Lone {
            lone: t.p0,
            a: t.p1,
            b: t.p2,
            turned: false,
        }
    } else if l1 {
        Lone {
            lone: t.p1,
            a: t.p0,
            b: t.p2,
            turned: true,
        }
    } else {
        Lone {
            lone: t.p2,
            a: t.p0,
            b: t.p1,
            turned: false,
        }
    }
}

// Some corners beyond and some not, or a score that is NaN. (Here and in the two that choose before it each case returns: joined by `else`, the corners are put together
// once more where the cases meet, and a load of faces that are cut or hidden takes 1.1 to 1.2 of this code's time.)
#[tactic(auto, unfolding(rules::specs::Piece::mixed))]
fn mixed(t: Triangle<Corner>) -> Pieces
    ensures { pieces_of result ≡ rule.mixed (corner_of t.p0) (corner_of t.p1) (corner_of t.p2) }
{
    if corners::beyond_count(t) == 1 {
        return Pieces::One(lone_first(corners::beyond_near(t.p0), corners::beyond_near(t.p1), t));
    }
    Pieces::Two(lone_first(corners::before_near(t.p0), corners::before_near(t.p1), t))
}

#[tactic(auto, unfolding(rules::specs::Piece::clipped))]
fn clipped(t: Triangle<Corner>) -> Pieces
    ensures { pieces_of result ≡ rule.clipped (corner_of t.p0) (corner_of t.p1) (corner_of t.p2) }
{
    if corners::all_beyond_near(t) {
        return Pieces::Whole(t);
    }
    if corners::all_before_near(t) {
        return Pieces::Nothing;
    }
    mixed(t)
}

// Whether a face is surely whole. Most are, and are told so before their pieces are made: three corners in an enum are slow to hand over.
#[tactic(auto, unfolding(rules::specs::Piece::corners_pieces, rules::specs::Piece::clipped))]
pub fn stays_whole(t11: f32, t: Triangle<Corner>) -> bool
    ensures { result ≡ true → rule.whole (corner_of t.p0) (corner_of t.p1) (corner_of t.p2) ≡ rule.corners_pieces t11 (corner_of t.p0) (corner_of t.p1) (corner_of t.p2) }
{
    t11 == 0.0 || (!corners::any_behind(t11, t) && corners::all_beyond_near(t))
}

// The pieces of a face whose corners are projected and scored.
#[tactic(auto, unfolding(rules::specs::Piece::corners_pieces))]
pub fn clip(t11: f32, t: Triangle<Corner>) -> Pieces
    ensures { pieces_of result ≡ rule.corners_pieces t11 (corner_of t.p0) (corner_of t.p1) (corner_of t.p2) }
{
    if t11 == 0.0 {
        return Pieces::Whole(t);
    }
    if corners::any_behind(t11, t) {
        return Pieces::Nothing;
    }
    clipped(t)
}

// The pieces of face number i, whatever the image's size and the facing. A face with an unprojectable corner is passed over.
#[tactic(auto, using(crate::proofs::Faces::none_projected))]
pub fn face_pieces(mesh: &Mesh, m: &[f32; 16], i: usize) -> Pieces
    requires { i < length mesh.now.tri2vtx.now / 3 }
    ensures { (w h : ℕ) (facing : Facing) → pieces_of result ≡ face_pieces (scene m.now mesh.now.vtx2xyz.now w h facing) (face_at mesh.now.tri2vtx.now i) }
{
    let f = mesh.face(i);
    let Some(projected) = mesh.project(m, f) else {
        return Pieces::Nothing;
    };
    let t11 = m[11];
    let t = corners::face_scored(t11, projected);
    if stays_whole(t11, t) {
        return Pieces::Whole(t);
    }
    clip(t11, t)
}
