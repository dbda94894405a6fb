// A face as `bwd` sees it: its corners, and where the matrix takes them. No function here is a public call.
#![tactic(auto)]

ghost use Rattle.std.specs.Prelude.{◌≡◌};
ghost use Rattle.std.proofs.Math.Option.{some};
ghost use Rattle.geometry.specs.Answer.{point2, point3, weights_of, maybe_weights, corner_weights_of, corners_of, projected_corners};
ghost use Rattle.meshes.specs.Answer.{face_of};
ghost use Rattle.inside.specs.Inside.{all_inside, weights_in, present};
ghost use Rattle.tris.specs.Weights as spec;
ghost use Rattle.tris.specs.Tri.{point_on, unormal, Projects, TriOf};
ghost use Rattle.tris.specs.Answer.{corners_in, projected_in};

use geometry::{CornerWeights, Projected, Triangle, Vec2, Vec3, Weights};
use meshes::{Face, Mesh};

// Flat arrays, as the specification names them.
#[derive(Clone, Copy)]
pub struct Tri {
    pub node2xyz: [f32; 9],
    pub node2pixxy: [f32; 6],
    pub node2w: [f32; 3],
    pub node2pixz: [f32; 3],
}

impl Tri {
    // The corners and their projections as flat arrays.
    #[tactic(auto, unfolding(crate::specs::Answer::corners_in, crate::specs::Answer::projected_in))]
    fn from_corners(xyz: Triangle<Vec3>, pix: Triangle<Projected>) -> Tri
        ensures corners { corners_in result ≡ corners_of xyz }
        ensures projections { projected_in result ≡ projected_corners pix }
    {
        let Triangle {
            p0: x0,
            p1: x1,
            p2: x2,
        } = xyz;
        let Triangle { p0, p1, p2 } = pix;
        Tri {
            node2xyz: [x0.x, x0.y, x0.z, x1.x, x1.y, x1.z, x2.x, x2.y, x2.z],
            node2pixxy: [p0.p.x, p0.p.y, p1.p.x, p1.p.y, p2.p.x, p2.p.y],
            node2w: [p0.w, p1.w, p2.w],
            node2pixz: [p0.p.z, p1.p.z, p2.p.z],
        }
    }

    // A face whose corners question 8 has found to have projections.
    #[tactic(auto, unfolding(meshes::specs::Mesh::project_face, meshes::specs::Mesh::all_three, meshes::specs::Mesh::corners_at, inside::specs::Inside::projects, inside::specs::Inside::present, geometry::specs::Leaf::project, geometry::specs::Leaf::divided, jacobians::specs::Formula::project_untested))]
    pub fn new(mesh: &Mesh, m: &[f32; 16], f: Face) -> Tri
        requires { Projects m.now mesh.now.vtx2xyz.now (face_of f) }
        ensures { TriOf m.now mesh.now.vtx2xyz.now (face_of f) (corners_in result) (projected_in result) }
    {
        let xyz = mesh.corners(f);
        let pix = Triangle {
            p0: jacobians::project_untested(m, xyz.p0),
            p1: jacobians::project_untested(m, xyz.p1),
            p2: jacobians::project_untested(m, xyz.p2),
        };
        Tri::from_corners(xyz, pix)
    }

    #[tactic(auto, unfolding(crate::specs::Answer::projected_in, inside::specs::Inside::weights_in))]
    fn barycentric_pix(self, q: Vec2) -> Option<CornerWeights>
        ensures { corner_weights_of result ≡ weights_in (point2 q) (some (projected_in self)) }
    {
        let p = self.node2pixxy;
        let corners = Triangle {
            p0: Vec2 { x: p[0], y: p[1] },
            p1: Vec2 { x: p[2], y: p[3] },
            p2: Vec2 { x: p[4], y: p[5] },
        };
        geometry::corner_weights(q, corners)
    }

    // Are the weights of q all ≥ 0? None means outside.
    pub fn is_inside(self, q: Vec2) -> bool
        ensures { result ≡ all_inside (weights_in (point2 q) (some (projected_in self))) }
    {
        inside::all_inside(self.barycentric_pix(q))
    }

    #[tactic(auto, unfolding(crate::specs::Answer::projected_in, crate::specs::Weights::world_in, crate::specs::Weights::to_world, crate::specs::Weights::over_divisors, geometry::specs::Leaf::weighed_all, geometry::specs::Formula::total))]
    pub fn barycentric_world(self, q: Vec2) -> Option<Weights>
        ensures { maybe_weights result ≡ spec.world_in (point2 q) (some (projected_in self)) }
    {
        let b = self.barycentric_pix(q)?.b;
        let w = self.node2w;
        let a = Weights {
            b0: b.b0 / w[0],
            b1: b.b1 / w[1],
            b2: b.b2 / w[2],
        };
        all_finite(geometry::weighed(a, a.b0 + a.b1 + a.b2))
    }

    // Has `barycentric_world` an answer?
    #[tactic(auto, unfolding(inside::specs::Inside::present))]
    pub fn has_world(self, q: Vec2) -> bool
        ensures { result ≡ present (spec.world_in (point2 q) (some (projected_in self))) }
    {
        self.barycentric_world(q).is_some()
    }

    // The point that the weights make of the corners.
    #[tactic(auto, unfolding(crate::specs::Answer::corners_in, crate::specs::Tri::point_on, geometry::specs::Formula::point_from))]
    pub fn world_pos(self, b: Weights) -> Vec3
        ensures { point3 result ≡ point_on (corners_in self) (weights_of b) }
    {
        let x = self.node2xyz;
        Vec3 {
            x: geometry::blend(b, x[0], x[3], x[6]),
            y: geometry::blend(b, x[1], x[4], x[7]),
            z: geometry::blend(b, x[2], x[5], x[8]),
        }
    }

    // The unit normal of the projected face.
    #[tactic(auto, unfolding(crate::specs::Answer::projected_in, crate::specs::Tri::unormal))]
    pub fn unormal_pix(self) -> Vec3
        ensures { point3 result ≡ unormal (projected_in self) }
    {
        let p = self.node2pixxy;
        let z = self.node2pixz;
        normals::unit_normal(Triangle {
            p0: Vec3 {
                x: p[0],
                y: p[1],
                z: z[0],
            },
            p1: Vec3 {
                x: p[2],
                y: p[3],
                z: z[1],
            },
            p2: Vec3 {
                x: p[4],
                y: p[5],
                z: z[2],
            },
        })
    }
}

// The weights, or none where one of them is not finite.
#[tactic(auto, unfolding(crate::specs::Weights::finite_all))]
fn all_finite(weights: Option<Weights>) -> Option<Weights>
    ensures { maybe_weights result ≡ spec.finite_all (maybe_weights weights) }
{
    weights.filter(|b| {
        geometry::finite(b.b0) && geometry::finite(b.b1) && geometry::finite(b.b2)
    })
}
