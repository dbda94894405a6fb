// The static library: the calls of `paqelzim` as C sees them. Every function here, and nothing else, is exported. Each passes
// its arguments on to the function of `paqelzim` of its name, and promises what that one promises.
#![tactic(auto)]

ghost use Rattle.std.specs.Prelude.{◌≡◌};
ghost use Rattle.std.specs.Float.{binary32, binary64};
ghost use Rattle.roots.specs.Root.{SquareRoot};
ghost use Rattle.floats.specs.Narrow.{narrow, hypot_of};
ghost use Rattle.questions.specs.Questions.{outcome};
ghost use Rattle.cells.specs.Layer.{layer};
ghost use Rattle.layers.specs.Calls.{clearing, joining};
ghost use Rattle.meshes.specs.View.{view_of};
ghost use Rattle.rules.specs.Calls.{draws};
ghost use Rattle.rules.specs.Load.{loading};
ghost use Rattle.load.specs.Answer.{answered_in_c};
ghost use Rattle.removal_rules.specs.Removal.{previewing};
ghost use Rattle.removal_counts.specs.Answer as removal;
ghost use Rattle.labels.specs.Labels.{labelling};
ghost use Rattle.pixel_rays.specs.Rays.{image};
ghost use Rattle.vertex_values.specs.Pass.{vertices};
ghost use Rattle.values.specs.Interpolate.{interpolating};
ghost use Rattle.pixel_bwd.specs.Additions.{sums};
ghost use Rattle.values_bwd.specs.Bwd.{interpolating_bwd};
ghost use Rattle.pairs.specs.Pairs.{edge_view};
ghost use Rattle.pairs.specs.Gradient.{pixel_values};
ghost use Rattle.edge_types.specs.Axis.{axis_buffers};
ghost use Rattle.edges.specs.Calls.{edge_buffers, edge_typing};
ghost use Rattle.edge_bwd.specs.Calls.{edge_bwd};
ghost use Rattle.velocity.specs.Calls.{velocities};
ghost use Rattle.outline_views.specs.Outline.{outline_view, shown_in};
ghost use Rattle.antialias.specs.Calls.{antialiasing};
ghost use Rattle.antialias_bwd.specs.Calls.{antialiasing_bwd};

use load::DrawingLoad;
use removal_counts::RemovalPreview;

#[unsafe(no_mangle)]
pub extern "C" fn paqelzim_clear(
    pix2tri: &mut [u32],
    pix2depth: &mut [f32],
    pix2weights: &mut [f32],
    img_w: usize,
    img_h: usize,
) -> u32
    ensures { outcome result (layer pix2tri.new pix2depth.new pix2weights.new) ≡ clearing (layer pix2tri.old pix2depth.old pix2weights.old) img_w img_h }
{
    paqelzim::paqelzim_clear(pix2tri, pix2depth, pix2weights, img_w, img_h)
}

#[unsafe(no_mangle)]
pub extern "C" fn paqelzim_pix2tri_by_rasterization(
    pix2tri: &mut [u32],
    pix2depth: &mut [f32],
    pix2weights: &mut [f32],
    tri2vtx: &[u32],
    vtx2xyz: &[f32],
    img_w: usize,
    img_h: usize,
    transform_world2ndc: &[f32; 16],
    first: u32,
    facing: u32,
) -> u32
    ensures { outcome result (layer pix2tri.new pix2depth.new pix2weights.new)
        ≡ draws (layer pix2tri.old pix2depth.old pix2weights.old) tri2vtx.now vtx2xyz.now img_w img_h transform_world2ndc.now first facing }
{
    paqelzim::paqelzim_pix2tri_by_rasterization(
        pix2tri,
        pix2depth,
        pix2weights,
        tri2vtx,
        vtx2xyz,
        img_w,
        img_h,
        transform_world2ndc,
        first,
        facing,
    )
}

#[unsafe(no_mangle)]
pub extern "C" fn paqelzim_drawing_load(
    tri2vtx: &[u32],
    vtx2xyz: &[f32],
    img_w: usize,
    img_h: usize,
    transform_world2ndc: &[f32; 16],
) -> DrawingLoad
    ensures { answered_in_c result ≡ loading tri2vtx.now vtx2xyz.now img_w img_h transform_world2ndc.now }
{
    paqelzim::paqelzim_drawing_load(tri2vtx, vtx2xyz, img_w, img_h, transform_world2ndc)
}

#[unsafe(no_mangle)]
pub extern "C" fn paqelzim_preview_removal(
    tri2vtx: &[u32],
    vtx2xyz: &[f32],
    img_w: usize,
    img_h: usize,
    transform_world2ndc: &[f32; 16],
    removed: &[u8],
    full_pix2tri: &mut [u32],
    full_pix2depth: &mut [f32],
    full_pix2weights: &mut [f32],
    short_pix2tri: &mut [u32],
    short_pix2depth: &mut [f32],
    short_pix2weights: &mut [f32],
) -> RemovalPreview
    ensures { removal.answered_in_c result (layer full_pix2tri.new full_pix2depth.new full_pix2weights.new)
        (layer short_pix2tri.new short_pix2depth.new short_pix2weights.new)
        ≡ previewing tri2vtx.now vtx2xyz.now img_w img_h transform_world2ndc.now removed.now
        (layer full_pix2tri.old full_pix2depth.old full_pix2weights.old)
        (layer short_pix2tri.old short_pix2depth.old short_pix2weights.old) }
{
    paqelzim::paqelzim_preview_removal(
        tri2vtx,
        vtx2xyz,
        img_w,
        img_h,
        transform_world2ndc,
        removed,
        full_pix2tri,
        full_pix2depth,
        full_pix2weights,
        short_pix2tri,
        short_pix2depth,
        short_pix2weights,
    )
}

#[unsafe(no_mangle)]
pub extern "C" fn paqelzim_join(
    left_pix2tri: &mut [u32],
    left_pix2depth: &mut [f32],
    left_pix2weights: &mut [f32],
    right_pix2tri: &[u32],
    right_pix2depth: &[f32],
    right_pix2weights: &[f32],
    img_w: usize,
    img_h: usize,
) -> u32
    ensures { outcome result (layer left_pix2tri.new left_pix2depth.new left_pix2weights.new)
        ≡ joining (layer left_pix2tri.old left_pix2depth.old left_pix2weights.old)
        (layer right_pix2tri.now right_pix2depth.now right_pix2weights.now) img_w img_h }
{
    paqelzim::paqelzim_join(
        left_pix2tri,
        left_pix2depth,
        left_pix2weights,
        right_pix2tri,
        right_pix2depth,
        right_pix2weights,
        img_w,
        img_h,
    )
}

#[unsafe(no_mangle)]
pub extern "C" fn paqelzim_label_picture(
    pix2tri: &[u32],
    tri2body: &[u32],
    img_w: usize,
    img_h: usize,
    pix2body: &mut [u32],
) -> u32
    ensures { outcome result pix2body.new ≡ labelling pix2tri.now tri2body.now img_w img_h pix2body.old }
{
    paqelzim::paqelzim_label_picture(pix2tri, tri2body, img_w, img_h, pix2body)
}

#[unsafe(no_mangle)]
pub extern "C" fn paqelzim_interpolate(
    img_w: usize,
    img_h: usize,
    pix2tri: &[u32],
    tri2vtx: &[u32],
    vtx2xyz: &[f32],
    num_vdim: usize,
    vtx2val: &[f32],
    transform_ndc2world: &[f32; 16],
    pix2val: &mut [f32],
) -> u32
    ensures { outcome result pix2val.new
        ≡ interpolating (image img_w img_h transform_ndc2world.now) (vertices vtx2xyz.now num_vdim vtx2val.now)
        tri2vtx.now pix2tri.now pix2val.old }
{
    paqelzim::paqelzim_interpolate(
        img_w,
        img_h,
        pix2tri,
        tri2vtx,
        vtx2xyz,
        num_vdim,
        vtx2val,
        transform_ndc2world,
        pix2val,
    )
}

#[unsafe(no_mangle)]
pub extern "C" fn paqelzim_interpolate_bwd(
    img_w: usize,
    img_h: usize,
    pix2tri: &[u32],
    tri2vtx: &[u32],
    vtx2xyz: &[f32],
    num_vdim: usize,
    vtx2val: &[f32],
    transform_ndc2world: &[f32; 16],
    dldw_pix2val: &[f32],
    dldw_vtx2xyz: &mut [f32],
    dldw_vtx2val: &mut [f32],
) -> u32
    ensures { outcome result (sums dldw_vtx2xyz.new dldw_vtx2val.new)
        ≡ interpolating_bwd (image img_w img_h transform_ndc2world.now) (vertices vtx2xyz.now num_vdim vtx2val.now)
        tri2vtx.now pix2tri.now dldw_pix2val.now (sums dldw_vtx2xyz.old dldw_vtx2val.old) }
{
    paqelzim::paqelzim_interpolate_bwd(
        img_w,
        img_h,
        pix2tri,
        tri2vtx,
        vtx2xyz,
        num_vdim,
        vtx2val,
        transform_ndc2world,
        dldw_pix2val,
        dldw_vtx2xyz,
        dldw_vtx2val,
    )
}

#[unsafe(no_mangle)]
pub extern "C" fn paqelzim_edge_gradient_and_type(
    tri2vtx: &[u32],
    vtx2xyz: &[f32],
    transform_world2pix: &[f32; 16],
    img_w: usize,
    img_h: usize,
    pix2tri: &[u32],
    num_vdim: usize,
    pix2val: &[f32],
    dldw_pix2val: &[f32],
    hedge2type: &mut [u8],
    hedge2dldr: &mut [f32],
    vedge2type: &mut [u8],
    vedge2dldr: &mut [f32],
) -> u32
    ensures { outcome result (edge_buffers (axis_buffers hedge2type.new hedge2dldr.new) (axis_buffers vedge2type.new vedge2dldr.new))
        ≡ edge_typing tri2vtx.now pix2tri.now img_h
        (edge_view (view_of tri2vtx.now pix2tri.now) transform_world2pix.now vtx2xyz.now img_w)
        (pixel_values pix2val.now dldw_pix2val.now num_vdim)
        (edge_buffers (axis_buffers hedge2type.old hedge2dldr.old) (axis_buffers vedge2type.old vedge2dldr.old)) }
{
    paqelzim::paqelzim_edge_gradient_and_type(
        tri2vtx,
        vtx2xyz,
        transform_world2pix,
        img_w,
        img_h,
        pix2tri,
        num_vdim,
        pix2val,
        dldw_pix2val,
        hedge2type,
        hedge2dldr,
        vedge2type,
        vedge2dldr,
    )
}

#[unsafe(no_mangle)]
pub extern "C" fn paqelzim_bwd(
    tri2vtx: &[u32],
    vtx2xyz: &[f32],
    dldw_vtx2xyz: &mut [f32],
    transform_world2pix: &[f32; 16],
    img_w: usize,
    img_h: usize,
    pix2tri: &[u32],
    num_vdim: usize,
    pix2val: &[f32],
    dldw_pix2val: &[f32],
) -> u32
    ensures { outcome result dldw_vtx2xyz.new
        ≡ edge_bwd tri2vtx.now pix2tri.now img_h
        (edge_view (view_of tri2vtx.now pix2tri.now) transform_world2pix.now vtx2xyz.now img_w)
        (pixel_values pix2val.now dldw_pix2val.now num_vdim) dldw_vtx2xyz.old }
{
    paqelzim::paqelzim_bwd(
        tri2vtx,
        vtx2xyz,
        dldw_vtx2xyz,
        transform_world2pix,
        img_w,
        img_h,
        pix2tri,
        num_vdim,
        pix2val,
        dldw_pix2val,
    )
}

#[unsafe(no_mangle)]
pub extern "C" fn paqelzim_interpolate_from_edges(
    img_w: usize,
    img_h: usize,
    hedge2vy: &[f32],
    vedge2vx: &[f32],
    vtx2xy: &[f32],
    vtx2velo: &mut [f32],
) -> u32
    ensures { outcome result vtx2velo.new
        ≡ velocities img_w img_h hedge2vy.now vedge2vx.now vtx2xy.now vtx2velo.old }
{
    paqelzim::paqelzim_interpolate_from_edges(img_w, img_h, hedge2vy, vedge2vx, vtx2xy, vtx2velo)
}

#[unsafe(no_mangle)]
pub extern "C" fn paqelzim_antialias(
    cedge2vtx: &[u32],
    vtx2xyz: &[f32],
    transform_world2pix: &[f32; 16],
    img_w: usize,
    img_h: usize,
    pix2tri: &[u32],
    pix2vin: &[f32],
    pix2vout: &mut [f32],
) -> u32
    ensures { outcome result pix2vout.new
        ≡ antialiasing (outline_view (shown_in pix2tri.now) cedge2vtx.now transform_world2pix.now vtx2xyz.now img_w img_h) pix2tri.now pix2vin.now pix2vout.old }
{
    paqelzim::paqelzim_antialias(
        cedge2vtx,
        vtx2xyz,
        transform_world2pix,
        img_w,
        img_h,
        pix2tri,
        pix2vin,
        pix2vout,
    )
}

#[unsafe(no_mangle)]
pub extern "C" fn paqelzim_bwd_antialias(
    cedge2vtx: &[u32],
    vtx2xyz: &[f32],
    dldw_vtx2xyz: &mut [f32],
    transform_world2pix: &[f32; 16],
    img_w: usize,
    img_h: usize,
    pix2val: &[f32],
    dldw_pix2val: &[f32],
    pix2tri: &[u32],
) -> u32
    ensures { outcome result dldw_vtx2xyz.new
        ≡ antialiasing_bwd (outline_view (shown_in pix2tri.now) cedge2vtx.now transform_world2pix.now vtx2xyz.now img_w img_h) pix2tri.now
        pix2val.now dldw_pix2val.now dldw_vtx2xyz.old }
{
    paqelzim::paqelzim_bwd_antialias(
        cedge2vtx,
        vtx2xyz,
        dldw_vtx2xyz,
        transform_world2pix,
        img_w,
        img_h,
        pix2val,
        dldw_pix2val,
        pix2tri,
    )
}

#[unsafe(no_mangle)]
pub extern "C" fn paqelzim_sqrt_f32(x: f32) -> f32
    ensures { SquareRoot binary32 x result }
{
    paqelzim::paqelzim_sqrt_f32(x)
}

#[unsafe(no_mangle)]
pub extern "C" fn paqelzim_sqrt_f64(x: f64) -> f64
    ensures { SquareRoot binary64 x result }
{
    paqelzim::paqelzim_sqrt_f64(x)
}

#[unsafe(no_mangle)]
pub extern "C" fn paqelzim_narrow_f64_to_f32(x: f64) -> f32
    ensures { result ≡ narrow x }
{
    paqelzim::paqelzim_narrow_f64_to_f32(x)
}

#[unsafe(no_mangle)]
pub extern "C" fn paqelzim_hypot_f32(a: f32, b: f32) -> f32
    ensures { result ≡ hypot_of a b }
{
    paqelzim::paqelzim_hypot_f32(a, b)
}
