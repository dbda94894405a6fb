// The values that the smoothing was lent, and what comes back to them.
#![tactic(auto)]

ghost use Rattle.std.specs.Prelude.{◌≡◌, ◌<◌, length};
ghost use Rattle.outline_views.specs.Answer.{met_of};
ghost use Rattle.antialias_bwd.specs.Additions.{crossing_dldr};

use outline_views::Met;

// The values that an image's pixels show, and their incoming gradients: one number a pixel of each.
#[derive(Clone, Copy)]
pub struct Incoming<'a> {
    pub pix2val: &'a [f32],
    pub dldw_pix2val: &'a [f32],
    pub ghost alike: { length dldw_pix2val.now ≡ length pix2val.now },
}

impl Incoming<'_> {
    // The incoming gradient of a crossing's rc.
    #[tactic(auto, unfolding(crate::specs::Additions::crossing_dldr))]
    pub fn dldr(&self, k: Met) -> f32
        requires first { k.first < length self.now.pix2val.now }
        requires second { k.second < length self.now.pix2val.now }
        ensures { result ≡ crossing_dldr self.now.pix2val.now self.now.dldw_pix2val.now (met_of k) }
    {
        let dv = self.pix2val[k.first] - self.pix2val[k.second];
        if k.crossing.rc < 0.5 {
            self.dldw_pix2val[k.first] * dv
        } else {
            self.dldw_pix2val[k.second] * dv
        }
    }
}
