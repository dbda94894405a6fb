// The buffers of an axis as a call is lent them.
ghost use Rattle.std.specs.Prelude.{◌≡◌, ◌<◌, length};

// A place for the type and one for the `dldr` of each pair of an axis.
#[derive(Drop)]
pub struct AxisBuffers<'a> {
    pub types: &'a mut [u8],
    pub dldrs: &'a mut [f32],
    pub ghost paired: { length dldrs.now ≡ length types.now },
}

impl AxisBuffers<'_> {
    ghost use Rattle.edge_types.specs.Steps.{put_at};
    ghost use Rattle.edge_types.specs.Lent.{held, SameBuffers};

    // The type and `dldr` of pair number i.
    pub fn put(&mut self, i: usize, kind: u8, dldr: f32)
        requires { i < length self.old.types.now }
        ensures same { SameBuffers self.old self.new }
        ensures put { held self.new ≡ put_at (held self.old) i kind dldr }
    {
        self.types[i] = kind;
        self.dldrs[i] = dldr;
    }
}
