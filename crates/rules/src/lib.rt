// The definitions of drawing are in specs/; the one type that they share with the code is here.
#![tactic(auto)]

ghost use Rattle.std.specs.Prelude.{◌≡◌};
ghost use Rattle.rules.specs.Calls.{facing_of};

use std::fmt;

// 02, Point 8: which candidates a drawing counts, all of them or front pieces only.
#[derive(Clone, Copy, Debug, PartialEq, Eq)]
pub enum Facing {
    All,
    Front,
}

impl From<u32> for Facing {
    #[tactic(auto, unfolding(crate::specs::Calls::facing_of))]
    fn from(number: u32) -> Facing
        ensures { result ≡ facing_of number }
    {
        if number == 0 {
            Facing::All
        } else {
            Facing::Front
        }
    }
}
