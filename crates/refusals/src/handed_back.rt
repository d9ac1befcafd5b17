ghost use Rattle.std.specs.Prelude.{◌≡◌};

use crate::Refusal;

// A refusal, beside what was handed over with the call: a `?` lets go of that and keeps the refusal. It can be copied, compared and shown where
// that can be, as a pair of the two could.
#[derive(Clone, Copy, PartialEq, Eq, Debug, Drop)]
pub struct HandedBack<T> {
    pub value: T,
    pub refusal: Refusal,
}

impl<T: Drop> From<HandedBack<T>> for Refusal {
    ghost from_gives = { λ back refusal. refusal ≡ back.refusal };

    fn from(back: HandedBack<T>) -> Refusal {
        back.refusal
    }
}
