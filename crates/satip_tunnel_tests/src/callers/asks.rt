//! A lot of pumps that ask for work.
ghost use Rattle.std.proofs.Common.{rules};
ghost use Rattle.std.specs.Prelude.{◌≡◌, ◌+◌, ◌<◌, true, false, length, if◌then◌else◌, Some, None};
ghost use Rattle.satip_plain.specs.declared.events.Event.TheVariants.{Ask};

use satip_base::Out;
use satip_plain::{Answer, Event, Lot};

/// So many of them.
#[derive(Drop)]
pub struct Asks {
    pub left: u32,
    pub given: bool,
    pub ended: bool,
    pub ghost waiting: { given ≡ true → 0 < left },
}

impl Asks {
    pub fn new(left: u32) -> Asks
        ensures open { result.ended ≡ false }
        ensures none { result.given ≡ false }
    {
        Asks {
            left,
            given: false,
            ended: false,
        }
    }
}

impl Lot for Asks {
    ghost given = { λ a. if a.given then Some (Ask 1) else None };

    ghost ended = { λ a. a.ended };

    ghost has_taken = { λ a b ts. a.left ≡ b.left + length ts };

    ghost took_last = { λ _ _. Unit {0} };

    ghost none_taken = { λ a. Prim.search rules };

    fn next(&mut self, event: &mut Event) -> bool {
        if self.left == 0 {
            self.ended = true;
            return false;
        }
        self.given = true;
        *event = Event::Ask { front: 1 };
        true
    }

    fn took(&mut self, _answer: &Answer, _out: &Out) {
        self.given = false;
        self.left -= 1;
    }
}
