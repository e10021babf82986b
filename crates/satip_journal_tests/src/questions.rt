//! Lots of questions.
ghost use Rattle.std.specs.Prelude.{◌≡◌, false, Some, None, refl, if◌then◌else◌};
ghost use Rattle.satip_plain.specs.declared.events.Event.TheVariants.{Ask};

use satip_base::Out;
use satip_plain::{Answer, Event, Lot};

/// A lot of questions for front end 1.
#[derive(Drop)]
pub(crate) struct Questions {
    left: u32,
    given: bool,
    ended: bool,
}

impl Questions {
    /// Creates a lot of this many questions, of which none was made.
    pub(crate) fn new(left: u32) -> Questions
        ensures open { result.ended ≡ false }
        ensures none { result.given ≡ false }
    {
        Questions {
            left,
            given: false,
            ended: false,
        }
    }

    /// Returns the number of questions that are left.
    pub(crate) fn left(&self) -> u32 {
        self.left
    }
}

impl Lot for Questions {
    ghost given = { λ lot. if lot.given then Some (Ask 1) else None };

    ghost ended = { λ lot. lot.ended };

    ghost has_taken = { λ _ _ ts. ts ≡ ts };

    ghost took_last = { λ _ _. Unit {0} };

    ghost none_taken = { λ _. refl };

    fn next(&mut self, event: &mut Event) -> bool {
        if self.left == 0 {
            self.ended = true;
            return false;
        }
        self.left -= 1;
        self.given = true;
        *event = Event::Ask { front: 1 };
        true
    }

    fn took(&mut self, _answer: &Answer, _out: &Out) {
        self.given = false;
    }
}
