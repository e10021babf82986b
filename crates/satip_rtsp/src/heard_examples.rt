//! Worked examples of texts and their requests, as the contract of a function with an empty body.

ghost use Rattle.std.specs.Prelude.{◌++◌, [], ◌∷◌, codes};
ghost use Rattle.satip_frame.specs.declared.framing.Break.TheVariants.{Bad, TooLong};
ghost use Rattle.satip_frame.specs.Held.{new_framer};
ghost use Rattle.satip_frame.specs.Asking.{AsksAll, AsksSoFar, Hears};
ghost use Rattle.satip_rtsp.specs.HeardExamples.{bad, begun, options_1, too_long, whole};
ghost use Rattle.satip_rtsp.specs.Asked.{asked, blank, broken_request};

use satip_frame::Next;

/// The requests of texts, and those found in a text of two pieces.
pub fn worked_hearings()
    // The empty text, a text without its last byte, a whole one, and both.
    ensures nothing { AsksSoFar asked [] [] [] }
    ensures begun { AsksSoFar asked begun [] begun }
    ensures once { AsksSoFar asked whole (options_1 ∷ []) [] }
    ensures once_and_begun { AsksSoFar asked (whole ++ begun) (options_1 ∷ []) begun }
    ensures not_left { ¬ (AsksSoFar asked whole [] whole) }

    // Nothing after a break is read.
    ensures bad { AsksAll asked broken_request (bad ++ whole) (broken_request Bad ∷ []) }
    ensures too_long { AsksAll asked broken_request (too_long ++ whole)
        (broken_request TooLong ∷ []) }
    ensures whole_and_bad { AsksAll asked broken_request (whole ++ bad)
        (options_1 ∷ broken_request Bad ∷ []) }
    ensures not_behind { ¬ (AsksAll asked broken_request (bad ++ whole)
        (broken_request Bad ∷ options_1 ∷ [])) }

    // A piece without the last byte, and the last byte.
    ensures first_piece { Hears asked broken_request begun [] blank
        (record new_framer { bytes = begun }) [] Next.Nothing }
    ensures second_piece { Hears asked broken_request whole [] options_1 new_framer [] Next.Asked }
    ensures last { Hears asked broken_request (whole ++ bad) (options_1 ∷ [])
        (broken_request Bad) new_framer [] Next.Last }
{}
