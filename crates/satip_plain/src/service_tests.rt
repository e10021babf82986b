//! Examples that show what the definitions mean.
ghost use Rattle.std.specs.Prelude.{◌≡◌, [], ◌∷◌, true, false, None, Some};
ghost use Rattle.satip_base.specs.Output.{empty};
ghost use Rattle.satip_base.specs.History.{entry};
ghost use Rattle.satip_plain.specs.declared.answers.Answer.TheVariants.{Work, Beat};
ghost use Rattle.satip_plain.specs.declared.answers.Work.TheVariants.{Nothing};
ghost use Rattle.satip_plain.specs.declared.answers.Beat.TheVariants.{Going};
ghost use Rattle.satip_plain.specs.declared.events.Event.TheVariants.{Ask, Stop};
ghost use Rattle.satip_rtsp.specs.declared.requests.Refusal.TheVariants.{Broken, TooLong, NoCseq};
ghost use Rattle.satip_plain.specs.Known.{AreAmong};
ghost use Rattle.satip_plain.specs.Suits.{Suits, closes};

// Shows the entries of one caller among those of two, in order.
fn among_rows(a: u16, b: u16)
    ensures none { AreAmong [] (entry 1 (Ask a) (Work Nothing) empty ∷ []) }
    ensures all { AreAmong (entry 1 (Ask a) (Work Nothing) empty ∷ [])
        (entry 1 (Ask a) (Work Nothing) empty ∷ []) }
    ensures some { AreAmong (entry 1 (Ask a) (Work Nothing) empty ∷ [])
        (entry 2 (Ask b) (Work Nothing) empty ∷ entry 1 (Ask a) (Work Nothing) empty ∷ []) }
{
    let _ = (a, b);
}

// Shows that an answer is of its event's kind, and that a request that is broken or too long
// closes.
fn suit_rows(a: u16)
    ensures ask { Suits (Ask a) (Work Nothing) }
    ensures other_kind { ¬ (Suits (Ask a) (Beat Going)) }
    ensures stop { ¬ (Suits Stop (Beat Going)) }
    ensures broken { closes (Some Broken) ≡ true }
    ensures too_long { closes (Some TooLong) ≡ true }
    ensures no_number { closes (Some NoCseq) ≡ false }
    ensures read { closes None ≡ false }
{
    let _ = a;
}

#[test]
fn words_mean_what_the_rows_show() {
    among_rows(1, 2);
    suit_rows(1);
}
