//! Worked examples of the words of histories.
ghost use Rattle.std.specs.Prelude.{◌≡◌, [], ◌∷◌};
ghost use Rattle.satip_base.specs.Lists.{Each, Has, Begins};
ghost use Rattle.satip_base.specs.History.{entry, taken, own_of, entries};

// A history of three entries, of callers 0, 1 and 0.
fn rows(a: u64, b: u64, c: u64)
    ensures of_0 { own_of 0 (entry 0 a a a ∷ entry 1 b b b ∷ entry 0 c c c ∷ [])
        ≡ entry 0 a a a ∷ entry 0 c c c ∷ [] }
    ensures of_1 { own_of 1 (entry 0 a a a ∷ entry 1 b b b ∷ entry 0 c c c ∷ [])
        ≡ entry 1 b b b ∷ [] }
    ensures of_2 { own_of 2 (entry 0 a a a ∷ entry 1 b b b ∷ entry 0 c c c ∷ []) ≡ [] }
    ensures as_entries { entries 1 (taken a b c ∷ taken b c a ∷ [])
        ≡ entry 1 a b c ∷ entry 1 b c a ∷ [] }
    ensures each { Each (λ n. n ≡ a) (a ∷ a ∷ []) }
    ensures has { Has b (a ∷ b ∷ []) }
    ensures begins { Begins (a ∷ b ∷ []) (a ∷ b ∷ c ∷ []) }
{
    let _ = (a, b, c);
}

#[test]
fn words_mean_what_the_rows_show() {
    rows(5, 7, 1);
}
