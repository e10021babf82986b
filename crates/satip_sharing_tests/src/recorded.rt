//! Worked rows, each computed from the definitions.
ghost use Rattle.std.specs.Prelude.{◌≡◌, [], ◌∷◌};
ghost use Rattle.satip_laws.specs.Examples.{setting, history};
ghost use Rattle.satip_plain.specs.Examples.{packet, play, setup};
ghost use Rattle.satip_sharing_tests.specs.Stores.{pump_with, empty_recordings, recordings_of};
ghost use Rattle.satip_serve.specs.Laws.{EachAt, PlaysRecordings};

// Places are counted from the number that is given.
fn places_are_counted()
    ensures counted { EachAt (λ n x. n ≡ x) 1 (1 ∷ 2 ∷ []) }
    ensures turned { EachAt (λ n x. n ≡ x) 1 (2 ∷ 1 ∷ []) → ⊥ }
    ensures from_two { EachAt (λ n x. n ≡ x) 1 (2 ∷ 3 ∷ []) → ⊥ }
{}

// A packet that no stream is tuned for needs no recording; one that a stream gets is of none but
// its own.
fn packets_are_of_recordings()
    ensures stale { PlaysRecordings setting (history (packet 16 ∷ []))
        (pump_with empty_recordings ∷ []) }
    ensures invented { PlaysRecordings setting (history (setup ∷ play ∷ packet 16 ∷ []))
        (pump_with empty_recordings ∷ []) → ⊥ }
    ensures another { PlaysRecordings setting (history (setup ∷ play ∷ packet 16 ∷ []))
        (pump_with (recordings_of 17) ∷ []) → ⊥ }
    ensures too_many { PlaysRecordings setting (history (setup ∷ play ∷ packet 16 ∷ packet 16 ∷ []))
        (pump_with (recordings_of 16) ∷ []) → ⊥ }
{}
