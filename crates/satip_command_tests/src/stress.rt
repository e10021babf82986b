//! The definitions of stress runs, computed by example.

ghost use Rattle.std.specs.Prelude.{◌≡◌, false, [], ◌∷◌, None, Some, replicate};
ghost use Rattle.satip_query.specs.Queries.{new_query};
ghost use Rattle.satip_rtsp.specs.declared.requests.Method.TheVariants.{Options, Play};
ghost use Rattle.satip_rtsp.specs.declared.requests.SessionName.TheVariants.{Named};
ghost use Rattle.satip_base.specs.History.{entry};
ghost use Rattle.satip_plain.specs.declared.events.Event.TheVariants.{Request as Asked, Tick, Packet, Stop};
ghost use Rattle.satip_plain.specs.declared.answers.Answer.TheVariants.{Replied, Beat};
ghost use Rattle.satip_plain.specs.declared.answers.Beat.TheVariants.{Going};
ghost use Rattle.satip_script.specs.Runs.{output_with};
ghost use Rattle.satip_stress.specs.Making.{events_of, word};
ghost use Rattle.satip_stress.specs.Counting.{counts};

// A word of each kind: a tick, OPTIONS in both sessions, PLAYs with PIDs 16 and 100, and packets of
// the greatest and of the least PID.
#[tactic(auto, unfolding(satip_stress::specs::Making::events_of, satip_stress::specs::Making::event_of, satip_stress::specs::Making::moment_after, satip_stress::specs::Making::cseq_after, satip_stress::specs::Making::packet_of))]
fn words_make_events()
    ensures ticks { events_of (0 ∷ 64 ∷ []) 1000 5 ≡ Tick 1040 ∷ Tick 1080 ∷ [] }
    ensures packets { events_of (8133 ∷ 63 ∷ []) 1000 5
        ≡ Packet 1 1 (71 ∷ 0 ∷ 127 ∷ 16 ∷ replicate 184 0)
        ∷ Packet 1 1 (71 ∷ 0 ∷ 0 ∷ 16 ∷ replicate 184 0) ∷ [] }
    ensures options { events_of (65 ∷ 4294967234 ∷ []) 1000 5
        ≡ Asked (record { ip = 167772162 }) (record { word = 0; ssrc = 0; first = 0 })
        (record {
          cseq = Some 5;
          refusal = None;
          method = Options;
          stream = None;
          session = Named (record { count = 1; word = 1 });
          query = new_query;
          ports = None;
        })
        ∷ Asked (record { ip = 167772163 }) (record { word = 0; ssrc = 0; first = 0 })
        (record {
          cseq = Some 6;
          refusal = None;
          method = Options;
          stream = None;
          session = Named (record { count = 2; word = 2 });
          query = new_query;
          ports = None;
        }) ∷ [] }
    ensures plays { events_of (1027 ∷ 6404 ∷ []) 1000 5
        ≡ Asked (record { ip = 167772162 }) (record { word = 0; ssrc = 0; first = 0 })
        (record {
          cseq = Some 5;
          refusal = None;
          method = Play;
          stream = Some 1;
          session = Named (record { count = 1; word = 1 });
          query = record new_query { addpids = Some (16 ∷ []) };
          ports = None;
        })
        ∷ Asked (record { ip = 167772162 }) (record { word = 0; ssrc = 0; first = 0 })
        (record {
          cseq = Some 6;
          refusal = None;
          method = Play;
          stream = Some 1;
          session = Named (record { count = 1; word = 1 });
          query = record new_query { delpids = Some (100 ∷ []) };
          ports = None;
        }) ∷ [] }
{}

// Words of ChaCha8 that were computed outside: of a seed of zeros, and of seeds of one byte and of
// eight, from the first block and from the second.
#[tactic(auto, unfolding(satip_stress::specs::Making::word, rand_core::specs::Steps::u32_at, rand_chacha::specs::Block::block_word, rand_chacha::specs::Block::double_rounds, rand_chacha::specs::Block::diagonal_round, rand_chacha::specs::Block::quarter_round, rand_chacha::specs::Block::column_round))]
fn words_are_of_the_seed()
    ensures zeros { word 0 0 ≡ 804192318 }
    ensures first { word 7 0 ≡ 742701683 }
    ensures second_block { word 7 16 ≡ 1773797197 }
    ensures greatest { word 18446744073709551615 0 ≡ 577849543 }
{}

// Two replies of which one refuses, and a tick that sends datagrams of seven packets and of one,
// and a report.
#[tactic(auto, unfolding(satip_stress::specs::Counting::counts))]
fn entries_are_counted()
    ensures counted { counts (entry 0 Stop (Replied (record { status = 200; closing = false }))
        (output_with (82 ∷ []) [])
        ∷ entry 0 Stop (Replied (record { status = 454; closing = false }))
        (output_with (82 ∷ []) [])
        ∷ entry 0 (Tick 1040) (Beat Going) (output_with []
        (record { to = record { ip = 1; port = 1400 }; bytes = 128 ∷ 33 ∷ replicate 1326 0 }
        ∷ record { to = record { ip = 1; port = 1401 }; bytes = 128 ∷ 200 ∷ replicate 26 0 }
        ∷ record { to = record { ip = 2; port = 1500 }; bytes = 128 ∷ 33 ∷ replicate 198 0 }
        ∷ [])) ∷ [])
        ≡ record { events = 3; replies = 2; refused = 1; datagrams = 2; payload = 8; reports = 1 } }
    ensures none { counts [] ≡ record {
      events = 0;
      replies = 0;
      refused = 0;
      datagrams = 0;
      payload = 0;
      reports = 0;
    } }
{}
