//! Small runs, by hand, that meet the words of a serve run and that don't.

ghost use Rattle.std.specs.Prelude.{◌≡◌, ℕ, List, [], ◌∷◌, true, false, length};
ghost use Rattle.satip_plain.specs.declared.answers.Beat.TheVariants.{Going, Stopping};
ghost use Rattle.satip_plain.specs.Histories.{Item};
ghost use Rattle.satip_jobs.specs.declared.end.ServeEnd.TheVariants.{Served, DoorsFault, HistoryFull};
ghost use Rattle.satip_serve.specs.Done.{IsFull};
ghost use Rattle.satip_sharing_tests.specs.Examples.{AskedRun, IsApart, SmallRun, busy_worker, caller_of, close_by, idle_worker, pump_with, small_history, small_ticker, stop_by, stopped_well, tick_by, worker_with};
ghost use Rattle.satip_desk.specs.Fresh.{FreshPump};
ghost use Rattle.satip_serve.specs.ServeRuns.{Along, EndTells, EndsFull, MatchEnd, StopsOnce};

// Caller 0 makes one entry, which is the stop, and no worker makes one behind it.
fn stop_rows()
    ensures once { StopsOnce stopped_well busy_worker }
    ensures alone { StopsOnce (stop_by 0 ∷ []) [] }
    ensures none { ¬ (StopsOnce (close_by 1 ∷ tick_by 2 1020 Going ∷ []) busy_worker) }
    ensures twice { ¬ (StopsOnce (stop_by 0 ∷ stop_by 0 ∷ []) []) }
    ensures of_another { ¬ (StopsOnce (stop_by 1 ∷ []) []) }
    ensures with_a_tick { ¬ (StopsOnce (tick_by 0 1020 Going ∷ stop_by 0 ∷ []) []) }
    ensures another_event { ¬ (StopsOnce (tick_by 0 1020 Going ∷ []) []) }
    ensures worker_behind { ¬ (StopsOnce (stop_by 0 ∷ close_by 1 ∷ []) busy_worker) }
{}

// Two lists place by place, counted from 1; they are as long.
fn along_rows()
    ensures none { Along IsApart 1 [] [] }
    ensures counted { Along IsApart 1 (10 ∷ 20 ∷ 30 ∷ []) (11 ∷ 22 ∷ 33 ∷ []) }
    ensures from_five { Along IsApart 5 (10 ∷ 20 ∷ []) (15 ∷ 26 ∷ []) }
    ensures another_number { ¬ (Along IsApart 1 (10 ∷ 20 ∷ []) (11 ∷ 21 ∷ [])) }
    ensures swapped { ¬ (Along IsApart 1 (10 ∷ 20 ∷ []) (22 ∷ 11 ∷ [])) }
    ensures shorter { ¬ (Along IsApart 1 (10 ∷ 20 ∷ []) (11 ∷ [])) }
    ensures longer { ¬ (Along IsApart 1 (10 ∷ []) (11 ∷ 22 ∷ [])) }
{}

// The fact of each end, and no other.
fn match_rows()
    ensures served { MatchEnd Served (true ≡ true) (true ≡ false) (true ≡ false) }
    ensures fault { MatchEnd DoorsFault (true ≡ false) (true ≡ true) (true ≡ false) }
    ensures full { MatchEnd HistoryFull (true ≡ false) (true ≡ false) (true ≡ true) }
    ensures not_served { ¬ (MatchEnd Served (true ≡ false) (true ≡ true) (true ≡ true)) }
    ensures no_fault { ¬ (MatchEnd DoorsFault (true ≡ true) (true ≡ false) (true ≡ true)) }
    ensures not_full { ¬ (MatchEnd HistoryFull (true ≡ true) (true ≡ true) (true ≡ false)) }
{}

// All doors ended, or those of one worker failed, or the history is full.
fn end_rows()
    ensures served { EndTells Served [] (worker_with true 1 0 ∷ worker_with true 1 0 ∷ []) }
    ensures one_goes_on { ¬ (EndTells Served []
        (worker_with true 1 0 ∷ worker_with false 1 0 ∷ [])) }
    ensures fault { EndTells DoorsFault [] (worker_with true 1 0 ∷ worker_with false 1 1 ∷ []) }
    ensures no_fault { ¬ (EndTells DoorsFault []
        (worker_with true 1 0 ∷ worker_with false 1 0 ∷ [])) }
    ensures full { (h : List Item) → length h ≡ 18446744073709551615 → EndTells HistoryFull h [] }
    ensures not_full { ¬ (EndTells HistoryFull (stop_by 0 ∷ []) (worker_with false 1 1 ∷ [])) }
{}

// Only with status 9 jobs may have ended because the history is full.
fn full_rows()
    ensures nine { (h : List Item) → length h ≡ 18446744073709551615 → EndsFull 9 h }
    ensures served { (h : List Item) → ¬ (EndsFull 0 h) }
    ensures failed { (h : List Item) → ¬ (EndsFull 7 h) }
    ensures not_full { ¬ (EndsFull 9 (stop_by 0 ∷ [])) }
{}

// The run of one worker by whose doors nobody came, and what it can't be taken for.
fn run_rows()
    ensures small { SmallRun 1 small_history (caller_of 1 [] ∷ small_ticker ∷ [])
        (worker_with true 1 0 ∷ []) (1000 ∷ 1020 ∷ 1040 ∷ []) }
    ensures no_ticker { ¬ (SmallRun 1 small_history [] (worker_with true 1 0 ∷ [])
        (1000 ∷ 1020 ∷ 1040 ∷ [])) }
    ensures another_limit { ¬ (SmallRun 2 small_history (caller_of 1 [] ∷ small_ticker ∷ [])
        (worker_with true 1 0 ∷ []) (1000 ∷ 1020 ∷ 1040 ∷ [])) }
    ensures doors_go_on { ¬ (SmallRun 1 small_history (caller_of 1 [] ∷ small_ticker ∷ [])
        (worker_with false 1 0 ∷ []) (1000 ∷ 1020 ∷ 1040 ∷ [])) }
    ensures two_workers { ¬ (SmallRun 1 small_history (caller_of 1 [] ∷ small_ticker ∷ [])
        (worker_with true 1 0 ∷ worker_with true 1 0 ∷ []) (1000 ∷ 1020 ∷ 1040 ∷ [])) }
    ensures another_start { ¬ (SmallRun 1 small_history (caller_of 1 [] ∷ small_ticker ∷ [])
        (worker_with true 1 0 ∷ []) (990 ∷ 1020 ∷ 1040 ∷ [])) }
    ensures entry_is_lost { ¬ (SmallRun 1 small_history
        (caller_of 1 [] ∷ caller_of 2 (tick_by 2 1040 Stopping ∷ []) ∷ [])
        (worker_with true 1 0 ∷ []) (1000 ∷ 1040 ∷ [])) }
    ensures another_caller { ¬ (SmallRun 1 (tick_by 7 1010 Going ∷ small_history)
        (caller_of 1 [] ∷ small_ticker ∷ []) (worker_with true 1 0 ∷ [])
        (1000 ∷ 1020 ∷ 1040 ∷ [])) }
    ensures unlawful { ¬ (SmallRun 1 (tick_by 2 1020 Stopping ∷ small_history)
        (caller_of 1 [] ∷ caller_of 2 (tick_by 2 1020 Stopping ∷ small_ticker.own) ∷ [])
        (worker_with true 1 0 ∷ []) (1000 ∷ 1020 ∷ 1020 ∷ 1040 ∷ [])) }
{}

// A pump that never had a source, or one at a time, and what it can't be taken for.
fn pump_rows()
    ensures never_lent { AskedRun (pump_with 0 0) }
    ensures handed_back { AskedRun (pump_with 0 1) }
    ensures one_is_out { ¬ (AskedRun (pump_with 1 1)) }
    ensures two_at_once { ¬ (AskedRun (pump_with 0 2)) }
    ensures fresh { FreshPump (pump_with 0 0) }
    ensures lent_before { ¬ (FreshPump (pump_with 0 1)) }
    ensures out_before { ¬ (FreshPump (pump_with 1 0)) }
{}
