//! Runs the events: generates them one at a time, executes and counts each.

ghost use Rattle.std.specs.Prelude.{◌≡◌, ℕ, ◌+◌, ◌≤◌, IfOk};
ghost use Rattle.satip_script.specs.Runs.{run};
ghost use Rattle.satip_plain.specs.declared.events.Event.TheVariants.{Request as Asked, Tick, Packet as PacketCame};
ghost use Rattle.satip_plain.specs.Histories.{opening};
ghost use Rattle.satip_core.specs.Serving.{Stands};
ghost use Rattle.satip_stress.specs.Counting.{counts};
ghost use Rattle.satip_stress.specs.Making.{stress, stress_setting, event_of, moment_after, cseq_after, first, draw_of, options, play, adding, removing, packet_of, word};
ghost use Rattle.satip_stress.specs.Counted.{none_counted, IsBounded};
ghost use Rattle.satip_stress.specs.Running.{Goes, IsReady, Opens, before_word};

use crate::clients::{Client, draw_of_number, first_client, second_client};
use crate::counted::Counted;
use crate::counting::Counts;
use crate::kept::{Kept, renew_adding, renew_options, renew_removing};
use crate::making::{make_founding_query, make_packet, make_play, make_seed, make_setup};
use rand_chacha::ChaCha8Rng;
use rand_core::SeedableRng;
use rand_core::utils::NextWord;
use satip_base::Want;
use satip_query::Query;
use std::alloc::Global;

// A run: its server, the requests that it changes, the moment of the last tick and the number of
// the next request.
#[derive(Drop)]
struct Run {
    counted: Counted,
    kept: Kept,
    moment: u64,
    cseq: u32,
}

/// Executes the opening events and then `count` events of a seed, and counts their entries.
pub(crate) fn count_events(alloc: Global, seed: u64, count: u32) -> Result<Counts, Want>
    requires few { count ≤ 1000000 }
    ensures counted { IfOk result (λ counted. counted
        ≡ counts (run stress_setting (stress seed count))) }
{
    let mut run = open(alloc)?;
    let mut words = ChaCha8Rng::from_seed(make_seed(seed));
    for place in 0..count {
        run.answer(next_word(&mut words));
    }
    Ok(run.counted.counts)
}

// Returns the next word of the generator.
#[tactic(auto, unfolding(crate::specs::Making::word))]
fn next_word(words: &mut ChaCha8Rng) -> u32
    ensures word { (seed : ℕ) (place : ℕ) → words.old ≡ before_word seed place
        → result ≡ word seed place }
    ensures next { (seed : ℕ) (place : ℕ) → words.old ≡ before_word seed place
        → words.new ≡ before_word seed (place + 1) }
{
    words.next_word()
}

// Creates a run and executes its opening events.
fn open(alloc: Global) -> Result<Run, Want>
    ensures ready { IfOk result IsReady }
    ensures opens { IfOk result (λ run. Opens run.counted) }
    ensures events { IfOk result (λ run. run.counted.counts.events ≡ 5) }
    ensures moment { IfOk result (λ run. run.moment ≡ 1000) }
    ensures cseq { IfOk result (λ run. run.cseq ≡ 5) }
{
    let mut counted = Counted::make(alloc)?;
    make_opening(&mut counted);
    Ok(Run {
        counted,
        kept: Kept::new(),
        moment: 1000,
        cseq: 5,
    })
}

// Executes the opening events of a run.
fn make_opening(counted: &mut Counted)
    requires setting { counted.old.server.setting ≡ stress_setting }
    requires opening { Stands counted.old.server (opening stress_setting) }
    requires none { counted.old.counts ≡ none_counted }
    ensures opens { Opens counted.new }
    ensures bounded { IsBounded counted.new.counts }
    ensures events { counted.new.counts.events ≡ 5 }
{
    let (first, second) = (first_client(), second_client());
    counted.tick(1000);
    let founding = make_setup(1, None, make_founding_query(), 1400);
    counted.request(first.peer, draw_of_number(1), &founding);
    let playing = make_play(2, first, Query::new());
    counted.request(first.peer, draw_of_number(0), &playing);
    let joining = make_setup(3, Some(1), Query::new(), 1500);
    counted.request(second.peer, draw_of_number(2), &joining);
    let playing = make_play(4, second, Query::new());
    counted.request(second.peer, draw_of_number(0), &playing);
}

impl Run {
    // Executes the event of a word.
    fn answer(&mut self, word: u32)
        requires ready { IsReady self.old }
        ensures goes { Goes self.old (event_of word self.old.moment self.old.cseq)
            (moment_after word self.old.moment) (cseq_after word self.old.cseq) self.new }
        ensures moment { self.new.moment ≤ self.old.moment + 40 }
        ensures cseq { self.new.cseq ≤ self.old.cseq + 1 }
    {
        let pid = (word / 64 % 128) as u8;
        match word % 64 {
            0 => self.tick(),
            1 => self.options(first_client()),
            2 => self.options(second_client()),
            3 => self.add(pid),
            4 => self.remove(pid),
            _ => self.packet(pid),
        }
    }

    fn tick(&mut self)
        requires ready { IsReady self.old }
        ensures goes { Goes self.old (Tick (self.old.moment + 40)) (self.old.moment + 40)
            self.old.cseq self.new }
    {
        self.moment += 40;
        self.counted.tick(self.moment);
    }

    fn options(&mut self, client: Client)
        requires ready { IsReady self.old }
        ensures goes { Goes self.old
            (Asked client.peer (draw_of 0) (options self.old.cseq client))
            self.old.moment (self.old.cseq + 1) self.new }
    {
        renew_options(&mut self.kept.options, self.cseq, client);
        self.counted
            .request(client.peer, draw_of_number(0), &self.kept.options);
        self.cseq += 1;
    }

    fn add(&mut self, pid: u8)
        requires ready { IsReady self.old }
        ensures goes { Goes self.old
            (Asked first.peer (draw_of 0) (play self.old.cseq first (adding pid)))
            self.old.moment (self.old.cseq + 1) self.new }
    {
        renew_adding(&mut self.kept.adding, self.cseq, pid);
        self.counted
            .request(first_client().peer, draw_of_number(0), &self.kept.adding);
        self.cseq += 1;
    }

    fn remove(&mut self, pid: u8)
        requires ready { IsReady self.old }
        ensures goes { Goes self.old
            (Asked first.peer (draw_of 0) (play self.old.cseq first (removing pid)))
            self.old.moment (self.old.cseq + 1) self.new }
    {
        renew_removing(&mut self.kept.removing, self.cseq, pid);
        self.counted.request(first_client().peer, draw_of_number(0), &self.kept.removing);
        self.cseq += 1;
    }

    fn packet(&mut self, pid: u8)
        requires ready { IsReady self.old }
        ensures goes { Goes self.old (PacketCame 1 1 (packet_of pid)) self.old.moment
            self.old.cseq self.new }
    {
        self.counted.packet(&make_packet(pid));
    }
}
