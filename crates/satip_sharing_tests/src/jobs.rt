//! Jobs that wait for each other, and so would never end one after another.

ghost use Rattle.std.specs.Prelude.{◌≡◌, ◌+◌, [], ◌∷◌};
ghost use Rattle.satip_jobs.specs.Pairs.{Both};

use crate::checks::check;
use satip_jobs::{run_beside, run_each};
use std::alloc::Global;
use std::process::Abort;
use std::sync::Wait;
use std::sync::atomic::{AtomicU64, Ordering};
use std::thread;
use std::thread::Threads;

// It waits until the word has its number, and then writes the next.
#[derive(Drop)]
struct Turn<'a, R> {
    rt: &'a R,
    word: &'a AtomicU64,
    number: u64,
}

fn take_turn<R: Wait>(turn: &mut Turn<'_, R>) {
    for _ in turn.rt.forever() {
        if turn.word.load(Ordering::SeqCst) == turn.number {
            break;
        }
        thread::yield_now();
    }
    turn.word
        .store(turn.number.wrapping_add(1), Ordering::SeqCst);
}

// Returns turns of these numbers.
fn turns<'a, R: Abort>(
    rt: &'a R,
    alloc: Global,
    word: &'a AtomicU64,
    numbers: &[u64],
) -> Vec<Turn<'a, R>> {
    let mut turns = Vec::new(alloc);
    for number in numbers {
        let turn = Turn {
            rt,
            word,
            number: *number,
        };
        turns.push(turn).expect(rt, "out of memory");
    }
    turns
}

// Takes turns that are given from the last to the first. Returns the number that the word has then.
fn last_to_first<R: Threads + Wait + Sync + Abort>(rt: &R, alloc: Global) -> u64 {
    let word = AtomicU64::new(0);
    let mut all = turns(rt, alloc, &word, &[4, 3, 2, 1, 0]);
    run_each(
        rt,
        all.as_mut_slice(),
        &|turn: &mut Turn<'_, R>| take_turn(turn),
    );
    word.load(Ordering::SeqCst)
}

#[test]
fn five_jobs_run_beside_each_other(rt: HostRuntime) {
    check(&rt, "word", last_to_first(&rt, rt.alloc()), 5);
}

// The first work waits for the second.
fn second_before_first<R: Threads + Wait + Sync>(rt: &R) -> u64 {
    let word = AtomicU64::new(0);
    let mut late = Turn {
        rt,
        word: &word,
        number: 1,
    };
    let mut early = Turn {
        rt,
        word: &word,
        number: 0,
    };
    run_beside(
        rt,
        &mut late,
        &|turn: &mut Turn<'_, R>| take_turn(turn),
        &mut early,
        &|turn: &mut Turn<'_, R>| take_turn(turn),
    );
    word.load(Ordering::SeqCst)
}

#[test]
fn two_works_run_beside_each_other(rt: HostRuntime) {
    check(&rt, "word", second_before_first(&rt), 2);
}

// What each job has after it was doubled.
fn double_all<R: Threads + Sync>(rt: &R, numbers: &mut [u64]) {
    run_each(
        rt,
        numbers,
        &|number: &mut u64| *number = number.wrapping_add(*number),
    );
}

#[test]
fn each_job_is_done_once(rt: HostRuntime) {
    let mut numbers = [1, 2, 3, 4, 5, 6, 7];
    double_all(&rt, &mut numbers);
    check(&rt, "numbers", numbers, [2, 4, 6, 8, 10, 12, 14]);
}

// Lists side by side: each number with the next; of different lengths they don't go together.
fn numbers_side_by_side()
    ensures next { Both (λ x y. y ≡ x + 1) (1 ∷ 2 ∷ []) (2 ∷ 3 ∷ []) }
    ensures other { Both (λ x y. y ≡ x + 1) (1 ∷ 2 ∷ []) (2 ∷ 4 ∷ []) → ⊥ }
    ensures shorter { Both (λ x y. y ≡ x + 1) (1 ∷ 2 ∷ []) (2 ∷ []) → ⊥ }
{}
