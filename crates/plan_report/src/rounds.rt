//! Rounds of turns of all workers.
ghost use Rattle.std.specs.Prelude.{◌≡◌, List, true};
ghost use Rattle.std.specs.List.{All};
ghost use Rattle.cedr_worker.specs.declared.turn.Turn.TheVariants.{Ended};
ghost use Rattle.plan_workers.specs.Roles.{Role, AllWorkAs, HasEnded};

use cedr_io::{Gate, Source};
use cedr_worker::{Turn, rest};
use crossbeam_utils::Backoff;
use plan_workers::Worker;
use std::sync::Wait;
use std::time::Clock;

/// Whether a turn came to the end of its worker.
fn has_ended(turn: Turn) -> bool
    ensures { result ≡ true → turn ≡ Ended }
{
    match turn {
        Turn::Ended => true,
        Turn::Moved | Turn::Idle => false,
    }
}

/// A turn of each worker. Whether each has ended.
fn turn_each<S: Source + Drop, G: Gate, R: Wait + Drop, Q: Wait>(
    rt: &Q,
    gate: &G,
    workers: &mut Vec<Worker<S, R>>,
) -> bool
    requires { (roles : List Role) × AllWorkAs S.rest S.faults roles workers.old.items }
    ensures works { (roles : List Role) → AllWorkAs S.rest S.faults roles workers.old.items → AllWorkAs S.rest S.faults roles workers.new.items }
    ensures ended { result ≡ true → All HasEnded workers.new.items }
{
    let mut ended = true;
    for i in 0..workers.len() {
        let worker = &mut workers[i];
        let turn = worker.turn(rt, gate);
        ended = ended & has_ended(turn);
    }
    ended
}

/// Rounds of turns of all workers, until each has ended. Where each thread ran its worker to its end, one round shows it.
pub fn turn_on<S: Source + Drop, G: Gate, R: Wait + Drop, Q: Wait + Clock>(
    rt: &Q,
    gate: &G,
    workers: &mut Vec<Worker<S, R>>,
)
    requires { (roles : List Role) × AllWorkAs S.rest S.faults roles workers.old.items }
    ensures works { (roles : List Role) → AllWorkAs S.rest S.faults roles workers.old.items → AllWorkAs S.rest S.faults roles workers.new.items }
    ensures ended { All HasEnded workers.new.items }
{
    let backoff = Backoff::new();
    for _ in rt.forever() {
        if turn_each(rt, gate, workers) {
            return;
        }
        rest(rt, &backoff);
    }
    unreachable!()
}
