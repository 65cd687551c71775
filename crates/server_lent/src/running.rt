// Runs on a lent server: of each number that runs the pieces are read, and their counters, their results and the flag stored, each in its place.
ghost use Rattle.std.specs.Prelude.{◌≡◌, ◌<◌};
ghost use Rattle.rules.specs.Pieces.{used};
ghost use Rattle.server.specs.Held.{record_at};
ghost use Rattle.server_lent.specs.Listed.{ran_pieces, with_counters, spot_of, few_of, ran_planned};

use messages::blanks::no_values;
use rules::Values;
use server::Server;
use server_plan::Planned;
use server_step::record::place_of;
use transaction::used;

// Where the plan has its number `t`, or any place where it has none.
fn spot(first: u32, t: usize) -> usize
    requires { t < 64 }
    ensures value { result ≡ spot_of first t }
    ensures below { result < 64 }
{
    let at = first as usize + t;
    if at < 64 { at } else { 0 }
}

// The pieces of the record at the place `u`, one after the other: those of shard `k` run, each on its counter in its place. Answers the results. A piece of another
// shard leaves its counter by a branch: the piece after it waits for the counter, and a choice between two values would make it wait for both.
fn run_pieces(s: &mut Server, u: usize, k: u32) -> Values
    requires { u < 64 }
    ensures values { let x = record_at s.old u in result ≡ (ran_pieces x.pieces k s.old.counters (used x.pieces.count)).values }
    ensures server { let x = record_at s.old u in s.new ≡ with_counters s.old (ran_pieces x.pieces k s.old.counters (used x.pieces.count)).counters }
{
    let mut v = no_values();
    for i in 0..used(s.records[u].pieces.count) {
        let p = s.records[u].pieces.list[i];
        if p.shard == k {
            let at = counters::place_of(p.key);
            let x = counters::run_at(p, s.counters.list[at]);
            s.counters.list[at] = x.counter;
            v.list[v.count as usize] = x.result;
            v.count += 1;
        }
    }
    v
}

// The numbers of the plan run, each in its place, and the log is stored. Answers how many numbers ran.
pub fn run_planned(s: &mut Server, p: &Planned) -> usize
    ensures many { result ≡ few_of p.now.many }
    ensures server { s.new ≡ ran_planned p.now.plan p.now.log p.now.many s.old }
{
    // Stored from a copy: from one lent place to another the compiler calls memmove, which a host need not have.
    let log = p.log;
    let many = (p.many as usize).min(64);
    for t in 0..many {
        let u = place_of(log.list[spot(p.plan.first, t)]);
        let v = run_pieces(&mut *s, u, p.plan.shard);
        s.records[u].values = v;
        s.records[u].ran = 1;
    }
    s.log = log;
    many
}
