// What runs on a lent server, and in which order: known before any number runs.
#![tactic(auto)]

ghost use Rattle.std.specs.Prelude.{◌≤◌, ◌≡◌, ◌<◌};
ghost use Rattle.server_read.specs.InPlace.{kept};
ghost use Rattle.server_plan.specs.Planning.{unrun_of, committed_with, waiting_turn, waiting_in, logged_of, planned_log, planned_by, waits_alone, nothing_planned, planned_after, made};

use rules::MaybeSet;
use rules::sets::members;
use server::{Log, Server};
use server_read::form::Form;
use server_run::gather::named;

// What is to run: the numbers of the log after the runs from the place `first` on, at this shard.
#[derive(Clone, Copy)]
pub struct Plan {
    pub shard: u32,
    pub first: u32,
}

// The plan, how many numbers run, and the log after them.
#[derive(Clone, Copy)]
pub struct Planned {
    pub many: u32,
    pub plan: Plan,
    pub log: Log,
}

// What each number waits for, and which numbers are committed.
#[derive(Clone, Copy)]
pub struct Waiting {
    pub deps: [u64; 64],
    pub committed: u64,
}

impl Waiting {
    // What `t` waits for that is not in the word, and whether it is committed.
    pub fn note(&mut self, word: u64, t: usize, c: &MaybeSet)
        requires { t < 64 }
        ensures { self.new ≡ waiting_turn word self.old t c.now }
    {
        self.deps[t] = unrun_of(c, word);
        self.committed = committed_with(self.committed, t, c);
    }
}

// The numbers of a committed set that are not in the word.
pub fn unrun_of(c: &MaybeSet, word: u64) -> u64
    ensures { result ≡ unrun_of word c.now }
{
    masks::without(members(named(c)), word)
}

// The committed numbers, with t if it is committed.
fn committed_with(w: u64, t: usize, c: &MaybeSet) -> u64
    requires { t < 64 }
    ensures { result ≡ committed_with w t c.now }
{
    masks::put(w, t, c.some != 0)
}

// What the numbers below `many` wait for that is not in the word: each committed set is read in its place.
// It stays a function of its own, so that its words lie on the stack once.
#[inline(never)]
pub fn waiting_in(s: &Server, word: u64, many: usize) -> Waiting
    requires { many ≤ 64 }
    ensures { result ≡ waiting_in s.now word many }
{
    let mut d = Waiting {
        deps: [0; 64],
        committed: 0,
    };
    for t in 0..many {
        d.note(word, t, &s.records[t].committed);
    }
    d
}

// The numbers of a group at the end of a log in its place, while there is room.
fn log_group(l: &mut Log, g: u64)
    ensures { l.new ≡ logged_of l.old g 64 }
{
    for u in 0..64 {
        if masks::has(g, u) && l.count < 64 {
            l.list[l.count as usize] = u as u32;
            l.count += 1;
        }
    }
}

// The runs, at most `limit`, at the end of a log in its place. Where all that is committed has run, nothing is looked for.
fn planned_log(rows: &[u64; 64], committed: u64, ran: u64, l: &mut Log, limit: u32)
    ensures { l.new ≡ planned_log rows.now committed limit ran l.old }
{
    let mut r = ran;
    for run in 0..limit {
        if masks::within(committed, r) {
            break;
        }
        let Some(g) = graph::next_group(rows, committed, r) else {
            break;
        };
        log_group(&mut *l, g);
        r = masks::union(r, g);
    }
}

// The plan of at most `limit` runs.
pub fn plan_runs(f: Form, d: &Waiting, log: &Log, limit: u32) -> Planned
    ensures { result ≡ made (planned_by (kept f) d.now.deps d.now.committed log.now limit) }
{
    let mut rows = d.deps;
    graph::close(&mut rows);
    let mut l = *log;
    planned_log(&rows, d.committed, f.word, &mut l, limit);
    Planned {
        many: l.count.saturating_sub(log.count),
        plan: Plan {
            shard: f.shard,
            first: log.count,
        },
        log: l,
    }
}

// Whether `t` alone is committed and has not run, and waits for another; `u` is what it waits for.
fn waits_alone(word: u64, committed: u64, t: usize, u: u64) -> bool
    requires { t < 64 }
    ensures { result ≡ waits_alone word committed t u }
{
    let only = masks::insert(0, t);
    let left = masks::without(committed, word);
    masks::is_empty(masks::without(left, only)) & !masks::is_empty(masks::without(u, only))
}

fn nothing_planned(f: Form, log: &Log) -> Planned
    ensures { result ≡ made (nothing_planned (kept f) log.now) }
{
    Planned {
        many: 0,
        plan: Plan {
            shard: f.shard,
            first: log.count,
        },
        log: *log,
    }
}

// The plan until 0 where the number `t` has become committed and waits for `u`. Where it waits alone, as most that wait do, no closure is made.
pub fn plan_commit(f: Form, d: &Waiting, t: usize, u: u64, log: &Log) -> Planned
    requires { t < 64 }
    ensures { result ≡ made (planned_after (kept f) d.now t u log.now) }
{
    if waits_alone(f.word, d.committed, t, u) {
        return nothing_planned(f, log);
    }
    plan_runs(f, d, log, 64)
}
