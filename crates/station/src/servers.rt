// A server lent by the host. On a refusal the server stays as it was lent.
ghost use Rattle.std.specs.Prelude.{◌≡◌, ◌<◌};
ghost use Rattle.wire.specs.Holding.{SetFits};
ghost use Rattle.door.specs.Exchange.{take, taking};
ghost use Rattle.server.specs.Host.{fresh, wanted};
ghost use Rattle.server.specs.Run.{run, run_all};
ghost use Rattle.server_run.specs.Limited.{ran_up_to};
ghost use Rattle.server_read.specs.InPlace.{kept};
ghost use Rattle.door.specs.Told.{answered, counted, counted_as};
ghost use Rattle.door.specs.Readings.{counter, log_entry, result_reading};
ghost use Rattle.station.specs.Commits.{place_in, committed};

use door::exchange::write;
use door::{Answer, Counted, LogEntry, Reading};
use messages::replies::commit_ok;
use rules::refusals::{Refusal, told};
use server::{Server, Wants};
use server_lent::running::run_planned;
use server_plan::{plan_commit, plan_runs, unrun_of, waiting_in};
use server_read::form::{Form, read_form};
use server_read::stepping::weigh;
use server_step::Considered;
use server_step::record::place_of;
use server_step::refusals::commits;
use wire::Message;

// A fresh server `id` in the lent place, whatever stood there. Answers the refusal, or 0.
pub fn drobulets_server_fresh(s: &mut Server, id: u32) -> u32
    ensures { (result ≡ (fresh s.old id).refusal) × (s.new ≡ (fresh s.old id).server) }
{
    told(server_lent::first::fresh(s, id))
}

// The place of the record that a Commit stores, or any where there is no such place.
#[tactic(auto, unfolding(crate::specs::Commits::place_in))]
fn place_in(c: &Considered) -> usize
    ensures is { result ≡ place_in c.now }
    ensures below { result < 64 }
{
    if c.place < 64 { c.place } else { 0 }
}

// A Commit that nothing refused, at a server of this form, before anything is stored: `c` is what it comes to. On a refusal of the output nothing is stored and nothing runs.
// It stays a function of its own, so that no other message has its plan on the stack.
#[inline(never)]
pub fn take_commit(
    s: &mut Server,
    f: Form,
    c: &Considered,
    output: &mut [u8],
) -> Result<u32, Refusal>
    ensures answer { answered result ≡ (committed s.old (kept f) c.now output.old).answer }
    ensures server { s.new ≡ (committed s.old (kept f) c.now output.old).server }
    ensures output { output.new ≡ (committed s.old (kept f) c.now output.old).output }
{
    let at = place_in(c);
    // Stored from a copy: from one lent place to another the compiler calls memmove, which a host need not have.
    let after = c.after;
    let mut d = waiting_in(&*s, f.word, 64);
    d.note(f.word, at, &after.committed);
    let u = unrun_of(&after.committed, f.word);
    let p = plan_commit(f, &d, at, u, &s.log);
    let length = write(&commit_ok(c.reply.t, c.reply.server, p.many), output)?;
    s.records[at] = after;
    run_planned(&mut *s, &p);
    Ok(length)
}

// A message, and how long its reply at the front of the output is. The step refuses in its own order, then encoding (12, 14). A Commit, or a Done as one, runs what is
// ready; every other message changes the one record of its T. The form is judged once.
fn take(s: &mut Server, m: &Message, output: &mut [u8]) -> Result<u32, Refusal>
    requires { SetFits m.now.set }
    ensures answer { answered result ≡ (taking s.old m.now output.old).answer }
    ensures server { s.new ≡ (taking s.old m.now output.old).server }
    ensures output { output.new ≡ (taking s.old m.now output.old).output }
{
    // What is read is not needed: a read tells the proof what the lent server holds.
    let _told = s.records[0].ran;
    let f = read_form(&*s)?;
    let c = weigh(&*s, f, m)?;
    if commits(m.code) {
        return take_commit(&mut *s, f, &c, output);
    }
    let length = write(&c.reply, output)?;
    s.records[c.place] = c.after;
    Ok(length)
}

// A message, and its reply at the front of the output. Bytes that do not decode are refused first (10, 12, 11).
pub fn drobulets_server_take(s: &mut Server, input: &[u8], output: &mut [u8]) -> Answer
    ensures { (result ≡ (take s.old input.now output.old).answer)
        × (s.new ≡ (take s.old input.now output.old).server)
        × (output.new ≡ (take s.old input.now output.old).output) }
{
    let d = codec::decode(input);
    if d.refusal != 0 {
        return Answer {
            refusal: d.refusal,
            length: 0,
        };
    }
    Answer::from(take(s, &d.message, output))
}

// At most `limit` runs, and how many numbers ran. What runs, and in which order, is known before any number runs: so the server is changed only where a number runs, and not at all where the form is broken.
pub fn runs(s: &mut Server, limit: u32) -> Result<u32, Refusal>
    ensures count { counted_as result ≡ counted (ran_up_to limit s.old) }
    ensures server { s.new ≡ (ran_up_to limit s.old).server }
{
    // What is read is not needed: a read tells the proof what the lent server holds.
    let _told = s.records[0].ran;
    let form = read_form(&*s)?;
    let d = waiting_in(&*s, form.word, 64);
    let p = plan_runs(form, &d, &s.log, limit);
    run_planned(&mut *s, &p);
    Ok(p.many)
}

// One run.
pub fn drobulets_server_run(s: &mut Server) -> Counted
    ensures { (result ≡ counted (run s.old)) × (s.new ≡ (run s.old).server) }
{
    Counted::from(runs(s, 1))
}

// Runs until nothing is ready.
pub fn drobulets_server_run_all(s: &mut Server) -> Counted
    ensures { (result ≡ counted (run_all s.old)) × (s.new ≡ (run_all s.old).server) }
{
    Counted::from(runs(s, 64))
}

// The wanted set.
pub fn drobulets_server_wanted(s: &Server) -> Wants
    ensures { result ≡ wanted s.now }
{
    server_read::wanting::wanted(s)
}

// The counter of a key. Readers judge nothing.
pub fn drobulets_server_counter(s: &Server, key: u32) -> Reading
    ensures { result ≡ counter s.now key }
{
    door::readings::counter(&s.counters, key)
}

// The number at a place of the log.
pub fn drobulets_server_log(s: &Server, place: u32) -> LogEntry
    ensures { result ≡ log_entry s.now place }
{
    door::readings::log_entry(&s.log, place)
}

// A result of the number `t`, in the order of its pieces on this server's shard.
pub fn drobulets_server_result(s: &Server, t: u32, place: u32) -> Reading
    ensures { result ≡ result_reading s.now t place }
{
    door::readings::result(&s.records[place_of(t)], t, place)
}
