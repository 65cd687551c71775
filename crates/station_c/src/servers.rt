// A server lent by the host. On a refusal the server stays as it was lent.
ghost use Rattle.std.specs.Prelude.{◌≡◌};
ghost use Rattle.door.specs.Exchange.{take};
ghost use Rattle.server.specs.Host.{fresh, wanted};
ghost use Rattle.server.specs.Run.{run, run_all};
ghost use Rattle.door.specs.Told.{counted};
ghost use Rattle.door.specs.Readings.{counter, log_entry, result_reading};

use door::{Answer, Counted, LogEntry, Reading};
use server::{Server, Wants};

// A fresh server `id` in the lent place, whatever stood there. Answers the refusal, or 0.
#[unsafe(no_mangle)]
pub extern "C" fn drobulets_server_fresh(s: &mut Server, id: u32) -> u32
    ensures { (result ≡ (fresh s.old id).refusal) × (s.new ≡ (fresh s.old id).server) }
{
    station::servers::drobulets_server_fresh(s, id)
}

// A message, and its reply at the front of the output. Bytes that do not decode are refused first (10, 12, 11), then the step refuses in its own order, then encoding (12, 14).
// A Commit, or a Done as one, then runs what is ready; every other message changes the one record of its T. The form is judged once.
#[unsafe(no_mangle)]
pub extern "C" fn drobulets_server_take(s: &mut Server, input: &[u8], output: &mut [u8]) -> Answer
    ensures { (result ≡ (take s.old input.now output.old).answer)
        × (s.new ≡ (take s.old input.now output.old).server)
        × (output.new ≡ (take s.old input.now output.old).output) }
{
    station::servers::drobulets_server_take(s, input, output)
}

// One run.
#[unsafe(no_mangle)]
pub extern "C" fn drobulets_server_run(s: &mut Server) -> Counted
    ensures { (result ≡ counted (run s.old)) × (s.new ≡ (run s.old).server) }
{
    station::servers::drobulets_server_run(s)
}

// Runs until nothing is ready.
#[unsafe(no_mangle)]
pub extern "C" fn drobulets_server_run_all(s: &mut Server) -> Counted
    ensures { (result ≡ counted (run_all s.old)) × (s.new ≡ (run_all s.old).server) }
{
    station::servers::drobulets_server_run_all(s)
}

// The wanted set.
#[unsafe(no_mangle)]
pub extern "C" fn drobulets_server_wanted(s: &Server) -> Wants
    ensures { result ≡ wanted s.now }
{
    station::servers::drobulets_server_wanted(s)
}

// The counter of a key. Readers judge nothing.
#[unsafe(no_mangle)]
pub extern "C" fn drobulets_server_counter(s: &Server, key: u32) -> Reading
    ensures { result ≡ counter s.now key }
{
    station::servers::drobulets_server_counter(s, key)
}

// The number at a place of the log.
#[unsafe(no_mangle)]
pub extern "C" fn drobulets_server_log(s: &Server, place: u32) -> LogEntry
    ensures { result ≡ log_entry s.now place }
{
    station::servers::drobulets_server_log(s, place)
}

// A result of the number `t`, in the order of its pieces on this server's shard.
#[unsafe(no_mangle)]
pub extern "C" fn drobulets_server_result(s: &Server, t: u32, place: u32) -> Reading
    ensures { result ≡ result_reading s.now t place }
{
    station::servers::drobulets_server_result(s, t, place)
}
