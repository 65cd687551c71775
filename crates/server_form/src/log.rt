// The log by itself: at most 64 entries, each a number, and none twice.
ghost use Rattle.std.specs.Prelude.{◌≡◌, true, false, MatchOption};
ghost use Rattle.server_form.specs.OnePass.{read_log};

use rules::cluster::NUMBERS;
use server::Log;

// The log's numbers as a word, or nothing where it is no log.
pub fn read_log(l: &Log) -> Option<u64>
    ensures { MatchOption result ((read_log l.now).fine ≡ false) (λ w. ((read_log l.now).fine ≡ true) × (w ≡ (read_log l.now).word)) }
{
    if NUMBERS < l.count {
        return None;
    }
    let mut word: u64 = 0;
    for entry in &l.list[..l.count as usize] {
        let fresh = (*entry < NUMBERS) & !masks::has(word, *entry as usize);
        if !fresh {
            return None;
        }
        word = masks::insert(word, *entry as usize);
    }
    Some(word)
}
