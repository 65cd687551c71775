// A reply to a drive: the refusals in their order, then the change.
#![tactic(auto)]

ghost use Rattle.std.specs.Prelude.{◌≡◌, IfOk};
ghost use Rattle.rules.specs.Refusal.{told};
ghost use Rattle.drive.specs.Hear.{answer_of, refusal, hear};
ghost use Rattle.drive_step.specs.Weighing.{weighed};

use drive::{Answer, Drive};
use drive_decide::{Turn, decide};
use drive_refusals::admit;
use messages::codes::{BEHIND, DONE, PRE_ACCEPT_OK, PREPARE_OK};
use rules::MaybeWord;
use rules::refusals::Refusal;
use wire::Message;

// What a reply comes to that is not refused: a new phase, or one answer, in its place, and the promise seen, which are then all that may have changed.
#[derive(Clone, Copy)]
pub enum Weighed {
    Turned(Turn),
    Kept {
        place: usize,
        answer: Answer,
        seen: u32,
    },
}

// What an OK says of arrival and acceptance.
#[tactic(auto, unfolding(drive::specs::Hear::answer_of))]
fn answer_of(m: &Message) -> Answer
    ensures { result ≡ answer_of m.now }
{
    let answer = Answer {
        counted: 1,
        ..Answer::default()
    };
    match m.code {
        PREPARE_OK => Answer {
            arrival: m.arrival,
            accepted: m.accepted,
            ..answer
        },
        PRE_ACCEPT_OK => Answer {
            arrival: MaybeWord {
                some: 1,
                word: m.word,
            },
            ..answer
        },
        _ => answer,
    }
}

// What the reply `m` comes to. The drive is copied only where an answer decides: so a caller that is lent the drive stores no more than changed.
pub fn weigh(d: &Drive, m: &Message) -> Result<Weighed, Refusal>
    ensures refused { told result ≡ refusal d.now m.now }
    ensures taken { IfOk result (λ w. w ≡ weighed d.now m.now) }
{
    let mut counted = admit(d, m)?;
    if m.code == DONE {
        return Ok(Weighed::Turned(Turn::to(3, m.set)));
    }
    let place = m.server as usize;
    if m.code == BEHIND {
        return Ok(Weighed::Kept {
            place,
            answer: d.answers[place],
            seen: d.seen.max(m.promise),
        });
    }
    let answer = answer_of(m);
    counted.answered = masks::insert(counted.answered, place);
    if !counted.decided(d.phase) {
        return Ok(Weighed::Kept {
            place,
            answer,
            seen: d.seen,
        });
    }
    let mut heard = *d;
    heard.answers[place] = answer;
    Ok(Weighed::Turned(decide(&heard, counted.all_answered())))
}

// The lent drive takes the reply `m`; on a refusal it stays as it was lent.
pub fn hear_in_place(d: &mut Drive, m: &Message) -> Result<(), Refusal>
    ensures refused { told result ≡ (hear d.old m.now).refusal }
    ensures heard { d.new ≡ (hear d.old m.now).drive }
{
    match weigh(d, m)? {
        Weighed::Turned(turn) => turn.begin(d),
        Weighed::Kept {
            place,
            answer,
            seen,
        } => {
            d.answers[place] = answer;
            d.seen = seen;
        }
    }
    Ok(())
}

// The drive after the reply `m`, by value.
pub fn hear(d: Drive, m: &Message) -> Result<Drive, Refusal>
    ensures refused { told result ≡ (hear d m.now).refusal }
    ensures heard { IfOk result (λ n. n ≡ (hear d m.now).drive) }
{
    let mut n = d;
    hear_in_place(&mut n, m)?;
    Ok(n)
}
