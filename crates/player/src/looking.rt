// What a record's data says.
ghost use Rattle.std.specs.Prelude.{◌≡◌, ◌<◌, ◌≤◌, None, IfSome, length};
ghost use Rattle.capture.specs.declared.Shown.TheVariants.{Refusal};
ghost use Rattle.player.specs.Replay.{unread, read};
ghost use Rattle.player.specs.Walking.{looked, look, shown_of, answer_shown};

use crate::Look;
use capture::{Shown, Told};
use door::Answer;
use rules::cluster::{COORDINATORS, SERVERS};
use rules::refusals::Refusal;

// The data can't be read.
fn unread(refusal: u32) -> Look
    ensures { result ≡ looked (unread refusal) None }
{
    let told = Told {
        code: None,
        t: None,
        answer: Shown::Refusal(refusal),
    };
    Look { told, to: None }
}

// The destination, and then the message.
#[tactic(auto, unfolding(crate::specs::Walking::look))]
pub fn look(bytes: &[u8]) -> Look
    ensures is { result ≡ look bytes.now }
    ensures server { IfSome result.to (λ n. n < 12) }
{
    if bytes.len() < 4 {
        return unread(u32::from(Refusal::Cut));
    }
    let to = xdr::word_at(bytes, 0);
    if SERVERS + COORDINATORS <= to {
        return unread(u32::from(Refusal::OutOfRange));
    }
    let d = codec::decode(&bytes[4..]);
    if d.refusal != 0 {
        return unread(d.refusal);
    }
    let told = Told {
        code: Some(d.message.code),
        t: Some(d.message.t),
        answer: Shown::Dash,
    };
    if SERVERS <= to {
        return Look { told, to: None };
    }
    Look {
        told,
        to: Some(to as usize),
    }
}

// What a server answered, at the front of the output.
#[tactic(auto, unfolding(crate::specs::Walking::shown_of))]
fn shown(a: Answer, output: &[u8]) -> Shown
    requires { 4 ≤ length output.now }
    ensures { result ≡ shown_of a output.now }
{
    if a.refusal != 0 {
        return Shown::Refusal(a.refusal);
    }
    Shown::Code(xdr::word_at(output, 0))
}

// The same, with the server's answer.
#[tactic(auto, unfolding(crate::specs::Walking::answer_shown))]
pub fn answered(told: Told, a: Answer, output: &[u8]) -> Told
    requires { 4 ≤ length output.now }
    ensures { result ≡ answer_shown told a output.now }
{
    let answer = shown(a, output);
    Told { answer, ..told }
}
