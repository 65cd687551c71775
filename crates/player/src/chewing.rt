// A portion of the file is played.
ghost use Rattle.std.specs.Prelude.{◌≡◌, ◌≤◌, length};
ghost use Rattle.xdr.specs.Over.{over, Put};
ghost use Rattle.server.specs.Host.{fresh_server};
ghost use Rattle.capture.specs.Text.{bad_header, cut_record, LINE};
ghost use Rattle.player.specs.Replay.{twelve};
ghost use Rattle.player.specs.Walking.{begun, chewed, ending, played_of};

use crate::filling::{after_data, begun, bitten, going, takes, whole};
use crate::looking::{answered, look};
use crate::{HEADS, OPENING, OVER, Play, Walk};
use capture::text::{LINE, put_line};
use server::Server;
use server_run::first::{fresh_record, no_counters, no_log};
use station::servers::drobulets_server_take;
use std::array;

#[tactic(auto, unfolding(server::specs::Host::fresh_server))]
fn fresh_server(id: u32) -> Server
    ensures { result ≡ fresh_server id }
{
    Server {
        id,
        records: [fresh_record(); 64],
        counters: no_counters(),
        log: no_log(),
    }
}

// Twelve fresh servers, at the front of a file.
pub fn first() -> Play
    ensures { result ≡ record { walk = begun; servers = twelve; taken = 0; made = 0 } }
{
    let servers = array::from_fn(|i| fresh_server(i as u32));
    let walk = begun();
    Play {
        walk,
        servers,
        taken: 0,
        made: 0,
    }
}

// As much of the portion as there is room for lines, and the lines at the front of the output.
pub fn chew(p: Play, portion: &[u8], out: &mut [u8]) -> Play
    ensures { (result ≡ played_of (chewed p.walk p.servers portion.now (length out.old)))
        × (out.new ≡ over (chewed p.walk p.servers portion.now (length out.old)).text out.old) }
{
    let mut walk = p.walk;
    let mut servers = p.servers;
    let mut at = 0;
    let mut made = 0;
    while at < portion.len() && going(walk) && LINE <= out.len() - made {
        let taken = takes(walk, &portion[at..]);
        let w = bitten(walk, &portion[at..]);
        at += taken;
        if whole(w) {
            let kept = w.kept;
            let have = w.have;
            let l = look(&kept[..have]);
            let mut told = l.told;
            if let Some(to) = l.to {
                let mut room = [0u8; 176];
                let a = drobulets_server_take(&mut servers[to], &kept[4..have], &mut room);
                told = answered(told, a, &room);
            }
            made = put_line(out, made, w.number, w.seconds, told);
            walk = after_data(w);
        } else {
            walk = w;
        }
    }
    Play {
        walk,
        servers,
        taken: at,
        made,
    }
}

// The file has no more bytes: the line that ends the walk, if one does, at the front of the output. Answers how many bytes it has.
pub fn finish(w: Walk, out: &mut [u8]) -> usize
    requires { LINE ≤ length out.old }
    ensures long { result ≡ length (ending w).text }
    ensures bytes { out.new ≡ over (ending w).text out.old }
{
    if w.phase == OPENING || OVER <= w.phase {
        return put_text(out, b"bad header\n");
    }
    if w.phase == HEADS && w.have == 0 {
        return 0;
    }
    put_text(out, b"cut record\n")
}

// The text is written at the front of the output. Answers how many bytes it has.
#[tactic(auto, unfolding(xdr::specs::Over::over))]
fn put_text(out: &mut [u8], text: &[u8]) -> usize
    requires { length text.now ≤ length out.old }
    ensures long { result ≡ length text.now }
    ensures bytes { out.new ≡ over text.now out.old }
{
    let n = text.len();
    out[..n].copy_from_slice(text);
    n
}
