// Plays a captured day again: replay [CAPTURE], standard input where no name is given. A line for each record goes to standard output.
// The exit status is 0 where the walk came to the end of the file, 1 where it did not, and 2 for a file that can't be read.
#![tactic(auto)]

use player::chewing::{chew, finish, first};
use std::fs::File;
use std::io::{Eprint, Print, Read};
use std::process::ExitCode;
use std::rt::Files;
use std::{env, io};

// Says why, and answers the status of a file that can't be read or a line that can't be written.
fn failed(rt: &impl Eprint, what: &str, why: &io::Error) -> u8 {
    let _ = eprintln!(rt; "replay: {what}: {why}");
    2
}

// Plays the open file to its end.
fn play(rt: &(impl Print + Eprint), file: &mut impl Read) -> u8 {
    let mut input = [0u8; 65536];
    let mut output = [0u8; 65536];
    let mut p = first();
    for _ in 0..u64::MAX {
        let n = match file.read(&mut input) {
            Ok(n) => n,
            Err(why) => return failed(rt, "read", &why),
        };
        if n == 0 {
            break;
        }
        let mut at = 0;
        while at < n {
            p = chew(p, &input[at..n], &mut output);
            let made = p.made;
            if let Err(why) = rt.write_all(&output[..made]) {
                return failed(rt, "write", &why);
            }
            let taken = p.taken;
            if taken == 0 {
                break;
            }
            at += taken;
        }
    }
    let w = p.walk;
    let made = finish(w, &mut output);
    if let Err(why) = rt.write_all(&output[..made]) {
        return failed(rt, "write", &why);
    }
    if made == 0 { 0 } else { 1 }
}

fn opened(rt: &(impl Files + Print + Eprint), name: &str) -> u8 {
    match File::open(rt, name) {
        Ok(mut file) => play(rt, &mut file),
        Err(why) => failed(rt, name, &why),
    }
}

fn main(rt: HostRuntime) -> ExitCode {
    let mut names = match env::args(&rt) {
        Ok(words) => words.skip(1),
        Err(why) => return ExitCode::from(failed(&rt, "name", &why)),
    };
    let status = match names.next() {
        None => play(&rt, &mut rt.stdin()),
        Some(name) => {
            if names.next().is_some() {
                let _ = eprintln!(&rt; "usage: replay [CAPTURE]");
                2
            } else {
                opened(&rt, name.as_str())
            }
        }
    };
    ExitCode::from(status)
}
