// The reply step as a host is told of it: over the drive that it lends, with the refusal's number.
#![tactic(auto)]

ghost use Rattle.std.specs.Prelude.{◌≡◌};
ghost use Rattle.drive.specs.Hear.{hear};

use drive::Drive;
use wire::Message;

// The lent drive takes what the step makes of it, and the answer is the refusal's number, or 0.
pub fn hear_lent(d: &mut Drive, m: &Message) -> u32
    ensures { (result ≡ (hear d.old m.now).refusal) × (d.new ≡ (hear d.old m.now).drive) }
{
    match drive_step::hear(*d, m) {
        Ok(heard) => {
            *d = heard;
            0
        }
        Err(refusal) => u32::from(refusal),
    }
}
