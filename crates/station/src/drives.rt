// A drive lent by the host. On a refusal the drive, and the output where one is lent, stay as they were lent.
ghost use Rattle.std.specs.Prelude.{◌≡◌};
ghost use Rattle.door.specs.Exchange.{take_reply, post};
ghost use Rattle.drive.specs.Host.{start, recover, again, move_on};

use door::Due;
use door::exchange::{post, take_reply};
use drive::Drive;
use rules::Pieces;
use rules::refusals::told;

// Ballot 0, phase 1, by the origin of `t`, in the lent place, whatever stood there. Each of these answers the refusal, or 0.
pub fn drobulets_drive_start(d: &mut Drive, coordinator: u32, t: u32, pieces: Pieces) -> u32
    ensures { (result ≡ (start d.old coordinator t pieces).refusal)
        × (d.new ≡ (start d.old coordinator t pieces).drive) }
{
    told(drive_host::start(d, coordinator, t, pieces))
}

// The next ballot above `floor`, phase 0, in the lent place, whatever stood there.
pub fn drobulets_drive_recover(
    d: &mut Drive,
    coordinator: u32,
    t: u32,
    pieces: Pieces,
    floor: u32,
) -> u32
    ensures { (result ≡ (recover d.old coordinator t pieces floor).refusal)
        × (d.new ≡ (recover d.old coordinator t pieces floor).drive) }
{
    told(drive_host::recover(d, coordinator, t, pieces, floor))
}

// The next ballot above its own and every promise seen, phase 0.
pub fn drobulets_drive_again(d: &mut Drive) -> u32
    ensures { (result ≡ (again d.old).refusal) × (d.new ≡ (again d.old).drive) }
{
    told(drive_host::again(d))
}

// Decide with two answers in each shard.
pub fn drobulets_drive_move_on(d: &mut Drive) -> u32
    ensures { (result ≡ (move_on d.old).refusal) × (d.new ≡ (move_on d.old).drive) }
{
    told(drive_host::move_on(d))
}

// A reply. Bytes that do not decode are refused first (10, 12, 11), and then the step refuses in its own order.
pub fn drobulets_drive_take(d: &mut Drive, input: &[u8]) -> u32
    ensures { (result ≡ (take_reply d.old input.now).refusal)
        × (d.new ≡ (take_reply d.old input.now).drive) }
{
    take_reply(d, input)
}

// The message due, at the front of the output, and the servers that it is due to.
pub fn drobulets_drive_due(d: &Drive, output: &mut [u8]) -> Due
    ensures { (result ≡ (post d.now output.old).told)
        × (output.new ≡ (post d.now output.old).output) }
{
    post(d, output)
}
