// Numbers in the file's byte order.
ghost use Rattle.std.specs.Prelude.{◌≡◌, ◌+◌, ◌≤◌, length};
ghost use Rattle.capture.specs.Pcap.{half, word};

#[tactic(auto, unfolding(crate::specs::Pcap::half, xdr::specs::Word::value))]
pub fn half(little: bool, s: &[u8], at: usize) -> u32
    requires { at + 2 ≤ length s.now }
    ensures { result ≡ half little s.now at }
{
    let bytes = [s[at], s[at + 1]];
    u32::from(if little {
        u16::from_le_bytes(bytes)
    } else {
        u16::from_be_bytes(bytes)
    })
}

#[tactic(auto, unfolding(crate::specs::Pcap::word, xdr::specs::Word::value))]
pub fn word(little: bool, s: &[u8], at: usize) -> u32
    requires { at + 4 ≤ length s.now }
    ensures { result ≡ word little s.now at }
{
    let bytes = [s[at], s[at + 1], s[at + 2], s[at + 3]];
    if little {
        u32::from_le_bytes(bytes)
    } else {
        u32::from_be_bytes(bytes)
    }
}
