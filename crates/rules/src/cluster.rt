// The limits of the cluster, each in one place, and rule 1 of the numbers under them.
ghost use Rattle.std.specs.Prelude.{◌≡◌, ◌<◌};
ghost use Rattle.rules.specs.Cluster.{SHARDS, REPLICAS, bad_number, bad_server, bad_coordinator, server_of, shard_of};

pub const SHARDS: u32 = 4;

// Servers of a shard.
pub const REPLICAS: u32 = 3;

pub const SERVERS: u32 = SHARDS * REPLICAS;

// Transaction numbers.
pub const NUMBERS: u32 = 64;

pub const COORDINATORS: u32 = 8;

// Counters of a shard.
pub const KEYS: u32 = 16;

// Kinds of a piece.
pub const KINDS: u32 = 3;

// Pieces of a transaction, and so results.
pub const PIECES: usize = 8;

// Of a drive.
pub const LAST_PHASE: u32 = 3;

pub fn bad_number(t: u32) -> bool
    ensures { result ≡ bad_number t }
{
    NUMBERS <= t
}

pub fn bad_server(s: u32) -> bool
    ensures { result ≡ bad_server s }
{
    SERVERS <= s
}

pub fn bad_coordinator(c: u32) -> bool
    ensures { result ≡ bad_coordinator c }
{
    COORDINATORS <= c
}

// The server that is replica `r` of shard `k`.
pub fn server_of(k: u32, r: u32) -> u32
    requires { (k < SHARDS) × (r < REPLICAS) }
    ensures { result ≡ server_of k r }
{
    REPLICAS * k + r
}

// The shard of server `s`.
pub fn shard_of(s: u32) -> u32
    ensures { result ≡ shard_of s }
{
    s / REPLICAS
}
