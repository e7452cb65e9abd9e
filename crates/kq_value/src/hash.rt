// The steps of a hash.
ghost use Rattle.std.specs.Prelude.{◌≡◌};
ghost use Rattle.kq_value.specs.Hash.{step as step_of, finish as finish_of, bytes_hash};

// Where FNV-1a begins.
pub(crate) const SEED: u64 = 0xcbf2_9ce4_8422_2325;

// One step of FNV-1a.
pub(crate) fn step(state: u64, word: u64) -> u64
    ensures { result ≡ step_of state word }
{
    (state ^ word).wrapping_mul(0x100_0000_01b3)
}

// FNV-1a over bytes.
pub(crate) fn step_bytes(state: u64, bytes: &[u8]) -> u64
    ensures { result ≡ bytes_hash state bytes.now }
{
    let mut state = state;
    for byte in bytes {
        state = step(state, *byte as u64);
    }
    state
}

// The finish of MurmurHash3, which spreads the state over all bits.
pub(crate) fn finish(state: u64) -> u64
    ensures { result ≡ finish_of state }
{
    let mut hash = (state ^ state >> 33).wrapping_mul(0xff51_afd7_ed55_8ccd);
    hash = (hash ^ hash >> 33).wrapping_mul(0xc4ce_b9fe_1a85_ec53);
    hash ^ hash >> 33
}
