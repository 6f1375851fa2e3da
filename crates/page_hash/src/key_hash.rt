//! Which bucket a key belongs to.
ghost use Rattle.std.specs.Prelude.{◌≡◌};
ghost use Rattle.store_meaning.specs.HashLayout.{hash_of};

// FNV-1a of 64 bits.
pub fn key_hash(key: &[u8]) -> u64
    ensures { result ≡ hash_of key.now }
{
    let mut hash: u64 = 14_695_981_039_346_656_037;
    for byte in key {
        hash = (hash ^ u64::from(*byte)).wrapping_mul(1_099_511_628_211);
    }
    hash
}
