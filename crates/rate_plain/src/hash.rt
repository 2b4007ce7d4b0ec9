ghost use Rattle.std.specs.Prelude.{◌≡◌};
ghost use Rattle.rate_plain.specs.Hash.{fnv1a64_on, fnv1a64_of};

/// What a hash begins with.
const START: u64 = 14_695_981_039_346_656_037;

/// What a hash is multiplied by at each byte.
const PRIME: u64 = 1_099_511_628_211;

/// The hash of a text that goes on by these bytes, from the hash of its front.
pub fn fnv1a64_on(front: u64, bytes: &[u8]) -> u64
    ensures { result ≡ fnv1a64_on front bytes.now }
{
    let mut hash = front;
    for &byte in bytes {
        hash = (hash ^ u64::from(byte)).wrapping_mul(PRIME);
    }
    hash
}

/// The 64-bit FNV-1a hash. Takes no memory.
pub fn fnv1a64(bytes: &[u8]) -> u64
    ensures { result ≡ fnv1a64_of bytes.now }
{
    fnv1a64_on(START, bytes)
}
