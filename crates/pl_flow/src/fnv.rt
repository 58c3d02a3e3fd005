ghost use Rattle.std.specs.Prelude.{◌≡◌};
ghost use Rattle.std.specs.List.{fold};
ghost use Rattle.pl_layouts.specs.Flow.{fnv1a, fnv_step};

// Where the hash of no bytes stands.
const OFFSET: u32 = 0x811c_9dc5;

// By what the hash is multiplied for each byte.
const PRIME: u32 = 0x0100_0193;

/// The hash FNV-1a of 32 bits (Fowler, Noll and Vo).
#[tactic(auto, unfolding(pl_layouts::specs::Flow::fnv1a))]
pub fn fnv1a(bytes: &[u8]) -> u32
    ensures { result ≡ fnv1a bytes.now }
{
    hash_further(OFFSET, bytes)
}

/// The hash of some bytes and then these, by the hash of the former.
#[tactic(auto, using(std::proofs::lemmas::List::Sums::fold_more))]
pub(crate) fn hash_further(before: u32, bytes: &[u8]) -> u32
    ensures { result ≡ fold fnv_step before bytes.now }
{
    let mut hash = before;
    for byte in bytes {
        hash = hash_byte(hash, *byte);
    }
    hash
}

/// The hash of some bytes and then this one.
pub(crate) fn hash_byte(before: u32, byte: u8) -> u32
    ensures { result ≡ fnv_step before byte }
{
    (before ^ u32::from(byte)).wrapping_mul(PRIME)
}
