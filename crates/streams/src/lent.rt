// Lent memory for the programs that answer a stream: made from one byte of it, and told by a digest.
ghost use Rattle.std.specs.Prelude.{◌≡◌, ◌<◌, length};
ghost use Rattle.streams.specs.Lent.{filled, modulus, mixed, digest_from};

const MODULUS: u64 = 16777213;

// Byte i of the memory is m + 7 · i, modulo 256.
pub fn fill(memory: &mut [u8], m: u8)
    ensures { memory.new ≡ filled m (length memory.old) }
{
    let mut next = m;
    for byte in memory.iter_mut() {
        *byte = next;
        next = next.wrapping_add(7);
    }
}

// A digest of numbers: h · 257 + number + 1, modulo 16,777,213, number after number.
#[derive(Clone, Copy, Debug, PartialEq, Eq)]
pub struct RunningDigest {
    sum: u64,
    ghost small: { sum < modulus },
}

impl RunningDigest {
    pub fn new() -> Self
        ensures { result.sum ≡ 0 }
    {
        RunningDigest { sum: 0 }
    }

    // Of all that was mixed in.
    pub fn sum(self) -> u64
        ensures { result ≡ self.sum }
    {
        self.sum
    }

    pub fn number(&mut self, x: u16)
        ensures { self.new.sum ≡ mixed self.old.sum x }
    {
        self.sum = (self.sum * 257 + x as u64 + 1) % MODULUS;
    }

    pub fn bytes(&mut self, memory: &[u8])
        ensures { self.new.sum ≡ digest_from self.old.sum memory.now }
    {
        for &byte in memory {
            self.number(byte as u16);
        }
    }
}

// A digest of all bytes of the memory.
pub fn digest(memory: &[u8]) -> u64
    ensures { result ≡ digest_from 0 memory.now }
{
    let mut digest = RunningDigest::new();
    digest.bytes(memory);
    digest.sum()
}
