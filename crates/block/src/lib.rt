// A block of 128 bits: xor, doubling and halving in the field, mixing, and its bytes.
#![tactic(auto)]

ghost use Rattle.std.specs.Prelude.{◌≡◌, ℕ, ◌+◌, ◌-◌, ◌*◌, ◌/◌, ◌%◌, ◌^◌, ◌<◌, ◌≤◌, ◌++◌, length, take, drop, ◌==◌, bit_xor};
ghost use Rattle.std.proofs.Common.{rules};
ghost use Rattle.block.specs.Value.{value};
ghost use Rattle.block.specs.Field.{dbl, half, three, five, seven, mix, unmix, Undone, Unmixed, ByCases, Linear};
ghost use Rattle.block.specs.Bytes.{of_bytes, bytes_of, padded, BytesBack, NumberBack, Filled};

mod raw;

pub use raw::Block;

impl Block {
    pub fn new(hi: u64, lo: u64) -> Block
        ensures { value result ≡ hi * 2 ^ 64 + lo }
    {
        Block { hi, lo }
    }

    pub fn xor(self, other: Block) -> Block
        ensures { value result ≡ bit_xor (value self) (value other) }
    {
        Block::new(self.hi ^ other.hi, self.lo ^ other.lo)
    }

    pub fn double(self) -> Block
        ensures { value result ≡ dbl (value self) }
    {
        Block::new(
            (self.hi << 1) | (self.lo >> 63),
            (self.lo << 1) ^ ((self.hi >> 63) * 0x87),
        )
    }

    pub fn halve(self) -> Block
        ensures { value result ≡ half (value self) }
    {
        let odd = self.lo & 1;
        Block::new(
            (self.hi >> 1) | (odd << 63),
            ((self.lo ^ (odd * 0x87)) >> 1) | (self.hi << 63),
        )
    }

    pub fn times3(self) -> Block
        ensures { value result ≡ three (value self) }
    {
        self.double().xor(self)
    }

    pub fn times5(self) -> Block
        ensures { value result ≡ five (value self) }
    {
        self.double().double().xor(self)
    }

    pub fn times7(self) -> Block
        ensures { value result ≡ seven (value self) }
    {
        self.times3().double().xor(self)
    }

    // Named as the integers' own `from_be_bytes` and `to_be_bytes`, and no `From`, which would not say that these are its bytes.
    pub fn from_bytes(b: &[u8; 16]) -> Block
        ensures { value result ≡ of_bytes b.now }
    {
        Block::new(
            u64::from_be_bytes([b[0], b[1], b[2], b[3], b[4], b[5], b[6], b[7]]),
            u64::from_be_bytes([b[8], b[9], b[10], b[11], b[12], b[13], b[14], b[15]]),
        )
    }

    pub fn to_bytes(self) -> [u8; 16]
        ensures { result ≡ bytes_of (value self) }
    {
        let h = self.hi.to_be_bytes();
        let l = self.lo.to_be_bytes();
        [
            h[0], h[1], h[2], h[3], h[4], h[5], h[6], h[7], l[0], l[1], l[2], l[3], l[4], l[5],
            l[6], l[7],
        ]
    }

    // The sixteen bytes from `at` on; fewer are filled with 80 and zeros.
    pub fn load(bytes: &[u8], at: usize) -> Block
        ensures { value result ≡ of_bytes (padded (take 16 (drop at bytes.now))) }
    {
        let n = bytes.len();
        // Tried: `first_chunk` of the rest. It costs each block of a message a thirtieth of its time under Speck.
        if at < n && n - at >= 16 {
            Block::from_bytes(bytes[at..at + 16].as_array().unwrap())
        } else {
            filled(&bytes[at.min(n)..n])
        }
    }

    // Writes the sixteen bytes at `at`, or nothing where they do not fit.
    pub fn store(self, out: &mut [u8], at: usize)
        ensures front { at + 16 ≤ length out.old → take (at + 16) out.new ≡ take at out.old ++ bytes_of (value self) }
        ensures back { at + 16 ≤ length out.old → drop (at + 16) out.new ≡ drop (at + 16) out.old }
        ensures none { length out.old < at + 16 → out.new ≡ out.old }
    {
        let n = out.len();
        if at < n && n - at >= 16 {
            out[at..at + 16].copy_from_slice(&self.to_bytes());
        }
    }
}

// Takes the same time wherever the two differ, since what is compared may be secret.
impl PartialEq for Block {
    ghost eq = { λ a b. value a == value b };

    ghost laws = { Prim.search rules };

    fn eq(&self, other: &Block) -> bool {
        ((self.hi ^ other.hi) | (self.lo ^ other.lo)) == 0
    }
}

impl Eq for Block {
    ghost laws = { Prim.search rules };
}

fn filled(tail: &[u8]) -> Block
    requires { length tail.now < 16 }
    ensures { value result ≡ of_bytes (padded tail.now) }
{
    let n = tail.len();
    let mut b = [0u8; 16];
    b[0..n].copy_from_slice(tail);
    b[n] = 0x80;
    Block::from_bytes(&b)
}

pub fn mixed(x: Block, w: Block) -> (Block, Block)
    ensures { (value result.0, value result.1) ≡ mix (value x) (value w) }
{
    let d = w.double();
    (x.xor(d.xor(w)), x.xor(d))
}

pub fn unmixed(y: Block, w: Block) -> (Block, Block)
    ensures { (value result.0, value result.1) ≡ unmix (value y) (value w) }
{
    (y.xor(w.times3()), y.xor(w))
}

// What the operations owe each other, on every number below 2^128.
pub fn block_laws()
    ensures cases { ByCases }
    ensures undone { Undone }
    ensures linear { Linear }
    ensures unmixed { Unmixed }
    ensures bytes { BytesBack }
    ensures number { NumberBack }
    ensures filled { Filled }
{}
