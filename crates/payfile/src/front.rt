// The front of a pay file, its first 26 bytes.
ghost use Rattle.std.specs.Prelude.{◌≡◌, ◌<◌};
ghost use Rattle.elmd.specs.Refusals.{mark_number};
ghost use Rattle.payfile.specs.Layout.{front_bytes};

use elmd::refusal::Mark;

pub const FRONT: usize = 26;

pub(crate) const VERSION: u8 = 1;

// What stands in it: lengths of heading and stream, and all that the seal is made with but the heading.
#[derive(Clone, Copy)]
pub struct Front {
    pub nonce: [u8; 8],
    pub settings: [u8; 8],
    pub mark: Mark,
    pub heading: usize,
    pub stream: usize,
}

impl Front {
    // The bytes in a file; each length has four of them, highest first. No `From`, since it asks that both lengths fit in four
    // bytes.
    pub(crate) fn to_bytes(self) -> [u8; FRONT]
        requires heading_small { self.heading < 4294967296 }
        requires stream_small { self.stream < 4294967296 }
        ensures { result ≡ front_bytes self.heading self.stream self.nonce self.settings (mark_number self.mark) }
    {
        let mut bytes = [0; FRONT];
        bytes[0] = VERSION;
        bytes[1..5].copy_from_slice(&(self.heading as u32).to_be_bytes());
        bytes[5..9].copy_from_slice(&(self.stream as u32).to_be_bytes());
        bytes[9..17].copy_from_slice(&self.nonce);
        bytes[17..25].copy_from_slice(&self.settings);
        bytes[25] = u8::from(self.mark);
        bytes
    }
}
