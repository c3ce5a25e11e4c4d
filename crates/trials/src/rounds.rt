// Sealing and opening over many sizes: lengths, marks, room, and the message again.
use crate::common::{BLANK, all_are, blocks_of, bytes, holds, settings_of};
use crate::desk::Desk;
use aes::{Aes6, Aes10};
use anyhow::ensure;
use block::Block;
use cipher::{Cipher, PaperCipher};
use elmd::refusal::Refusal;
use elmd::settings::Settings;
use speck::Speck;
use std::alloc::Global;

const KEY: [u8; 16] = [
    1, 35, 69, 103, 137, 171, 205, 239, 254, 220, 186, 152, 118, 84, 50, 16,
];

const LONGEST: usize = 80;

// The streams' bytes go into a running sum (FNV-1a), by which another program can compare them.
fn summed(sum: u64, stream: &[u8]) -> u64 {
    stream.iter().fold(sum, |sum, b| {
        (sum ^ u64::from(*b)).wrapping_mul(0x100000001b3)
    })
}

// A round trip of `n` bytes. Answers the stream.
fn trip<C: Cipher>(
    heap: Global,
    cipher: &mut C,
    settings: Settings,
    n: usize,
) -> anyhow::Result<Vec<u8>> {
    let message = bytes(heap, n)?;
    let heading = bytes(heap, n.wrapping_mul(3) % 37)?;
    let mut desk = Desk {
        heap,
        cipher,
        settings,
        heading: heading.as_slice(),
    };
    let (stream, mark) = desk.sealed(message.as_slice())?;
    let room = blocks_of(n).saturating_mul(16);
    let (answer, out) = desk.opened(stream.as_slice(), mark, room.saturating_sub(1))?;
    ensure!(
        answer == Err(Refusal::RoomShort),
        "a message in too little room"
    );
    ensure!(all_are(out.as_slice(), BLANK), "a refused opening wrote");
    let (answer, out) = desk.opened(stream.as_slice(), mark, room.saturating_add(3))?;
    ensure!(answer == Ok(n), "a sealed message does not open");
    ensure!(
        holds(out.as_slice(), message.as_slice(), room),
        "another message, or no zeros behind it"
    );
    Ok(stream)
}

fn trips<C: Cipher + Drop>(rt: &HostRuntime, mut c: C, name: &str) -> anyhow::Result<()> {
    let all = settings_of(rt.alloc(), c.label(), &[0, 1, 2, 3])?;
    let count = all.len().saturating_mul(LONGEST);
    let cases = all
        .iter()
        .flat_map(|settings| (1..=LONGEST).map(move |n| (*settings, n)));
    let mut sum = 0xcbf29ce484222325u64;
    for (settings, n) in cases {
        let stream = trip(rt.alloc(), &mut c, settings, n)?;
        sum = summed(sum, stream.as_slice());
    }
    println!(rt; "  {name}: {count} round trips, sum of the streams {sum:016x}")?;
    Ok(())
}

pub(crate) fn run(rt: &HostRuntime) -> anyhow::Result<()> {
    println!(rt; "Sealed and opened: 1 to 80 bytes, t from 0 to 3, f 0 and 1")?;
    let key = Block::from_bytes(&KEY);
    trips(rt, PaperCipher { key }, "paper cipher")?;
    trips(rt, Speck::new(key), "Speck128/128")?;
    trips(rt, Aes6::new(&KEY), "AES-6")?;
    trips(rt, Aes10::new(&KEY), "AES-10")
}
