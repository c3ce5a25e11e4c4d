// What C may call: E and D of a cipher over many blocks, and the whole calls. The cipher is picked by its label.
#![tactic(auto)]

ghost use Rattle.std.specs.Prelude.{◌≡◌, ◌*◌, ◌/◌, not, ◌++◌, length, drop, ◌==◌};
ghost use Rattle.std.specs.Option.{option_map};
ghost use Rattle.block.specs.Value.{value};
ghost use Rattle.exports.specs.Exports.{turned, each_block, key_of, eight_of, cipher_named, blocks_for, seal_for, output_for, OpenFor};

use block::Block;
use cipher::Cipher;
use elmd::envelope::Envelope;
use elmd::refusal::Mark;
use fast_aes::{FastAes6, FastAes10};
use labelled::LabelledCipher;
use opening::open;
use sealing::seal;
use speck::Speck;

// The label of the paper cipher: a number of the format.
const PAPER: u8 = 255;

// E or D of one block.
// The way is a bool, which the byte that C gives is turned into at once: two closures would need the same choice at each call.
fn turn<C: Cipher>(c: &mut C, forth: bool, b: Block) -> Block
    ensures value { value result ≡ turned (C.Cipher.meaning c.old) forth (value b) }
    ensures same { C.Cipher.meaning c.new ≡ C.Cipher.meaning c.old }
{
    if forth { c.encrypt(b) } else { c.decrypt(b) }
}

// E or D of each whole block, in place.
fn turn_all<C: Cipher>(c: &mut C, forth: bool, bytes: &mut [u8])
    ensures after { bytes.new ≡ each_block (turned (C.Cipher.meaning c.old) forth) bytes.old (length bytes.old / 16) ++ drop (16 * (length bytes.old / 16)) bytes.old }
    ensures same { C.Cipher.meaning c.new ≡ C.Cipher.meaning c.old }
{
    // By index: the library says nothing of what a slice ends as that was lent in chunks (`as_chunks_mut`, `chunks_exact_mut`).
    for i in 0..bytes.len() / 16 {
        let b = turn(c, forth, Block::load(bytes, 16 * i));
        b.store(bytes, 16 * i);
    }
}

// Eight bytes, or zeros where there are not eight.
fn eight(s: &[u8]) -> [u8; 8]
    ensures { result ≡ eight_of s.now }
{
    s.try_into().unwrap_or([0; 8])
}

// The cipher that `label` names, under the first sixteen bytes of `key`. C gets no paper cipher, which keeps nothing secret.
fn cipher_for(label: u8, key: &[u8]) -> Option<LabelledCipher>
    ensures { option_map ⟦<LabelledCipher as Cipher>⟧.meaning result ≡ cipher_named label (key_of key.now) }
{
    match label {
        PAPER => None,
        _ => LabelledCipher::for_label(label, &Block::load(key, 0).to_bytes()),
    }
}

// E, or D where `forth` is 0, of each whole block of `bytes`, in place; nothing for an unknown label.
#[unsafe(no_mangle)]
pub extern "C" fn proved_blocks(label: u8, forth: u8, key: &[u8], bytes: &mut [u8])
    ensures { bytes.new ≡ blocks_for label (key_of key.now) (not (forth == 0)) bytes.old }
{
    let forth = forth != 0;
    let key = Block::load(key, 0).to_bytes();
    // The cipher is told apart here, and not at each block. Tried: `cipher_for`, also by `match &mut`. Handing out the enum costs
    // as much as the keys of Speck, and took half as long again on one block.
    match label {
        10 => turn_all(&mut FastAes10::new(&key), forth, bytes),
        6 => turn_all(&mut FastAes6::new(&key), forth, bytes),
        32 => turn_all(&mut Speck::new(Block::from_bytes(&key)), forth, bytes),
        _ => {}
    }
}

// The stream's length, or 0 for any refusal and for an unknown label.
// Settings, nonce and heading come apart, here and in `proved_open`: C's interface has them so.
#[unsafe(no_mangle)]
pub extern "C" fn proved_seal(
    label: u8,
    key: &[u8],
    settings: &[u8],
    nonce: &[u8],
    heading: &[u8],
    message: &[u8],
    out: &mut [u8],
) -> usize
    ensures length { result ≡ seal_for label (key_of key.now) (eight_of settings.now) (eight_of nonce.now) heading.now message.now (length out.old) }
    ensures output { out.new ≡ output_for label (key_of key.now) (eight_of settings.now) (eight_of nonce.now) heading.now message.now out.old }
{
    let Some(mut c) = cipher_for(label, key) else {
        return 0;
    };
    let envelope = Envelope {
        settings: eight(settings),
        nonce: eight(nonce),
        heading,
    };
    seal(&mut c, &envelope, message, out).map_or(0, |(length, _)| length)
}

// The message's length, or 0 for any refusal, for an unknown label and for a mark above 1.
#[unsafe(no_mangle)]
pub extern "C" fn proved_open(
    label: u8,
    key: &[u8],
    settings: &[u8],
    nonce: &[u8],
    heading: &[u8],
    stream: &[u8],
    mark: u8,
    out: &mut [u8],
) -> usize
    ensures { OpenFor label (key_of key.now) (eight_of settings.now) (eight_of nonce.now) heading.now stream.now mark out.old out.new result }
{
    // The mark is judged before the keys are worked out.
    let Ok(mark) = Mark::try_from(mark) else {
        return 0;
    };
    let Some(mut c) = cipher_for(label, key) else {
        return 0;
    };
    let envelope = Envelope {
        settings: eight(settings),
        nonce: eight(nonce),
        heading,
    };
    open(&mut c, &envelope, stream, mark, out).unwrap_or(0)
}
