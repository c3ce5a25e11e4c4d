// Replies, written behind earlier ones. Each says what it adds in the library's words, `OnOk` and `items`. Only the two that need
// room take `heap` beside `out`: a struct of both would be taken apart at once.
ghost use Rattle.std.specs.Prelude.{◌≡◌, ◌≤◌, [], ◌∷◌, ◌++◌, length, OnOk};
ghost use Rattle.elmd.specs.Refusals.{mark_number};
ghost use Rattle.elmd.specs.Envelope.{frame_under};
ghost use Rattle.console.specs.Hex.{to_hex};
ghost use Rattle.console.specs.Faults.{fault_number};
ghost use Rattle.console.specs.Replies.{refusal_line, bytes_line, stream_line, block_reply, seal_reply, OpenReply, Gives};

use crate::fault::{Failure, Fault};
use crate::hex::put_hex;
use block::Block;
use cipher::Cipher;
use elmd::envelope::Envelope;
use elmd::refusal::Mark;
use opening::open;
use sealing::seal;
use std::alloc::{AllocError, Global};

// A message of 4,096 bytes has 256 blocks, and a stream at most one check or tag behind each.
const STREAM_MOST: usize = 8192;

// A fault's number has two digits. No plainer with `write!`, since the law names each digit.
pub(crate) fn put_fault(out: &mut Vec<u8>, fault: Fault) -> Result<(), AllocError>
    ensures { OnOk result (out.new.items ≡ out.old.items ++ refusal_line (fault_number fault)) }
{
    let number = u8::from(fault);
    out.extend_from_slice(&[b'R', b' ', b'0' + number / 10, b'0' + number % 10, b'\n'])
}

// A line: what stands at its front, and the digits of bytes.
fn put_line(out: &mut Vec<u8>, front: &[u8], bytes: &[u8]) -> Result<(), AllocError>
    ensures { OnOk result (out.new.items ≡ out.old.items ++ (front.now ++ (to_hex bytes.now ++ 10 ∷ []))) }
{
    out.extend_from_slice(front)?;
    put_hex(out, bytes)?;
    out.push(b'\n')?;
    Ok(())
}

fn put_bytes(out: &mut Vec<u8>, letter: u8, bytes: &[u8]) -> Result<(), AllocError>
    ensures { OnOk result (out.new.items ≡ out.old.items ++ bytes_line letter bytes.now) }
{
    put_line(out, &[letter, b' '], bytes)
}

fn put_stream(out: &mut Vec<u8>, mark: Mark, stream: &[u8]) -> Result<(), AllocError>
    ensures { OnOk result (out.new.items ≡ out.old.items ++ stream_line (mark_number mark) stream.now) }
{
    let front = [b'S', b' ', b'0' + u8::from(mark), b' '];
    put_line(out, &front, stream)
}

pub(crate) fn put_block<C: Cipher>(
    c: &mut C,
    block: &[u8; 16],
    out: &mut Vec<u8>,
) -> Result<(), AllocError>
    ensures { OnOk result (out.new.items ≡ out.old.items ++ block_reply (C.Cipher.meaning c.old) block.now) }
{
    let encrypted = c.encrypt(Block::from_bytes(block)).to_bytes();
    put_bytes(out, b'B', &encrypted)
}

// The stream of a message of up to 4,096 bytes.
pub(crate) fn put_sealed<C: Cipher>(
    c: &mut C,
    envelope: &Envelope<'_>,
    message: &[u8],
    heap: Global,
    out: &mut Vec<u8>,
) -> Result<(), Failure>
    requires { length message.now ≤ 4096 }
    ensures { Gives result out.old.items out.new.items (λ more. more ≡ seal_reply (frame_under (C.Cipher.meaning c.old) envelope.now) message.now) (Unit {0}) }
{
    // The seal takes no allocator: it fills the room that it is given, and says how far.
    let mut room = vec![in heap; 0u8; STREAM_MOST]?;
    let (n, mark) = seal(c, envelope, message, room.as_mut_slice())?;
    put_stream(out, mark, &room[..n])?;
    Ok(())
}

// The message of a stream.
pub(crate) fn put_opened<C: Cipher>(
    c: &mut C,
    envelope: &Envelope<'_>,
    mark: Mark,
    stream: &[u8],
    heap: Global,
    out: &mut Vec<u8>,
) -> Result<(), Failure>
    ensures { Gives result out.old.items out.new.items (OpenReply (frame_under (C.Cipher.meaning c.old) envelope.now) (mark_number mark) stream.now) (Unit {0}) }
{
    // As above.
    let mut room = vec![in heap; 0u8; stream.len()]?;
    let n = open(c, envelope, stream, mark, room.as_mut_slice())?;
    put_bytes(out, b'M', &room[..n])?;
    Ok(())
}
