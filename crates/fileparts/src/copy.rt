// A walk through a file.
ghost use Rattle.std.specs.Prelude.{◌≡◌, ◌≤◌, ◌++◌, length, drop};
ghost use Rattle.fileparts.specs.Copies.{Copies};
ghost use Rattle.fileparts.specs.Reads.{Starts};

use crate::reader::Reader;
use elmd::refusal::Refusal;
use payfile::refusal::FileRefusal;

// Copies a file to the start of `out`, part by part, and answers its length.
pub fn copy_parts(file: &[u8], out: &mut [u8]) -> Result<usize, FileRefusal>
    ensures { Copies file.now out.old result out.new }
{
    let reader = Reader::new(file)?;
    if out.len() < file.len() {
        return Err(Refusal::OutputShort.into());
    }
    join(reader, out);
    Ok(file.len())
}

// Copies the parts that a new reader gives, each to its place.
fn join(reader: Reader, out: &mut [u8])
    requires starts { Starts reader.file.now reader }
    requires room { length reader.file.now ≤ length out.old }
    ensures { out.new ≡ reader.entry.file.now ++ drop (length reader.entry.file.now) out.old }
{
    for part in reader {
        let place = part.place();
        let bytes = part.bytes();
        out[place..place + bytes.len()].copy_from_slice(bytes);
    }
}
