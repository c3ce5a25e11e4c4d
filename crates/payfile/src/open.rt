// Opening a pay file.
ghost use Rattle.std.specs.Prelude.{◌≡◌};
ghost use Rattle.payfile.specs.Open.{FileOpened, Exactly};

use crate::front::FRONT;
use crate::read::{file_settings, read_front};
use crate::refusal::FileRefusal;
use cipher::Cipher;
use elmd::envelope::Envelope;
use opening::open;

// Opens the seal in a file: writes its message at the start of `out` and answers the message's length.
pub fn open_file<C: Cipher>(c: &mut C, file: &[u8], out: &mut [u8]) -> Result<usize, FileRefusal>
    ensures opened { FileOpened (C.Cipher.meaning c.old) file.now out.old result out.new }
    ensures exactly { Exactly (C.Cipher.meaning c.old) file.now out.old result out.new }
    ensures same { C.Cipher.meaning c.new ≡ C.Cipher.meaning c.old }
{
    let front = read_front(file)?;
    file_settings(&front.settings, c.label())?;
    let body = FRONT + front.heading;
    let envelope = Envelope {
        settings: front.settings,
        nonce: front.nonce,
        heading: &file[FRONT..body],
    };
    Ok(open(c, &envelope, &file[body..], front.mark, out)?)
}
