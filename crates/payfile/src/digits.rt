// Shed and week in decimal digits.
ghost use Rattle.std.specs.Prelude.{◌≡◌, ◌+◌, ◌≤◌, ◌++◌, length, take, IfOk};
ghost use Rattle.payfile.specs.Refusals.{told};
ghost use Rattle.payfile.specs.Layout.{digits, heading_of, heading_answer};

use crate::heading::FileHeading;
use crate::refusal::{FileFault, FileRefusal};

const SHED_MOST: u32 = 9999;

const WEEK_MOST: u32 = 53;

impl FileHeading {
    pub fn new(shed: u32, week: u32) -> Result<FileHeading, FileRefusal>
        ensures answer { told result ≡ heading_answer shed week }
        ensures value { IfOk result (λ h. take h.len h.digits ≡ heading_of shed week) }
    {
        if shed == 0 || shed > SHED_MOST {
            return Err(FileFault::Shed.into());
        }
        if week == 0 || week > WEEK_MOST {
            return Err(FileFault::Week.into());
        }
        let mut heading = FileHeading {
            digits: [0; 6],
            len: 0,
        };
        heading.push(shed);
        heading.push(week);
        Ok(heading)
    }

    // Puts the digits of `n` behind the others; 0 has none. No plainer with `write!`: the law names each digit, and there is no
    // allocator.
    fn push(&mut self, n: u32)
        requires { self.old.len + length (digits n) ≤ 6 }
        ensures len { self.new.len ≡ self.old.len + length (digits n) }
        ensures digits { take self.new.len self.new.digits ≡ take self.old.len self.old.digits ++ digits n }
    {
        if n == 0 {
            return;
        }
        self.push(n / 10);
        self.digits[self.len] = b'0' + (n % 10) as u8;
        self.len += 1;
    }

    pub fn as_bytes(&self) -> &[u8]
        ensures { result.now ≡ take self.now.len self.now.digits }
    {
        &self.digits[..self.len]
    }
}
