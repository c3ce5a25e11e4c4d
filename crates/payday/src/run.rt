// A run: where it prints, and the account of what it did.
use crate::account::Account;
use crate::cause::Cause;
use elmd::refusal::Refusal;

#[derive(Drop)]
pub(crate) struct Run<'r> {
    pub(crate) rt: &'r HostRuntime,
    pub(crate) account: Account,
}

impl<'r> Run<'r> {
    pub(crate) fn new(rt: &'r HostRuntime) -> Run<'r> {
        Run {
            rt,
            account: Account::new(rt.alloc()),
        }
    }

    // Counts a refusal, and prints its number and cause.
    pub(crate) fn note_refused(&mut self, why: Refusal) -> anyhow::Result<()> {
        self.account.note_refused(why)?;
        print!(self.rt; "refused {}: {}", u8::from(why), Cause(why))?;
        Ok(())
    }
}
