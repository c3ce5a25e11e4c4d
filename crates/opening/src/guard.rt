ghost use Rattle.std.specs.Prelude.{◌≡◌, length, replicate};

// Holds plaintext that is not verified yet: letting it go leaves zeros.
pub(crate) struct Wipe<'a> {
    pub(crate) out: &'a mut [u8],
}

impl Wipe<'_> {
    // The plaintext is verified and stays.
    pub(crate) fn accept(self)
        ensures { self.exit.0.now ≡ self.entry.out.now }
    {
        let Wipe { out: _ } = self;
    }
}

impl Drop for Wipe<'_> {
    fn drop(self)
        ensures { self.exit.0.now ≡ replicate (length self.entry.out.now) 0 }
    {
        self.out.fill(0);
        let Wipe { out: _ } = self;
    }
}
