// What the office is to make.
use anyhow::Context;
use elmd::envelope::Envelope;
use elmd::settings::Settings;
use labelled::LabelledCipher;

// A kind of file, by its cipher's label, its checks and its tag.
pub(crate) struct Kind {
    pub(crate) title: &'static str,
    pub(crate) label: u8,
    pub(crate) interval: u8,
    pub(crate) short_tag: bool,
    // the file's number, which no other file under the key has
    pub(crate) number: u64,
}

impl Kind {
    pub(crate) fn order<'a>(
        &self,
        heading: &'a [u8],
        wages: &'a [u8],
    ) -> anyhow::Result<Order<'a>> {
        let settings = Settings::new(self.label, self.interval, self.short_tag)?;
        let envelope = Envelope {
            settings: settings.to_bytes(),
            nonce: self.number.to_be_bytes(),
            heading,
        };
        Ok(Order {
            title: self.title,
            settings,
            envelope,
            wages,
        })
    }
}

// A file to be made and sent: the wages, and what they are sealed under.
#[derive(Drop)]
pub(crate) struct Order<'a> {
    pub(crate) title: &'static str,
    pub(crate) settings: Settings,
    pub(crate) envelope: Envelope<'a>,
    pub(crate) wages: &'a [u8],
}

// A cipher by its label, under a key that every reader knows, for a run that anyone can repeat; the last byte is given.
pub(crate) fn cipher(label: u8, last: u8) -> anyhow::Result<LabelledCipher> {
    let key = [
        0x2b, 0x7e, 0x15, 0x16, 0x28, 0xae, 0xd2, 0xa6, 0xab, 0xf7, 0x15, 0x88, 0x09, 0xcf, 0x4f,
        last,
    ];
    LabelledCipher::for_label(label, &key).context("a label that no cipher has")
}
