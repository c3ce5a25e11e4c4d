// How a stream is laid out, from its length and mark.
ghost use Rattle.std.specs.Prelude.{◌≡◌, ◌<◌, ◌≤◌};
ghost use Rattle.elmd.specs.Refusals.{mark_number};
ghost use Rattle.elmd.specs.Shape.{Shaped, checks_among, tag_fits};

use crate::refusal::{Mark, Refusal};
use crate::settings::Settings;

const BLOCKS_MOST: usize = 1_048_576;

// A stream's blocks l and checks h, and the bytes of its tag.
#[derive(Clone, Copy)]
pub struct Shape {
    pub blocks: usize,
    pub checks: usize,
    pub tag: usize,
}

impl Settings {
    // The layout of the streams of this length and mark, where a message has one.
    pub fn shape(self, stream_length: usize, mark: Mark) -> Result<Shape, Refusal>
        ensures { Shaped self stream_length (mark_number mark) result }
    {
        if stream_length < 17 {
            return Err(Refusal::StreamLength);
        }
        let places = (stream_length - 1) / 16;
        let tag = stream_length - 16 * places;
        let checks = checks_among(places, usize::from(self.interval)).ok_or(Refusal::StreamLength)?;
        let blocks = places - checks;
        if blocks > BLOCKS_MOST {
            return Err(Refusal::StreamLength);
        }
        if !tag_fits(self.short_tag, mark, tag) {
            return Err(Refusal::StreamLength);
        }
        Ok(Shape {
            blocks,
            checks,
            tag,
        })
    }
}

// How many of `places` blocks before a tag are checks; none where a check would stand before the tag.
fn checks_among(places: usize, t: usize) -> Option<usize>
    requires { (1 ≤ places) × (t < 128) }
    ensures { result ≡ checks_among places t }
{
    if t == 0 {
        return Some(0);
    }
    if places % (t + 1) == 0 {
        return None;
    }
    Some((places - 1) / (t + 1))
}

fn tag_fits(short: bool, mark: Mark, tag: usize) -> bool
    ensures { result ≡ tag_fits short (mark_number mark) tag }
{
    match mark {
        Mark::Whole => tag == 16,
        Mark::Filled => short != (tag == 16),
    }
}
