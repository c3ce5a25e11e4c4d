// A heading in pieces is the heading whole; a piece too many is refused and does no harm.
use crate::common::{bytes, paper};
use anyhow::{Context, bail, ensure};
use block::Block;
use cipher::PaperCipher;
use elmd::heading::open_heading;
use elmd::refusal::Refusal;
use elmd::state::OpenHeading;
use std::alloc::Global;

const SETTINGS: [u8; 8] = [255, 0, 2, 1, 128, 0, 0, 0];

fn begun(c: &mut PaperCipher) -> anyhow::Result<OpenHeading> {
    open_heading(c, &SETTINGS, &[9, 8, 7, 6, 5, 4, 3, 2]).context("a good heading refused")
}

// What the seal starts from, where the heading is given in pieces of `size` bytes.
fn chained(all: &[u8], size: usize) -> anyhow::Result<Block> {
    let mut c = paper(5, 77);
    let mut heading = begun(&mut c)?;
    for piece in all.chunks(size.max(1)) {
        heading.add(&mut c, piece).context("a piece refused")?;
    }
    let (_settings, _base, iv) = heading.close(&mut c).into_parts();
    Ok(iv)
}

// The longest heading, with pieces refused in between.
fn refused_between(all: &[u8]) -> anyhow::Result<Block> {
    let mut c = paper(5, 77);
    let mut heading = begun(&mut c)?;
    let (Some(front), Some(back), Some(long)) = (
        all.get(0..65530),
        all.get(65530..65536),
        all.get(0..7),
    ) else {
        bail!("a heading of another length");
    };
    let too_long = Err(Refusal::HeadingLength);
    heading.add(&mut c, front).context("65,530 bytes refused")?;
    ensure!(
        heading.add(&mut c, long) == too_long,
        "65,537 bytes accepted"
    );
    ensure!(
        heading.add(&mut c, all) == too_long,
        "131,066 bytes accepted"
    );
    heading.add(&mut c, back).context("65,536 bytes refused")?;
    ensure!(
        heading.add(&mut c, b"x") == too_long,
        "65,537 bytes accepted"
    );
    heading.add(&mut c, b"").context("no bytes refused")?;
    let (_settings, _base, iv) = heading.close(&mut c).into_parts();
    Ok(iv)
}

// A heading of `n` bytes cut into pieces of each size gives what the whole gives. Answers how many cuts it tried.
fn cuts(heap: Global, n: usize) -> anyhow::Result<usize> {
    let all = bytes(heap, n)?;
    let whole = chained(all.as_slice(), n)?;
    let sizes = 1..20usize;
    let count = sizes.len();
    for size in sizes {
        ensure!(
            chained(all.as_slice(), size)? == whole,
            "pieces give another heading"
        );
    }
    Ok(count)
}

pub(crate) fn run(rt: &HostRuntime) -> anyhow::Result<()> {
    println!(rt; "Headings in pieces")?;
    // A loop: a `sum` must be proved to fit, and a `try_fold` would carry the `?` and the saturating sum in its closure.
    let mut tried = 0usize;
    for n in 0..50usize {
        tried = tried.saturating_add(cuts(rt.alloc(), n)?);
    }
    println!(rt; "  {tried} cuts of headings of 0 to 49 bytes give what the whole gives")?;
    let all = bytes(rt.alloc(), 65536)?;
    let whole = chained(all.as_slice(), 65536)?;
    ensure!(
        refused_between(all.as_slice())? == whole,
        "refused pieces changed the heading"
    );
    println!(rt; "  65536 bytes are a heading, and one more is refused 21 and changes nothing")?;
    Ok(())
}
