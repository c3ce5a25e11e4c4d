// The lengths of streams at the edges, and which lengths of streams there are.
use crate::common::{blocks_of, checks_of, settings_of, stream_of};
use anyhow::{Context, ensure};
use elmd::refusal::{Mark, Refusal};
use elmd::settings::Settings;
use std::alloc::{AllocError, Global};

const EDGES: [usize; 7] = [0, 1, 15, 16, 17, 16_777_216, 16_777_217];

const INTERVALS: [u8; 4] = [0, 1, 2, 127];

// Messages up to this length decide about every stream length that is tried.
const LONGEST: usize = 4200;

fn edges(rt: &HostRuntime, settings: Settings) -> anyhow::Result<()> {
    print!(rt;
        "  t {:>3}, f {}:",
        settings.interval,
        u8::from(settings.short_tag)
    )?;
    for n in &EDGES {
        match settings.stream_length(*n) {
            Ok(size) => {
                ensure!(
                    size == stream_of(*n, settings),
                    "another length than the formula's"
                );
                print!(rt; "  {n} gives {size}")?;
            }
            Err(why) => {
                ensure!(*n == 0 || *n > 16_777_216, "a good length refused");
                print!(rt; "  {n} refused {}", u8::from(why))?;
            }
        }
    }
    println!(rt; "")?;
    Ok(())
}

// No stream is longer than that of the longest message.
fn end_of_shapes(settings: Settings) -> anyhow::Result<()> {
    let most = settings
        .stream_length(16_777_216)
        .context("the longest message refused")?;
    let shape = settings
        .shape(most, Mark::Whole)
        .context("the longest stream refused")?;
    ensure!(shape.blocks == 1_048_576, "another count of blocks");
    let none = (1..65usize).all(|more| {
        let size = most.wrapping_add(more);
        settings.shape(size, Mark::Whole).is_err() && settings.shape(size, Mark::Filled).is_err()
    });
    ensure!(none, "a stream that is too long has a shape");
    Ok(())
}

// For each stream length the blocks of the messages that have it, where any has: by trying every message length.
fn tried(heap: Global, settings: Settings, mark: Mark) -> Result<Vec<Option<usize>>, AllocError> {
    let mut found = vec![in heap; None; stream_of(LONGEST, settings)]?;
    for n in (1..LONGEST).filter(|n| Mark::of_length(*n) == mark) {
        if let Some(blocks) = found.get_mut(stream_of(n, settings)) {
            *blocks = Some(blocks_of(n));
        }
    }
    Ok(found)
}

// Whether the shape of a length is the one that was found by trying.
fn agrees(settings: Settings, mark: Mark, size: usize, found: Option<usize>) -> bool {
    match (settings.shape(size, mark), found) {
        (Ok(shape), Some(blocks)) => {
            let checks = checks_of(blocks, usize::from(settings.interval));
            let places = blocks.wrapping_add(checks).wrapping_mul(16);
            shape.blocks == blocks
                && shape.checks == checks
                && places.wrapping_add(shape.tag) == size
        }
        (Err(why), None) => why == Refusal::StreamLength,
        _ => false,
    }
}

fn row(rt: &HostRuntime, found: &[Option<usize>], from: usize) -> anyhow::Result<()> {
    print!(rt; "    from {from:>4}: ")?;
    for blocks in found.iter().skip(from).take(98) {
        print!(rt; "{}", if blocks.is_some() { "+" } else { "." })?;
    }
    println!(rt; "")?;
    Ok(())
}

fn shapes(rt: &HostRuntime, settings: Settings, mark: Mark) -> anyhow::Result<()> {
    let found = tried(rt.alloc(), settings, mark)?;
    let agreed = found
        .iter()
        .enumerate()
        .all(|(size, blocks)| agrees(settings, mark, size, *blocks));
    ensure!(agreed, "a shape is not the one found by trying");
    let possible = found.iter().flatten().count();
    let t = settings.interval;
    let f = u8::from(settings.short_tag);
    let m = u8::from(mark);
    let count = found.len();
    println!(rt;
        "  t {t:>3}, f {f}, mark {m}: {possible} of the lengths below {count} are possible"
    )?;
    row(rt, found.as_slice(), 14)?;
    if t == 127 {
        row(rt, found.as_slice(), 2014)?;
    }
    Ok(())
}

fn all_shapes(rt: &HostRuntime, all: &[Settings]) -> anyhow::Result<()> {
    println!(rt; "Possible stream lengths (+), held to trying every message length")?;
    for settings in all {
        shapes(rt, *settings, Mark::Filled)?;
        shapes(rt, *settings, Mark::Whole)?;
    }
    Ok(())
}

pub(crate) fn run(rt: &HostRuntime) -> anyhow::Result<()> {
    let all = settings_of(rt.alloc(), 255, &INTERVALS)?;
    println!(rt; "Stream lengths of messages at the edges")?;
    for settings in &all {
        edges(rt, *settings)?;
        end_of_shapes(*settings)?;
    }
    all_shapes(rt, all.as_slice())
}
