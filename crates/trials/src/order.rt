// Of several causes the first is given: settings, heading, message or stream, room.
use crate::common::{BLANK, all_are, bytes, paper};
use anyhow::ensure;
use elmd::envelope::Envelope;
use elmd::heading::open_heading;
use elmd::refusal::{Mark, Refusal};
use elmd::settings::Settings;
use opening::open;
use sealing::seal;
use std::alloc::Global;

// Each line of settings mends the fault that the one before was refused for; the last has none.
const MENDED: [([u8; 8], Option<Refusal>); 12] = [
    (
        [254, 255, 255, 255, 255, 255, 255, 255],
        Some(Refusal::OtherLabel),
    ),
    (
        [255, 255, 255, 255, 255, 255, 255, 255],
        Some(Refusal::Interval),
    ),
    (
        [255, 1, 0, 255, 255, 255, 255, 255],
        Some(Refusal::Interval),
    ),
    ([255, 0, 128, 254, 127, 0, 0, 1], Some(Refusal::Interval)),
    ([255, 0, 127, 2, 127, 0, 0, 1], Some(Refusal::CheckLength)),
    ([255, 0, 127, 255, 0, 0, 1, 0], Some(Refusal::CheckLength)),
    ([255, 0, 127, 1, 127, 0, 1, 0], Some(Refusal::TagLength)),
    ([255, 0, 127, 1, 0, 1, 0, 0], Some(Refusal::TagLength)),
    ([255, 0, 127, 1, 128, 1, 0, 0], Some(Refusal::SpareByte)),
    ([255, 0, 127, 1, 128, 0, 1, 0], Some(Refusal::SpareByte)),
    ([255, 0, 127, 1, 128, 0, 0, 1], Some(Refusal::SpareByte)),
    ([255, 0, 127, 1, 128, 0, 0, 0], None),
];

const GOOD: [u8; 8] = [255, 0, 0, 0, 128, 0, 0, 0];

const BAD: [u8; 8] = [255, 0, 128, 0, 128, 0, 0, 0];

// The faults of the calls in `run`, each mended in the next.
const SEALING: [Option<Refusal>; 5] = [
    Some(Refusal::Interval),
    Some(Refusal::HeadingLength),
    Some(Refusal::MessageLength),
    Some(Refusal::OutputShort),
    None,
];

const OPENING: [Option<Refusal>; 5] = [
    Some(Refusal::Interval),
    Some(Refusal::HeadingLength),
    Some(Refusal::StreamLength),
    Some(Refusal::RoomShort),
    Some(Refusal::BadTag),
];

fn under(settings: [u8; 8], heading: &[u8]) -> Envelope<'_> {
    Envelope {
        settings,
        nonce: [0; 8],
        heading,
    }
}

// As a refusal is printed: by its number, or 0 for none.
fn number_of(refusal: Option<Refusal>) -> u8 {
    refusal.map_or(0, u8::from)
}

fn settings(rt: &HostRuntime) -> anyhow::Result<()> {
    println!(rt; "Settings: the first fault decides")?;
    for (bytes, fault) in &MENDED {
        ensure!(
            Settings::read(bytes, 255).err() == *fault,
            "settings judged otherwise"
        );
        ensure!(
            open_heading(&mut paper(3, 1), bytes, &[0; 8]).err() == *fault,
            "a heading judged its settings otherwise"
        );
        println!(rt; "  {bytes:?} gives {}", number_of(*fault))?;
    }
    Ok(())
}

// Why sealing `n` bytes is refused, if it is; and that a refusal writes nothing.
// Apart from `open_refusal`: the calls differ, and so does what each must leave.
fn seal_refusal(
    heap: Global,
    envelope: &Envelope<'_>,
    n: usize,
    room: usize,
) -> anyhow::Result<Option<Refusal>> {
    let message = bytes(heap, n)?;
    let mut out = vec![in heap; BLANK; room]?;
    let answer = seal(
        &mut paper(3, 1),
        envelope,
        message.as_slice(),
        out.as_mut_slice(),
    );
    ensure!(
        answer.is_ok() || all_are(out.as_slice(), BLANK),
        "a refused seal wrote"
    );
    Ok(answer.err())
}

// The same of opening `size` zeros; a stream that is judged leaves zeros in place of its blocks.
fn open_refusal(
    heap: Global,
    envelope: &Envelope<'_>,
    size: usize,
    room: usize,
) -> anyhow::Result<Option<Refusal>> {
    let stream = vec![in heap; 0u8; size]?;
    let mut out = vec![in heap; BLANK; room]?;
    let refusal = open(
        &mut paper(3, 1),
        envelope,
        stream.as_slice(),
        Mark::Filled,
        out.as_mut_slice(),
    )
    .err();
    let kept = match refusal {
        Some(Refusal::BadTag) => 0,
        _ => BLANK,
    };
    ensure!(
        refusal.is_none() || all_are(out.as_slice(), kept),
        "a refused opening left something else"
    );
    Ok(refusal)
}

pub(crate) fn run(rt: &HostRuntime) -> anyhow::Result<()> {
    settings(rt)?;
    println!(rt; "Whole calls: the first cause is given")?;
    let heap = rt.alloc();
    let most = bytes(heap, 65536)?;
    let over = bytes(heap, 65537)?;
    let bad = under(BAD, over.as_slice());
    let long = under(GOOD, over.as_slice());
    let good = under(GOOD, most.as_slice());
    let sealing = [
        seal_refusal(heap, &bad, 0, 0)?,
        seal_refusal(heap, &long, 0, 0)?,
        seal_refusal(heap, &good, 0, 0)?,
        seal_refusal(heap, &good, 17, 47)?,
        seal_refusal(heap, &good, 17, 48)?,
    ];
    println!(rt; "  sealing {:?}", sealing.map(number_of))?;
    let opening = [
        open_refusal(heap, &bad, 16, 0)?,
        open_refusal(heap, &long, 16, 0)?,
        open_refusal(heap, &good, 16, 0)?,
        open_refusal(heap, &good, 48, 31)?,
        open_refusal(heap, &good, 48, 32)?,
    ];
    println!(rt; "  opening {:?}", opening.map(number_of))?;
    ensure!(
        sealing == SEALING && opening == OPENING,
        "another order of refusals"
    );
    Ok(())
}
