// A week's wages of a shed: sealed at the office, sent to the terminals, and opened there.
#![tactic(auto)]

mod account;
mod attempt;
mod calls;
mod cause;
mod delivery;
mod order;
mod parcel;
mod parts;
mod run;
mod wages;

use elmd::settings::Settings;
use order::Kind;
use run::Run;
use wages::Sheet;

const SHEET: Sheet = Sheet { shed: 12, week: 3 };

const KINDS: [Kind; 3] = [
    // From the payroll office: a check every eight blocks, and the tag cut to the last block's length.
    Kind {
        title: "Office file: AES-10, a check every 8 blocks, the tag cut to the last block",
        label: 10,
        interval: 8,
        short_tag: true,
        number: 0x3001,
    },
    // For a terminal with little memory: a check every two blocks, and the whole tag.
    Kind {
        title: "Terminal file: Speck128/128, a check every 2 blocks, the whole tag",
        label: 32,
        interval: 2,
        short_tag: false,
        number: 0x3002,
    },
    // For a terminal that opens a file only when all of it is there: no checks.
    Kind {
        title: "Old terminal's file: AES-6, no checks, the tag cut to the last block",
        label: 6,
        interval: 0,
        short_tag: true,
        number: 0x3003,
    },
];

fn pay_run(rt: &HostRuntime) -> anyhow::Result<()> {
    let heap = rt.alloc();
    let sheet = SHEET.to_string(heap)?;
    let heading = SHEET.heading(heap)?;
    println!(rt; "{sheet}")?;
    println!(rt; "Heading of every file: {heading}")?;
    println!(rt; "")?;
    let mut run = Run::new(rt);
    for kind in &KINDS {
        run.deliver(&kind.order(heading.as_bytes(), sheet.as_bytes())?)?;
    }
    run.all_calls(Settings::new(32, 2, false)?)?;
    print!(rt; "{}", run.account)?;
    Ok(())
}

fn main(rt: HostRuntime) -> anyhow::Result<()> {
    pay_run(&rt)
}
