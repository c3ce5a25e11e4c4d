// A shed's wage sheet for a week.
ghost use Rattle.std.specs.Prelude.{◌≤◌, length};

use std::alloc::{AllocError, Global};
use std::fmt;
use std::fmt::InlineText;

// A packer on the shed's roll, and the rate for a bin in cents.
#[derive(Clone, Copy)]
struct Packer {
    number: u16,
    name: &'static str,
    rate: u16,
}

const ROLL: [Packer; 16] = [
    Packer {
        number: 1004,
        name: "Adela Ruiz",
        rate: 155,
    },
    Packer {
        number: 1007,
        name: "Ben Ott",
        rate: 155,
    },
    Packer {
        number: 1011,
        name: "Carla Moreno",
        rate: 162,
    },
    Packer {
        number: 1012,
        name: "Dov Lerner",
        rate: 155,
    },
    Packer {
        number: 1019,
        name: "Esther Kamau",
        rate: 170,
    },
    Packer {
        number: 1023,
        name: "Farid Nassar",
        rate: 155,
    },
    Packer {
        number: 1026,
        name: "Grace Abbey",
        rate: 162,
    },
    Packer {
        number: 1030,
        name: "Hanna Lindt",
        rate: 155,
    },
    Packer {
        number: 1031,
        name: "Ivo Marek",
        rate: 155,
    },
    Packer {
        number: 1038,
        name: "June Pacheco",
        rate: 178,
    },
    Packer {
        number: 1042,
        name: "Karim Saleh",
        rate: 162,
    },
    Packer {
        number: 1047,
        name: "Lucia Vance",
        rate: 155,
    },
    Packer {
        number: 1053,
        name: "Mina Okafor",
        rate: 170,
    },
    Packer {
        number: 1055,
        name: "Nils Berg",
        rate: 155,
    },
    Packer {
        number: 1060,
        name: "Olga Petrova",
        rate: 162,
    },
    Packer {
        number: 1066,
        name: "Paul Zimmer",
        rate: 155,
    },
];

// Cents, shown as whole units and cents.
#[derive(Clone, Copy)]
struct Money(u64);

impl fmt::Display for Money {
    fn fmt<W: fmt::Write>(&self, f: &mut fmt::Formatter<W>) -> fmt::Result {
        let (units, cents) = (self.0 / 100, self.0 % 100);
        let text = InlineText::<24>::of(format_args!("{units}.{cents:02}"));
        f.pad(text.as_str())
    }
}

// A packer's line: the bins packed in the week and what they earn.
#[derive(Clone, Copy)]
struct Line {
    packer: Packer,
    bins: u16,
}

impl Line {
    // In cents.
    fn pay(&self) -> u32 {
        u32::from(self.bins) * u32::from(self.packer.rate)
    }
}

impl fmt::Display for Line {
    fn fmt<W: fmt::Write>(&self, f: &mut fmt::Formatter<W>) -> fmt::Result {
        let Packer { number, name, rate } = self.packer;
        let bins = self.bins;
        let rate = Money(u64::from(rate));
        let pay = Money(u64::from(self.pay()));
        write!(
            f,
            "{number:>5}  {name:<14} {bins:>4} bins at {rate} {pay:>9}"
        )
    }
}

// Apart from `total_pay`: each sum is proved not to overflow, by the count of its lines.
fn total_bins(lines: &[Line]) -> u32
    requires { length lines.now ≤ 16 }
{
    lines.iter().map(|line| u32::from(line.bins)).sum()
}

fn total_pay(lines: &[Line]) -> u64
    requires { length lines.now ≤ 16 }
{
    lines.iter().map(|line| u64::from(line.pay())).sum()
}

// The wage sheet of a shed for a week: a line for each packer of the roll, and the total.
#[derive(Clone, Copy)]
pub(crate) struct Sheet {
    pub(crate) shed: u16,
    pub(crate) week: u16,
}

impl Sheet {
    // The bins come from the three numbers alone, so that every run packs the same fruit.
    fn line(self, packer: Packer) -> Line {
        let spread = u32::from(packer.number) * 29
            + u32::from(self.shed) * 7
            + u32::from(self.week) * 17;
        Line {
            packer,
            bins: 180 + (spread % 97) as u16,
        }
    }

    // What binds a seal to its shed and week: the digits of the one, then of the other.
    pub(crate) fn heading(self, heap: Global) -> Result<String, AllocError> {
        let (shed, week) = (self.shed, self.week);
        format!(in heap; "{shed}{week}")
    }
}

impl fmt::Display for Sheet {
    fn fmt<W: fmt::Write>(&self, f: &mut fmt::Formatter<W>) -> fmt::Result {
        let (shed, week) = (self.shed, self.week);
        let lines = ROLL.map(|packer| self.line(packer));
        writeln!(f, "Shed {shed}, week {week}")?;
        for line in &lines {
            writeln!(f, "{line}")?;
        }
        let (bins, pay) = (total_bins(&lines), Money(total_pay(&lines)));
        writeln!(f, "Total                 {bins:>4} bins         {pay:>9}")
    }
}
