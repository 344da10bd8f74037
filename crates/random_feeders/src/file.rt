// The response file of a feeder with an inverter at every metered bus.
ghost use Rattle.std.specs.Prelude.{◌+◌, ◌^◌, ◌<◌, ◌≤◌};

use crate::maker::Maker;
use crate::random::Random;
use feeder::Map;
use std::io;

// What is told otherwise than the feeder has it: the response of a bus to an inverter, or also the mirrored one.
#[derive(Drop)]
pub(crate) struct Change {
    bus: usize,
    inverter: usize,
    both: bool,
    size: u64,
    // Not a sign of the size: a change down that would pass 0 goes up.
    up: bool,
    ghost little: { size ≤ 3 },
}

impl Change {
    pub(crate) fn any(metered: usize, random: &mut Random) -> Change
        requires { 0 < metered }
    {
        let bus = 1 + random.below(metered);
        let inverter = if random.flip() {
            bus
        } else {
            1 + random.below(metered)
        };
        let both = random.flip();
        let size = 1 + random.below(3) as u64;
        let up = random.flip();
        Change {
            bus,
            inverter,
            both,
            size,
            up,
        }
    }

    fn is_at(&self, bus: usize, inverter: usize) -> bool {
        (self.bus == bus && self.inverter == inverter)
            || (self.both && self.bus == inverter && self.inverter == bus)
    }

    // A changed response is 0 to 1,000,000 as well.
    fn changed(&self, response: u64) -> u64
        requires { response < 2 ^ 32 }
        ensures { result < 2 ^ 33 }
    {
        if response < self.size || (self.up && response + self.size <= 1_000_000) {
            response + self.size
        } else {
            response - self.size
        }
    }
}

// The response of a bus to an inverter, with the change if it is there.
fn told(map: &Map, change: Option<&Change>, bus: usize, inverter: usize) -> u64
    ensures { result < 2 ^ 33 }
{
    let response = u64::from(map.response(bus, inverter).unwrap_or(0));
    match change {
        Some(change) if change.is_at(bus, inverter) => change.changed(response),
        _ => response,
    }
}

fn write_header(text: &mut String, metered: usize) -> io::Result<()> {
    write!(text, "probe,step")?;
    for bus in 1..=metered {
        write!(text, ",{bus}")?;
    }
    write!(text, "\r\n")?;
    Ok(())
}

// A voltage change, in billionths. The program `responses` prints its values alike: one `Display` for both would be public in a crate
// below for these two alone.
fn write_voltage(text: &mut String, sign: &'static str, billionths: u64) -> io::Result<()> {
    let whole = billionths / 1_000_000_000;
    let part = billionths % 1_000_000_000;
    write!(text, ",{sign}{whole}.{part:09}")?;
    Ok(())
}

// The record of an inverter, with any step.
fn write_record(
    text: &mut String,
    map: &Map,
    change: Option<&Change>,
    inverter: usize,
    random: &mut Random,
) -> io::Result<()> {
    let step = 1 + random.below(1_000) as u64;
    let sign = if random.flip() { "-" } else { "" };
    let whole = step / 1_000;
    let part = step % 1_000;
    write!(text, "{inverter},{sign}{whole}.{part:03}")?;
    for bus in 1..=map.metered() {
        write_voltage(text, sign, told(map, change, bus, inverter) * step)?;
    }
    write!(text, "\r\n")?;
    Ok(())
}

impl Maker {
    // The records come in the order of the inverters from any one on.
    pub(crate) fn file_of(&mut self, map: &Map, change: Option<&Change>) -> io::Result<String> {
        let metered = map.metered();
        let mut text = String::new(self.heap);
        write_header(&mut text, metered)?;
        let first = self.random.below(metered.max(1));
        for inverter in (first + 1..=metered).chain(1..=first) {
            write_record(&mut text, map, change, inverter, &mut self.random)?;
        }
        Ok(text)
    }
}
