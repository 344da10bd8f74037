//! Reads a response file from standard input and prints what it holds, or the refusal.

#![tactic(auto)]

use files::{Probe, Table};
use refusals::Refusal;
use rfc4180::read_input;
use std::{fmt, io};
use units::{PerUnit, Scale};

// What is printed of a response file, without the last line end: what it holds, or why it is turned down.
#[derive(Clone, Copy)]
enum Report {
    Held(Table),
    Refused(Refusal),
}

impl Report {
    fn of(file: &[u8]) -> Report {
        let mut table = Table::new();
        match table.read(file) {
            Ok(()) => Report::Held(table),
            Err(fault) => Report::Refused(Refusal::from(fault)),
        }
    }
}

impl fmt::Display for Report {
    fn fmt<W: fmt::Write>(&self, f: &mut fmt::Formatter<W>) -> fmt::Result {
        match self {
            Report::Held(table) => write_table(f, table),
            Report::Refused(refusal) => write!(f, "{refusal}"),
        }
    }
}

fn write_table<W: fmt::Write>(f: &mut fmt::Formatter<W>, table: &Table) -> fmt::Result {
    let buses = table.buses;
    write!(f, "buses: {buses}")?;
    write_mute(f, table)?;
    for (i, probe) in table.probes.iter().enumerate() {
        if let Some(probe) = probe {
            write_probe(f, table, i + 1, probe)?;
        }
    }
    Ok(())
}

fn write_mute<W: fmt::Write>(f: &mut fmt::Formatter<W>, table: &Table) -> fmt::Result {
    let mut heard = true;
    for bus in 1..=table.buses {
        if table.is_mute(bus) {
            heard = false;
            write!(f, "\nbus {bus}: mute")?;
        }
    }
    if heard {
        write!(f, "\nno bus is mute")?;
    }
    Ok(())
}

fn write_probe<W: fmt::Write>(
    f: &mut fmt::Formatter<W>,
    table: &Table,
    inverter: usize,
    probe: &Probe,
) -> fmt::Result {
    let step = probe.step;
    let shown = PerUnit::new(step, Scale::Thousandths);
    write!(
        f,
        "\ninverter {inverter}: step {step} thousandths, {shown} per unit"
    )?;
    for bus in 1..=table.buses {
        let response = table.response(bus, inverter);
        let shown = PerUnit::new(response, Scale::Millionths);
        write!(f, "\n  bus {bus}: {response} millionths, {shown} per unit")?;
    }
    Ok(())
}

fn main(rt: HostRuntime) -> io::Result<()> {
    let file = read_input(rt.alloc(), rt.stdin())?;
    rt.println(Report::of(file.as_slice()))
}

#[cfg(test)]
mod tests {
    use super::*;
    use std::alloc::Global;
    use std::process::Abort;
    use std::test::Fail;

    // Whether this is what is printed of a file.
    fn is_printed(rt: &impl Abort, alloc: Global, file: &[u8], text: &str) -> Result<(), Fail> {
        let report = Report::of(file);
        let printed = format!(in alloc; "{report}")?;
        assert_eq!(rt; printed.as_str(), text);
        Ok(())
    }

    #[test]
    fn refused_files(rt: HostRuntime) -> Result<(), Fail> {
        is_printed(&rt, rt.alloc(), b"", "refusal 3, layer file, place 0")?;
        is_printed(
            &rt,
            rt.alloc(),
            b"probe,step,1\r\n1,0.002,0.000000001",
            "refusal 8, layer file, place 22",
        )
    }

    #[test]
    fn responses_below_0_and_a_blank(rt: HostRuntime) -> Result<(), Fail> {
        is_printed(
            &rt,
            rt.alloc(),
            b"probe,step,1,2\r\n1,-0.250,0.00025,\r\n",
            "buses: 2\nbus 2: mute\ninverter 1: step -250 thousandths, -0.250 per unit\n  bus 1: -1000 millionths, -0.001000 per unit\n  bus 2: 0 millionths, 0.000000 per unit",
        )
    }

    #[test]
    fn no_blank(rt: HostRuntime) -> Result<(), Fail> {
        is_printed(
            &rt,
            rt.alloc(),
            b"probe,step,1,2,3\r\n2,-0.500,-0.00015,-0.00025,-0.00015\r\n3,0.250,0.000075,0.000075,0.0002\r\n",
            "buses: 3\nno bus is mute\ninverter 2: step -500 thousandths, -0.500 per unit\n  bus 1: 300 millionths, 0.000300 per unit\n  bus 2: 500 millionths, 0.000500 per unit\n  bus 3: 300 millionths, 0.000300 per unit\ninverter 3: step 250 thousandths, 0.250 per unit\n  bus 1: 300 millionths, 0.000300 per unit\n  bus 2: 300 millionths, 0.000300 per unit\n  bus 3: 800 millionths, 0.000800 per unit",
        )
    }
}
