// Draws random feeders back from what probing them tells, and prints the maps.

#![tactic(auto)]

mod file;
mod growth;
mod maker;
mod plan;
mod random;
mod surveys;

use crate::file::Change;
use crate::maker::Maker;
use crate::plan::Plan;
use crate::surveys::reduced;
use feeder::{MOST_METERED, Map};
use refusals::Refusal;
use std::io;

fn print_map(rt: &HostRuntime, map: &Map) -> io::Result<()> {
    let metered = map.metered();
    let buses = map.buses();
    print!(rt; "{metered} metered, {buses} buses:")?;
    for (i, line) in map.lines().iter().enumerate() {
        let bus = i + 1;
        let parent = line.parent;
        let resistance = line.resistance;
        let comma = if i == 0 { "" } else { "," };
        print!(rt; "{comma} {bus}<{parent} {resistance}")?;
    }
    println!(rt; "")
}

// The map, or the refusal.
fn print_answer(
    rt: &HostRuntime,
    number: usize,
    word: &'static str,
    answer: Result<Map, Refusal>,
) -> io::Result<()> {
    print!(rt; "feeder {number}, {word}: ")?;
    match answer {
        Ok(map) => print_map(rt, &map),
        Err(refusal) => {
            let number = refusal.number;
            let place = refusal.place;
            println!(rt; "refusal {number}, place {place}")
        }
    }
}

// The reduced feeder of the feeder's response file, and the complete one of its lines.
fn show_feeder(rt: &HostRuntime, number: usize, plan: &Plan, maker: &mut Maker) -> io::Result<()> {
    let Some(map) = maker.grow(plan)? else {
        return println!(rt; "feeder {number}: no map");
    };
    let file = maker.file_of(&map, None)?;
    print_answer(rt, number, "reduced", reduced(file.as_bytes()))?;
    if map.buses() <= MOST_METERED {
        print_answer(rt, number, "complete", maker.complete(&map)?)?;
    }
    Ok(())
}

// The reduced feeder of the feeder's response file with a change.
fn show_changed(rt: &HostRuntime, number: usize, plan: &Plan, maker: &mut Maker) -> io::Result<()> {
    let Some(map) = maker.grow(plan)? else {
        return println!(rt; "feeder {number}: no map");
    };
    let change = Change::any(plan.metered, &mut maker.random);
    let file = maker.file_of(&map, Some(&change))?;
    print_answer(rt, number, "changed", reduced(file.as_bytes()))
}

fn main(rt: HostRuntime) -> io::Result<()> {
    let mut maker = Maker::new(rt.alloc());
    for number in 1..=200 {
        let plan = Plan::small(&mut maker.random);
        show_feeder(&rt, number, &plan, &mut maker)?;
    }
    for number in 201..=280 {
        let plan = Plan::small(&mut maker.random);
        show_changed(&rt, number, &plan, &mut maker)?;
    }
    for number in 281..=292 {
        let plan = Plan::large(&mut maker.random);
        show_feeder(&rt, number, &plan, &mut maker)?;
    }
    let plan = Plan::full(&mut maker.random);
    show_feeder(&rt, 293, &plan, &mut maker)
}
