// A feeder of three buses, given as a response file and as lines, and how a refusal is compared.
use feeder::{Line, Map};
use refusals::{Layer, Refusal};
use sources::{FeederSource, TableSource};
use std::process::Abort;
use std::test::Fail;

// Inverters at buses 2 and 3.
pub(crate) const THREE: &[u8] =
    b"probe,step,1,2,3\r\n2,-0.500,-0.00015,-0.00025,-0.00015\r\n3,0.250,0.000075,0.000075,0.0002\r\n";

// An inverter at bus 1, and no reading at bus 2.
pub(crate) const MUTE: &[u8] = b"probe,step,1,2\r\n1,0.1,0.01,\r\n";

pub(crate) fn table(file: &[u8]) -> Result<TableSource, Fail> {
    let mut source = TableSource::new();
    source.load(file)?;
    Ok(source)
}

// The feeder cases have the same: two lines are less than a crate for both would be.
fn line(parent: usize, resistance: u32) -> Line {
    Line { parent, resistance }
}

pub(crate) fn three_lines() -> Result<Map, Fail> {
    Ok(Map::from_lines(3, &[line(0, 300), line(1, 200), line(1, 500)])?)
}

// The feeder of three buses with inverters at buses 2 and 3, and these standing voltages.
pub(crate) fn three_standing(standing: &[i64]) -> Result<FeederSource, Fail> {
    let map = three_lines()?;
    let mut source = FeederSource::new();
    source.make(&map, &[2, 3], standing)?;
    Ok(source)
}

pub(crate) fn three_buses() -> Result<FeederSource, Fail> {
    three_standing(&[0, 0, 0])
}

// Whether a bus of a map has this parent and this resistance.
pub(crate) fn has_line(rt: &impl Abort, map: &Map, bus: usize, parent: usize, resistance: u32) {
    assert_eq!(rt; map.parent(bus), Some(parent));
    assert_eq!(rt; map.resistance(bus), Some(resistance));
}

// Whether a map has the lines of the three buses.
pub(crate) fn three(rt: &impl Abort, map: &Map) -> Result<(), Fail> {
    assert_eq!(rt; map.buses(), 3);
    has_line(rt, map, 1, 0, 300);
    has_line(rt, map, 2, 1, 200);
    has_line(rt, map, 3, 1, 500);
    Ok(())
}

// Whether a fault is told with this layer, number and place.
pub(crate) fn told<E: Into<Refusal>>(
    rt: &impl Abort,
    fault: E,
    layer: Layer,
    number: u8,
    place: usize,
) {
    let refusal: Refusal = fault.into();
    assert_eq!(rt;
        refusal,
        Refusal {
            number,
            layer,
            place,
        }
    );
}

// Whether a call is refused with this layer, number and place.
pub(crate) fn refused<T: Drop, E: Into<Refusal>>(
    rt: &impl Abort,
    answer: Result<T, E>,
    layer: Layer,
    number: u8,
    place: usize,
) -> Result<(), Fail> {
    let fault = answer.err().ok_or("accepted")?;
    told(rt, fault, layer, number, place);
    Ok(())
}

// Whether a call that puts a map in a place is refused so, and leaves the map of three buses there.
pub(crate) fn leaves_three<E: Into<Refusal>, F: FnOnce(&mut Map) -> Result<(), E>>(
    rt: &impl Abort,
    call: F,
    layer: Layer,
    number: u8,
    place: usize,
) -> Result<(), Fail>
    requires { F.IsAlwaysCallable call }
{
    let mut map = three_lines()?;
    refused(rt, call(&mut map), layer, number, place)?;
    three(rt, &map)
}
