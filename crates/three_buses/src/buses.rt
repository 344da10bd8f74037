ghost use Rattle.std.specs.Prelude.{◌≡◌, ◌≤◌, ◌*ℤ◌, unsigned_abs};
ghost use Rattle.std.specs.List.{list_all};
ghost use Rattle.probing.specs.Answers.{admissible};
ghost use Rattle.probing.specs.Facts.{PlantIsBounded};
ghost use Rattle.probing.specs.Settings.{AreSettings};
ghost use Rattle.three_buses.specs.Buses.{is_bus, is_within, plant_of};

use crate::log::{Entry, LOG_ROOM, note};
use arrayvec::ArrayVec;
use probing::{Source, SourceFault};

/// How many buses there are, each metered and with an inverter.
pub const BUSES: usize = 3;

// The furthest that a response is from 0, in millionths of per unit.
const FURTHEST_RESPONSE: u64 = 1_000_000;

// The furthest that a standing voltage is from 0, in billionths of per unit.
const FURTHEST_STANDING: u64 = 1_000_000_000;

// The furthest that a step is from 0, in thousandths of per unit.
const FURTHEST_STEP: u32 = 1_000;

/// A source of three buses with an inverter at each, which is told its responses and standing voltages. Its meters are heard
/// until they are muted. It logs each command and each withdrawal that it accepts, in order.
#[derive(Drop)]
pub struct ThreeBuses {
    // What bus n has stands at n - 1. Its responses are a row, with that to the inverter at bus m at m - 1.
    responses: [[i64; BUSES]; BUSES],
    standing: [i64; BUSES],
    mute: [bool; BUSES],
    settings: [i32; BUSES],
    log: ArrayVec<Entry, LOG_ROOM>,
    ghost plant: { PlantIsBounded (plant_of responses standing mute) },
    ghost settled: { AreSettings settings },
}

impl ThreeBuses {
    ghost use Rattle.std.specs.Prelude.{true, [], IfSome, is_some};
    ghost use Rattle.probing.specs.Facts.{share, voltage};
    ghost use Rattle.three_buses.specs.Buses.{are_within, new_facts, with_mute};
    ghost use Rattle.three_buses.specs.Meaning.{facts_of, log_of};

    /// A source with these responses in millionths of per unit, that of bus n to the inverter at bus m at `[n - 1][m - 1]`, and
    /// these standing voltages in billionths, that of bus n at `[n - 1]`. Every inverter is on its schedule, no meter is mute,
    /// and the log is empty. None if a response is beyond 1,000,000 or a standing voltage beyond 1,000,000,000 either way.
    pub fn new(responses: [[i64; BUSES]; BUSES], standing: [i64; BUSES]) -> Option<ThreeBuses>
        ensures made { is_some result ≡ are_within responses standing }
        ensures means { let facts = ⟦<ThreeBuses as Source>⟧.facts in
            IfSome result (λ s. facts s ≡ new_facts responses standing) }
        ensures log { IfSome result (λ s. log_of s ≡ []) }
    {
        if !all_within_each(&responses, FURTHEST_RESPONSE)
            || !all_within(&standing, FURTHEST_STANDING)
        {
            return None;
        }
        Some(ThreeBuses {
            responses,
            standing,
            mute: [false; BUSES],
            settings: [0; BUSES],
            log: ArrayVec::new(),
        })
    }

    /// Mutes the meter of a bus. Nothing changes where no bus is.
    pub fn mute(&mut self, bus: usize)
        ensures means { let facts = ⟦<ThreeBuses as Source>⟧.facts in
            facts self.new ≡ with_mute (facts self.old) bus }
        ensures log { log_of self.new ≡ log_of self.old }
    {
        if is_bus(bus) {
            self.mute[bus - 1] = true;
        }
    }

    /// The commands and withdrawals that were accepted, in order. The first 64 are kept; those behind are carried out
    /// alike, and not logged.
    pub fn log(&self) -> &[Entry]
        ensures { result.now ≡ log_of self.now }
    {
        &self.log
    }

    // What an inverter adds to the voltage of a bus.
    fn share(&self, bus: usize, inverter: usize) -> i64
        requires bus { is_bus bus ≡ true }
        requires inverter { is_bus inverter ≡ true }
        ensures { result ≡ share (facts_of self.now) bus inverter }
    {
        product(
            self.responses[bus - 1][inverter - 1],
            self.settings[inverter - 1],
        )
    }

    // The voltage of a bus.
    fn voltage(&self, bus: usize) -> i64
        requires { is_bus bus ≡ true }
        ensures { result ≡ voltage (facts_of self.now) bus }
    {
        self.standing[bus - 1] + self.share(bus, 1) + self.share(bus, 2) + self.share(bus, 3)
    }
}

// Whether there is such a bus.
fn is_bus(bus: usize) -> bool
    ensures { result ≡ is_bus bus }
{
    (1..=BUSES).contains(&bus)
}

// A response times a setting.
fn product(response: i64, setting: i32) -> i64
    requires response { unsigned_abs response ≤ 1000000 }
    requires setting { unsigned_abs setting ≤ 1000 }
    ensures { result ≡ response *ℤ setting }
{
    response * i64::from(setting)
}

fn is_admissible(step: i32) -> bool
    ensures { result ≡ admissible step }
{
    (1..=FURTHEST_STEP).contains(&step.unsigned_abs())
}

// Whether no number is beyond a bound either way.
fn all_within(numbers: &[i64; BUSES], most: u64) -> bool
    ensures { result ≡ list_all (is_within most) numbers.now }
{
    numbers.iter().all(|number| number.unsigned_abs() <= most)
}

// Whether no number of no row is beyond a bound either way.
fn all_within_each(rows: &[[i64; BUSES]; BUSES], most: u64) -> bool
    ensures { result ≡ list_all (list_all (is_within most)) rows.now }
{
    rows.iter().all(|row| all_within(row, most))
}

impl Source for ThreeBuses {
    ghost use Rattle.probing.specs.Answers.{command_of, commanded, withdraw_of, withdrawn};
    ghost use Rattle.probing.proofs.Settings.{kept_is_bounded};
    ghost use Rattle.three_buses.specs.Logs.{logged};
    ghost use Rattle.three_buses.specs.Meaning.{plant_in, facts_of, log_of};
    ghost use Rattle.three_buses.specs.declared.log.Entry.TheVariants.{Command, Withdrawal};

    ghost facts = { facts_of };

    ghost bounded = { λ s. kept_is_bounded (plant_in s) s.plant s.settings s.settled };

    fn buses(&self) -> usize {
        BUSES
    }

    fn has_inverter(&self, bus: usize) -> bool {
        is_bus(bus)
    }

    fn setting(&self, bus: usize) -> i32 {
        if is_bus(bus) {
            self.settings[bus - 1]
        } else {
            0
        }
    }

    fn read(&self, bus: usize) -> Result<i64, SourceFault> {
        if !is_bus(bus) || self.mute[bus - 1] {
            return Err(SourceFault::Unreadable { bus });
        }
        Ok(self.voltage(bus))
    }

    /// Logged if it is accepted.
    fn command(&mut self, inverter: usize, step: i32) -> Result<(), SourceFault>
        ensures answer { result ≡ command_of (facts_of self.old) inverter step }
        ensures effect { facts_of self.new ≡ commanded (facts_of self.old) inverter step }
        ensures log { log_of self.new ≡ logged result (Command inverter step) (log_of self.old) }
    {
        if !is_bus(inverter) {
            return Err(SourceFault::NoInverter { bus: inverter });
        }
        if !is_admissible(step) {
            return Err(SourceFault::BadStep { inverter });
        }
        if self.setting(inverter) != 0 {
            return Err(SourceFault::OffSchedule { inverter });
        }
        self.settings[inverter - 1] = step;
        note(&mut self.log, Entry::Command { inverter, step });
        Ok(())
    }

    /// Logged if it is accepted.
    fn withdraw(&mut self, inverter: usize) -> Result<(), SourceFault>
        ensures answer { result ≡ withdraw_of (facts_of self.old) inverter }
        ensures effect { facts_of self.new ≡ withdrawn (facts_of self.old) inverter }
        ensures log { log_of self.new ≡ logged result (Withdrawal inverter) (log_of self.old) }
    {
        if !is_bus(inverter) {
            return Err(SourceFault::NoInverter { bus: inverter });
        }
        self.settings[inverter - 1] = 0;
        note(&mut self.log, Entry::Withdrawal { inverter });
        Ok(())
    }
}
