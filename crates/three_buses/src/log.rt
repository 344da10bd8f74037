ghost use Rattle.std.specs.Prelude.{◌≡◌};
ghost use Rattle.three_buses.specs.Logs.{noted};
ghost use Rattle.three_buses.specs.declared.log.Entry.TheVariants.{Withdrawal};

use arrayvec::ArrayVec;

/// How many entries a log has room for.
pub const LOG_ROOM: usize = 64;

/// What a source was told to do, and did.
#[derive(Clone, Copy, PartialEq, Eq, Debug)]
pub enum Entry {
    /// An inverter was set off its schedule by a step, in thousandths of per unit.
    Command { inverter: usize, step: i32 },
    /// An inverter was set back on its schedule.
    Withdrawal { inverter: usize },
}

/// A blank: a withdrawal where no inverter is. It fills the places of a log that are not used.
impl Default for Entry {
    fn default() -> Entry
        ensures { result ≡ Withdrawal 0 }
    {
        Entry::Withdrawal { inverter: 0 }
    }
}

// Notes an entry behind the others, if there is room.
pub(crate) fn note(log: &mut ArrayVec<Entry, LOG_ROOM>, entry: Entry)
    ensures { log.new.items ≡ noted log.old.items entry }
{
    if !log.is_full() {
        log.push(entry);
    }
}
