ghost use Rattle.std.specs.Prelude.{◌≡◌};
ghost use Rattle.refusals.specs.Checks.{Fills};
ghost use Rattle.sources.specs.TableLoading.{new_facts, Loads};

use crate::settings::Settings;
use crate::table_source::{TableGrid, TableSource};
use feeder::MOST_METERED;
use files::{FileFault, Table};
use probing::Source;

impl TableSource {
    /// A new place: one metered bus reading 0, and no inverter.
    pub fn new() -> TableSource
        ensures { ⟦<TableSource as Source>⟧.facts result ≡ new_facts }
    {
        TableSource {
            grid: TableGrid {
                buses: 1,
                inverters: [false; MOST_METERED],
                responses: [[0; MOST_METERED]; MOST_METERED],
                mute: [false; MOST_METERED],
            },
            settings: Settings::new(),
        }
    }

    /// Fills the place from a response file, with every setting 0; a refused file leaves it as it was.
    pub fn load(&mut self, file: &[u8]) -> Result<(), FileFault>
        ensures { Fills (Loads ⟦<TableSource as Source>⟧.facts file.now) self.old self.new result }
    {
        let mut table = Table::new();
        table.read(file)?;
        *self = TableSource {
            grid: TableGrid::of(&table),
            settings: Settings::new(),
        };
        Ok(())
    }
}
