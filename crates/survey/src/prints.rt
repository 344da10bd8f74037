// What the programs print for a response file.
ghost use Rattle.std.specs.Prelude.{◌≡◌, ◌≤◌, true, length, is_ok};
ghost use Rattle.feeder.specs.declared.kind.Kind.TheVariants.{Complete, Reduced};
ghost use Rattle.survey.specs.Prints.{Prints, TextsAreAlone};

use crate::surveying::survey_file;
use feeder::{Kind, Map};
use files::FileFault;
use printing::{write_map, write_refusal};
use refusals::Refusal;

// Surveys a response file and writes the map file of the drawn feeder, or the first refusal.
#[tactic(auto, using(crate::proofs::OneText::texts_are_alone))]
fn print_survey(file: &[u8], kind: Kind, out: &mut [u8]) -> Result<usize, FileFault>
    ensures prints { Prints file.now kind out.old out.new result }
    ensures room { 2300 ≤ length out.old → is_ok result ≡ true }
    ensures alone { TextsAreAlone }
{
    let mut map = Map::new();
    match survey_file(file, kind, &mut map) {
        Ok(()) => write_map(&map, out),
        Err(fault) => write_refusal(Refusal::from(fault), out),
    }
}

/// Turns the bytes of a response file into the printed complete map, or into the printed first refusal, at the front of a
/// buffer, and says how long the text is. A buffer that is too short stays as it was; 2,300 bytes are always enough.
pub fn fullmap(file: &[u8], out: &mut [u8]) -> Result<usize, FileFault>
    ensures prints { Prints file.now Complete out.old out.new result }
    ensures room { 2300 ≤ length out.old → is_ok result ≡ true }
    ensures alone { TextsAreAlone }
{
    print_survey(file, Kind::Complete, out)
}

/// Turns the bytes of a response file into the printed reduced map, or into the printed first refusal, at the front of a buffer, and
/// says how long the text is. A buffer that is too short stays as it was; 2,300 bytes are always enough.
pub fn reducedmap(file: &[u8], out: &mut [u8]) -> Result<usize, FileFault>
    ensures prints { Prints file.now Reduced out.old out.new result }
    ensures room { 2300 ≤ length out.old → is_ok result ≡ true }
    ensures alone { TextsAreAlone }
{
    print_survey(file, Kind::Reduced, out)
}
