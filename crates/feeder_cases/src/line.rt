use feeder::Line;

// The campaign cases have the same: two lines are less than a crate for both would be.
pub(crate) fn line(parent: usize, resistance: u32) -> Line {
    Line { parent, resistance }
}
