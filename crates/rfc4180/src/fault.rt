/// Why bytes are no file.
#[derive(Clone, Copy, PartialEq, Eq, Debug)]
pub enum Fault {
    /// There are more than 65,536 of them.
    TooLong,
    /// No file has the byte at this place there, or the bytes end too early, at this place.
    Syntax { at: usize },
}
