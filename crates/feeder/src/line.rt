ghost use Rattle.std.specs.Prelude.{◌≡◌};
ghost use Rattle.feeder.specs.Feeder.{blank};

/// A line of a feeder: from a bus up to its parent. The substation is bus 0.
#[derive(Clone, Copy, PartialEq, Eq, Debug)]
pub struct Line {
    /// The bus at the upper end.
    pub parent: usize,
    /// In millionths of per unit.
    pub resistance: u32,
}

/// The blank line, as which a number that is no bus is read: the least resistance to the substation.
impl Default for Line {
    ghost is_default = { λ line. line ≡ blank };

    fn default() -> Line {
        Line {
            parent: 0,
            resistance: 1,
        }
    }
}
