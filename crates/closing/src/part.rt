// What the closing lines are made of, together.
ghost use Rattle.std.specs.Prelude.{◌≤◌};
ghost use Rattle.closing.specs.Given.{Rows};

// What the closing lines are made of: the tubes of the book's rows, how many rows it has, whether a split stopped it, and the scan of each tube on intake.
// The arrays stay apart, as `write_closing` is handed them and its clause `known` speaks of them.
#[derive(Clone, Copy)]
pub struct Closing {
    pub tubes: [u8; 64],
    pub reach: u8,
    pub split: bool,
    pub stations: [u8; 64],
    pub serials: [u32; 64],
    pub scanned: u8,
    ghost rows: { Rows tubes reach },
    ghost most: { scanned ≤ 64 },
}
