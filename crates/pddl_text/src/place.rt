//! Places in a text.
ghost use Rattle.std.specs.Prelude.{◌≡◌, ◌+◌, ◌^◌, ◌<◌};

/// The place of a byte in a text. Lines and columns count from 1. A line feed ends a line, and a
/// column counts bytes.
#[derive(Clone, Copy, Debug, PartialEq, Eq)]
pub struct Place {
    pub line: u32,
    pub column: u32,
}

/// The place of the next byte of a text, and the number of bytes before it.
#[derive(Clone, Copy)]
pub struct Spot {
    pub place: Place,
    pub position: u32,
}

impl Spot {
    ghost use Rattle.pddl_text.specs.Places.{start, after};

    /// The spot of the first byte.
    pub fn start() -> Spot
        ensures { result ≡ start }
    {
        Spot {
            place: Place { line: 1, column: 1 },
            position: 0,
        }
    }

    /// The spot after this byte.
    pub fn after(self, byte: u8) -> Spot
        requires line { self.place.line + 1 < 2 ^ 32 }
        requires column { self.place.column + 1 < 2 ^ 32 }
        requires position { self.position + 1 < 2 ^ 32 }
        ensures { result ≡ after self byte }
    {
        let place = if byte == b'\n' {
            Place {
                line: self.place.line + 1,
                column: 1,
            }
        } else {
            Place {
                line: self.place.line,
                column: self.place.column + 1,
            }
        };
        Spot {
            place,
            position: self.position + 1,
        }
    }
}
