// The error list of a check: words in a lent slice, and a count.
#![tactic(auto)]

pub mod kinds;

ghost use Rattle.std.specs.Prelude.{◌≡◌};
ghost use Rattle.fallible.specs.Errors.{error_list, error_words, pushed};

// The words of an error in the list.
pub const ERROR_WIDTH: usize = 8;

// An error: its kind, where it stands, and what its message names; operands that a kind does not use are 0. Of a bad
// literal the place is that of its record in the file, else 0.
#[derive(Clone, Copy, PartialEq, Eq)]
pub struct Error {
    pub kind: u32,
    pub file: u32,
    pub line: u32,
    pub column: u32,
    pub first: u32,
    pub second: u32,
    pub third: u32,
    pub place: u32,
}

impl Error {
    // Its words, as they stand in the list.
    fn words(self) -> [u32; ERROR_WIDTH]
        ensures { result ≡ error_words self }
    {
        [
            self.kind,
            self.file,
            self.line,
            self.column,
            self.first,
            self.second,
            self.third,
            self.place,
        ]
    }
}

// Adds an error to the `count` there are, and returns the new count. An error that finds no room is only counted, and
// the count stays one past the room.
pub fn push_error(errors: &mut [u32], count: usize, error: Error) -> usize
    ensures { error_list errors.new result ≡ pushed (error_list errors.old count) error }
{
    let room = errors.len() / ERROR_WIDTH;
    if room <= count {
        return room + 1;
    }
    let at = ERROR_WIDTH * count;
    errors[at..at + ERROR_WIDTH].copy_from_slice(&error.words());
    count + 1
}
