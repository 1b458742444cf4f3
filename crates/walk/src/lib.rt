// What a walk of the checker works on: the words that are lent, how many of them are used, and the primitive steps on them.
#![tactic(auto)]

ghost use Rattle.std.specs.Prelude.{◌≡◌, ◌+◌, ◌*◌, ◌<◌, ◌≤◌, length, get_or, set};
ghost use Rattle.walk.specs.Words.{slot_stored, word_place, slot_end};
ghost use Rattle.walk.specs.Loans.{SameLoans, OnlyErrors, OnlyRows, OnlyOutput};
ghost use Rattle.walk.specs.Typed.{typed};
ghost use Rattle.row_index.specs.Index.{Indexed};
ghost use Rattle.types.specs.Table.{Table};
ghost use Rattle.types.specs.Post.{PartsOk};
ghost use Rattle.walk.specs.Post.{substitute_for, Makes, Reported};

use fallible::Error;
use record_bytes::HEAD_END;
use types::Row;

// How many errors and rows there are, and whether a row found no room.
#[derive(Clone, Copy)]
pub struct State {
    pub errors: usize,
    pub rows: u32,
    pub full: bool,
}

// A row number, and the state after it was found.
#[derive(Clone, Copy)]
pub struct Typed {
    pub ty: u32,
    pub state: State,
}

// All that a walk writes: the output with its slots, the errors, the rows and their index, and how far they are used.
#[derive(Drop)]
pub struct Walk<'a> {
    pub output: &'a mut [u8],
    pub errors: &'a mut [u32],
    pub rows: &'a mut [u32],
    pub index: &'a mut [u16; row_index::LENGTH],
    pub state: State,
}

// Words of a name in the working words.
pub const WORK_WIDTH: usize = 4;

// Which of them: the rows of the global, the alias, the local and the argument of that name.
pub const GLOBAL: usize = 0;

pub const ALIAS: usize = 1;

pub const LOCAL: usize = 2;

pub const ARGUMENT: usize = 3;

// What stands for a row that finds no room: Unknown, or an empty list.
fn substitute(row: Row) -> u32
    ensures { result ≡ substitute_for row }
{
    match row {
        Row::Field { .. } | Row::Argument { .. } => 0,
        _ => types::UNKNOWN,
    }
}

// The number of a row, made if it is not there. Where it finds no room, nothing is changed but the state.
pub fn make(rows: &mut [u32], index: &mut [u16; row_index::LENGTH], state: State, row: Row) -> Typed
    requires table { Table rows.old state.rows × PartsOk rows.old state.rows row }
    requires indexed { Indexed rows.old state.rows index.old }
    ensures { Makes row rows.old index.old state rows.new index.new result }
{
    match types::intern(rows, index, state.rows, row) {
        Some(made) => Typed {
            ty: made.number,
            state: State {
                rows: made.count,
                ..state
            },
        },
        None => Typed {
            ty: substitute(row),
            state: State {
                full: true,
                ..state
            },
        },
    }
}

// Stores a row number in the slot of the record at `at`.
pub fn put_slot(output: &mut [u8], at: usize, ty: u32)
    requires { slot_end at ≤ length output.old }
    ensures { output.new ≡ slot_stored output.old at ty }
{
    let slot = at + HEAD_END;
    output[slot] = (ty % 256) as u8;
    output[slot + 1] = (ty / 256 % 256) as u8;
    output[slot + 2] = (ty / 256 / 256 % 256) as u8;
    output[slot + 3] = (ty / 256 / 256 / 256 % 256) as u8;
}

// Reports an error.
pub fn report(errors: &mut [u32], state: State, error: fallible::Error) -> State
    ensures { Reported errors.old state error errors.new result }
{
    let count = fallible::push_error(errors, state.errors, error);
    State {
        errors: count,
        ..state
    }
}

// The same steps on a walk.
// The steps on what a walk holds.
impl Walk<'_> {
    // The number of a row, as `make` gives it.
    pub fn make(&mut self, row: Row) -> u32
        requires table { Table self.old.rows.now self.old.state.rows × PartsOk self.old.rows.now self.old.state.rows row }
        requires indexed { Indexed self.old.rows.now self.old.state.rows self.old.index.now }
        ensures effect { Makes row
            self.old.rows.now self.old.index.now self.old.state
            self.new.rows.now self.new.index.now (typed result self.new.state) }
        ensures loans { OnlyRows self.old self.new }
    {
        let made = make(self.rows, self.index, self.state, row);
        self.state = made.state;
        made.ty
    }

    // Stores a row number in a slot of the output.
    pub fn put_slot(&mut self, at: usize, ty: u32)
        requires { slot_end at ≤ length self.old.output.now }
        ensures effect { self.new.output.now ≡ slot_stored self.old.output.now at ty }
        ensures loans { OnlyOutput self.old self.new }
    {
        put_slot(self.output, at, ty);
    }

    // Reports an error.
    pub fn report(&mut self, error: Error)
        ensures effect { Reported self.old.errors.now self.old.state error self.new.errors.now self.new.state }
        ensures loans { OnlyErrors self.old self.new }
    {
        self.state = report(self.errors, self.state, error);
    }
}

// The working word of a name.
pub fn word_of(work: &[u32], name: u32, which: usize) -> u32
    requires { word_place name which < length work.now }
    ensures { result ≡ get_or work.now (word_place name which) 0 }
{
    let place = WORK_WIDTH * (name as usize) + which;
    work[place]
}

// Sets the working word of a name.
pub fn set_word(work: &mut [u32], name: u32, which: usize, row: u32)
    requires { word_place name which < length work.old }
    ensures { work.new ≡ set work.old (word_place name which) row }
{
    work[WORK_WIDTH * (name as usize) + which] = row;
}
