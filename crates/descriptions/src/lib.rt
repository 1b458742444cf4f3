// What the descriptions of errors are made of: the letters that stand for what is printed, and the operators.
#![tactic(auto)]

ghost use Rattle.std.specs.Prelude.{◌≡◌, ◌<◌, length};
ghost use Rattle.fallible.specs.Errors.{error_width};
ghost use Rattle.text.specs.Written.{Fits, Written};
ghost use Rattle.rows.specs.Search.{Decides};
ghost use Rattle.descriptions.specs.Descriptions.{piece_of, word_of, operator_text, IsOperator};
ghost use Rattle.descriptions.specs.Descriptions.{all_lines, LineStands};

// What a byte of a description stands for: itself, or what is printed in its place.
#[derive(Clone, Copy, Debug, PartialEq, Eq)]
pub enum Piece {
    Fixed,
    Name,
    Row,
    Number,
    Operator,
    BuiltIn,
    Literal,
}

// The words of an error that descriptions read: its operands, and the place of its literal.
const FIRST_OPERAND: usize = 4;

const SECOND_OPERAND: usize = 5;

const THIRD_OPERAND: usize = 6;

const LITERAL_PLACE: usize = 7;

// What a byte of a description stands for. An arm for each letter: by one table the code then finds both the piece and what
// its caller does with it, while with `|` it tries the letters in turn at each byte of a line.
pub fn piece_of(byte: u8) -> Piece
    ensures { result ≡ piece_of byte }
{
    match byte {
        b'N' => Piece::Name,
        b'M' => Piece::Name,
        b'T' => Piece::Row,
        b'U' => Piece::Row,
        b'V' => Piece::Row,
        b'P' => Piece::Number,
        b'Q' => Piece::Number,
        b'O' => Piece::Operator,
        b'B' => Piece::BuiltIn,
        b'L' => Piece::Literal,
        _ => Piece::Fixed,
    }
}

// The word of an error that a byte of a description reads.
pub fn word_of(byte: u8) -> usize
    ensures { (result ≡ word_of byte) × (result < error_width) }
{
    match byte {
        b'M' | b'U' | b'Q' => SECOND_OPERAND,
        b'V' => THIRD_OPERAND,
        b'L' => LITERAL_PLACE,
        _ => FIRST_OPERAND,
    }
}

// The first operator whose text has two bytes, and the last.
const FIRST_OF_TWO: u32 = 7;

const LAST: u32 = 9;

// The byte of which the text of each operator is made, from 1: once, or from `<<` on twice.
const SYMBOLS: [u8; 10] = *b"\0+-*&^|<>=";

// Whether a number is that of an operator.
pub fn is_operator(operator: u32) -> bool
    ensures { Decides (IsOperator operator) result }
{
    matches!(operator, 1..=LAST)
}

// The length of an operator's text.
pub fn operator_length(operator: u32) -> u32
    requires { IsOperator operator }
    ensures { result ≡ length (operator_text operator) }
{
    if operator < FIRST_OF_TWO { 1 } else { 2 }
}

// Writes an operator, and returns the place behind it.
#[tactic(auto, using(crate::proofs::Operator::lengths))]
pub fn put_operator(text: &mut [u8], at: usize, operator: u32) -> usize
    requires operator { IsOperator operator }
    requires fits { Fits (operator_text operator) text.old at }
    ensures { Written (operator_text operator) text.old text.new at result }
{
    let end = at + (operator_length(operator) as usize);
    // an operator of one byte begins and ends with it
    let last = end - 1;
    let symbol = SYMBOLS[operator as usize];
    text[at] = symbol;
    text[last] = symbol;
    end
}

// The lines of all kinds, one after the other: the description of each, and a line feed. How many bytes they are.
pub const LENGTH: usize = 1293;

const LINES: [u8; LENGTH] = *b"unknown type `N`\n\
    no built-in type exists to match `internal` alias of `N`\n\
    built-in type `N` (B) does not match `internal` definition (U)\n\
    duplicate type alias `N`\n\
    type alias `N` conflicts with a built-in type\n\
    not all control-flow paths of `N` return a value\n\
    redefinition of local variable `N`\n\
    type `U` is not assignable to `T`\n\
    must return a value of type `T`\n\
    unknown identifier `N`\n\
    wrong number of arguments - expected P, got Q\n\
    invalid type for argument P - expected `U`, got `V`\n\
    cannot call non-function value of type `T`\n\
    cannot use `T` to index an array\n\
    cannot cast `T` to `U`\n\
    cannot dereference non-pointer type `T`\n\
    cannot access fields on type `T`\n\
    type `T` has no field named `M`\n\
    operator `~` is not compatible with type `T`\n\
    operator `!` can only be applied to booleans, not `T`\n\
    operator `&&` can only be applied to booleans, but left-hand side is `T`\n\
    operator `&&` can only be applied to booleans, but right-hand side is `T`\n\
    integer literal 'L' out of range\n\
    operator `O` is not compatible with types `U` and `V`\n\
    compound assignment target has length P, but array compound has length Q\n\
    target of array compound assignment cannot be `T`\n\
    target of struct compound assignment has no field named `N`\n\
    target of struct compound assignment cannot be `T`\n\
    struct compound assigns `N` more than once\n";

// Where the line of each kind starts, from kind 0, which has none, and where the last ends; of how many kinds.
const KINDS: usize = 30;

const STARTS: [usize; KINDS + 1] = [
    0, 0, 17, 74, 137, 162, 208, 257, 292, 326, 358, 381, 427, 479, 522, 555, 578, 618, 651, 683,
    728, 782, 855, 929, 962, 1016, 1089, 1139, 1199, 1250, 1293,
];

// Where the line of a kind stands among the lines.
#[derive(Clone, Copy, Debug, PartialEq, Eq)]
pub struct Bounds {
    pub start: usize,
    pub end: usize,
}

// The lines of all kinds.
pub fn all_lines() -> [u8; LENGTH]
    ensures { result ≡ all_lines }
{
    LINES
}

// Where the line of a kind stands; a kind that is not in the table has an empty one. No `Option`: `LineStands` promises an
// empty line.
pub fn line_bounds(kind: u32) -> Bounds
    ensures { LineStands kind result.start result.end }
{
    let number = kind as usize;
    if KINDS <= number {
        return Bounds { start: 0, end: 0 };
    }
    Bounds {
        start: STARTS[number],
        end: STARTS[number + 1],
    }
}
