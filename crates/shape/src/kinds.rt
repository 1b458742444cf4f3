// The kinds of records, in the order of document 01's list. Numbers, as they stand in the file: a class is a range of them,
// and a number in no list is a kind too, which the layout refuses at its place.
pub const MODULE: u32 = 1;

pub const NAMES: u32 = 2;

pub const NAME: u32 = 3;

// T: the types.
pub const NAMED_TYPE: u32 = 16;

pub const VOID_TYPE: u32 = 17;

pub const POINTER_TYPE: u32 = 18;

pub const ARRAY_TYPE: u32 = 19;

pub const STRUCT_TYPE: u32 = 20;

pub const FIELD: u32 = 21;

// E: the expressions. Up to the string they have no parts; from the pointer taken to the boolean not they have one
// operand.
pub const IDENTIFIER: u32 = 32;

pub const INTEGER: u32 = 33;

pub const BOOLEAN: u32 = 34;

pub const STRING: u32 = 35;

pub const CALL: u32 = 36;

pub const INDEX: u32 = 37;

pub const CAST: u32 = 38;

pub const POINTER_TAKE: u32 = 39;

pub const POINTER_DEREFERENCE: u32 = 40;

pub const FIELD_ACCESS: u32 = 41;

pub const BITWISE_NOT: u32 = 42;

pub const BOOLEAN_NOT: u32 = 43;

pub const BOOLEAN_AND: u32 = 44;

pub const ARITHMETIC_BIN_OP: u32 = 45;

pub const COMPARISON_BIN_OP: u32 = 46;

pub const SIZEOF: u32 = 47;

// C: the compounds.
pub const ARRAY_COMPOUND: u32 = 48;

pub const STRUCT_COMPOUND: u32 = 49;

pub const COMPOUND_FIELD: u32 = 50;

// S: the statements.
pub const BLOCK: u32 = 64;

pub const EXPRESSION_STATEMENT: u32 = 65;

pub const VARIABLE_DECLARATION: u32 = 66;

pub const ASSIGNMENT: u32 = 67;

pub const COMPOUND_ASSIGNMENT: u32 = 68;

pub const RETURN: u32 = 69;

pub const LOOP: u32 = 70;

pub const WHILE: u32 = 71;

pub const BREAK: u32 = 72;

pub const IF_STATEMENT: u32 = 73;

pub const INLINE_ASSEMBLY: u32 = 74;

// The items.
pub const FUNCTION_DEFINITION: u32 = 80;

pub const TYPE_ALIAS: u32 = 81;

pub const USE_ITEM: u32 = 82;

pub const GLOBAL_DECLARATION: u32 = 83;

pub const ASSEMBLY_ITEM: u32 = 84;

pub const PARAMETER: u32 = 85;
