// The kinds of errors, in the order of document 01's list.
// Unknown type.
pub const UNKNOWN_TYPE: u32 = 1;

// No built-in type of the name of an internal alias.
pub const NO_BUILT_IN_FOR_INTERNAL: u32 = 2;

// An internal alias of another type than the built-in one.
pub const INTERNAL_MISMATCH: u32 = 3;

// A second alias of a name.
pub const DUPLICATE_ALIAS: u32 = 4;

// An alias with a built-in type's name.
pub const ALIAS_OF_BUILT_IN: u32 = 5;

// A path through a function that returns no value.
pub const PATHS_WITHOUT_RETURN: u32 = 6;

// A second local of a name.
pub const LOCAL_REDEFINED: u32 = 7;

// Source not assignable to target.
pub const NOT_ASSIGNABLE: u32 = 8;

// A return without the value that is due.
pub const RETURN_NEEDS_VALUE: u32 = 9;

// Unknown identifier.
pub const UNKNOWN_IDENTIFIER: u32 = 10;

// Too few arguments, or too many.
pub const WRONG_ARGUMENT_COUNT: u32 = 11;

// An argument of another type than its parameter.
pub const WRONG_ARGUMENT: u32 = 12;

// A call of what is no function.
pub const NOT_A_FUNCTION: u32 = 13;

// An index of a type that is none.
pub const NOT_AN_INDEX: u32 = 14;

// A cast between types that have none.
pub const NOT_CASTABLE: u32 = 15;

// A dereference of what is no pointer.
pub const NOT_A_POINTER: u32 = 16;

// A field of what has none.
pub const NO_FIELDS: u32 = 17;

// A field that a struct does not have.
pub const NO_SUCH_FIELD: u32 = 18;

// `~` of a type that has none.
pub const NO_BITWISE_NOT: u32 = 19;

// `!` of what is no boolean.
pub const NO_BOOLEAN_NOT: u32 = 20;

// The left of `&&` is no boolean.
pub const LEFT_NOT_BOOLEAN: u32 = 21;

// The right of `&&` is no boolean.
pub const RIGHT_NOT_BOOLEAN: u32 = 22;

// An integer literal out of range.
pub const LITERAL_OUT_OF_RANGE: u32 = 23;

// An operator between types that have none.
pub const INCOMPATIBLE_OPERANDS: u32 = 24;

// An array compound of another length than its target.
pub const WRONG_LENGTH: u32 = 25;

// An array compound for what is no array.
pub const NO_ARRAY_TARGET: u32 = 26;

// A struct compound with a field that its target does not have.
pub const NO_SUCH_TARGET_FIELD: u32 = 27;

// A struct compound for what is no struct.
pub const NO_STRUCT_TARGET: u32 = 28;

// A struct compound with a field twice.
pub const FIELD_ASSIGNED_TWICE: u32 = 29;
