// Document 01's list of records: the shape of each kind, and what is due in each state of a child list.
#![tactic(auto)]

pub mod kinds;

ghost use Rattle.std.specs.Prelude.{◌≡◌, ◌≤◌};
ghost use Rattle.shape.specs.Kinds as kinds;
ghost use Rattle.shape.specs.Shape.{shape_of, Shaped, no_field, one_field, two_fields, nothing_due, bytes_due, must_be};
ghost use Rattle.shape.specs.Shape.{may_be, may_be_either, due_in, is_done, may_stand, state_after, is_between, allowed};

// The classes of kinds, each by its lowest kind. A kind that is in no list has class 0. Numbers, since `FineNode`, `Enters`
// and the theorems on the layout take a class as the number of its lowest kind.
pub const UNLISTED: u32 = 0;

pub const MODULE: u32 = kinds::MODULE;

pub const NAMES: u32 = kinds::NAMES;

pub const NAME: u32 = kinds::NAME;

pub const TYPE: u32 = kinds::NAMED_TYPE;

pub const FIELD: u32 = kinds::FIELD;

pub const EXPRESSION: u32 = kinds::IDENTIFIER;

pub const COMPOUND: u32 = kinds::ARRAY_COMPOUND;

pub const COMPOUND_FIELD: u32 = kinds::COMPOUND_FIELD;

pub const STATEMENT: u32 = kinds::BLOCK;

pub const ITEM: u32 = kinds::FUNCTION_DEFINITION;

pub const PARAMETER: u32 = kinds::PARAMETER;

// What a field of four bytes may hold: nothing is there; 0; the number of a name; any value; 2 to 36; 0 or 1; 1 to 8;
// 1 to 5; 0 to 3.
#[derive(Clone, Copy)]
pub enum Rule {
    Unused,
    Slot,
    Name,
    Any,
    Base,
    Flag,
    Operator,
    Comparison,
    Flags,
}

// What a record holds after its fields, or what is left of that: the state of a child list. CallParts are E, then Es;
// a Declaration is T, then an InitialValue: nothing, E or C; IfParts are E, S, perhaps S; FunctionParts are T, then
// Parameters: records 85, then S or nothing.
#[derive(Clone, Copy)]
pub enum Holds {
    Nothing,
    FreeBytes,
    OneModule,
    NamesThenItems,
    Items,
    Names,
    OneType,
    Fields,
    OneExpression,
    TwoExpressions,
    CallParts,
    Expressions,
    ExpressionThenType,
    CompoundFields,
    Statements,
    Declaration,
    InitialValue,
    ExpressionThenCompound,
    OneCompound,
    OptionalExpression,
    OneStatement,
    ExpressionThenStatement,
    IfParts,
    ThenPart,
    OptionalStatement,
    FunctionParts,
    Parameters,
}

// The shape of a kind: its class, how many fields it has, their rules, and what it holds after them.
#[derive(Clone, Copy)]
pub struct Shape {
    pub class: u32,
    pub fields: usize,
    pub first: Rule,
    pub second: Rule,
    pub holds: Holds,
}

// What is due in a state: free bytes, or a record of one of two classes (0: none), each with the state after it. The
// list may end or not. Flags and no enum, since the theorems on lists read them (`is_done`, `TakesRecords`).
#[derive(Clone, Copy)]
pub struct Due {
    pub free: bool,
    pub ends: bool,
    pub class: u32,
    pub next: Holds,
    pub other: u32,
    pub after: Holds,
}

// A record with no fields.
fn no_field(class: u32, holds: Holds) -> Shape
    ensures { result ≡ no_field class holds }
{
    Shape {
        class,
        fields: 0,
        first: Rule::Unused,
        second: Rule::Unused,
        holds,
    }
}

// A record with one field.
fn one_field(class: u32, first: Rule, holds: Holds) -> Shape
    ensures { result ≡ one_field class first holds }
{
    Shape {
        class,
        fields: 1,
        first,
        second: Rule::Unused,
        holds,
    }
}

// A record with two fields.
fn two_fields(class: u32, first: Rule, second: Rule, holds: Holds) -> Shape
    ensures { result ≡ two_fields class first second holds }
{
    Shape {
        class,
        fields: 2,
        first,
        second,
        holds,
    }
}

// T: the types.
fn type_shape(kind: u32) -> Shape
    requires { (kinds.named_type ≤ kind) × (kind ≤ kinds.struct_type) }
    ensures { Shaped kind result }
{
    match kind {
        kinds::NAMED_TYPE => two_fields(TYPE, Rule::Slot, Rule::Name, Holds::Nothing),
        kinds::VOID_TYPE => one_field(TYPE, Rule::Slot, Holds::Nothing),
        kinds::POINTER_TYPE => one_field(TYPE, Rule::Slot, Holds::OneType),
        kinds::ARRAY_TYPE => two_fields(TYPE, Rule::Slot, Rule::Any, Holds::OneType),
        _ => one_field(TYPE, Rule::Slot, Holds::Fields),
    }
}

// E: the expressions up to the cast.
fn expression_shape(kind: u32) -> Shape
    requires { (kinds.identifier ≤ kind) × (kind ≤ kinds.cast) }
    ensures { Shaped kind result }
{
    match kind {
        kinds::IDENTIFIER => two_fields(EXPRESSION, Rule::Slot, Rule::Name, Holds::Nothing),
        kinds::INTEGER => two_fields(EXPRESSION, Rule::Slot, Rule::Base, Holds::FreeBytes),
        kinds::BOOLEAN => two_fields(EXPRESSION, Rule::Slot, Rule::Flag, Holds::Nothing),
        kinds::STRING => one_field(EXPRESSION, Rule::Slot, Holds::FreeBytes),
        kinds::CALL => one_field(EXPRESSION, Rule::Slot, Holds::CallParts),
        kinds::INDEX => one_field(EXPRESSION, Rule::Slot, Holds::TwoExpressions),
        _ => one_field(EXPRESSION, Rule::Slot, Holds::ExpressionThenType),
    }
}

// E: the operators, and the size of a type.
fn operator_shape(kind: u32) -> Shape
    requires { (kinds.pointer_take ≤ kind) × (kind ≤ kinds.sizeof) }
    ensures { Shaped kind result }
{
    match kind {
        kinds::POINTER_TAKE => one_field(EXPRESSION, Rule::Slot, Holds::OneExpression),
        kinds::POINTER_DEREFERENCE => one_field(EXPRESSION, Rule::Slot, Holds::OneExpression),
        kinds::FIELD_ACCESS => two_fields(EXPRESSION, Rule::Slot, Rule::Name, Holds::OneExpression),
        kinds::BITWISE_NOT => one_field(EXPRESSION, Rule::Slot, Holds::OneExpression),
        kinds::BOOLEAN_NOT => one_field(EXPRESSION, Rule::Slot, Holds::OneExpression),
        kinds::BOOLEAN_AND => one_field(EXPRESSION, Rule::Slot, Holds::TwoExpressions),
        kinds::ARITHMETIC_BIN_OP => two_fields(
            EXPRESSION,
            Rule::Slot,
            Rule::Operator,
            Holds::TwoExpressions,
        ),
        kinds::COMPARISON_BIN_OP => two_fields(
            EXPRESSION,
            Rule::Slot,
            Rule::Comparison,
            Holds::TwoExpressions,
        ),
        _ => one_field(EXPRESSION, Rule::Slot, Holds::OneType),
    }
}

// S: the statements.
fn statement_shape(kind: u32) -> Shape
    requires { (kinds.block ≤ kind) × (kind ≤ kinds.inline_assembly) }
    ensures { Shaped kind result }
{
    match kind {
        kinds::BLOCK => one_field(STATEMENT, Rule::Flag, Holds::Statements),
        kinds::EXPRESSION_STATEMENT => no_field(STATEMENT, Holds::OneExpression),
        kinds::VARIABLE_DECLARATION => one_field(STATEMENT, Rule::Name, Holds::Declaration),
        kinds::ASSIGNMENT => no_field(STATEMENT, Holds::TwoExpressions),
        kinds::COMPOUND_ASSIGNMENT => no_field(STATEMENT, Holds::ExpressionThenCompound),
        kinds::RETURN => no_field(STATEMENT, Holds::OptionalExpression),
        kinds::LOOP => no_field(STATEMENT, Holds::OneStatement),
        kinds::WHILE => no_field(STATEMENT, Holds::ExpressionThenStatement),
        kinds::BREAK => no_field(STATEMENT, Holds::Nothing),
        kinds::IF_STATEMENT => no_field(STATEMENT, Holds::IfParts),
        _ => no_field(STATEMENT, Holds::FreeBytes),
    }
}

// The items.
fn item_shape(kind: u32) -> Shape
    requires { (kinds.function_definition ≤ kind) × (kind ≤ kinds.assembly_item) }
    ensures { Shaped kind result }
{
    match kind {
        kinds::FUNCTION_DEFINITION => one_field(ITEM, Rule::Name, Holds::FunctionParts),
        kinds::TYPE_ALIAS => two_fields(ITEM, Rule::Name, Rule::Flags, Holds::OneType),
        kinds::USE_ITEM => no_field(ITEM, Holds::FreeBytes),
        kinds::GLOBAL_DECLARATION => one_field(ITEM, Rule::Name, Holds::Declaration),
        _ => no_field(ITEM, Holds::FreeBytes),
    }
}

// The shape of a kind: types are 16..=20, expressions 32..=47, statements 64..=74, items 80..=84.
pub fn shape_of(kind: u32) -> Shape
    ensures { Shaped kind result }
{
    match kind {
        kinds::MODULE => no_field(MODULE, Holds::NamesThenItems),
        kinds::NAMES => no_field(NAMES, Holds::Names),
        kinds::NAME => no_field(NAME, Holds::FreeBytes),
        kinds::NAMED_TYPE..=kinds::STRUCT_TYPE => type_shape(kind),
        kinds::FIELD => one_field(FIELD, Rule::Name, Holds::OneType),
        kinds::IDENTIFIER..=kinds::SIZEOF => {
            if kind <= kinds::CAST {
                return expression_shape(kind);
            }
            operator_shape(kind)
        }
        kinds::ARRAY_COMPOUND => no_field(COMPOUND, Holds::Expressions),
        kinds::STRUCT_COMPOUND => no_field(COMPOUND, Holds::CompoundFields),
        kinds::COMPOUND_FIELD => one_field(COMPOUND_FIELD, Rule::Name, Holds::OneExpression),
        kinds::BLOCK..=kinds::INLINE_ASSEMBLY => statement_shape(kind),
        kinds::FUNCTION_DEFINITION..=kinds::ASSEMBLY_ITEM => item_shape(kind),
        kinds::PARAMETER => one_field(PARAMETER, Rule::Name, Holds::OneType),
        _ => no_field(UNLISTED, Holds::Nothing),
    }
}

// How many fields a kind has: less work than its whole shape.
pub fn field_count(kind: u32) -> usize
    ensures { (result ≡ (shape_of kind).fields) × (result ≤ 2) }
{
    match kind {
        kinds::NAMED_TYPE
        | kinds::ARRAY_TYPE
        | kinds::IDENTIFIER..=kinds::BOOLEAN
        | kinds::FIELD_ACCESS
        | kinds::ARITHMETIC_BIN_OP
        | kinds::COMPARISON_BIN_OP
        | kinds::TYPE_ALIAS => 2,
        kinds::VOID_TYPE
        | kinds::POINTER_TYPE
        | kinds::STRUCT_TYPE
        | kinds::FIELD
        | kinds::STRING..=kinds::POINTER_DEREFERENCE
        | kinds::BITWISE_NOT..=kinds::BOOLEAN_AND
        | kinds::SIZEOF
        | kinds::COMPOUND_FIELD
        | kinds::BLOCK
        | kinds::VARIABLE_DECLARATION
        | kinds::FUNCTION_DEFINITION
        | kinds::GLOBAL_DECLARATION
        | kinds::PARAMETER => 1,
        _ => 0,
    }
}

// Nothing more.
fn nothing_due() -> Due
    ensures { result ≡ nothing_due }
{
    Due {
        free: false,
        ends: true,
        class: UNLISTED,
        next: Holds::Nothing,
        other: UNLISTED,
        after: Holds::Nothing,
    }
}

// Bytes of any number and value.
fn bytes_due() -> Due
    ensures { result ≡ bytes_due }
{
    Due {
        free: true,
        ends: true,
        class: UNLISTED,
        next: Holds::Nothing,
        other: UNLISTED,
        after: Holds::Nothing,
    }
}

// One record of a class.
fn must_be(class: u32, next: Holds) -> Due
    ensures { result ≡ must_be class next }
{
    Due {
        free: false,
        ends: false,
        class,
        next,
        other: class,
        after: next,
    }
}

// One record of a class, or the end.
fn may_be(class: u32, next: Holds) -> Due
    ensures { result ≡ may_be class next }
{
    Due {
        free: false,
        ends: true,
        class,
        next,
        other: class,
        after: next,
    }
}

// One record of either of two classes, or the end.
fn may_be_either(class: u32, next: Holds, other: u32, after: Holds) -> Due
    ensures { result ≡ may_be_either class next other after }
{
    Due {
        free: false,
        ends: true,
        class,
        next,
        other,
        after,
    }
}

// What is due in a state of a child list.
pub fn due_in(state: Holds) -> Due
    ensures { result ≡ due_in state }
{
    match state {
        Holds::Nothing => nothing_due(),
        Holds::FreeBytes => bytes_due(),
        Holds::OneModule => must_be(MODULE, Holds::Nothing),
        Holds::NamesThenItems => must_be(NAMES, Holds::Items),
        Holds::Items => may_be(ITEM, Holds::Items),
        Holds::Names => may_be(NAME, Holds::Names),
        Holds::OneType => must_be(TYPE, Holds::Nothing),
        Holds::Fields => may_be(FIELD, Holds::Fields),
        Holds::OneExpression => must_be(EXPRESSION, Holds::Nothing),
        Holds::TwoExpressions => must_be(EXPRESSION, Holds::OneExpression),
        Holds::CallParts => must_be(EXPRESSION, Holds::Expressions),
        Holds::Expressions => may_be(EXPRESSION, Holds::Expressions),
        Holds::ExpressionThenType => must_be(EXPRESSION, Holds::OneType),
        Holds::CompoundFields => may_be(COMPOUND_FIELD, Holds::CompoundFields),
        Holds::Statements => may_be(STATEMENT, Holds::Statements),
        Holds::Declaration => must_be(TYPE, Holds::InitialValue),
        Holds::InitialValue => may_be_either(EXPRESSION, Holds::Nothing, COMPOUND, Holds::Nothing),
        Holds::ExpressionThenCompound => must_be(EXPRESSION, Holds::OneCompound),
        Holds::OneCompound => must_be(COMPOUND, Holds::Nothing),
        Holds::OptionalExpression => may_be(EXPRESSION, Holds::Nothing),
        Holds::OneStatement => must_be(STATEMENT, Holds::Nothing),
        Holds::ExpressionThenStatement => must_be(EXPRESSION, Holds::OneStatement),
        Holds::IfParts => must_be(EXPRESSION, Holds::ThenPart),
        Holds::ThenPart => must_be(STATEMENT, Holds::OptionalStatement),
        Holds::OptionalStatement => may_be(STATEMENT, Holds::Nothing),
        Holds::FunctionParts => must_be(TYPE, Holds::Parameters),
        Holds::Parameters => may_be_either(PARAMETER, Holds::Parameters, STATEMENT, Holds::Nothing),
    }
}

// Whether a child list is complete at `at`.
pub fn is_done(due: Due, at: usize, end: usize) -> bool
    ensures { result ≡ is_done due at end }
{
    due.free || (due.ends && at == end)
}

// Whether a record of a class may come next.
pub fn may_stand(due: Due, class: u32) -> bool
    ensures { result ≡ may_stand due class }
{
    class == due.class || class == due.other
}

// The state of a child list after a record of a class.
pub fn state_after(due: Due, class: u32) -> Holds
    ensures { result ≡ state_after due class }
{
    if class == due.class {
        due.next
    } else {
        due.after
    }
}

// Whether a value lies from `low` to `high`.
fn between(low: u32, value: u32, high: u32) -> bool
    ensures { result ≡ is_between low value high }
{
    low <= value && value <= high
}

// Whether a field with a rule may hold a value, in a module with so many names.
pub fn allows(names: u32, rule: Rule, value: u32) -> bool
    ensures { result ≡ allowed names rule value }
{
    match rule {
        Rule::Unused => true,
        Rule::Slot => value == 0,
        Rule::Name => value < names,
        Rule::Any => true,
        Rule::Base => between(2, value, 36),
        Rule::Flag => value <= 1,
        Rule::Operator => between(1, value, 8),
        Rule::Comparison => between(1, value, 5),
        Rule::Flags => value <= 3,
    }
}
