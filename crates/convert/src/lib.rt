// `convert_node_type`: type records to type rows.
#![tactic(auto)]

ghost use Rattle.std.specs.Prelude.{◌≡◌, ◌+◌, ◌*◌, ◌<◌, ◌≤◌, length};
ghost use Rattle.row_index.specs.Index.{Indexed};
ghost use Rattle.types.specs.Ty.{field_kind};
ghost use Rattle.types.specs.Table.{Table};
ghost use Rattle.types.specs.Post.{PartsOk};
ghost use Rattle.shape.specs.Kinds as kinds;
ghost use Rattle.shape.specs.Shape.{a_type};
ghost use Rattle.shape.specs.declared.Holds.TheVariants.{Fields};
ghost use Rattle.record_bytes.specs.Bytes.{word_at, head_end, field_end, fields_end};
ghost use Rattle.names.specs.Names.{name_count};
ghost use Rattle.layout.specs.Layout.{kind_at};
ghost use Rattle.node.specs.Fine.{FineNode, FineNodes};
ghost use Rattle.meaning.specs.Promise.{work_width};
ghost use Rattle.walk.specs.Words.{slot_end};
ghost use Rattle.walk.specs.Moments.{moment};
ghost use Rattle.walk.specs.Loans.{SameLoans, OnlyErrors, OnlyOutput, OnlyRows, SameErrors};
ghost use Rattle.walk.specs.Typed.{typed};
ghost use Rattle.walk.specs.Cells.{CellsMade, CellsOk};
ghost use Rattle.convert.specs.Chunk.{chunk, field_cell, FieldsChunk};
ghost use Rattle.convert.specs.Post.{Ready, ConvertedNode, FieldsConverted, Named, settled, RowSettled};
ghost use Rattle.convert.specs.Post.{Primitive, or_else_row, error_for, TypeOpened, FieldOpened};

use fallible::Error;
use fallible::kinds::UNKNOWN_TYPE;
use names::BuiltIns;
use node::{Node, Nodes};
use record_bytes::{
    COLUMN, FIELD_END, FIELDS_END, FILE, HEAD_END, KIND, LINE, half, length_at, word,
};
use shape::kinds::{ARRAY_TYPE, NAMED_TYPE, POINTER_TYPE, VOID_TYPE};
use types::Row;
use walk::Walk;

// A pass of the check: the numbers of the built-in names, and whether it fills the slots, as pass 2 does.
#[derive(Clone, Copy)]
pub struct Pass {
    pub names: BuiltIns,
    pub fill: bool,
}

// How many fields are converted together, and the words that are kept of them: the type row and the name of each.
const CHUNK: usize = 32;

const KEPT: usize = 64;

// The first members of a list, converted: how many, and from where on the others stand.
#[derive(Clone, Copy)]
pub struct Chunk {
    pub count: usize,
    pub from: usize,
}

// A field's name, and where the next one stands.
#[derive(Clone, Copy)]
pub struct FieldHead {
    pub name: u32,
    pub next: usize,
}

// An error at the record at `at`, other than a bad literal's.
pub fn error_at(s: &[u8], at: usize, kind: u32, first: u32, second: u32, third: u32) -> Error
    requires { head_end at ≤ length s.now }
    ensures { result ≡ error_for s.now at kind first second third }
{
    Error {
        kind,
        file: half(s, at + FILE),
        line: word(s, at + LINE),
        column: word(s, at + COLUMN),
        first,
        second,
        third,
        place: 0,
    }
}

// `get_primitive_type`: the row of the built-in type of a name, or 0.
pub fn primitive_type(names: BuiltIns, name: u32) -> u32
    ensures { Primitive names name result }
{
    if name == names.u16 {
        return types::U16;
    }
    if name == names.i16 {
        return types::I16;
    }
    if name == names.bool {
        return types::BOOL;
    }
    if name == names.string {
        return types::STRING;
    }
    0
}

// The first of two row numbers, or the second where the first is 0.
fn or_else(first: u32, second: u32) -> u32
    ensures { result ≡ or_else_row first second }
{
    if 0 < first {
        return first;
    }
    second
}

// The type of a name: an alias, then a built-in type; else it is Unknown, and an error.
fn named_type(s: &[u8], names: BuiltIns, work: &[u32], at: usize, walk: &mut Walk<'_>) -> u32
    requires at_in_bounds { fields_end at ≤ length s.now }
    requires at_bound { word_at s.now (field_end at) < name_count s.now }
    requires s_in_bounds { work_width * name_count s.now ≤ length work.now }
    ensures effect { Named s.now names at work.now
        walk.old.errors.now walk.old.state
        walk.new.errors.now (typed result walk.new.state) }
    ensures loans { OnlyErrors walk.old walk.new }
{
    let name = word(s, at + FIELD_END);
    let alias = walk::word_of(work, name, walk::ALIAS);
    let primitive = primitive_type(names, name);
    let found = or_else(alias, primitive);
    if 0 < found {
        return found;
    }
    walk.report(error_at(s, at, UNKNOWN_TYPE, name, 0, 0));
    types::UNKNOWN
}

// Stores a row number in the slot of the record at `at`, if slots are filled.
fn settle(at: usize, fill: bool, walk: &mut Walk<'_>, ty: u32)
    requires { slot_end at ≤ length walk.old.output.now }
    ensures effect { walk.new.output.now ≡ settled fill walk.old.output.now at ty }
    ensures loans { OnlyOutput walk.old walk.new }
{
    if fill {
        walk.put_slot(at, ty);
    }
}

// Makes the row of the record at `at`, and settles it.
fn settle_row(at: usize, fill: bool, walk: &mut Walk<'_>, row: Row) -> u32
    requires at_in_bounds { slot_end at ≤ length walk.old.output.now }
    requires table { Table walk.old.rows.now walk.old.state.rows × PartsOk walk.old.rows.now walk.old.state.rows row }
    requires indexed { Indexed walk.old.rows.now walk.old.state.rows walk.old.index.now }
    ensures effect { RowSettled row at fill
        walk.old.output.now walk.old.rows.now walk.old.index.now walk.old.state
        walk.new.output.now walk.new.rows.now walk.new.index.now (typed result walk.new.state) }
    ensures loans { SameErrors walk.old walk.new }
{
    let made = walk.make(row);
    settle(at, fill, walk, made);
    made
}

// The kind of a T record.
fn type_kind(s: &[u8], node: Node) -> u32
    requires { FineNode s.now node a_type }
    ensures { TypeOpened s.now node.depth node.at result }
{
    half(s, node.at + KIND)
}

// The head of the first of some fields.
fn field_head(s: &[u8], fields: Nodes) -> FieldHead
    requires fine_nodes { FineNodes s.now fields Fields }
    requires from_lt_end { fields.from < fields.end }
    ensures { FieldOpened s.now fields.depth fields.from fields.end result }
{
    FieldHead {
        name: word(s, fields.from + HEAD_END),
        next: fields.from + length_at(s, fields.from),
    }
}

// The type row of a T record. The calls open at a time are bounded by the depth, and in `convert_fields` by the fields
// of a list over `CHUNK`.
#[cycle(convert_array_convert_chunk_convert_fields_convert_node_type_convert_others_convert_pointer_convert_struct)]
pub fn convert_node_type(s: &[u8], pass: Pass, work: &[u32], node: Node, walk: &mut Walk<'_>) -> u32
    requires fine_node { FineNode s.now node a_type }
    requires ready { Ready s.now (moment work.now walk.old) }
    ensures effect { ConvertedNode s.now pass node (moment work.now walk.old) (moment work.now walk.new) result }
    ensures loans { SameLoans walk.old walk.new }
{
    let kind = type_kind(s, node);
    let at = node.at;
    let fill = pass.fill;
    match kind {
        NAMED_TYPE => {
            let names = pass.names;
            let named = named_type(s, names, work, at, walk);
            settle(at, fill, walk, named);
            named
        }
        VOID_TYPE => {
            let ty = types::VOID;
            settle(at, fill, walk, ty);
            ty
        }
        POINTER_TYPE => convert_pointer(s, pass, work, node, walk),
        ARRAY_TYPE => convert_array(s, pass, work, node, walk),
        _ => convert_struct(s, pass, work, node, walk),
    }
}

// The row of a pointer, after its pointee.
#[cycle(convert_array_convert_chunk_convert_fields_convert_node_type_convert_others_convert_pointer_convert_struct)]
fn convert_pointer(s: &[u8], pass: Pass, work: &[u32], node: Node, walk: &mut Walk<'_>) -> u32
    requires fine_node { FineNode s.now node a_type }
    requires at_value { kind_at s.now node.at ≡ kinds.pointer_type }
    requires ready { Ready s.now (moment work.now walk.old) }
    ensures effect { ConvertedNode s.now pass node (moment work.now walk.old) (moment work.now walk.new) result }
    ensures loans { SameLoans walk.old walk.new }
{
    let at = node.at + FIELD_END;
    let depth = node.depth - 1;
    let inner = Node { at, depth };
    let pointee = convert_node_type(s, pass, work, inner, walk);
    settle_row(node.at, pass.fill, walk, Row::Pointer(pointee))
}

// The row of an array, after its element.
#[cycle(convert_array_convert_chunk_convert_fields_convert_node_type_convert_others_convert_pointer_convert_struct)]
fn convert_array(s: &[u8], pass: Pass, work: &[u32], node: Node, walk: &mut Walk<'_>) -> u32
    requires fine_node { FineNode s.now node a_type }
    requires at_value { kind_at s.now node.at ≡ kinds.array_type }
    requires ready { Ready s.now (moment work.now walk.old) }
    ensures effect { ConvertedNode s.now pass node (moment work.now walk.old) (moment work.now walk.new) result }
    ensures loans { SameLoans walk.old walk.new }
{
    let size = word(s, node.at + FIELD_END);
    let at = node.at + FIELDS_END;
    let depth = node.depth - 1;
    let inner = Node { at, depth };
    let element = convert_node_type(s, pass, work, inner, walk);
    settle_row(node.at, pass.fill, walk, Row::Array { element, size })
}

// The row of a struct, after the cells of its fields.
#[cycle(convert_array_convert_chunk_convert_fields_convert_node_type_convert_others_convert_pointer_convert_struct)]
fn convert_struct(s: &[u8], pass: Pass, work: &[u32], node: Node, walk: &mut Walk<'_>) -> u32
    requires fine_node { FineNode s.now node a_type }
    requires at_value { kind_at s.now node.at ≡ kinds.struct_type }
    requires ready { Ready s.now (moment work.now walk.old) }
    ensures effect { ConvertedNode s.now pass node (moment work.now walk.old) (moment work.now walk.new) result }
    ensures loans { SameLoans walk.old walk.new }
{
    let end = node.at + length_at(s, node.at);
    let from = node.at + FIELD_END;
    let depth = node.depth - 1;
    let inner = Nodes { from, end, depth };
    let fields = convert_fields(s, pass, work, inner, walk);
    settle_row(node.at, pass.fill, walk, Row::Struct(fields))
}

// The type rows and the names of the first fields, as many as have room.
#[cycle(convert_array_convert_chunk_convert_fields_convert_node_type_convert_others_convert_pointer_convert_struct)]
fn convert_chunk(
    s: &[u8],
    pass: Pass,
    work: &[u32],
    fields: Nodes,
    kept: &mut [u32; KEPT],
    walk: &mut Walk<'_>,
) -> Chunk
    requires fine_nodes { FineNodes s.now fields Fields × (fields.from < fields.end) × (length kept.old ≡ 2 * chunk) }
    requires ready { Ready s.now (moment work.now walk.old) }
    ensures effect { FieldsChunk s.now pass fields kept.new (moment work.now walk.old) (moment work.now walk.new) result }
    ensures loans { SameLoans walk.old walk.new }
{
    let end = fields.end;
    let depth = fields.depth;
    let mut count: usize = 0;
    let mut from = fields.from;
    while count < CHUNK {
        if end <= from {
            return Chunk { count, from };
        }
        let head = field_head(s, Nodes { from, end, depth });
        let at = from + FIELD_END;
        let level = depth - 1;
        let inner = Node { at, depth: level };
        let field = convert_node_type(s, pass, work, inner, walk);
        kept[2 * count] = field;
        kept[2 * count + 1] = head.name;
        count += 1;
        from = head.next;
    }
    Chunk { count, from }
}

// The cells of so many fields before the list `rest`, made from the last to the first.
fn make_fields(kept: &[u32; KEPT], count: usize, walk: &mut Walk<'_>, mut rest: u32) -> u32
    requires kept_len { (length kept.now ≡ 2 * chunk) × (count ≤ chunk) }
    requires cells_ok { CellsOk (field_cell kept.now) field_kind count
        walk.old.rows.now walk.old.index.now walk.old.state rest }
    ensures effect { CellsMade (field_cell kept.now) count
        walk.old.rows.now walk.old.index.now walk.old.state rest
        walk.new.rows.now walk.new.index.now (typed result walk.new.state) }
    ensures loans { OnlyRows walk.old walk.new }
{
    let mut left = count;
    while 0 < left {
        left -= 1;
        let ty = kept[2 * left];
        let name = kept[2 * left + 1];
        rest = walk.make(Row::Field { ty, rest, name });
    }
    rest
}

// The cells of some fields: the first are converted, then the others, and then the cells of the first are made.
#[cycle(convert_array_convert_chunk_convert_fields_convert_node_type_convert_others_convert_pointer_convert_struct)]
fn convert_fields(s: &[u8], pass: Pass, work: &[u32], fields: Nodes, walk: &mut Walk<'_>) -> u32
    requires fine_nodes { FineNodes s.now fields Fields }
    requires ready { Ready s.now (moment work.now walk.old) }
    ensures effect { FieldsConverted s.now pass fields (moment work.now walk.old) (moment work.now walk.new) result }
    ensures loans { SameLoans walk.old walk.new }
{
    let end = fields.end;
    if end <= fields.from {
        return 0;
    }
    let mut kept = [0u32; KEPT];
    let first = convert_chunk(s, pass, work, fields, &mut kept, walk);
    let from = first.from;
    let depth = fields.depth;
    let others = Nodes { from, end, depth };
    let rest = convert_others(s, pass, work, others, walk);
    make_fields(&kept, first.count, walk, rest)
}

// The cells of the fields that are left. Mostly none is, and then nothing is called.
#[cycle(convert_array_convert_chunk_convert_fields_convert_node_type_convert_others_convert_pointer_convert_struct)]
fn convert_others(s: &[u8], pass: Pass, work: &[u32], fields: Nodes, walk: &mut Walk<'_>) -> u32
    requires fine_nodes { FineNodes s.now fields Fields }
    requires ready { Ready s.now (moment work.now walk.old) }
    ensures effect { FieldsConverted s.now pass fields (moment work.now walk.old) (moment work.now walk.new) result }
    ensures loans { SameLoans walk.old walk.new }
{
    if fields.end <= fields.from {
        return 0;
    }
    convert_fields(s, pass, work, fields, walk)
}
