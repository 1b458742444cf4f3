// Pass 1 of `type_check_module`: the declared types of the items.
#![tactic(auto)]

ghost use Rattle.std.specs.Prelude.{◌≡◌, ◌*◌, ◌≤◌, length};
ghost use Rattle.row_index.specs.Index.{Indexed};
ghost use Rattle.types.specs.Ty.{argument_kind};
ghost use Rattle.types.specs.Table.{Table, IsType};
ghost use Rattle.shape.specs.Kinds as kinds;
ghost use Rattle.shape.specs.Shape.{an_item};
ghost use Rattle.shape.specs.declared.Holds.TheVariants.{Parameters, Items};
ghost use Rattle.names.specs.Names.{name_count};
ghost use Rattle.layout.specs.Layout.{kind_at};
ghost use Rattle.node.specs.Fine.{FineNode, FineNodes};
ghost use Rattle.meaning.specs.Promise.{work_width};
ghost use Rattle.convert.specs.Post.{Ready};
ghost use Rattle.walk.specs.Moments.{moment};
ghost use Rattle.walk.specs.Loans.{SameLoans, OnlyErrors, OnlyRows, SameOutput};
ghost use Rattle.walk.specs.Typed.{typed};
ghost use Rattle.walk.specs.Cells.{CellsMade, CellsOk};
ghost use Rattle.declare.specs.Chunk.{chunk, argument_cell, HasParameter, ParametersChunk};
ghost use Rattle.declare.specs.Declare.{alias_row};
ghost use Rattle.declare.specs.Post.{NamesOne, ParameterEnd, ConvertedParameters, ConvertedFunction};
ghost use Rattle.declare.specs.Post.{InternalCompared, AliasStored, DeclaredNode, DeclaredNodes};

use convert::{Chunk, Pass, convert_node_type};
use fallible::kinds::{
    ALIAS_OF_BUILT_IN, DUPLICATE_ALIAS, INTERNAL_MISMATCH, NO_BUILT_IN_FOR_INTERNAL,
};
use names::BuiltIns;
use node::{Node, Nodes};
use record_bytes::{FIELD_END, FIELDS_END, HEAD_END, KIND, half, length_at, word};
use shape::kinds::{FUNCTION_DEFINITION, GLOBAL_DECLARATION, PARAMETER, TYPE_ALIAS};
use types::Row;
use walk::Walk;

// The flags of an alias, a word of its record: 1 is distinct, and from 2 on it is internal.
const DISTINCT: u32 = 1;

const INTERNAL: u32 = 2;

// The place after the first of some parameters, if one is left.
fn parameter_end(s: &[u8], list: Nodes) -> Option<usize>
    requires { FineNodes s.now list Parameters }
    ensures { ParameterEnd s.now list.depth list.from list.end result }
{
    if list.end <= list.from || half(s, list.from + KIND) != PARAMETER {
        return None;
    }
    Some(list.from + length_at(s, list.from))
}

// How many parameters are converted together; the type row of each is kept.
// `convert` does so with the fields of a struct, inside the cycle of its functions and with two words kept of each: a generic function for
// both would need a trait for the head, the words and the cell of a member, and is no plainer.
const CHUNK: usize = 64;

// The type rows of the first parameters, as many as have room.
fn convert_chunk(
    s: &[u8],
    names: BuiltIns,
    work: &[u32],
    list: Nodes,
    kept: &mut [u32; CHUNK],
    walk: &mut Walk<'_>,
) -> Chunk
    requires fine_nodes { FineNodes s.now list Parameters × HasParameter s.now list × (length kept.old ≡ chunk) }
    requires ready { Ready s.now (moment work.now walk.old) }
    ensures effect { ParametersChunk s.now names list kept.new (moment work.now walk.old) (moment work.now walk.new) result }
    ensures loans { SameLoans walk.old walk.new }
{
    let end = list.end;
    let depth = list.depth;
    let pass = Pass { names, fill: false };
    let mut from = list.from;
    for count in 0..CHUNK {
        let Some(next) = parameter_end(s, Nodes { from, end, depth }) else {
            return Chunk { count, from };
        };
        let at = from + FIELD_END;
        let node = Node {
            at,
            depth: depth - 1,
        };
        kept[count] = convert_node_type(s, pass, work, node, walk);
        from = next;
    }
    Chunk { count: CHUNK, from }
}

// The cells of so many parameters before the list `rest`, made from the last to the first.
fn make_arguments(kept: &[u32; CHUNK], count: usize, walk: &mut Walk<'_>, mut rest: u32) -> u32
    requires kept_len { (length kept.now ≡ chunk) × (count ≤ chunk) }
    requires cells_ok { CellsOk (argument_cell kept.now) argument_kind count
        walk.old.rows.now walk.old.index.now walk.old.state rest }
    ensures effect { CellsMade (argument_cell kept.now) count
        walk.old.rows.now walk.old.index.now walk.old.state rest
        walk.new.rows.now walk.new.index.now (typed result walk.new.state) }
    ensures loans { OnlyRows walk.old walk.new }
{
    for i in (0..count).rev() {
        rest = walk.make(Row::Argument { ty: kept[i], rest });
    }
    rest
}

// The cells of parameters: the first are converted, then the others, and then the cells of the first are made.
// The calls open at a time are bounded by the parameters over `CHUNK`.
#[cycle(convert_others_convert_parameters)]
fn convert_parameters(
    s: &[u8],
    names: BuiltIns,
    work: &[u32],
    list: Nodes,
    walk: &mut Walk<'_>,
) -> u32
    requires fine_nodes { FineNodes s.now list Parameters }
    requires ready { Ready s.now (moment work.now walk.old) }
    ensures effect { ConvertedParameters s.now names list (moment work.now walk.old) (moment work.now walk.new) result }
    ensures loans { SameLoans walk.old walk.new }
{
    if parameter_end(s, list).is_none() {
        return 0;
    }
    let mut kept = [0u32; CHUNK];
    let Chunk { count, from } = convert_chunk(s, names, work, list, &mut kept, walk);
    let others = Nodes { from, ..list };
    let rest = convert_others(s, names, work, others, walk);
    make_arguments(&kept, count, walk, rest)
}

// The cells of the parameters that are left. Mostly none is, and then nothing is called.
#[cycle(convert_others_convert_parameters)]
fn convert_others(s: &[u8], names: BuiltIns, work: &[u32], list: Nodes, walk: &mut Walk<'_>) -> u32
    requires fine_nodes { FineNodes s.now list Parameters }
    requires ready { Ready s.now (moment work.now walk.old) }
    ensures effect { ConvertedParameters s.now names list (moment work.now walk.old) (moment work.now walk.new) result }
    ensures loans { SameLoans walk.old walk.new }
{
    if parameter_end(s, list).is_none() {
        return 0;
    }
    convert_parameters(s, names, work, list, walk)
}

// The type of a function: the returned type, then the cells of the parameters.
fn function_type(s: &[u8], names: BuiltIns, work: &[u32], node: Node, walk: &mut Walk<'_>) -> u32
    requires fine_node { FineNode s.now node an_item }
    requires at_value { kind_at s.now node.at ≡ kinds.function_definition }
    requires ready { Ready s.now (moment work.now walk.old) }
    ensures effect { ConvertedFunction s.now names node (moment work.now walk.old) (moment work.now walk.new) result }
    ensures loans { SameLoans walk.old walk.new }
{
    let end = node.at + length_at(s, node.at);
    let at = node.at + FIELD_END;
    let depth = node.depth - 1;
    let inner = Node { at, depth };
    let from = at + length_at(s, at);
    let list = Nodes { from, end, depth };
    let pass = Pass { names, fill: false };
    let returned = convert_node_type(s, pass, work, inner, walk);
    let arguments = convert_parameters(s, names, work, list, walk);
    walk.make(Row::Function {
        returned,
        arguments,
    })
}

// A function is a global of its type.
fn declare_function(s: &[u8], names: BuiltIns, work: &mut [u32], node: Node, walk: &mut Walk<'_>)
    requires fine_node { FineNode s.now node an_item }
    requires at_value { kind_at s.now node.at ≡ kinds.function_definition }
    requires ready { Ready s.now (moment work.old walk.old) }
    ensures effect { DeclaredNode s.now names node (moment work.old walk.old) (moment work.new walk.new) }
    ensures loans { SameLoans walk.old walk.new }
{
    let function = function_type(s, names, work, node, walk);
    let name = word(s, node.at + HEAD_END);
    walk::set_word(work, name, walk::GLOBAL, function);
}

// A variable is a global of the type that it is declared with.
fn declare_variable(s: &[u8], names: BuiltIns, work: &mut [u32], node: Node, walk: &mut Walk<'_>)
    requires fine_node { FineNode s.now node an_item }
    requires at_value { kind_at s.now node.at ≡ kinds.global_declaration }
    requires ready { Ready s.now (moment work.old walk.old) }
    ensures effect { DeclaredNode s.now names node (moment work.old walk.old) (moment work.new walk.new) }
    ensures loans { SameLoans walk.old walk.new }
{
    let inner = Node {
        at: node.at + FIELD_END,
        depth: node.depth - 1,
    };
    let pass = Pass { names, fill: false };
    let variable = convert_node_type(s, pass, work, inner, walk);
    let name = word(s, node.at + HEAD_END);
    walk::set_word(work, name, walk::GLOBAL, variable);
}

// An internal alias is compared with the built-in type of its name, and not stored.
fn internal_alias(s: &[u8], names: BuiltIns, at: usize, ty: u32, walk: &mut Walk<'_>)
    requires names_one { NamesOne s.now at }
    requires table { Table walk.old.rows.now walk.old.state.rows × IsType walk.old.rows.now walk.old.state.rows ty }
    ensures effect { InternalCompared s.now names at ty
        walk.old.rows.now walk.old.errors.now walk.old.state
        walk.new.errors.now walk.new.state }
    ensures loans { OnlyErrors walk.old walk.new }
{
    let name = word(s, at + HEAD_END);
    let primitive = convert::primitive_type(names, name);
    if primitive < 1 {
        walk.report(convert::error_at(s, at, NO_BUILT_IN_FOR_INTERNAL, name, 0, 0));
        return;
    }
    let count = walk.state.rows;
    let rows = &mut *walk.rows;
    let plain = types::remove_aliasing(rows, count, ty);
    let built_in = types::remove_aliasing(rows, count, primitive);
    if plain != built_in {
        walk.report(convert::error_at(s, at, INTERNAL_MISMATCH, name, ty, 0));
    }
}

// The row of an alias.
fn alias_row(distinct: bool, ty: u32, name: u32) -> Row
    ensures { result ≡ alias_row distinct ty name }
{
    if distinct {
        Row::DistinctAlias { ty, name }
    } else {
        Row::Alias { ty, name }
    }
}

// Stores an alias, unless its name has one or is that of a built-in type.
fn store_alias(
    s: &[u8],
    names: BuiltIns,
    work: &mut [u32],
    at: usize,
    distinct: bool,
    ty: u32,
    walk: &mut Walk<'_>,
)
    requires names_one { NamesOne s.now at }
    requires s_in_bounds { work_width * name_count s.now ≤ length work.old }
    requires table { Table walk.old.rows.now walk.old.state.rows × IsType walk.old.rows.now walk.old.state.rows ty }
    requires indexed { Indexed walk.old.rows.now walk.old.state.rows walk.old.index.now }
    ensures effect { AliasStored s.now names at distinct ty
        work.old walk.old.errors.now walk.old.rows.now walk.old.index.now walk.old.state
        work.new walk.new.errors.now walk.new.rows.now walk.new.index.now walk.new.state }
    ensures loans { SameOutput walk.old walk.new }
{
    let name = word(s, at + HEAD_END);
    let earlier = walk::word_of(work, name, walk::ALIAS);
    if 0 < earlier {
        walk.report(convert::error_at(s, at, DUPLICATE_ALIAS, name, 0, 0));
        return;
    }
    let primitive = convert::primitive_type(names, name);
    if 0 < primitive {
        walk.report(convert::error_at(s, at, ALIAS_OF_BUILT_IN, name, 0, 0));
        return;
    }
    let alias = walk.make(alias_row(distinct, ty, name));
    walk::set_word(work, name, walk::ALIAS, alias);
}

// An alias, after the type that it is declared with.
fn declare_alias(s: &[u8], names: BuiltIns, work: &mut [u32], node: Node, walk: &mut Walk<'_>)
    requires fine_node { FineNode s.now node an_item }
    requires at_value { kind_at s.now node.at ≡ kinds.type_alias }
    requires ready { Ready s.now (moment work.old walk.old) }
    ensures effect { DeclaredNode s.now names node (moment work.old walk.old) (moment work.new walk.new) }
    ensures loans { SameLoans walk.old walk.new }
{
    let at = node.at;
    let flags = word(s, at + FIELD_END);
    let inner = Node {
        at: at + FIELDS_END,
        depth: node.depth - 1,
    };
    let pass = Pass { names, fill: false };
    let ty = convert_node_type(s, pass, work, inner, walk);
    if INTERNAL <= flags {
        internal_alias(s, names, at, ty, walk)
    } else {
        store_alias(s, names, work, at, flags == DISTINCT, ty, walk)
    }
}

// An item.
fn declare_item(s: &[u8], names: BuiltIns, work: &mut [u32], node: Node, walk: &mut Walk<'_>)
    requires fine_node { FineNode s.now node an_item }
    requires ready { Ready s.now (moment work.old walk.old) }
    ensures effect { DeclaredNode s.now names node (moment work.old walk.old) (moment work.new walk.new) }
    ensures loans { SameLoans walk.old walk.new }
{
    match half(s, node.at + KIND) {
        FUNCTION_DEFINITION => declare_function(s, names, work, node, walk),
        TYPE_ALIAS => declare_alias(s, names, work, node, walk),
        GLOBAL_DECLARATION => declare_variable(s, names, work, node, walk),
        _ => {}
    }
}

// Pass 1 over items, in order: each with the aliases stored so far.
pub fn declare_items(s: &[u8], names: BuiltIns, work: &mut [u32], list: Nodes, walk: &mut Walk<'_>)
    requires fine_nodes { FineNodes s.now list Items }
    requires ready { Ready s.now (moment work.old walk.old) }
    ensures effect { DeclaredNodes s.now names list (moment work.old walk.old) (moment work.new walk.new) }
    ensures loans { SameLoans walk.old walk.new }
{
    let depth = list.depth;
    let mut at = list.from;
    while at < list.end {
        let node = Node { at, depth };
        declare_item(s, names, work, node, walk);
        at += length_at(s, at);
    }
}
