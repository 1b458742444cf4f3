// `type_check_expression`: the type that an expression carries, its errors, and its slots.
#![tactic(auto)]

ghost use Rattle.std.specs.Prelude.{◌≡◌};
ghost use Rattle.shape.specs.Kinds as kinds;
ghost use Rattle.shape.specs.Shape.{an_expression};
ghost use Rattle.shape.specs.declared.Holds.TheVariants.{Expressions};
ghost use Rattle.layout.specs.Layout.{kind_at};
ghost use Rattle.node.specs.Fine.{FineNode, FineNodes, node_of};
ghost use Rattle.walk.specs.Moments.{moment};
ghost use Rattle.walk.specs.Loans.{SameLoans, SameRows};
ghost use Rattle.walk.specs.Typed.{typed};
ghost use Rattle.convert.specs.Post.{Ready};
ghost use Rattle.expression.specs.Post.{LeafIn, LeafReady, LeafCarried, OneOperandIn, TwoOperandsIn};
ghost use Rattle.expression.specs.Post.{CarriedNode, CarriedNodes};

use call_rules::walked::call_result;
use convert::{Pass, convert_node_type};
use expression_rules::walked::{binary, identifier, integer, unary};
use names::BuiltIns;
use node::{Entered, Node, Nodes, enter, inside};
use record_bytes::{FIELD_END, KIND, half, length_at};
use shape::EXPRESSION;
use shape::kinds::{
    BOOLEAN, BOOLEAN_NOT, CALL, CAST, IDENTIFIER, INTEGER, POINTER_TAKE, SIZEOF, STRING,
};
use walk::Walk;

// An expression without parts.
fn leaf(s: &[u8], work: &[u32], node: Node, kind: u32, walk: &mut Walk<'_>) -> u32
    requires leaf_in { LeafIn s.now node kind }
    requires leaf_ready { LeafReady s.now work.now walk.old.output.now walk.old.index.now }
    ensures effect { LeafCarried s.now node work.now
        walk.old.output.now walk.old.errors.now walk.old.state
        walk.new.output.now walk.new.errors.now (typed result walk.new.state) }
    ensures loans { SameRows walk.old walk.new }
{
    let ty = match kind {
        IDENTIFIER => identifier(s, work, node.at, walk),
        INTEGER => integer(s, node.at, walk),
        BOOLEAN => types::BOOL,
        _ => types::STRING,
    };
    walk.put_slot(node.at, ty);
    ty
}

// The size of a type.
fn sizeof(s: &[u8], names: BuiltIns, work: &[u32], node: Node, walk: &mut Walk<'_>) -> u32
    requires fine_node { FineNode s.now node an_expression × (kind_at s.now node.at ≡ kinds.sizeof) }
    requires ready { Ready s.now (moment work.now walk.old) }
    ensures effect { CarriedNode s.now names node (moment work.now walk.old) (moment work.now walk.new) result }
    ensures loans { SameLoans walk.old walk.new }
{
    let pass = Pass { names, fill: true };
    let inner = Node {
        at: node.at + FIELD_END,
        depth: node.depth - 1,
    };
    convert_node_type(s, pass, work, inner, walk);
    walk.put_slot(node.at, types::U16);
    types::U16
}

// The type that an E record carries.
#[cycle(call_cast_one_operand_two_operands_type_check_expression_type_check_expressions)]
pub fn type_check_expression(
    s: &[u8],
    names: BuiltIns,
    work: &[u32],
    node: Node,
    walk: &mut Walk<'_>,
) -> u32
    requires fine_node { FineNode s.now node an_expression }
    requires ready { Ready s.now (moment work.now walk.old) }
    ensures effect { CarriedNode s.now names node (moment work.now walk.old) (moment work.now walk.new) result }
    ensures loans { SameLoans walk.old walk.new }
{
    let kind = half(s, node.at + KIND);
    if kind <= STRING {
        return leaf(s, work, node, kind, walk);
    }
    let head = enter(s, node, EXPRESSION);
    match head.kind {
        CALL => call(s, names, work, node, walk),
        CAST => cast(s, names, work, node, walk),
        SIZEOF => sizeof(s, names, work, node, walk),
        POINTER_TAKE..=BOOLEAN_NOT => one_operand(s, names, work, head, walk),
        _ => two_operands(s, names, work, head, walk),
    }
}

// An operator on one operand.
#[cycle(call_cast_one_operand_two_operands_type_check_expression_type_check_expressions)]
fn one_operand(s: &[u8], names: BuiltIns, work: &[u32], head: Entered, walk: &mut Walk<'_>) -> u32
    requires one_operand_in { OneOperandIn s.now head }
    requires ready { Ready s.now (moment work.now walk.old) }
    ensures effect { CarriedNode s.now names (node_of head) (moment work.now walk.old) (moment work.now walk.new) result }
    ensures loans { SameLoans walk.old walk.new }
{
    let operand = type_check_expression(s, names, work, inside(head), walk);
    let ty = unary(head.kind, s, head.at, operand, walk);
    walk.put_slot(head.at, ty);
    ty
}

// An operator on two operands.
#[cycle(call_cast_one_operand_two_operands_type_check_expression_type_check_expressions)]
fn two_operands(s: &[u8], names: BuiltIns, work: &[u32], head: Entered, walk: &mut Walk<'_>) -> u32
    requires two_operands_in { TwoOperandsIn s.now head }
    requires ready { Ready s.now (moment work.now walk.old) }
    ensures effect { CarriedNode s.now names (node_of head) (moment work.now walk.old) (moment work.now walk.new) result }
    ensures loans { SameLoans walk.old walk.new }
{
    let at = head.start;
    let depth = head.depth - 1;
    let first = Node { at, depth };
    let left = type_check_expression(s, names, work, first, walk);
    let place = at + length_at(s, at);
    let second = Node { at: place, depth };
    let right = type_check_expression(s, names, work, second, walk);
    let ty = binary(head.kind, s, head.at, left, place, right, walk);
    walk.put_slot(head.at, ty);
    ty
}

// A cast.
#[cycle(call_cast_one_operand_two_operands_type_check_expression_type_check_expressions)]
fn cast(s: &[u8], names: BuiltIns, work: &[u32], node: Node, walk: &mut Walk<'_>) -> u32
    requires fine_node { FineNode s.now node an_expression × (kind_at s.now node.at ≡ kinds.cast) }
    requires ready { Ready s.now (moment work.now walk.old) }
    ensures effect { CarriedNode s.now names node (moment work.now walk.old) (moment work.now walk.new) result }
    ensures loans { SameLoans walk.old walk.new }
{
    let at = node.at + FIELD_END;
    let depth = node.depth - 1;
    let first = Node { at, depth };
    let value = type_check_expression(s, names, work, first, walk);
    let place = at + length_at(s, at);
    let second = Node { at: place, depth };
    let pass = Pass { names, fill: true };
    let ty = convert_node_type(s, pass, work, second, walk);
    expression_rules::walked::cast(s, node.at, value, ty, walk);
    walk.put_slot(node.at, ty);
    ty
}

// A call.
#[cycle(call_cast_one_operand_two_operands_type_check_expression_type_check_expressions)]
fn call(s: &[u8], names: BuiltIns, work: &[u32], node: Node, walk: &mut Walk<'_>) -> u32
    requires fine_node { FineNode s.now node an_expression × (kind_at s.now node.at ≡ kinds.call) }
    requires ready { Ready s.now (moment work.now walk.old) }
    ensures effect { CarriedNode s.now names node (moment work.now walk.old) (moment work.now walk.new) result }
    ensures loans { SameLoans walk.old walk.new }
{
    let at = node.at + FIELD_END;
    let depth = node.depth - 1;
    let first = Node { at, depth };
    let target = type_check_expression(s, names, work, first, walk);
    let from = at + length_at(s, at);
    let end = node.at + length_at(s, node.at);
    let arguments = Nodes { from, end, depth };
    type_check_expressions(s, names, work, arguments, walk);
    let ty = call_result(s, node.at, target, from, end, walk);
    walk.put_slot(node.at, ty);
    ty
}

// Some expressions, one after the other: the types that they carry are in their slots.
#[cycle(call_cast_one_operand_two_operands_type_check_expression_type_check_expressions)]
pub fn type_check_expressions(
    s: &[u8],
    names: BuiltIns,
    work: &[u32],
    list: Nodes,
    walk: &mut Walk<'_>,
)
    requires fine_nodes { FineNodes s.now list Expressions }
    requires ready { Ready s.now (moment work.now walk.old) }
    ensures effect { CarriedNodes s.now names list (moment work.now walk.old) (moment work.now walk.new) }
    ensures loans { SameLoans walk.old walk.new }
{
    let depth = list.depth;
    let mut at = list.from;
    while at < list.end {
        type_check_expression(s, names, work, Node { at, depth }, walk);
        at += length_at(s, at);
    }
}
