// `type_check_statement`: a statement's slots and errors, and the locals that it declares.
#![tactic(auto)]

ghost use Rattle.std.specs.Prelude.{◌≡◌, ◌-◌, ◌<◌, ◌≤◌, length};
ghost use Rattle.shape.specs.Kinds as kinds;
ghost use Rattle.shape.specs.Shape.{an_expression, a_statement};
ghost use Rattle.shape.specs.declared.Holds.TheVariants.{Statements};
ghost use Rattle.record_bytes.specs.Bytes.{word_at, head_end, field_end};
ghost use Rattle.layout.specs.Layout.{kind_at};
ghost use Rattle.node.specs.Fine.{FineRecord, FineNode, FineNodes, node_of};
ghost use Rattle.relations.specs.TypeRows.{OneType};
ghost use Rattle.walk.specs.Words.{word_place};
ghost use Rattle.walk.specs.Moments.{moment};
ghost use Rattle.walk.specs.Loans.{SameLoans, OnlyErrors};
ghost use Rattle.walk.specs.Typed.{typed};
ghost use Rattle.convert.specs.Post.{Ready};
ghost use Rattle.divergence.specs.InnerStatements.{InnerOf};
ghost use Rattle.statement.specs.Post.{LocalDeclared, ReturnedNothing, ConditionChecked, NodeCheckedForAny};
ghost use Rattle.statement.specs.Post.{NodeChecked, NodesChecked, OwnPartsChecked};

use compound::type_check_compound_assignment;
use convert::{Pass, convert_node_type, error_at};
use divergence::inner_statements;
use expression::type_check_expression;
use expression_rules::walked::{check_types_are_assignable, report_unless};
use fallible::kinds::{LOCAL_REDEFINED, RETURN_NEEDS_VALUE};
use initial_value::{Value, type_check_initial};
use names::BuiltIns;
use node::{Entered, Node, Nodes, children};
use record_bytes::{FIELD_END, HEAD_END, length_at, word};
use shape::kinds::{
    ASSIGNMENT, COMPOUND_ASSIGNMENT, EXPRESSION_STATEMENT, IF_STATEMENT, RETURN,
    VARIABLE_DECLARATION, WHILE,
};
use walk::{LOCAL, Walk, set_word, word_of};

// What stays the same in a function: the numbers of the built-in names, and the row of the type that it returns.
#[derive(Clone, Copy)]
pub struct Function {
    pub names: BuiltIns,
    pub returned: u32,
}

// Enters a local of the type row `ty`, unless there is one of that name already. The row that its value is compared
// with: `ty` either way.
fn declare_local(s: &[u8], at: usize, ty: u32, work: &mut [u32], walk: &mut Walk<'_>) -> u32
    requires { (field_end at ≤ length s.now) × (word_place (word_at s.now (head_end at)) 2 < length work.old) }
    ensures effect { LocalDeclared s.now at ty
        work.old walk.old.errors.now walk.old.state
        work.new walk.new.errors.now (typed result walk.new.state) }
    ensures loans { OnlyErrors walk.old walk.new }
{
    let name = word(s, at + HEAD_END);
    let earlier = word_of(work, name, LOCAL);
    if 0 < earlier {
        walk.report(error_at(s, at, LOCAL_REDEFINED, name, 0, 0));
        return ty;
    }
    set_word(work, name, LOCAL, ty);
    ty
}

// A declaration: its type, the local, its value.
fn variable_declaration(
    s: &[u8],
    names: BuiltIns,
    work: &mut [u32],
    node: Node,
    walk: &mut Walk<'_>,
)
    requires fine_node { FineNode s.now node a_statement × (kind_at s.now node.at ≡ kinds.variable_declaration) }
    requires ready { Ready s.now (moment work.old walk.old) }
    ensures effect { NodeCheckedForAny s.now names node (moment work.old walk.old) (moment work.new walk.new) }
    ensures loans { SameLoans walk.old walk.new }
{
    let at = node.at + FIELD_END;
    let depth = node.depth - 1;
    let pass = Pass { names, fill: true };
    let declared = convert_node_type(s, pass, work, Node { at, depth }, walk);
    let ty = declare_local(s, node.at, declared, work, walk);
    let value = Value {
        from: at + length_at(s, at),
        end: node.at + length_at(s, node.at),
        depth,
        ty,
        compare: true,
    };
    type_check_initial(s, names, work, value, walk);
}

// An expression as a statement.
fn expression_statement(s: &[u8], names: BuiltIns, work: &[u32], node: Node, walk: &mut Walk<'_>)
    requires fine_node { FineNode s.now node a_statement × (kind_at s.now node.at ≡ kinds.expression_statement) }
    requires ready { Ready s.now (moment work.now walk.old) }
    ensures effect { NodeCheckedForAny s.now names node (moment work.now walk.old) (moment work.now walk.new) }
    ensures loans { SameLoans walk.old walk.new }
{
    let value = Node {
        at: node.at + HEAD_END,
        depth: node.depth - 1,
    };
    type_check_expression(s, names, work, value, walk);
}

// An assignment: its target, its value, and the one compared with the other.
fn assignment(s: &[u8], names: BuiltIns, work: &[u32], node: Node, walk: &mut Walk<'_>)
    requires fine_node { FineNode s.now node a_statement × (kind_at s.now node.at ≡ kinds.assignment) }
    requires ready { Ready s.now (moment work.now walk.old) }
    ensures effect { NodeCheckedForAny s.now names node (moment work.now walk.old) (moment work.now walk.new) }
    ensures loans { SameLoans walk.old walk.new }
{
    let at = node.at + HEAD_END;
    let depth = node.depth - 1;
    let target = type_check_expression(s, names, work, Node { at, depth }, walk);
    let place = at + length_at(s, at);
    let value = type_check_expression(s, names, work, Node { at: place, depth }, walk);
    check_types_are_assignable(s, node.at, target, value, walk);
}

// An assignment of a compound: its target, then the compound for that.
fn compound_assignment(s: &[u8], names: BuiltIns, work: &[u32], node: Node, walk: &mut Walk<'_>)
    requires fine_node { FineNode s.now node a_statement × (kind_at s.now node.at ≡ kinds.compound_assignment) }
    requires ready { Ready s.now (moment work.now walk.old) }
    ensures effect { NodeCheckedForAny s.now names node (moment work.now walk.old) (moment work.now walk.new) }
    ensures loans { SameLoans walk.old walk.new }
{
    let at = node.at + HEAD_END;
    let depth = node.depth - 1;
    let target = type_check_expression(s, names, work, Node { at, depth }, walk);
    let place = at + length_at(s, at);
    type_check_compound_assignment(s, names, work, Node { at: place, depth }, target, walk);
}

// A return without a value, where the type row `returned` is to be returned: permitted for void itself, not for an
// alias of it.
fn return_without_value(s: &[u8], at: usize, returned: u32, walk: &mut Walk<'_>)
    requires { (head_end at ≤ length s.now) × OneType walk.old.rows.now walk.old.state.rows returned }
    ensures effect { ReturnedNothing s.now at returned
        walk.old.rows.now walk.old.errors.now walk.old.state
        walk.new.errors.now walk.new.state }
    ensures loans { OnlyErrors walk.old walk.new }
{
    let count = walk.state.rows;
    let rows = &mut *walk.rows;
    let holds = types::kind(rows, count, returned) == types::VOID;
    report_unless(holds, s, at, RETURN_NEEDS_VALUE, returned, 0, 0, walk);
}

// A return: with a value of the type that the function returns, or without one.
fn return_statement(s: &[u8], function: Function, work: &[u32], node: Node, walk: &mut Walk<'_>)
    requires fine_node { FineNode s.now node a_statement × (kind_at s.now node.at ≡ kinds.return) }
    requires ready { Ready s.now (moment work.now walk.old) }
    requires one_type { OneType walk.old.rows.now walk.old.state.rows function.returned }
    ensures effect { NodeChecked s.now function node (moment work.now walk.old) (moment work.now walk.new) }
    ensures loans { SameLoans walk.old walk.new }
{
    if length_at(s, node.at) <= HEAD_END {
        return_without_value(s, node.at, function.returned, walk);
        return;
    }
    let value = Node {
        at: node.at + HEAD_END,
        depth: node.depth - 1,
    };
    let ty = type_check_expression(s, function.names, work, value, walk);
    check_types_are_assignable(s, node.at, function.returned, ty, walk);
}

// The condition of a while or an if.
fn condition(s: &[u8], names: BuiltIns, work: &[u32], node: Node, walk: &mut Walk<'_>)
    requires fine_record { FineRecord s.now (node.depth - 1) (head_end node.at) (length s.now) an_expression }
    requires ready { Ready s.now (moment work.now walk.old) }
    ensures effect { ConditionChecked s.now names node (moment work.now walk.old) (moment work.now walk.new) }
    ensures loans { SameLoans walk.old walk.new }
{
    let value = Node {
        at: node.at + HEAD_END,
        depth: node.depth - 1,
    };
    let ty = type_check_expression(s, names, work, value, walk);
    check_types_are_assignable(s, node.at, types::BOOL, ty, walk);
}

// What a statement has besides the statements that it holds, which come after it.
fn own_parts(s: &[u8], function: Function, work: &mut [u32], inner: Entered, walk: &mut Walk<'_>)
    requires fine_node { FineNode s.now (node_of inner) a_statement × InnerOf s.now (node_of inner) inner }
    requires ready { Ready s.now (moment work.old walk.old) }
    requires one_type { OneType walk.old.rows.now walk.old.state.rows function.returned }
    ensures effect { OwnPartsChecked s.now function inner (moment work.old walk.old) (moment work.new walk.new) }
    ensures loans { SameLoans walk.old walk.new }
{
    let names = function.names;
    let node = Node {
        at: inner.at,
        depth: inner.depth,
    };
    match inner.kind {
        EXPRESSION_STATEMENT => expression_statement(s, names, work, node, walk),
        VARIABLE_DECLARATION => variable_declaration(s, names, work, node, walk),
        ASSIGNMENT => assignment(s, names, work, node, walk),
        COMPOUND_ASSIGNMENT => compound_assignment(s, names, work, node, walk),
        RETURN => return_statement(s, function, work, node, walk),
        WHILE | IF_STATEMENT => condition(s, names, work, node, walk),
        _ => {}
    }
}

// An S record, in a function.
#[cycle(type_check_block_type_check_statement)]
pub fn type_check_statement(
    s: &[u8],
    function: Function,
    work: &mut [u32],
    node: Node,
    walk: &mut Walk<'_>,
)
    requires fine_node { FineNode s.now node a_statement }
    requires ready { Ready s.now (moment work.old walk.old) }
    requires one_type { OneType walk.old.rows.now walk.old.state.rows function.returned }
    ensures effect { NodeChecked s.now function node (moment work.old walk.old) (moment work.new walk.new) }
    ensures loans { SameLoans walk.old walk.new }
{
    let inner = inner_statements(s, node);
    own_parts(s, function, work, inner, walk);
    type_check_block(s, function, work, children(inner), walk);
}

// Some statements, one after the other.
#[cycle(type_check_block_type_check_statement)]
fn type_check_block(
    s: &[u8],
    function: Function,
    work: &mut [u32],
    list: Nodes,
    walk: &mut Walk<'_>,
)
    requires fine_nodes { FineNodes s.now list Statements }
    requires ready { Ready s.now (moment work.old walk.old) }
    requires one_type { OneType walk.old.rows.now walk.old.state.rows function.returned }
    ensures effect { NodesChecked s.now function list (moment work.old walk.old) (moment work.new walk.new) }
    ensures loans { SameLoans walk.old walk.new }
{
    let depth = list.depth;
    let mut at = list.from;
    while at < list.end {
        type_check_statement(s, function, work, Node { at, depth }, walk);
        at += length_at(s, at);
    }
}
