// Pass 2: the slots and the errors of items, one at a time.
#![tactic(auto)]

ghost use Rattle.std.specs.Prelude.{◌*◌, ◌≤◌, ◌≡◌, ◌||◌, eqb, length};
ghost use Rattle.shape.specs.Kinds as kinds;
ghost use Rattle.shape.specs.Shape.{a_statement, an_item};
ghost use Rattle.shape.specs.declared.Holds.TheVariants.{Parameters, Items};
ghost use Rattle.record_bytes.specs.Bytes.{field_end};
ghost use Rattle.names.specs.Names.{name_count};
ghost use Rattle.layout.specs.Layout.{kind_at};
ghost use Rattle.node.specs.Fine.{FineNode, FineNodes};
ghost use Rattle.trees.specs.Record.{statement_at};
ghost use Rattle.relations.specs.TypeRows.{OneType};
ghost use Rattle.meaning.specs.Divergence.{do_all_paths_diverge};
ghost use Rattle.meaning.specs.Promise.{work_width};
ghost use Rattle.convert.specs.Post.{Ready};
ghost use Rattle.walk.specs.Moments.{moment};
ghost use Rattle.walk.specs.Loans.{SameLoans};
ghost use Rattle.items.specs.Post.{BodyLeft, NodesLeft, CheckedParameters, CheckedBody, Cleared, ClearedFunction};
ghost use Rattle.items.specs.Post.{ItemNodeChecked, ItemNodesChecked};

use clear_locals::{clear_parameters, clear_statement};
use convert::{Pass, convert_node_type};
use divergence::do_all_paths_diverge;
use expression_rules::walked::report_unless;
use fallible::kinds::PATHS_WITHOUT_RETURN;
use initial_value::{Value, type_check_initial};
use names::BuiltIns;
use node::{Node, Nodes};
use record_bytes::{FIELD_END, FIELDS_END, HEAD_END, KIND, half, length_at, word};
use shape::kinds::{FUNCTION_DEFINITION, GLOBAL_DECLARATION, PARAMETER, TYPE_ALIAS};
use statement::{Function, type_check_statement};
use walk::Walk;

// What is left of the function at `at` after its parameters: its body, or nothing.
#[derive(Clone, Copy)]
struct Body {
    at: usize,
    left: Nodes,
}

// Parameters, in order: their slots, and the words of arguments. What is left after them is the body.
fn type_check_parameters(
    s: &[u8],
    names: BuiltIns,
    work: &mut [u32],
    list: Nodes,
    walk: &mut Walk<'_>,
) -> usize
    requires fine_nodes { FineNodes s.now list Parameters }
    requires ready { Ready s.now (moment work.old walk.old) }
    ensures effect { CheckedParameters s.now names list result (moment work.old walk.old) (moment work.new walk.new) }
    ensures loans { SameLoans walk.old walk.new }
{
    let pass = Pass { names, fill: true };
    let mut at = list.from;
    while at < list.end && half(s, at + KIND) == PARAMETER {
        let node = Node {
            at: at + FIELD_END,
            depth: list.depth - 1,
        };
        let converted = convert_node_type(s, pass, work, node, walk);
        let name = word(s, at + HEAD_END);
        walk::set_word(work, name, walk::ARGUMENT, converted);
        at += length_at(s, at);
    }
    at
}

// Whether a body needs no return: void itself is returned, which is row 2, or all paths diverge.
fn needs_no_return(s: &[u8], node: Node, returned: u32) -> bool
    requires { FineNode s.now node a_statement }
    ensures { result ≡ (eqb returned 2 || do_all_paths_diverge (statement_at s.now node.depth node.at)) }
{
    returned == types::VOID || do_all_paths_diverge(s, node)
}

// The body of a function, if it has one.
fn type_check_body(s: &[u8], function: Function, work: &mut [u32], body: Body, walk: &mut Walk<'_>)
    requires at_in_bounds { (field_end body.at ≤ length s.now) × NodesLeft s.now body.left }
    requires ready { Ready s.now (moment work.old walk.old) }
    requires one_type { OneType walk.old.rows.now walk.old.state.rows function.returned }
    ensures effect { CheckedBody s.now function body (moment work.old walk.old) (moment work.new walk.new) }
    ensures loans { SameLoans walk.old walk.new }
{
    let left = body.left;
    if left.end <= left.from {
        return;
    }
    let node = Node {
        at: left.from,
        depth: left.depth,
    };
    type_check_statement(s, function, work, node, walk);
    let name = word(s, body.at + HEAD_END);
    let holds = needs_no_return(s, node, function.returned);
    report_unless(holds, s, body.at, PATHS_WITHOUT_RETURN, name, 0, 0, walk)
}

// Clears the words of locals and arguments of all names, which stand side by side.
fn clear_all_locals(work: &mut [u32])
    ensures { Cleared work.old work.new }
{
    for i in (walk::LOCAL..work.len()).step_by(walk::WORK_WIDTH) {
        work[i] = 0;
        if i + 1 < work.len() {
            work[i + 1] = 0;
        }
    }
}

// Clears the words of a function's arguments and locals: its parameters, and the body at `body` after them.
// Where the words are no more than these bytes, those of all names are cleared, else those of the names declared there.
fn clear_function(s: &[u8], parameters: Nodes, body: usize, work: &mut [u32])
    requires fine_nodes { FineNodes s.now parameters Parameters }
    requires body_left { BodyLeft s.now parameters.depth body parameters.end }
    requires s_in_bounds { work_width * name_count s.now ≤ length work.old }
    ensures { ClearedFunction s.now parameters body work.old work.new }
{
    if work.len() <= parameters.end - parameters.from {
        clear_all_locals(work);
        return;
    }
    clear_parameters(s, parameters, work);
    if body < parameters.end {
        let node = Node {
            at: body,
            depth: parameters.depth,
        };
        clear_statement(s, node, work)
    }
}

// A function: its parameters, then the type that it returns, then its body.
fn type_check_function(s: &[u8], names: BuiltIns, work: &mut [u32], node: Node, walk: &mut Walk<'_>)
    requires fine_node { FineNode s.now node an_item × (kind_at s.now node.at ≡ kinds.function_definition) }
    requires ready { Ready s.now (moment work.old walk.old) }
    ensures effect { ItemNodeChecked s.now names node (moment work.old walk.old) (moment work.new walk.new) }
    ensures loans { SameLoans walk.old walk.new }
{
    let end = node.at + length_at(s, node.at);
    let at = node.at + FIELD_END;
    let depth = node.depth - 1;
    let first = Node { at, depth };
    let from = at + length_at(s, at);
    let parameters = Nodes { from, end, depth };
    let from = type_check_parameters(s, names, work, parameters, walk);
    let pass = Pass { names, fill: true };
    let returned = convert_node_type(s, pass, work, first, walk);
    let function = Function { names, returned };
    let left = Nodes { from, end, depth };
    let body = Body { at: node.at, left };
    type_check_body(s, function, work, body, walk);
    clear_function(s, parameters, from, work);
}

// An alias: the type that it is declared with.
fn type_check_alias(s: &[u8], names: BuiltIns, work: &[u32], node: Node, walk: &mut Walk<'_>)
    requires fine_node { FineNode s.now node an_item × (kind_at s.now node.at ≡ kinds.type_alias) }
    requires ready { Ready s.now (moment work.now walk.old) }
    ensures effect { ItemNodeChecked s.now names node (moment work.now walk.old) (moment work.now walk.new) }
    ensures loans { SameLoans walk.old walk.new }
{
    let first = Node {
        at: node.at + FIELDS_END,
        depth: node.depth - 1,
    };
    let pass = Pass { names, fill: true };
    convert_node_type(s, pass, work, first, walk);
}

// A variable: its type, then its value, of which only a compound is compared with the type.
fn type_check_variable(s: &[u8], names: BuiltIns, work: &[u32], node: Node, walk: &mut Walk<'_>)
    requires fine_node { FineNode s.now node an_item × (kind_at s.now node.at ≡ kinds.global_declaration) }
    requires ready { Ready s.now (moment work.now walk.old) }
    ensures effect { ItemNodeChecked s.now names node (moment work.now walk.old) (moment work.now walk.new) }
    ensures loans { SameLoans walk.old walk.new }
{
    let end = node.at + length_at(s, node.at);
    let at = node.at + FIELD_END;
    let depth = node.depth - 1;
    let first = Node { at, depth };
    let pass = Pass { names, fill: true };
    let ty = convert_node_type(s, pass, work, first, walk);
    let from = at + length_at(s, at);
    let value = Value {
        from,
        end,
        depth,
        ty,
        compare: false,
    };
    type_check_initial(s, names, work, value, walk)
}

// An item.
fn type_check_item(s: &[u8], names: BuiltIns, work: &mut [u32], node: Node, walk: &mut Walk<'_>)
    requires fine_node { FineNode s.now node an_item }
    requires ready { Ready s.now (moment work.old walk.old) }
    ensures effect { ItemNodeChecked s.now names node (moment work.old walk.old) (moment work.new walk.new) }
    ensures loans { SameLoans walk.old walk.new }
{
    match half(s, node.at + KIND) {
        FUNCTION_DEFINITION => type_check_function(s, names, work, node, walk),
        TYPE_ALIAS => type_check_alias(s, names, work, node, walk),
        GLOBAL_DECLARATION => type_check_variable(s, names, work, node, walk),
        _ => {}
    }
}

// Items, in order.
pub fn type_check_items(
    s: &[u8],
    names: BuiltIns,
    work: &mut [u32],
    list: Nodes,
    walk: &mut Walk<'_>,
)
    requires fine_nodes { FineNodes s.now list Items }
    requires ready { Ready s.now (moment work.old walk.old) }
    ensures effect { ItemNodesChecked s.now names list (moment work.old walk.old) (moment work.new walk.new) }
    ensures loans { SameLoans walk.old walk.new }
{
    let depth = list.depth;
    let mut at = list.from;
    while at < list.end {
        let node = Node { at, depth };
        type_check_item(s, names, work, node, walk);
        at += length_at(s, at);
    }
}
