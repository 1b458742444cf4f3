// `type_check_compound_assignment`: the slots of a compound's values, and its errors for a target of a type.
#![tactic(auto)]

ghost use Rattle.shape.specs.Shape.{a_compound};
ghost use Rattle.shape.specs.declared.Holds.TheVariants.{CompoundFields};
ghost use Rattle.node.specs.Fine.{FineNode, FineNodes};
ghost use Rattle.relations.specs.TypeRows.{OneType};
ghost use Rattle.walk.specs.Moments.{moment};
ghost use Rattle.walk.specs.Loans.{SameLoans};
ghost use Rattle.convert.specs.Post.{Ready};
ghost use Rattle.compound.specs.Post.{CarriedFieldNodes, CompoundCheckedNode};

use compound_rules::walked::{array_compound, check_repeats, struct_compound};
use expression::{type_check_expression, type_check_expressions};
use names::BuiltIns;
use node::{Node, Nodes, children, enter};
use record_bytes::{FIELD_END, length_at};
use shape::COMPOUND;
use shape::kinds::ARRAY_COMPOUND;
use walk::Walk;

// The values of some fields.
fn type_check_fields(s: &[u8], names: BuiltIns, work: &[u32], list: Nodes, walk: &mut Walk<'_>)
    requires fine_nodes { FineNodes s.now list CompoundFields }
    requires ready { Ready s.now (moment work.now walk.old) }
    ensures effect { CarriedFieldNodes s.now names list (moment work.now walk.old) (moment work.now walk.new) }
    ensures loans { SameLoans walk.old walk.new }
{
    let mut at = list.from;
    while at < list.end {
        let value = Node {
            at: at + FIELD_END,
            depth: list.depth - 1,
        };
        type_check_expression(s, names, work, value, walk);
        at += length_at(s, at);
    }
}

// A C record, for a target of the type row `ty`.
pub fn type_check_compound_assignment(
    s: &[u8],
    names: BuiltIns,
    work: &[u32],
    node: Node,
    ty: u32,
    walk: &mut Walk<'_>,
)
    requires fine_node { FineNode s.now node a_compound }
    requires ready { Ready s.now (moment work.now walk.old) }
    requires one_type { OneType walk.old.rows.now walk.old.state.rows ty }
    ensures effect { CompoundCheckedNode s.now names node ty (moment work.now walk.old) (moment work.now walk.new) }
    ensures loans { SameLoans walk.old walk.new }
{
    let head = enter(s, node, COMPOUND);
    let list = children(head);
    if head.kind == ARRAY_COMPOUND {
        type_check_expressions(s, names, work, list, walk);
        array_compound(s, node.at, ty, list.from, list.end, walk);
    } else {
        type_check_fields(s, names, work, list, walk);
        struct_compound(s, node.at, ty, list.from, list.end, walk);
        check_repeats(s, list.from, list.end, walk);
    }
}
