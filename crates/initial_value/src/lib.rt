// The value that a variable starts with.
#![tactic(auto)]

ghost use Rattle.node.specs.Fine.{FineList};
ghost use Rattle.shape.specs.declared.Holds.TheVariants.{InitialValue};
ghost use Rattle.relations.specs.TypeRows.{OneType};
ghost use Rattle.walk.specs.Moments.{moment};
ghost use Rattle.walk.specs.Loans.{SameLoans};
ghost use Rattle.convert.specs.Post.{Ready};
ghost use Rattle.initial_value.specs.Post.{ValueChecked};

use compound::type_check_compound_assignment;
use expression::type_check_expression;
use expression_rules::walked::check_types_are_assignable;
use names::BuiltIns;
use node::Node;
use record_bytes::{KIND, half};
use shape::kinds::ARRAY_COMPOUND;
use walk::Walk;

// A variable's value, if there is one: where it starts and ends, the levels that are left for it, the type row of the
// variable, and whether a plain value is compared with that type; a compound is in any case.
#[derive(Clone, Copy)]
pub struct Value {
    pub from: usize,
    pub end: usize,
    pub depth: usize,
    pub ty: u32,
    pub compare: bool,
}

// The value of a variable.
pub fn type_check_initial(
    s: &[u8],
    names: BuiltIns,
    work: &[u32],
    value: Value,
    walk: &mut Walk<'_>,
)
    requires fine_list { FineList s.now value.depth value.from value.end InitialValue }
    requires ready { Ready s.now (moment work.now walk.old) }
    requires one_type { OneType walk.old.rows.now walk.old.state.rows value.ty }
    ensures effect { ValueChecked s.now names value (moment work.now walk.old) (moment work.now walk.new) }
    ensures loans { SameLoans walk.old walk.new }
{
    if value.end <= value.from {
        return;
    }
    let node = Node {
        at: value.from,
        depth: value.depth,
    };
    if ARRAY_COMPOUND <= half(s, node.at + KIND) {
        type_check_compound_assignment(s, names, work, node, value.ty, walk);
        return;
    }
    let ty = type_check_expression(s, names, work, node, walk);
    if value.compare {
        check_types_are_assignable(s, node.at, value.ty, ty, walk);
    }
}
