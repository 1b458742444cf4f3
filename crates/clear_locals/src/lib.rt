// Clears the working words of the names that a function declares, and no others.
#![tactic(auto)]

ghost use Rattle.std.specs.Prelude.{◌*◌, ◌≤◌, ◌≡◌, length};
ghost use Rattle.shape.specs.Shape.{a_statement};
ghost use Rattle.shape.specs.declared.Holds.TheVariants.{Statements, Parameters};
ghost use Rattle.names.specs.Names.{name_count};
ghost use Rattle.node.specs.Fine.{FineNode, FineNodes};
ghost use Rattle.trees.specs.Record.{statement_at, statements_at, parameters_at};
ghost use Rattle.meaning.specs.Statement.{declared_names};
ghost use Rattle.meaning.specs.Promise.{work_width};
ghost use Rattle.clear_locals.specs.Cleared.{parameter_names, cleared_words};

use divergence::inner_statements;
use node::{Node, Nodes, children};
use record_bytes::{HEAD_END, KIND, half, length_at, word};
use shape::kinds::{PARAMETER, VARIABLE_DECLARATION};

// Clears the word of the argument of each parameter.
pub fn clear_parameters(s: &[u8], parameters: Nodes, work: &mut [u32])
    requires fine_nodes { FineNodes s.now parameters Parameters }
    requires s_in_bounds { work_width * name_count s.now ≤ length work.old }
    ensures { work.new ≡ cleared_words 3
        (parameter_names (parameters_at s.now parameters.depth parameters.from parameters.end))
        work.old }
{
    let mut at = parameters.from;
    while at < parameters.end && half(s, at + KIND) == PARAMETER {
        let name = word(s, at + HEAD_END);
        walk::set_word(work, name, walk::ARGUMENT, 0);
        at += length_at(s, at);
    }
}

// Clears the word of the local of each variable that a statement declares, at any depth.
#[cycle(clear_block_clear_statement)]
pub fn clear_statement(s: &[u8], node: Node, work: &mut [u32])
    requires fine_node { FineNode s.now node a_statement }
    requires s_in_bounds { work_width * name_count s.now ≤ length work.old }
    ensures { work.new ≡ cleared_words 2
        (declared_names (statement_at s.now node.depth node.at))
        work.old }
{
    let inner = inner_statements(s, node);
    if inner.kind == VARIABLE_DECLARATION {
        let name = word(s, node.at + HEAD_END);
        walk::set_word(work, name, walk::LOCAL, 0);
        return;
    }
    clear_block(s, children(inner), work)
}

// The same for statements.
#[cycle(clear_block_clear_statement)]
fn clear_block(s: &[u8], statements: Nodes, work: &mut [u32])
    requires fine_nodes { FineNodes s.now statements Statements }
    requires s_in_bounds { work_width * name_count s.now ≤ length work.old }
    ensures { work.new ≡ cleared_words 2
        (declared_names (statements_at s.now statements.depth statements.from statements.end))
        work.old }
{
    let depth = statements.depth;
    let mut at = statements.from;
    while at < statements.end {
        let node = Node { at, depth };
        clear_statement(s, node, work);
        at += length_at(s, at);
    }
}
