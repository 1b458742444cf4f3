// `do_all_paths_diverge`: whether no path through a statement goes on after it. `find_break` is `find_statement`,
// looking for a break.
#![tactic(auto)]

ghost use Rattle.std.specs.Prelude.{◌≡◌};
ghost use Rattle.shape.specs.Shape.{a_statement};
ghost use Rattle.shape.specs.declared.Holds.TheVariants.{Statements};
ghost use Rattle.layout.specs.Layout.{kind_at, stop_at};
ghost use Rattle.node.specs.Fine.{FineNode, FineNodes};
ghost use Rattle.trees.specs.Record.{statement_at, statements_at};
ghost use Rattle.meaning.specs.Divergence.{find_break, do_all_paths_diverge};
ghost use Rattle.divergence.specs.InnerStatements.{InnerOf, head_of};

use node::{Entered, Node, Nodes, children, inside};
use record_bytes::{FIELD_END, HEAD_END, KIND, half, length_at};
use shape::kinds::{BLOCK, BREAK, IF_STATEMENT, LOOP, RETURN, WHILE};

// Where the statements start that a statement of a kind holds, or else its stop: the condition of a while or an if comes
// before them.
fn inner_start(s: &[u8], node: Node, kind: u32, stop: usize) -> usize
    requires fine_node { FineNode s.now node a_statement }
    requires kind_value { (kind ≡ kind_at s.now node.at) × (stop ≡ stop_at s.now node.at) }
    ensures { InnerOf s.now node (head_of node kind result stop) }
{
    let at = node.at;
    match kind {
        BLOCK => at + FIELD_END,
        LOOP => at + HEAD_END,
        WHILE | IF_STATEMENT => at + HEAD_END + length_at(s, at + HEAD_END),
        _ => stop,
    }
}

// A statement with its kind; as its start and its stop, those of the statements that it holds.
pub fn inner_statements(s: &[u8], node: Node) -> Entered
    requires { FineNode s.now node a_statement }
    ensures { InnerOf s.now node result }
{
    let at = node.at;
    let kind = half(s, at + KIND);
    let stop = at + length_at(s, at);
    Entered {
        at,
        depth: node.depth,
        kind,
        start: inner_start(s, node, kind, stop),
        stop,
    }
}

// Whether a statement is a break, or holds one at any depth.
#[cycle(find_break_find_break_in)]
fn find_break(s: &[u8], node: Node) -> bool
    requires { FineNode s.now node a_statement }
    ensures { result ≡ find_break (statement_at s.now node.depth node.at) }
{
    let inner = inner_statements(s, node);
    inner.kind == BREAK || find_break_in(s, children(inner))
}

// The same for statements.
#[cycle(find_break_find_break_in)]
fn find_break_in(s: &[u8], statements: Nodes) -> bool
    requires { FineNodes s.now statements Statements }
    ensures { result ≡ find_break (statements_at s.now statements.depth statements.from statements.end) }
{
    let depth = statements.depth;
    // from record to record by the lengths in the file: no index counts them
    let mut at = statements.from;
    while at < statements.end {
        let node = Node { at, depth };
        if find_break(s, node) {
            return true;
        }
        at += length_at(s, at);
    }
    false
}

// Whether no path through a statement goes on after it.
#[cycle(any_path_diverges_do_all_paths_diverge)]
pub fn do_all_paths_diverge(s: &[u8], node: Node) -> bool
    requires { FineNode s.now node a_statement }
    ensures { result ≡ do_all_paths_diverge (statement_at s.now node.depth node.at) }
{
    let inner = inner_statements(s, node);
    let kind = inner.kind;
    let statements = children(inner);
    match kind {
        RETURN => true,
        LOOP => {
            if find_break_in(s, statements) {
                return any_path_diverges(s, statements);
            }
            true
        }
        IF_STATEMENT => {
            let side = inside(inner);
            if do_all_paths_diverge(s, side) {
                // Without an else nothing is left after the first side.
                let from = side.at + length_at(s, side.at);
                let end = inner.stop;
                let depth = side.depth;
                let other = Nodes { from, end, depth };
                return any_path_diverges(s, other);
            }
            false
        }
        _ => any_path_diverges(s, statements),
    }
}

// Whether one of the statements diverges.
#[cycle(any_path_diverges_do_all_paths_diverge)]
fn any_path_diverges(s: &[u8], statements: Nodes) -> bool
    requires { FineNodes s.now statements Statements }
    ensures { result ≡ do_all_paths_diverge
        (statements_at s.now statements.depth statements.from statements.end) }
{
    let depth = statements.depth;
    // the same walk as in `find_break_in`, written out: each loop is part of its own recursion
    let mut at = statements.from;
    while at < statements.end {
        let node = Node { at, depth };
        if do_all_paths_diverge(s, node) {
            return true;
        }
        at += length_at(s, at);
    }
    false
}
