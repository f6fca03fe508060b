// The house record where it stands, lent by its owner: thin functions on one field each.
#![tactic(auto)]

ghost use Rattle.std.specs.Prelude.{◌≡◌, suc, ◌+◌, ◌<◌, ◌^◌, set};
ghost use Rattle.std.specs.Int.Bits.{bit_or};
ghost use Rattle.rules.specs.Lent.{raised, marked, house};

use rules::{House, Node};

// The set with one node more.
pub fn with_node(marks: u8, node: Node) -> u8
    requires { node.0 < 8 }
    ensures { result ≡ bit_or marks (2 ^ node.0) }
{
    marks | (1 << node.0)
}

// One node's mark is set, where the record stands. Its bound is a clause: docs/DECISIONS.md names `mark`, and a `Node` that knows it would ask more of its callers.
pub fn mark(h: &mut House, node: Node)
    requires { node.0 < 8 }
    ensures { h.new ≡ marked h.old node.0 }
{
    h.marks = with_node(h.marks, node);
}

// The message count goes up by one, where the record stands.
pub fn raise(h: &mut House)
    requires { h.old.count < 1024 }
    ensures { h.new ≡ raised h.old (h.old.count + 1) }
{
    h.count += 1;
}

// One tube more on intake, where the record stands.
pub fn enter(h: &mut House, station: u8, serial: u32)
    requires { h.old.tubes < 64 }
    ensures { h.new ≡ house h.old h.old.count h.old.marks (suc h.old.tubes) (set h.old.stations h.old.tubes station) (set h.old.serials h.old.tubes serial) }
{
    let at = h.tubes as usize;
    h.stations[at] = station;
    h.serials[at] = serial;
    h.tubes += 1;
}
