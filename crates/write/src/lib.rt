// What an accepted step writes: one writer for each effect.
#![tactic(auto)]

pub mod act; // act.rt: what each accepted call does

ghost use Rattle.std.specs.Prelude.{◌≡◌, ◌+◌, ◌*◌, ◌≤◌, ◌<◌, length};
ghost use Rattle.rules.specs.Lent.{set_bit};

use rules::Node;

// A node's bit for the message numbered k.
pub fn set_heard(heard: &mut [u8], node: Node, k: u16)
    requires node_bound { node.0 < 8 }
    requires k_bound { k < 1024 }
    requires node_in_bounds { 128 * node.0 + 128 ≤ length heard.old }
    ensures { heard.new ≡ set_bit heard.old node.0 k }
{
    let n = node.0;
    let at = 128 * (n as usize) + (k as usize) / 8;
    let bit = (k % 8) as u8;
    heard[at] = heard[at] | (1u8 << bit);
}
