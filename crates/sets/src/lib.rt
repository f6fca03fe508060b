// Node sets as bytes, bit 0 for node 0: membership, one node more, the search for a full set, and how many nodes.
#![tactic(auto)]

ghost use Rattle.std.specs.Prelude.{◌≡◌, not, ◌&&◌, ◌≤◌, ◌<◌};
ghost use Rattle.rules.specs.Tests.{any, all_in, bit};
ghost use Rattle.sets.specs.Sets.{joined};

pub fn in_set(set: u8, a: u8) -> bool
    requires { a < 8 }
    ensures { result ≡ bit set a }
{
    (set >> a) % 2 == 1
}

// The set with one node more; a number that is no node's adds none.
pub fn with_node(set: u8, node: u8) -> u8
    ensures { result ≡ joined set node }
{
    if node < 8 { set | (1u8 << node) } else { set }
}

// Whether node a is of the set q and not of the set have.
pub fn lacks(q: u8, have: u8, a: u8) -> bool
    requires { a < 8 }
    ensures { result ≡ bit q a && not (bit have a) }
{
    in_set(q, a) && !in_set(have, a)
}

// Whether some set of the list has all its nodes in have. Both loops are left at the first such set.
pub fn some_full(list: &[u8], nodes: u8, have: u8) -> bool
    requires { nodes ≤ 8 }
    ensures { result ≡ any (λ q. all_in nodes q (bit have)) list.now }
{
    'sets: for q in list {
        for a in 0..nodes {
            if lacks(*q, have, a) {
                continue 'sets;
            }
        }
        return true;
    }
    false
}
