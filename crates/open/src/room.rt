// The room that opening is asked for: its counts, and the house record made of it.
ghost use Rattle.std.specs.Prelude.{◌≡◌};
ghost use Rattle.rules.specs.Replies.{room_counts, house_of};
ghost use Rattle.open.specs.Room.{planned, Housed};

use crate::Plan;
use rules::House;

// All its counts are in their limits.
pub fn counts_in(plan: Plan) -> bool
    ensures { result ≡ room_counts (planned plan.entry) }
{
    let sizes = tables::sizes_in(plan.nodes, plan.faulty, plan.rows, plan.capacity);
    let q = plan.quorums.len();
    let w = plan.weaks.len();
    sizes & (((1 <= q) & (q <= 64)) & ((1 <= w) & (w <= 64)))
}

// Its house record: intake, marks and board empty, slots past a count 0.
pub fn house_of(plan: Plan) -> House
    requires { Housed (planned plan) }
    ensures { result ≡ house_of (planned plan.entry) }
{
    let quorums: [u8; 64] = tables::narrowed(plan.quorums);
    let weaks: [u8; 64] = tables::narrowed(plan.weaks);
    House {
        nodes: plan.nodes as u8,
        faulty: plan.faulty as u8,
        rows: plan.rows as u8,
        capacity: plan.capacity as u16,
        listed: plan.quorums.len() as u8,
        quorums,
        backers: plan.weaks.len() as u8,
        weaks,
        tubes: 0,
        stations: [0; 64],
        serials: [0; 64],
        marks: 0,
        count: 0,
    }
}
