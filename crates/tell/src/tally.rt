// What a row came to: its votes in one pass over the board, and the tubes that a quorum voted.
ghost use Rattle.std.specs.Prelude.{◌≡◌, false, ◌≤◌};
ghost use Rattle.std.specs.List.{list_any};
ghost use Rattle.rules.specs.Lent.{msg_at, board_of};
ghost use Rattle.rules.specs.Book.{outcome};
ghost use Rattle.tell.specs.Votes.{Countable, Counted, with_vote, voted, unvoted, Within};
ghost use Rattle.tell.specs.Chosen.{Seen, outcome_of, filled, carried, Next};

use crate::RowTube;

// The listed quorums of a room and how many nodes it has; no votes fill one.
#[derive(Clone, Copy)]
struct Quorums<'a> {
    list: &'a [u8],
    nodes: u8,
    ghost room: { nodes ≤ 8 },
    ghost peopled: { filled nodes list.now 0 ≡ false },
}

// The vote of a node for a tube in a ballot.
#[tactic(auto, unfolding(crate::specs::Votes::with_vote))]
fn put_vote(votes: &mut [u8; 1024], ballot: u8, tube: u8, node: u8)
    requires { (ballot ≤ 15) × ((1 ≤ tube) × (tube ≤ 64)) }
    ensures { votes.new ≡ with_vote votes.old ballot tube node }
{
    let slot = 16 * (tube as usize - 1) + ballot as usize;
    votes[slot] = sets::with_node(votes[slot], node);
}

// The vote of the message numbered k, if that is a 2b of this row. Of any other message two bytes are read.
fn add_vote(votes: &mut [u8; 1024], board: &[u8], k: usize, row: u8)
    requires { Within board.now k }
    ensures { votes.new ≡ voted votes.old row (msg_at board.now k) }
{
    let at = 40 * k;
    if board[at] != 5 {
        return;
    }
    if board[at + 1] != row {
        return;
    }
    put_vote(votes, board[at + 2], board[at + 4], board[at + 3]);
}

// The votes of a row, in one pass over the board: one flat array, whose places the clause `Counted` names, in fixed memory.
#[tactic(auto, using(crate::proofs::Votes::within))]
pub fn row_votes(h: &rules::House, board: &[u8], row: u8) -> [u8; 1024]
    requires { Countable h.now board.now }
    ensures { Counted (board_of board.now h.now.count) row result }
{
    let mut votes = [0; 1024];
    for k in 0..h.count as usize {
        add_vote(&mut votes, board, k, row);
    }
    votes
}

// Whether the sixteen sets from a place on are empty: they are added up without a stop, which is the quickest for the many tubes without votes.
fn no_votes(votes: &[u8; 1024], at: usize) -> bool
    requires { at ≤ 1008 }
    ensures { result ≡ unvoted votes.now at }
{
    let mut sum = 0;
    for b in 0..16 {
        sum += u32::from(votes[at + b]);
    }
    sum == 0
}

impl Quorums<'_> {
    // Whether some quorum is full of these votes; no votes fill none.
    fn full_of(&self, have: u8) -> bool
        ensures { result ≡ filled self.now.nodes self.now.list.now have }
    {
        have != 0 && sets::some_full(self.list, self.nodes, have)
    }

    // Whether some quorum is full of one of these sets of votes.
    fn fills(&self, ballots: &[u8]) -> bool
        ensures { result ≡ list_any (filled self.now.nodes self.now.list.now) ballots.now }
    {
        ballots.iter().any(|have| self.full_of(*have))
    }

    // Whether some quorum is full of a tube's votes in one ballot.
    fn carry(&self, votes: &[u8; 1024], tube: u8) -> bool
        requires { (1 ≤ tube) × (tube ≤ 64) }
        ensures { result ≡ carried self.now.nodes self.now.list.now votes.now tube }
    {
        let at = 16 * (tube as usize - 1);
        !no_votes(votes, at) && self.fills(&votes[at..at + 16])
    }

    // The next chosen tube from this one on.
    fn next_chosen(&self, votes: &[u8; 1024], start: u8) -> Option<u8>
        requires { (1 ≤ start) × (start ≤ 65) }
        ensures { Next (carried self.now.nodes self.now.list.now votes.now) start result }
    {
        for v in start..65 {
            if self.carry(votes, v) {
                return Some(v);
            }
        }
        None
    }
}

// What a row came to.
pub fn row_outcome(h: &rules::House, board: &[u8], row: u8) -> RowTube
    requires { Countable h.now board.now }
    ensures { Seen h.now board.now (λ ρ s. outcome_of result ≡ outcome ρ s row) }
{
    let votes = row_votes(h, board, row);
    let quorums = Quorums {
        list: &h.quorums[..usize::from(h.listed)],
        nodes: h.nodes,
    };
    let Some(v) = quorums.next_chosen(&votes, 1) else {
        return RowTube::Unchosen;
    };
    match quorums.next_chosen(&votes, v + 1) {
        None => RowTube::Agreed(rules::Tube(v)),
        Some(_) => RowTube::Split,
    }
}
