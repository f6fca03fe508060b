// A foreign post: what anyone may put on the board under a node's number, judged and done.
#![tactic(auto)]

pub mod promise; // promise.rt: a foreign 1b and its pairs

ghost use Rattle.std.specs.Prelude.{◌≡◌, [], ◌≤◌};
ghost use Rattle.rules.specs.Words.{m2av};
ghost use Rattle.rules.specs.Lent.{memory, lent, room_of, meaning, kind_byte, line, stored, limits, scanned};
ghost use Rattle.rules.specs.Steps as steps;
ghost use Rattle.rules.specs.Steps.{foreign, posted};
ghost use Rattle.rules.specs.Replies.{post_in, reply, after, number_in};
ghost use Rattle.kept.specs.Kept.{Whole};
ghost use Rattle.board.specs.Asked.{Own};
ghost use Rattle.judge.specs.Judged.{verdict};
ghost use Rattle.judge.specs.Narrow.{Tested};
ghost use Rattle.step.specs.Given.{post_of};

use rules::{House, Kind, Lent, Message, Node, Refusal};
use step::{Post, Vote};

// A 2av or a 2b as it is stored, where every field is within its limits.
fn message_vote(h: &House, kind: Kind, v: Vote) -> Option<Message>
    ensures { Tested (limits (room_of h.now) (m2av v.row v.ballot v.node v.tube)) (λ x. x ≡ line (kind_byte kind) v.row v.ballot v.node v.tube 0 0 []) result }
{
    let (node, bid) = judge::limits::vote_in(h, v.row, v.ballot, v.node, v.tube)?;
    Some(board::bare(kind, bid, node))
}

// Test 6: the message that a post puts, as it is stored, where every field is within its limits; another kind is not.
pub fn message(h: &House, post: Post, pairs: [u32; 32]) -> Option<Message>
    ensures { Tested (post_in (room_of h.now) (post_of post pairs)) (λ x. x ≡ stored (posted (post_of post pairs))) result }
{
    match post {
        Post::OneB(p) => crate::promise::message_1b(h, p, pairs),
        Post::Relay(v) => message_vote(h, Kind::TwoAv, v),
        Post::Accept(v) => message_vote(h, Kind::TwoB, v),
        Post::Other => None,
    }
}

// Test 7: each non-zero tube of a stored message is on intake; its kind has none where it is 0.
#[tactic(auto, using(crate::proofs::Posts::own_tubes))]
fn tubes_scanned(h: &House, m: Message) -> bool
    requires own { Own m }
    requires count { m.count ≤ 16 }
    ensures { result ≡ scanned h.now.tubes (meaning m) }
{
    m.tube <= h.tubes
        && m.mval <= h.tubes
        && pairs::each(m.pairs, m.count, pairs::Ask::Scanned(h.tubes))
}

pub fn judge_foreign(m: Lent, post: Post, pairs: [u32; 32]) -> Result<(), Refusal>
    requires { Whole (lent m) }
    ensures { number_in result ≡ verdict (lent m.entry) (foreign (post_of post pairs)) }
{
    let Some(x) = message(m.house, post, pairs) else {
        return Err(Refusal::OutsideLimits);
    };
    if !tubes_scanned(m.house, x) {
        return Err(Refusal::NotOnIntake);
    }
    if !judge::forms::fits(m.house, m.board, x) {
        return Err(Refusal::BoardFull);
    }
    Ok(())
}

// The message is posted, and its node has a mark from then on. An accepted post has a message. The areas that it leaves are there for the contract.
pub fn act_foreign(
    house: &mut House,
    board: &mut [u8],
    cells: &[u8],
    heard: &[u8],
    post: Post,
    pairs: [u32; 32],
)
    requires whole { Whole (memory house.old board.old cells.now heard.now) }
    requires pairs_value { reply (memory house.old board.old cells.now heard.now) (foreign (post_of post pairs)) ≡ 0 }
    ensures { memory house.new board.new cells.now heard.now ≡ after (memory house.old board.old cells.now heard.now) (foreign (post_of post pairs)) }
{
    let Some(m) = message(house, post, pairs) else {
        unreachable!()
    };
    board::post(house, board, m);
    house::mark(house, Node(m.node));
}
