// The foreign post on the house record where it stands, lent by its owner: only an accepted post touches the record.
#![tactic(auto)]

ghost use Rattle.rules.specs.Lent.{memory};
ghost use Rattle.rules.specs.Steps.{foreign};
ghost use Rattle.rules.specs.Replies.{answer_of, Did};
ghost use Rattle.step.specs.Given.{post_of};

use rules::{House, Lent, Refusal, Reply};
use step::Post;

// The public call: the post is tested where all is lent, and an accepted one is put on the board and marks its node. Each area is a parameter of its own: what is written is lent by `&mut`, and the rest cannot change.
#[tactic(auto, using(judge::proofs::Call::past, judge::proofs::Call::accepted, judge::proofs::Call::acted), unfolding(rules::specs::Replies::tell))]
pub fn post_in_place(
    house: &mut House,
    board: &mut [u8],
    cells: &[u8],
    heard: &[u8],
    post: Post,
    pairs: [u32; 32],
) -> Result<Reply, Refusal>
    ensures { Did (memory house.old board.old cells.now heard.now) (foreign (post_of post pairs)) (answer_of result) (memory house.new board.new cells.now heard.now) }
{
    let m = Lent {
        house,
        board,
        cells,
        heard,
    };
    form::gate(m)?;
    foreign::judge_foreign(m, post, pairs)?;
    foreign::act_foreign(house, board, cells, heard, post, pairs);
    Ok(Reply::Done)
}
