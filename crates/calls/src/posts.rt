// The foreign post: any 1b, 2av or 2b within limits under a node's number, which is marked.
ghost use Rattle.rules.specs.Lent.{memory};
ghost use Rattle.rules.specs.Steps as steps;
ghost use Rattle.rules.specs.Replies.{answer_of, Did};
ghost use Rattle.step.specs.Given.{post_of};

use rules::{House, Refusal, Reply};
use step::Post;

// The areas are parameters of their own, as in lib.rt.
pub fn post_foreign(
    house: &mut House,
    board: &mut [u8],
    cells: &[u8],
    heard: &[u8],
    post: Post,
    pairs: [u32; 32],
) -> Result<Reply, Refusal>
    ensures { Did (memory house.old board.old cells.now heard.now) (steps.foreign (post_of post pairs)) (answer_of result) (memory house.new board.new cells.now heard.now) }
{
    lent::post_in_place(house, board, cells, heard, post, pairs)
}
