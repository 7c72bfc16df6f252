//! The texts that turns are answered with.
ghost use Rattle.std.specs.Prelude.{◌≡◌};
ghost use Rattle.serde_json.specs.Written.{compact_text};
ghost use Rattle.sq_replies.specs.Replies.{turned_data};

use sq_calls::turns::Turned;

/// The text of what came of a turn.
#[tactic(auto, unfolding(crate::proofs::OnLiterals::replies_on_literals))]
pub(crate) fn turned_text(turned: Turned) -> &'static str
    ensures { result.now ≡ compact_text (turned_data turned) }
{
    match turned {
        Turned::Left => "{\"Turn\":\"left\"}",
        Turned::Nothing => "{\"Turn\":\"nothing\"}",
        Turned::Entered => "{\"Turn\":\"entered\"}",
        Turned::Turned => "{\"Turn\":\"turned\"}",
        Turned::Back => "{\"Turn\":\"back\"}",
        Turned::Dropped => "{\"Turn\":\"dropped\"}",
        Turned::Full => "{\"Turn\":\"full\"}",
        Turned::Throttled => "{\"Turn\":\"throttled\"}",
        Turned::Failed => "{\"Turn\":\"failed\"}",
        Turned::Finished => "{\"Turn\":\"finished\"}",
        Turned::Waiting => "{\"Turn\":\"waiting\"}",
        Turned::Ended => "{\"Turn\":\"ended\"}",
    }
}
