//! What a home makes of a leave that no task asks for: which message leaves, and where to.
ghost use Rattle.std.specs.Prelude.{◌≡◌, false, Some, Ok, IfErr, IfOk, IfNone, IfSome, OnErr};
ghost use Rattle.sq_model.specs.declared.replies.HomeReply.TheVariants.{Left};
ghost use Rattle.sq_model.specs.HomeLeaves.{leave_call, leave_reason};
ghost use Rattle.sq_model.specs.Homes.{HomeStep, IsFrom, IsIdle};
ghost use Rattle.sq_shard.specs.Moves.{MayLeaveAt, leave_target};
ghost use Rattle.sq_history.specs.Halves.{IsLeaveRefused};

use crate::act::Answer;
use crate::shared::answer_left;
use sq_base::ids::QueueNo;
use sq_base::refusal::Refusal;
use sq_base::row::Row;
use sq_model::calls::HomeCall;
use sq_model::item::{Item, ItemNo, Reason};
use sq_model::replies::HomeReply;
use sq_model::rows::copy_row;
use sq_model::shared::HomeLeave;
use sq_shard::shard::Shard;
use sq_store::store::Store;
use std::alloc::Global;

/// The call of a home by which messages leave so.
pub(crate) fn leave_call(what: HomeLeave) -> HomeCall
    ensures { result ≡ leave_call what }
{
    match what {
        HomeLeave::Dead => HomeCall::LeaveDead,
        HomeLeave::Drain => HomeCall::LeaveDrain,
    }
}

// Why they are moved.
fn leave_reason(what: HomeLeave) -> Reason
    ensures { result ≡ leave_reason what }
{
    match what {
        HomeLeave::Dead => Reason::DeadLetter,
        HomeLeave::Drain => Reason::Drain,
    }
}

// A message on its way.
fn item_of(what: HomeLeave, number: ItemNo, row: Row, source: QueueNo, target: QueueNo) -> Item
    ensures { result ≡ record { number = number; row = row; source = source; target = target; reason = leave_reason what; homeward = false } }
{
    Item {
        number,
        row,
        source,
        target,
        reason: leave_reason(what),
        homeward: false,
    }
}

// The item that a message becomes which may leave so, any of them; none where there is none.
// Refused as QueueDoesNotExist (not serving), UnsupportedOperation (a drain, and it does not drain), then as the ledger says of
// the number, then as NoMemory (it is copied).
#[tactic(auto, using(crate::proofs::HalfLaws::may_one_leave, crate::proofs::HalfLaws::has_target))]
fn find_leaving<S: Store>(
    shard: &Shard<S>,
    what: HomeLeave,
    moment: u64,
    number: Result<ItemNo, Refusal>,
) -> Result<Option<Item>, Refusal>
    ensures leaving { IfOk result (λ found. IfSome found (λ item. MayLeaveAt what shard.now.home moment item.row)) }
    ensures target { IfOk result (λ found. IfSome found (λ item. leave_target what shard.now.site shard.now.home ≡ Some item.target)) }
    ensures from { IfOk result (λ found. IfSome found (IsFrom shard.now.site.home (leave_reason what))) }
    ensures number { IfOk result (λ found. IfSome found (λ item. number ≡ Ok item.number)) }
    ensures none { IfOk result (λ found. IfNone found (IsIdle shard.now.home moment (leave_call what))) }
    ensures refusal { IfErr result (IsLeaveRefused what shard.now.site shard.now.home moment number) }
{
    let Some(row) = shard.find_leaving(what, moment)? else {
        return Ok(None);
    };
    // Where a message is dead, a policy is set.
    let Some(target) = shard.leave_target(what) else {
        return Ok(None);
    };
    let number = number?;
    let source = shard.site().home.queue;
    Ok(Some(item_of(what, number, copy_row(row)?, source, target)))
}

/// A message leaves so, any that may, at a moment in ms: the item that it becomes, and what is answered. None where there is
/// none, which changes nothing.
/// Refused as QueueDoesNotExist (not serving), UnsupportedOperation (a drain, and it does not drain), then as the ledger says of
/// the number, then as NoMemory (it is copied).
#[tactic(auto, using(crate::proofs::HalfLaws::has_row, crate::proofs::HalfLaws::left_at))]
pub(crate) fn leave_home<S: Store>(
    alloc: Global,
    shard: &mut Shard<S>,
    what: HomeLeave,
    moment: u64,
    number: Result<ItemNo, Refusal>,
) -> Result<Option<(Item, (Answer, HomeReply))>, Refusal>
    ensures step { IfOk result (λ told. IfSome told (λ t. HomeStep shard.old.site shard.old.home moment (leave_call what) (Left t.0) shard.new.home)) }
    ensures answer { IfOk result (λ told. IfSome told (λ t. t.1.0 ≡ Left t.0)) }
    ensures for_ledger { IfOk result (λ told. IfSome told (λ t. t.1.1 ≡ Left t.0)) }
    ensures from { IfOk result (λ told. IfSome told (λ t. IsFrom shard.old.site.home (leave_reason what) t.0)) }
    ensures target { IfOk result (λ told. IfSome told (λ t. leave_target what shard.old.site shard.old.home ≡ Some t.0.target)) }
    ensures number { IfOk result (λ told. IfSome told (λ t. number ≡ Ok t.0.number)) }
    ensures none { IfOk result (λ told. IfNone told (IsIdle shard.old.home moment (leave_call what) × (shard.new ≡ shard.old))) }
    ensures site { shard.new.site ≡ shard.old.site }
    ensures spare { shard.new.spare ≡ shard.old.spare }
    ensures refusal { IfErr result (IsLeaveRefused what shard.old.site shard.old.home moment number) }
    ensures err { OnErr result (shard.new ≡ shard.old) }
{
    let Some(item) = find_leaving(shard, what, moment, number)? else {
        return Ok(None);
    };
    let answers = answer_left(alloc, &item)?;
    let _row = shard.take_out(moment, &item.row);
    Ok(Some((item, answers)))
}
