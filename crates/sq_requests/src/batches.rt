//! What the actions on several messages ask.
ghost use Rattle.std.specs.Prelude.{◌≡◌, ◌≢◌, false, is_ok, nat_lt, true, map, IfOk, IfErr};
ghost use Rattle.std.specs.List.{list_all, list_any};
ghost use Rattle.std.specs.Str.{bytes_eq};
ghost use Rattle.sq_base.specs.Names.{is_name};
ghost use Rattle.sq_calls.specs.BodyTexts.{body_limit};
ghost use Rattle.sq_json.specs.View.{items_view, view};
ghost use Rattle.sq_policy.specs.Reading.{seen_as, Reads};
ghost use Rattle.sq_requests.specs.Lists.{all_items};
ghost use Rattle.sq_requests.specs.Batches.{send_ask, change_ask, send_of_entry, delete_of_entry, change_of_entry, ask_of, is_entry, body_length, items_at, entry_of, batch_of};
ghost use Rattle.sq_requests.specs.inside.Batches.{ask_by, has_body, entry_by, length_by, lengths_of, are_distinct, check_by, IsRead};

use crate::actions::has_attributes_at;
use crate::members::{amount_at, amount_if_at, text_at, url_at};
use arrayvec::ArrayVec;
use sq_base::body::BODY_LIMIT;
use sq_base::handle::{Handle, read_handle};
use sq_base::refusal::Refusal;
use sq_calls::batches::{Batch, BatchKind, Entry, EntryAsk, EntryId, MOST_ENTRIES};
use sq_calls::body_text::BodyText;
use sq_calls::calls::Call;
use sq_json::value::{Items, Value};
use sq_model::listed::Listed;
use sq_policy::amount::{Amount, in_range, in_range_if};
use std::alloc::Global;

// What refuses an entry refuses it alone, but want of memory.
fn alone(asked: Result<EntryAsk, Refusal>) -> Result<Result<EntryAsk, Refusal>, Refusal>
    ensures ok { IfOk result (λ ask. (ask ≡ asked) × (asked ≢ Err Refusal.NoMemory)) }
    ensures err { IfErr result (λ e. (e ≡ Refusal.NoMemory) × (asked ≡ Err Refusal.NoMemory)) }
{
    match asked {
        Err(Refusal::NoMemory) => Err(Refusal::NoMemory),
        other => Ok(other),
    }
}

fn send_ask(
    alloc: Global,
    has_attributes: bool,
    delay: Option<Amount>,
    body: &str,
) -> Result<EntryAsk, Refusal>
    ensures { Reads result (send_ask has_attributes delay body.now) }
{
    if has_attributes {
        return Err(Refusal::UnsupportedOperation);
    }
    let delay = in_range_if(delay, Refusal::InvalidParameterValue)?;
    let body = BodyText::new(alloc, body)?;
    Ok(EntryAsk::Send(body, delay))
}

fn change_ask(handle: Option<Handle>, amount: Amount) -> Result<EntryAsk, Refusal>
    ensures { result ≡ change_ask handle amount }
{
    let timeout = in_range(amount, Refusal::InvalidParameterValue)?;
    Ok(EntryAsk::Change(handle, timeout))
}

// The members of an entry that say what it asks.
#[derive(Clone, Copy)]
enum AskMembers<'a> {
    // A body, a delay, and whether there are message attributes.
    Send(&'a str, Option<Amount>, bool),
    // The text of a receipt handle.
    Delete(&'a str),
    // The text of a receipt handle, and a timeout.
    Change(&'a str, Amount),
}

// The members of an entry: the text of its id, and what it asks.
#[derive(Clone, Copy)]
struct EntryMembers<'a> {
    id: &'a str,
    asked: AskMembers<'a>,
}

// What a place holds that no entry was read into.
impl Default for EntryMembers<'_> {
    fn default() -> Self {
        EntryMembers {
            id: "",
            asked: AskMembers::Delete(""),
        }
    }
}

// The members of the first ten entries of a batch, and whether it has more.
#[derive(Drop)]
struct ReadEntries<'a> {
    first: ArrayVec<EntryMembers<'a>, MOST_ENTRIES>,
    has_more: bool,
}

// The members of a send as an entry.
#[tactic(auto, unfolding(crate::specs::Batches::send_of_entry, crate::specs::Batches::body_length))]
fn send_of_entry<'a>(value: &Value<'_, 'a>) -> Result<AskMembers<'a>, Refusal>
    ensures ask { seen_as ask_by result ≡ send_of_entry (view value.now) }
    ensures length { IfOk result (λ members. length_by members ≡ body_length BatchKind.Send (view value.now)) }
{
    let body = text_at(value, "MessageBody")?;
    let delay = amount_if_at(value, "DelaySeconds")?;
    let has_attributes = has_attributes_at(value)?;
    Ok(AskMembers::Send(body, delay, has_attributes))
}

// The members of a delete as an entry.
#[tactic(auto, unfolding(crate::specs::Batches::delete_of_entry, crate::specs::Batches::body_length, crate::specs::Members::receipt_handle_at))]
fn delete_of_entry<'a>(value: &Value<'_, 'a>) -> Result<AskMembers<'a>, Refusal>
    ensures ask { seen_as ask_by result ≡ delete_of_entry (view value.now) }
    ensures length { IfOk result (λ members. length_by members ≡ body_length BatchKind.Delete (view value.now)) }
{
    let handle = text_at(value, "ReceiptHandle")?;
    Ok(AskMembers::Delete(handle))
}

// The members of a change as an entry.
#[tactic(auto, unfolding(crate::specs::Batches::change_of_entry, crate::specs::Batches::body_length, crate::specs::Members::receipt_handle_at))]
fn change_of_entry<'a>(value: &Value<'_, 'a>) -> Result<AskMembers<'a>, Refusal>
    ensures ask { seen_as ask_by result ≡ change_of_entry (view value.now) }
    ensures length { IfOk result (λ members. length_by members ≡ body_length BatchKind.Change (view value.now)) }
{
    let handle = text_at(value, "ReceiptHandle")?;
    let timeout = amount_at(value, "VisibilityTimeout")?;
    Ok(AskMembers::Change(handle, timeout))
}

// The members that say what an entry asks.
fn ask_members<'a>(kind: BatchKind, value: &Value<'_, 'a>) -> Result<AskMembers<'a>, Refusal>
    ensures ask { seen_as ask_by result ≡ ask_of kind (view value.now) }
    ensures length { IfOk result (λ members. length_by members ≡ body_length kind (view value.now)) }
{
    match kind {
        BatchKind::Send => send_of_entry(value),
        BatchKind::Delete => delete_of_entry(value),
        BatchKind::Change => change_of_entry(value),
    }
}

// The members of an entry, each looked up once.
#[tactic(auto, unfolding(crate::specs::Batches::entry_of, crate::specs::Batches::entry_id))]
fn entry_members<'a>(kind: BatchKind, value: &Value<'_, 'a>) -> Result<EntryMembers<'a>, Refusal>
    ensures entry { seen_as entry_by result ≡ entry_of kind (view value.now) }
    ensures is_entry { is_ok result ≡ is_entry kind (view value.now) }
    ensures length { IfOk result (λ members. length_by members.asked ≡ body_length kind (view value.now)) }
{
    let id = text_at(value, "Id")?;
    let asked = ask_members(kind, value)?;
    Ok(EntryMembers { id, asked })
}

// The members of the entries, where each has its own: all are read, ten are kept.
fn read_entries<'a>(kind: BatchKind, items: Items<'_, 'a>) -> Result<ReadEntries<'a>, Refusal>
    ensures ok { IfOk result (λ read. IsRead kind (items_view items.entry) read) }
    ensures err { IfErr result (λ e. (e ≡ Refusal.InvalidRequest) × (all_items (is_entry kind) (items_view items.entry) ≡ false)) }
{
    let mut items = items;
    let mut first = ArrayVec::new();
    let mut has_more = false;
    'items: while let Some(entry) = items.next() {
        let Ok(members) = entry_members(kind, &entry) else {
            return Err(Refusal::InvalidRequest);
        };
        has_more = first.try_push(members).is_err();
    }
    Ok(ReadEntries { first, has_more })
}

// Whether the id of each entry is one.
fn have_ids(entries: &[EntryMembers<'_>]) -> bool
    ensures { result ≡ list_all (λ entry. is_name entry.id.now) entries.now }
{
    entries
        .iter()
        .all(|entry| EntryId::new(entry.id.as_bytes()).is_some())
}

// Whether one of these entries has this id; case counts.
fn have_id(id: &str, entries: &[EntryMembers<'_>]) -> bool
    ensures { result ≡ list_any (λ entry. bytes_eq id.now entry.id.now) entries.now }
{
    entries.iter().any(|entry| id == entry.id)
}

// Whether no two of these entries have one id.
fn are_distinct(entries: &[EntryMembers<'_>]) -> bool
    ensures { result ≡ are_distinct entries.now }
{
    for index in 0..entries.len() {
        if have_id(entries[index].id, &entries[index + 1..]) {
            return false;
        }
    }
    true
}

// How many bytes a body has; 0 where there is none.
fn body_length(members: &AskMembers<'_>) -> usize
    ensures { result ≡ length_by members.now }
{
    match members {
        AskMembers::Send(body, _, _) => body.len(),
        _ => 0,
    }
}

// Whether the bodies have more bytes together than one may have.
fn are_too_long(entries: &[EntryMembers<'_>]) -> bool
    ensures { result ≡ nat_lt body_limit (lengths_of entries.now) }
{
    let mut bytes_left = BODY_LIMIT;
    for entry in entries {
        let length = body_length(&entry.asked);
        if length > bytes_left {
            return true;
        }
        bytes_left -= length;
    }
    false
}

// The items of a list that must be there.
#[tactic(auto, unfolding(crate::specs::Batches::items_at))]
fn items_at<'t, 'a>(value: &Value<'t, 'a>, name: &str) -> Result<Items<'t, 'a>, Refusal>
    ensures { seen_as items_view result ≡ items_at name.now (view value.now) }
{
    match value.get(name) {
        Some(member) => member.items().ok_or(Refusal::InvalidRequest),
        None => Err(Refusal::InvalidRequest),
    }
}

// The first reason in order why a batch of these entries is refused.
fn batch_check(read: &ReadEntries<'_>) -> Result<(), Refusal>
    ensures { result ≡ check_by read.now }
{
    let entries = read.first.as_slice();
    if read.has_more {
        return Err(Refusal::TooManyEntriesInBatchRequest);
    }
    if entries.is_empty() {
        return Err(Refusal::EmptyBatchRequest);
    }
    if !have_ids(entries) {
        return Err(Refusal::InvalidBatchEntryId);
    }
    if !are_distinct(entries) {
        return Err(Refusal::BatchEntryIdsNotDistinct);
    }
    if are_too_long(entries) {
        return Err(Refusal::BatchRequestTooLong);
    }
    Ok(())
}

// What an entry of these members asks. Memory is asked for the body of a send that nothing refuses.
fn ask_of(alloc: Global, members: &AskMembers<'_>) -> Result<Result<EntryAsk, Refusal>, Refusal>
    ensures ok { IfOk result (λ ask. ask ≡ ask_by members.now) }
    ensures err { IfErr result (λ e. (e ≡ Refusal.NoMemory) × (has_body (ask_by members.now) ≡ true)) }
{
    match *members {
        AskMembers::Send(body, delay, has_attributes) => {
            alone(send_ask(alloc, has_attributes, delay, body))
        }
        AskMembers::Delete(handle) => Ok(Ok(EntryAsk::Delete(read_handle(handle.as_bytes())))),
        AskMembers::Change(handle, timeout) => {
            Ok(change_ask(read_handle(handle.as_bytes()), timeout))
        }
    }
}

// The entry of these members, whose id was checked.
fn entry_of(alloc: Global, members: &EntryMembers<'_>) -> Result<Entry, Refusal>
    requires { is_name members.now.id.now ≡ true }
    ensures ok { IfOk result (λ entry. entry ≡ entry_by members.now) }
    ensures err { IfErr result (λ e. (e ≡ Refusal.NoMemory) × (has_body (entry_by members.now).ask ≡ true)) }
{
    let id = EntryId::new(members.id.as_bytes()).ok_or(Refusal::InvalidBatchEntryId)?;
    let ask = ask_of(alloc, &members.asked)?;
    Ok(Entry { id, ask })
}

// The entries of these members, in memory that is got for all of them first.
fn entries_of(alloc: Global, read: &[EntryMembers<'_>]) -> Result<Listed<Entry>, Refusal>
    requires { list_all (λ entry. is_name entry.id.now) read.now ≡ true }
    ensures ok { IfOk result (λ entries. entries ≡ map entry_by read.now) }
    ensures err { IfErr result (λ e. e ≡ Refusal.NoMemory) }
{
    let mut entries = Vec::with_capacity(alloc, read.len())?;
    for members in read {
        entries.push_reserved(entry_of(alloc, members)?);
    }
    Ok(Listed::of(entries))
}

/// SendMessageBatch, DeleteMessageBatch or ChangeMessageVisibilityBatch. Refused in order as InvalidRequest (a member of the
/// line or of any entry), InvalidAddress, EmptyBatchRequest, TooManyEntriesInBatchRequest, InvalidBatchEntryId,
/// BatchEntryIdsNotDistinct, BatchRequestTooLong; and as NoMemory only where none of these is. What is wrong with an entry
/// alone is what it asks.
#[tactic(auto, using(crate::proofs::RequestLaws::reads_refused), unfolding(crate::specs::Batches::batch_of, crate::specs::Batches::members_of))]
pub fn batch_of(alloc: Global, value: &Value<'_, '_>, kind: BatchKind) -> Result<Call, Refusal>
    ensures { Reads result (batch_of kind (view value.now)) }
{
    let url = url_at(value)?;
    let items = items_at(value, "Entries")?;
    let read = read_entries(kind, items)?;
    let queue = url.ok_or(Refusal::InvalidAddress)?;
    batch_check(&read)?;
    let entries = entries_of(alloc, read.first.as_slice())?;
    match Batch::new(queue, kind, entries) {
        Some(batch) => Ok(Call::Batch(batch)),
        None => unreachable!(),
    }
}
