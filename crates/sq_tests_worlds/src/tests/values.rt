//! Plain values from outside, each call once where it succeeds, and how a refusal is written.
use sq_base::body::{BODY_LIMIT, Body, body_md5};
use sq_base::handle::{HANDLE_LENGTH, Handle, read_handle, write_handle};
use sq_base::ids::{HomeNo, QueueNo, Serial};
use sq_base::message_id::MessageId;
use sq_base::name::QueueName;
use sq_base::ranges::Receives;
use sq_base::refusal::Refusal;
use sq_base::row::Row;
use sq_base::stamp::{Stamp, derived_order};
use sq_model::item::{HeldItem, Item, ItemNo, Reason};
use sq_tests_kit::setup::{hello, id, stamp};
use std::alloc::Global;
use uuid::Uuid;

fn handle_of(queue: u64, home: u64, slot: u32, serial: u64, receive: u64) -> Option<Handle> {
    Some(Handle {
        queue: QueueNo::new(queue)?,
        home: HomeNo::new(home)?,
        slot,
        serial: Serial::new(serial)?,
        receive: Receives::new(receive)?,
    })
}

// Whether a handle has this text, and this text and that of version 1 are read as it.
fn has_text(handle: &Option<Handle>, text: &[u8; HANDLE_LENGTH]) -> bool {
    let mut written = [0u8; HANDLE_LENGTH];
    if let Some(h) = handle {
        h.fits();
        write_handle(h, &mut written);
    }
    handle.is_some()
        && read_handle(text) == *handle
        && read_handle(&text[2..]) == *handle
        && &written == text
}

#[test]
fn handles_have_their_texts(rt: HostRuntime) {
    let last = handle_of(
        281_474_976_710_655,
        15,
        u32::MAX,
        4_611_686_018_427_387_903,
        4_294_967_295,
    );
    for (text, handle) in [
        (
            b"2-000000000001-000-00000000-0000000000000000-00000001",
            handle_of(1, 0, 0, 0, 1),
        ),
        (
            b"2-ffffffffffff-00f-ffffffff-3fffffffffffffff-ffffffff",
            last,
        ),
    ] {
        assert!(rt; has_text(&handle, text));
    }
}

fn id_of(queue: u64, home: u64, serial: u64) -> Option<MessageId> {
    Some(MessageId {
        queue: QueueNo::new(queue)?,
        home: HomeNo::new(home)?,
        serial: Serial::new(serial)?,
    })
}

// Whether an id has the UUID of this text, and that is read as it.
fn has_uuid(id: &MessageId, text: &str) -> bool {
    id.fits();
    let mut buffer = Uuid::encode_buffer();
    let uuid = id.to_uuid();
    uuid.hyphenated().encode_lower(&mut buffer) == text && MessageId::from_uuid(&uuid) == Some(*id)
}

#[test]
fn ids_have_their_uuids(rt: HostRuntime) {
    let ids = [
        (id_of(1, 0, 0), "00000000-0001-8000-8000-000000000000"),
        (
            id_of(281_474_976_710_655, 15, 4_611_686_018_427_387_903),
            "ffffffff-ffff-800f-bfff-ffffffffffff",
        ),
        (
            id_of(0x0123_4567_89ab, 10, 0x0def_0123_4567_89ab),
            "01234567-89ab-800a-8def-0123456789ab",
        ),
    ];
    for (id, text) in ids {
        let is_right = match id {
            Some(id) => has_uuid(&id, text),
            None => false,
        };
        assert!(rt; is_right, "{text}");
    }
}

// Whether this is a UUID, and no message's.
fn is_no_id(text: &str) -> bool {
    match Uuid::parse_str(text) {
        Ok(uuid) => MessageId::from_uuid(&uuid).is_none(),
        Err(_) => false,
    }
}

#[test]
fn other_uuids_are_no_ids(rt: HostRuntime) {
    let texts = [
        "00000000-0001-7000-8000-000000000000",
        "00000000-0001-8000-4000-000000000000",
        "00000000-0001-8000-c000-000000000000",
        "00000000-0001-8010-8000-000000000000",
        "00000000-0000-8000-8000-000000000000",
        "67e55044-10b1-426f-9247-bb680e5fe0c8",
    ];
    for text in texts {
        assert!(rt; is_no_id(text), "{text}");
    }
}

fn copied(alloc: Global) -> Result<Body, Refusal> {
    hello(alloc)?.copy()
}

fn is_hello(body: &Body) -> bool {
    body.as_str() == "hello"
        && body.len() == 5
        && &body_md5(body) == b"5d41402abc4b2a76b9719d911017c592"
}

#[test]
fn bodies_are_kept(rt: HostRuntime) {
    let copy = copied(rt.alloc()).expect(&rt, "memory");
    assert!(rt; is_hello(&copy) && Body::new(rt.alloc(), "", BODY_LIMIT).is_err());
}

const LAST: u64 = 4_611_686_018_427_387_903;

#[test]
fn stamps_follow(rt: HostRuntime) {
    let start = Stamp::start();
    let steps = [
        (start, start, 0, Ok(stamp(0, 1))),
        (start, start, 7, Ok(stamp(7, 0))),
        (stamp(5, 2), stamp(5, 9), 5, Ok(stamp(5, 10))),
        (stamp(5, 9), stamp(6, 2), 5, Ok(stamp(6, 3))),
        (stamp(6, 2), stamp(5, 9), 4, Ok(stamp(6, 3))),
        (stamp(5, LAST), start, 5, Err(Refusal::Worn)),
        (stamp(5, LAST), start, 6, Ok(stamp(6, 0))),
        (start, start, LAST, Ok(stamp(LAST, 0))),
        (start, start, LAST + 1, Err(Refusal::ClockRange)),
        (stamp(5, LAST), start, u64::MAX, Err(Refusal::ClockRange)),
    ];
    for (a, b, now, want) in steps {
        assert!(rt; Stamp::after(a, b, now) == want, "{now}");
    }
}

#[test]
fn stamps_are_in_order(rt: HostRuntime) {
    derived_order();
    assert!(rt; stamp(5, 9).is_below(stamp(6, 0)) && !stamp(5, 9).is_below(stamp(5, 9)));
}

// Whether the one name comes before the other.
fn is_before(name: &[u8], other: &[u8]) -> bool {
    match (QueueName::new(name), QueueName::new(other)) {
        (Some(name), Some(other)) => name < other,
        _ => false,
    }
}

#[test]
fn names_are_in_byte_order(rt: HostRuntime) {
    assert!(rt; is_before(b"B", b"a") && is_before(b"a", b"aa"));
}

// Those that no line has, and more.
const REFUSALS: &[(Refusal, u8, &str)] = &[
    (Refusal::NoMemory, 1, "NoMemory"),
    (Refusal::Worn, 3, "Worn"),
    (Refusal::QueueDeletedRecently, 11, "QueueDeletedRecently"),
    (Refusal::PurgeQueueInProgress, 12, "PurgeQueueInProgress"),
    (Refusal::EmptyBatchRequest, 17, "EmptyBatchRequest"),
    (
        Refusal::TooManyEntriesInBatchRequest,
        18,
        "TooManyEntriesInBatchRequest",
    ),
    (Refusal::InvalidBatchEntryId, 19, "InvalidBatchEntryId"),
    (
        Refusal::BatchEntryIdsNotDistinct,
        20,
        "BatchEntryIdsNotDistinct",
    ),
    (Refusal::BatchRequestTooLong, 21, "BatchRequestTooLong"),
    (
        Refusal::ResourceNotFoundException,
        22,
        "ResourceNotFoundException",
    ),
];

#[test]
fn refusals_have_names(rt: HostRuntime) {
    for (refusal, number, name) in REFUSALS.iter() {
        assert!(rt;
            refusal.number() == *number && refusal.name() == *name,
            "{name}"
        );
    }
}

fn is_the_item(kept: &Item) -> bool {
    kept.number == ItemNo::first()
        && kept.row.id == id(0)
        && kept.row.slot == 3
        && kept.source.get() == 2
        && kept.target.get() == 1
        && kept.homeward
}

#[test]
fn a_box_gives_its_item(rt: HostRuntime) {
    let row = Row {
        id: id(0),
        lineage: id(0),
        body: hello(rt.alloc()).expect(&rt, "memory"),
        serial: Serial::first(),
        slot: 3,
        enqueued: 1000,
        visible_from: 31_000,
        receives: 1,
        last_receive: Some(1000),
        origin: None,
    };
    let item = Item {
        number: ItemNo::first(),
        row,
        source: QueueNo::following(1),
        target: QueueNo::following(0),
        reason: Reason::DeadLetter,
        homeward: true,
    };
    let boxed = HeldItem::new(rt.alloc(), item).expect(&rt, "memory");
    assert!(rt; is_the_item(boxed.get()));
}
