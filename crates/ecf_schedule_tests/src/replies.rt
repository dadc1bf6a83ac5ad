//! Events with their replies, against their lines written by hand.

use ecf_core::book::RowState;
use ecf_core::event::{Event, Reply};
use ecf_lang::cell::Cell;
use ecf_lang::name::Name;
use ecf_lang::receipt::{Stop, StopCause};
use ecf_lang::tree::Ty;
use ecf_lang::tx::{Tx, TxRef};
use ecf_lang::typed::{FieldKind, Typed, TypedField, TypedObject};
use ecf_schedule_text::{print_events_stop, print_replies};
use sqlite_items::Items;
use std::alloc::{AllocError, Global};
use std::sync::Arc;
use std::test::Fail;

/// The plain field `x` of the object `C`.
const PLAIN: Cell = Cell {
    object: 0,
    field: 0,
    key: 0,
};

/// A cell of its map `m`.
const OF_MAP: Cell = Cell {
    object: 0,
    field: 1,
    key: u128::MAX,
};

/// A cell of an object that isn't there.
const OF_NOTHING: Cell = Cell {
    object: 1,
    field: 0,
    key: 0,
};

/// The submitters of the rows.
const SUBMITTERS: [u32; 5] = [1, 2, 1, u32::MAX, 1];

fn contract(alloc: Global) -> Result<Typed, AllocError> {
    let mut fields = Items::new(alloc);
    for (name, kind) in [
        ("x", FieldKind::Plain(Ty::Num)),
        ("m", FieldKind::Map(Ty::Num, Ty::Num)),
    ] {
        fields.push(TypedField {
            name: Name::from_slice(alloc, name.as_bytes())?,
            kind,
            first: Items::new(alloc),
        })?;
    }
    let mut objects = Items::new(alloc);
    objects.push(TypedObject {
        name: Name::from_slice(alloc, b"C")?,
        fields,
        methods: Items::new(alloc),
    })?;
    Ok(Typed {
        objects,
        names: Items::new(alloc),
        signatures: Items::new(alloc),
    })
}

fn transactions(alloc: Global) -> Result<Vec<TxRef>, AllocError> {
    let mut txs = Vec::new(alloc);
    for submitter in SUBMITTERS {
        let tx = Tx {
            submitter,
            fuel: 100,
            calls: Items::new(alloc),
        };
        txs.push(Arc::new(alloc, tx)?)?;
    }
    Ok(txs)
}

/// A text of ASCII.
fn text_of(alloc: Global, bytes: &[u8]) -> Result<String, AllocError> {
    let mut text = String::new(alloc);
    for byte in bytes {
        text.push(char::from(*byte))?;
    }
    Ok(text)
}

fn printed(alloc: Global, events: &[Event], replies: &[Reply]) -> Result<String, AllocError> {
    let typed = contract(alloc)?;
    let txs = transactions(alloc)?;
    let bytes = print_replies(alloc, &typed, txs.as_slice(), events, replies)?;
    text_of(alloc, bytes.as_slice())
}

#[test]
fn each_reply_has_its_line(rt: HostRuntime) -> Result<(), Fail> {
    for (event, reply, want) in [
        (
            Event::Claim(0),
            Reply::Work { row: 0 },
            "claim 0 -> work 1.1\n",
        ),
        (
            Event::Claim(9),
            Reply::Work { row: 1 },
            "claim 9 -> work 2.1\n",
        ),
        (
            Event::Claim(10),
            Reply::Work { row: 4 },
            "claim 10 -> work 1.3\n",
        ),
        (
            Event::Claim(23),
            Reply::Work { row: 5 },
            "claim 23 -> work \n",
        ),
        (Event::Claim(7), Reply::Later, "claim 7 -> later\n"),
        (Event::Claim(7), Reply::Over, "claim 7 -> over\n"),
        (Event::Run(1), Reply::Ran, "run 1 -> ran\n"),
        (Event::Hand(2), Reply::Handed, "hand 2 -> handed\n"),
        (Event::Hand(2), Reply::Full, "hand 2 -> full\n"),
        (
            Event::Take(3),
            Reply::Took { row: 2 },
            "take 3 -> took 1.2\n",
        ),
        (
            Event::Take(3),
            Reply::Took { row: 3 },
            "take 3 -> took 4294967295.1\n",
        ),
        (Event::Take(3), Reply::Empty, "take 3 -> empty\n"),
        (Event::Judge(4), Reply::Judged, "judge 4 -> judged\n"),
        (
            Event::Commit(5),
            Reply::Placed { seq: 1 },
            "commit 5 -> placed 1\n",
        ),
        (
            Event::Commit(5),
            Reply::Stale {
                cell: PLAIN,
                was: 5,
                is: 15,
            },
            "commit 5 -> stale C.x was 5 is 15\n",
        ),
        (
            Event::Commit(5),
            Reply::LastStale {
                cell: OF_MAP,
                was: 0,
                is: u128::MAX,
            },
            "commit 5 -> laststale C.m[340282366920938463463374607431768211455] was 0 is 340282366920938463463374607431768211455\n",
        ),
        (
            Event::Commit(5),
            Reply::Stale {
                cell: OF_NOTHING,
                was: 1,
                is: 2,
            },
            "commit 5 -> stale . was 1 is 2\n",
        ),
        (
            Event::Commit(5),
            Reply::Gone {
                kept: RowState::Free { claims: 1 },
            },
            "commit 5 -> gone free\n",
        ),
        (
            Event::Here(6),
            Reply::Gone {
                kept: RowState::Claimed {
                    ticket: 12,
                    claims: 2,
                    stales: 1,
                },
            },
            "here 6 -> gone claimed 12\n",
        ),
        (
            Event::Release(7),
            Reply::Gone {
                kept: RowState::Done { seq: 3 },
            },
            "release 7 -> gone done 3\n",
        ),
        (
            Event::Here(6),
            Reply::Placed { seq: 200_000 },
            "here 6 -> placed 200000\n",
        ),
        (Event::Release(7), Reply::Freed, "release 7 -> freed\n"),
        (Event::Lose(8), Reply::Lost, "lose 8 -> lost\n"),
        (Event::Lose(8), Reply::Refused, "lose 8 -> refused\n"),
        (
            Event::Reclaim,
            Reply::Reclaimed { rows: 0 },
            "reclaim -> reclaimed 0\n",
        ),
        (
            Event::Reclaim,
            Reply::Reclaimed { rows: 24 },
            "reclaim -> reclaimed 24\n",
        ),
    ] {
        let text = printed(rt.alloc(), &[event], &[reply])?;
        assert_eq!(rt; text.as_str(), want);
    }
    Ok(())
}

#[test]
fn lines_stand_in_the_order_of_the_events(rt: HostRuntime) -> Result<(), Fail> {
    let events = [Event::Claim(0), Event::Claim(1), Event::Run(0)];
    let replies = [Reply::Work { row: 0 }, Reply::Later, Reply::Ran];
    for (count, want) in [
        (0, ""),
        (1, "claim 0 -> work 1.1\n"),
        (3, "claim 0 -> work 1.1\nclaim 1 -> later\nrun 0 -> ran\n"),
    ] {
        let text = printed(rt.alloc(), &events, &replies[..count])?;
        assert_eq!(rt; text.as_str(), want);
    }
    Ok(())
}

fn printed_stop(alloc: Global, stop: Option<Stop>) -> Result<String, AllocError> {
    let bytes = print_events_stop(alloc, stop)?;
    text_of(alloc, bytes.as_slice())
}

#[test]
fn a_stop_has_its_line(rt: HostRuntime) -> Result<(), Fail> {
    for (line, cause, want) in [
        (1, StopCause::Form, "stop events 1 form\n"),
        (2, StopCause::Long, "stop events 2 long\n"),
        (200_001, StopCause::Many, "stop events 200001 many\n"),
        (16_385, StopCause::Bytes, "stop events 16385 bytes\n"),
        (u32::MAX, StopCause::Read, "stop events 4294967295 read\n"),
    ] {
        let text = printed_stop(rt.alloc(), Some(Stop { line, cause }))?;
        assert_eq!(rt; text.as_str(), want);
    }
    let none = printed_stop(rt.alloc(), None)?;
    assert_eq!(rt; none.as_str(), "");
    Ok(())
}
