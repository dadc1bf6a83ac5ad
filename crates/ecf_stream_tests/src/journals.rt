//! Whole journals, written by hand, against what is printed.

use ecf_lang::cell::Cell;
use ecf_lang::name::Name;
use ecf_lang::receipt::{Entry, Order, Receipt, Stop, StopCause};
use ecf_lang::run::Cause;
use ecf_lang::tree::Ty;
use ecf_lang::tx::{Tx, TxCall, TxRef};
use ecf_lang::typed::{FieldKind, Signature, Typed, TypedField, TypedObject};
use ecf_receipts::{print_entries, print_head, print_journal, print_tail};
use sqlite_items::Items;
use std::alloc::{AllocError, Global};
use std::sync::Arc;
use std::test::Fail;

const COUNTER: u8 = 0;

const BANK: u8 = 1;

const THIEF: u8 = 2;

const PLAIN: u8 = 3;

const BUMP: u16 = 0;

const WITHDRAW: u16 = 1;

const GO: u16 = 2;

const SET: u16 = 3;

const COUNTER_N: Cell = Cell {
    object: COUNTER,
    field: 0,
    key: 0,
};

const BANK_OWED_0: Cell = Cell {
    object: BANK,
    field: 0,
    key: 0,
};

const BANK_OWED_1: Cell = Cell {
    object: BANK,
    field: 0,
    key: 1,
};

const BANK_OWED_LAST: Cell = Cell {
    object: BANK,
    field: 0,
    key: u128::MAX,
};

const BANK_CASH: Cell = Cell {
    object: BANK,
    field: 1,
    key: 0,
};

/// The objects with their fields.
const OBJECTS: [(&str, &[(&str, FieldKind)]); 4] = [
    ("Counter", &[("n", FieldKind::Plain(Ty::Num))]),
    (
        "Bank",
        &[
            ("owed", FieldKind::Map(Ty::Num, Ty::Num)),
            ("cash", FieldKind::Plain(Ty::Num)),
        ],
    ),
    ("Thief", &[]),
    ("A", &[]),
];

/// The names of methods with the types of their parameters.
const METHODS: [(&str, &[Ty]); 4] = [
    ("bump", &[]),
    ("withdraw", &[Ty::Addr]),
    ("go", &[]),
    ("set", &[Ty::Num, Ty::Flag, Ty::Addr, Ty::Flag]),
];

/// A call: object, method and arguments.
#[derive(Clone, Copy)]
struct Call<'a>(u8, u16, &'a [u128]);

/// A transaction: submitter, limit and calls.
#[derive(Clone, Copy)]
struct Request<'a>(u32, u32, &'a [Call<'a>]);

/// A receipt over borrowed lists.
#[derive(Clone, Copy)]
enum End<'a> {
    Committed(u128, u32, &'a [(u8, &'a [u16])]),
    Reverted(Cause, u32),
    OutOfFuel(u32),
    Vetoed(u8, u32, &'a [u16], u32),
    Barred(u16, u32),
}

/// A journal as data, and as text: a line for each entry, and what stands after them.
#[derive(Clone, Copy)]
struct Case<'a> {
    requests: &'a [Request<'a>],
    /// The rows of the entries with their receipts.
    ends: &'a [(u32, End<'a>)],
    stop: Option<Stop>,
    cells: &'a [(Cell, u128)],
    lines: &'a [&'a str],
    tail: &'a str,
}

fn object(
    alloc: Global,
    name: &str,
    fields: &[(&str, FieldKind)],
) -> Result<TypedObject, AllocError> {
    let mut typed_fields = Items::new(alloc);
    for (name, kind) in fields {
        typed_fields.push(TypedField {
            name: Name::from_slice(alloc, name.as_bytes())?,
            kind: *kind,
            first: Items::new(alloc),
        })?;
    }
    Ok(TypedObject {
        name: Name::from_slice(alloc, name.as_bytes())?,
        fields: typed_fields,
        methods: Items::new(alloc),
    })
}

fn contract(alloc: Global) -> Result<Typed, AllocError> {
    let mut objects = Items::new(alloc);
    for (name, fields) in &OBJECTS {
        objects.push(object(alloc, name, fields)?)?;
    }
    let mut names = Items::new(alloc);
    let mut signatures = Items::new(alloc);
    for (name, params) in &METHODS {
        names.push(Name::from_slice(alloc, name.as_bytes())?)?;
        signatures.push(Signature {
            params: Items::from_slice(alloc, params)?,
            answer: Ty::Num,
        })?;
    }
    Ok(Typed {
        objects,
        names,
        signatures,
    })
}

fn orders(alloc: Global, given: &[(u8, &[u16])]) -> Result<Items<Order>, AllocError> {
    let mut orders = Items::new(alloc);
    for (object, invs) in given {
        orders.push(Order {
            object: *object,
            invs: Items::from_slice(alloc, invs)?,
        })?;
    }
    Ok(orders)
}

fn receipt(alloc: Global, end: End<'_>) -> Result<Receipt, AllocError> {
    Ok(match end {
        End::Committed(answer, fuel, given) => Receipt::Committed {
            answer,
            fuel,
            orders: orders(alloc, given)?,
        },
        End::Reverted(cause, fuel) => Receipt::Reverted { cause, fuel },
        End::OutOfFuel(fuel) => Receipt::OutOfFuel { fuel },
        End::Vetoed(object, at, cycle, fuel) => Receipt::Vetoed {
            object,
            at,
            cycle: Items::from_slice(alloc, cycle)?,
            fuel,
        },
        End::Barred(watch, fuel) => Receipt::Barred { watch, fuel },
    })
}

fn transaction(alloc: Global, request: &Request<'_>) -> Result<TxRef, AllocError> {
    let Request(submitter, fuel, given) = *request;
    let mut calls = Items::new(alloc);
    for Call(object, method, args) in given {
        calls.push(TxCall {
            object: *object,
            method: *method,
            args: Items::from_slice(alloc, args)?,
        })?;
    }
    let tx = Tx {
        submitter,
        fuel,
        calls,
    };
    Ok(Arc::new(alloc, tx)?)
}

fn transactions(alloc: Global, requests: &[Request<'_>]) -> Result<Vec<TxRef>, AllocError> {
    let mut txs = Vec::new(alloc);
    for request in requests {
        txs.push(transaction(alloc, request)?)?;
    }
    Ok(txs)
}

fn entries(alloc: Global, ends: &[(u32, End<'_>)]) -> Result<Vec<Entry>, AllocError> {
    let mut entries = Vec::new(alloc);
    for (row, end) in ends {
        entries.push(Entry {
            row: *row,
            receipt: receipt(alloc, *end)?,
        })?;
    }
    Ok(entries)
}

const CASES: [Case<'static>; 11] = [
    Case {
        requests: &[],
        ends: &[],
        stop: None,
        cells: &[],
        lines: &[],
        tail: "end\n",
    },
    Case {
        requests: &[Request(1, 100, &[Call(COUNTER, BUMP, &[])])],
        ends: &[(0, End::Committed(1, 14, &[]))],
        stop: None,
        cells: &[(COUNTER_N, 1)],
        lines: &["1 1.1 Counter bump 100 -> committed 1 fuel 14\n"],
        tail: "end\nCounter.n = 1\n",
    },
    Case {
        requests: &[Request(1, 1000, &[Call(BANK, WITHDRAW, &[2])])],
        ends: &[(0, End::Vetoed(BANK, 8, &[0, 2], 136))],
        stop: None,
        cells: &[(BANK_OWED_1, 5), (BANK_CASH, 20)],
        lines: &["1 1.1 Bank withdraw 1000 Thief -> vetoed Bank at 8 cycle 0 2 fuel 136\n"],
        tail: "end\nBank.owed[1] = 5\nBank.cash = 20\n",
    },
    Case {
        requests: &[
            Request(1, 1000, &[Call(BANK, WITHDRAW, &[2])]),
            Request(1, 13, &[Call(COUNTER, BUMP, &[])]),
        ],
        ends: &[
            (
                0,
                End::Committed(5, 136, &[(BANK, &[0, 2]), (THIEF, &[1, 3])]),
            ),
            (1, End::OutOfFuel(13)),
        ],
        stop: Some(Stop {
            line: 3,
            cause: StopCause::Method,
        }),
        cells: &[],
        lines: &[
            "1 1.1 Bank withdraw 1000 Thief -> committed 5 fuel 136 order Bank 0 2 order Thief 1 3\n",
            "2 1.2 Counter bump 13 -> outoffuel fuel 13\n",
        ],
        tail: "stop 3 method\nend\n",
    },
    Case {
        requests: &[
            Request(1, 200, &[Call(PLAIN, GO, &[])]),
            Request(1, 200, &[Call(PLAIN, GO, &[])]),
            Request(1, 200, &[Call(PLAIN, GO, &[])]),
            Request(1, 200, &[Call(PLAIN, GO, &[])]),
            Request(1, 200, &[Call(PLAIN, GO, &[])]),
            Request(1, 200, &[Call(PLAIN, GO, &[])]),
        ],
        ends: &[
            (0, End::Reverted(Cause::User(9), 54)),
            (1, End::Reverted(Cause::Overflow, 1)),
            (2, End::Reverted(Cause::DivZero, 2)),
            (3, End::Reverted(Cause::NoMethod, 3)),
            (4, End::Reverted(Cause::Depth, 4)),
            (5, End::Reverted(Cause::Calls, 5)),
        ],
        stop: Some(Stop {
            line: 3,
            cause: StopCause::Read,
        }),
        cells: &[],
        lines: &[
            "1 1.1 A go 200 -> reverted user 9 fuel 54\n",
            "2 1.2 A go 200 -> reverted overflow fuel 1\n",
            "3 1.3 A go 200 -> reverted divzero fuel 2\n",
            "4 1.4 A go 200 -> reverted nomethod fuel 3\n",
            "5 1.5 A go 200 -> reverted depth fuel 4\n",
            "6 1.6 A go 200 -> reverted calls fuel 5\n",
        ],
        tail: "stop 3 read\nend\n",
    },
    Case {
        requests: &[
            Request(7, 1, &[Call(COUNTER, BUMP, &[])]),
            Request(0, 20, &[Call(COUNTER, BUMP, &[])]),
            Request(4294967295, 1000000, &[Call(COUNTER, BUMP, &[])]),
            Request(7, 4, &[Call(COUNTER, BUMP, &[])]),
            Request(7, 5, &[Call(COUNTER, BUMP, &[])]),
        ],
        ends: &[
            (1, End::Committed(1, 14, &[])),
            (0, End::OutOfFuel(1)),
            (2, End::Committed(2, 14, &[])),
            (3, End::OutOfFuel(4)),
            (4, End::OutOfFuel(5)),
        ],
        stop: Some(Stop {
            line: 12,
            cause: StopCause::Form,
        }),
        cells: &[(COUNTER_N, 2)],
        lines: &[
            "1 0.1 Counter bump 20 -> committed 1 fuel 14\n",
            "2 7.1 Counter bump 1 -> outoffuel fuel 1\n",
            "3 4294967295.1 Counter bump 1000000 -> committed 2 fuel 14\n",
            "4 7.2 Counter bump 4 -> outoffuel fuel 4\n",
            "5 7.3 Counter bump 5 -> outoffuel fuel 5\n",
        ],
        tail: "stop 12 form\nend\nCounter.n = 2\n",
    },
    Case {
        requests: &[Request(1, 10, &[Call(PLAIN, SET, &[u128::MAX, 1, 0, 0])])],
        ends: &[(0, End::Committed(u128::MAX, 10, &[]))],
        stop: None,
        cells: &[(BANK_OWED_0, 1), (BANK_OWED_LAST, u128::MAX)],
        lines: &[
            "1 1.1 A set 10 340282366920938463463374607431768211455 true Counter false -> committed 340282366920938463463374607431768211455 fuel 10\n",
        ],
        tail: "end\nBank.owed[0] = 1\nBank.owed[340282366920938463463374607431768211455] = 340282366920938463463374607431768211455\n",
    },
    Case {
        requests: &[Request(1, 200, &[Call(PLAIN, GO, &[])])],
        ends: &[(0, End::Reverted(Cause::User(u128::MAX), 54))],
        stop: Some(Stop {
            line: 4294967295,
            cause: StopCause::Object,
        }),
        cells: &[],
        lines: &[
            "1 1.1 A go 200 -> reverted user 340282366920938463463374607431768211455 fuel 54\n",
        ],
        tail: "stop 4294967295 object\nend\n",
    },
    Case {
        requests: &[
            Request(1, 300, &[Call(COUNTER, BUMP, &[]), Call(PLAIN, GO, &[])]),
            Request(
                1,
                1000,
                &[
                    Call(PLAIN, SET, &[5, 0, 3, 1]),
                    Call(BANK, WITHDRAW, &[2]),
                    Call(COUNTER, BUMP, &[]),
                ],
            ),
        ],
        ends: &[
            (1, End::Vetoed(BANK, 8, &[1, 3], 250)),
            (0, End::Committed(0, 30, &[(COUNTER, &[0, 1])])),
        ],
        stop: None,
        cells: &[],
        lines: &[
            "1 1.1 A set 1000 5 false A true ; Bank withdraw Thief ; Counter bump -> vetoed Bank at 8 cycle 1 3 fuel 250\n",
            "2 1.2 Counter bump 300 ; A go -> committed 0 fuel 30 order Counter 0 1\n",
        ],
        tail: "end\n",
    },
    Case {
        requests: &[Request(1, 100, &[Call(COUNTER, BUMP, &[])])],
        ends: &[(0, End::Barred(0, 14)), (0, End::Barred(65535, 1000000))],
        stop: None,
        cells: &[(COUNTER_N, 2)],
        lines: &[
            "1 1.1 Counter bump 100 -> barred 0 fuel 14\n",
            "2 1.2 Counter bump 100 -> barred 65535 fuel 1000000\n",
        ],
        tail: "end\nCounter.n = 2\n",
    },
    Case {
        requests: &[Request(
            9,
            8,
            &[
                Call(COUNTER, BUMP, &[]),
                Call(COUNTER, BUMP, &[]),
                Call(COUNTER, BUMP, &[]),
                Call(COUNTER, BUMP, &[]),
                Call(COUNTER, BUMP, &[]),
                Call(COUNTER, BUMP, &[]),
                Call(COUNTER, BUMP, &[]),
                Call(PLAIN, SET, &[7, 1, 1, 0]),
            ],
        )],
        ends: &[(0, End::OutOfFuel(8))],
        stop: None,
        cells: &[],
        lines: &[
            "1 9.1 Counter bump 8 ; Counter bump ; Counter bump ; Counter bump ; Counter bump ; Counter bump ; Counter bump ; A set 7 true Bank false -> outoffuel fuel 8\n",
        ],
        tail: "end\n",
    },
];

const STOPS: [(u32, StopCause, &str); 10] = [
    (12, StopCause::Form, "stop 12 form\nend\n"),
    (
        4294967295,
        StopCause::Object,
        "stop 4294967295 object\nend\n",
    ),
    (3, StopCause::Method, "stop 3 method\nend\n"),
    (1, StopCause::Fuel, "stop 1 fuel\nend\n"),
    (2, StopCause::Arity, "stop 2 arity\nend\n"),
    (3, StopCause::Arg, "stop 3 arg\nend\n"),
    (4, StopCause::Long, "stop 4 long\nend\n"),
    (5, StopCause::Many, "stop 5 many\nend\n"),
    (6, StopCause::Bytes, "stop 6 bytes\nend\n"),
    (3, StopCause::Read, "stop 3 read\nend\n"),
];

/// The lines of the entries of a case from a place on.
fn lines_from(alloc: Global, case: &Case<'_>, from: usize) -> Result<Vec<u8>, AllocError> {
    let typed = contract(alloc)?;
    let txs = transactions(alloc, case.requests)?;
    let entries = entries(alloc, case.ends)?;
    print_entries(alloc, &typed, &txs, &entries, from)
}

fn tail_of(
    alloc: Global,
    stop: Option<Stop>,
    cells: &[(Cell, u128)],
) -> Result<Vec<u8>, AllocError> {
    print_tail(alloc, &contract(alloc)?, stop, cells)
}

/// The whole journal of a case.
fn journal_of(alloc: Global, case: &Case<'_>) -> Result<Vec<u8>, AllocError> {
    let typed = contract(alloc)?;
    let txs = transactions(alloc, case.requests)?;
    let entries = entries(alloc, case.ends)?;
    print_journal(alloc, &typed, &txs, &entries, case.stop, case.cells)
}

fn head(alloc: Global) -> Result<Vec<u8>, AllocError> {
    print_head(alloc)
}

#[test]
fn entries_are_printed_from_any_place(rt: HostRuntime) -> Result<(), Fail> {
    let alloc = rt.alloc();
    for case in &CASES {
        for from in 0..=case.lines.len() {
            let text = lines_from(alloc, case, from)?;
            let want = case.lines[from..].concat(alloc)?;
            assert!(rt; text.as_slice() == want.as_bytes(), "from {from}: {want}");
        }
        for from in [
            case.ends.len(),
            case.ends.len().saturating_add(1),
            usize::MAX,
        ] {
            assert!(rt; lines_from(alloc, case, from)?.is_empty(), "from {from}");
        }
    }
    Ok(())
}

#[test]
fn journals_are_printed_as_written_by_hand(rt: HostRuntime) -> Result<(), Fail> {
    let alloc = rt.alloc();
    for case in &CASES {
        let tail = tail_of(alloc, case.stop, case.cells)?;
        assert!(rt; tail.as_slice() == case.tail.as_bytes(), "{}", case.tail);
        let journal = journal_of(alloc, case)?;
        let mut want = String::from_str(alloc, "journal 2\n")?;
        want.push_str(case.lines.concat(alloc)?.as_str())?;
        want.push_str(case.tail)?;
        assert!(rt; journal.as_slice() == want.as_bytes(), "{want}");
    }
    Ok(())
}

#[test]
fn a_head_tells_version_2(rt: HostRuntime) -> Result<(), Fail> {
    let text = head(rt.alloc())?;
    assert!(rt; text.as_slice() == b"journal 2\n".as_slice());
    Ok(())
}

#[test]
fn stops_are_printed(rt: HostRuntime) -> Result<(), Fail> {
    for (line, cause, want) in STOPS {
        let text = tail_of(rt.alloc(), Some(Stop { line, cause }), &[])?;
        assert!(rt; text.as_slice() == want.as_bytes(), "{want}");
    }
    Ok(())
}
