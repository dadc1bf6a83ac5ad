//! Gates and what tells a thread to quit, where several threads may share them.

use ecf_edge::{Gate, NeverQuit, OpenGate, Point, Quit};

fn pass<G: Gate + Sync>(gate: &G, point: Point) {
    gate.at(point);
}

fn quits<Q: Quit + Sync>(quit: &Q, point: Point) -> bool {
    quit.quits(point)
}

#[test]
fn an_open_gate_lets_each_thread_pass(_rt: HostRuntime) {
    for point in [
        Point::BeforeRun(0),
        Point::BeforeJudge(1),
        Point::BeforeCommit(2),
        Point::AfterPlaced(3),
    ] {
        pass(&OpenGate, point);
    }
}

#[test]
fn no_thread_gives_up_where_none_may(rt: HostRuntime) {
    assert!(rt; !quits(&NeverQuit, Point::BeforeRun(0)));
}
