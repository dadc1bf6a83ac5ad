//! The moments of a run at which a test may hold a thread, or have it give up.
ghost use Rattle.std.specs.Prelude.{◌≡◌, IsTrue, false};

/// A moment in the life of a row, which each variant names.
#[derive(Clone, Copy, Debug, PartialEq, Eq)]
pub enum Point {
    /// Before a worker runs the row's transaction.
    BeforeRun(u32),
    /// Before a monitor judges the row's draft.
    BeforeJudge(u32),
    /// Before the row's draft is committed.
    BeforeCommit(u32),
    /// After the row was placed in the journal.
    AfterPlaced(u32),
}

/// What is told of each point that a thread comes to. It means nothing: an implementation may only take its time.
pub trait Gate {
    /// Called at a point. The caller goes on when it returns.
    fn at(&self, point: Point);
}

/// A gate that lets each thread pass at once.
#[derive(Clone, Copy, Debug)]
pub struct OpenGate;

impl Gate for OpenGate {
    fn at(&self, _point: Point) {}
}

/// Whether a thread is to give up its work early, as a test may want. A thread asks after each call of a gate.
pub trait Quit {
    /// Whether true may be answered at all. It is one fact for the whole life of the object.
    ghost may: { Self → Type 0 };

    /// Whether the thread that came to this point is to give up.
    fn quits(&self, point: Point) -> bool
        ensures { IsTrue result → may self.now };
}

/// What lets each thread go on to its end.
#[derive(Clone, Copy, Debug)]
pub struct NeverQuit;

impl Quit for NeverQuit {
    ghost may = { λ _. ⊥ };

    fn quits(&self, _point: Point) -> bool
        ensures { result ≡ false }
    {
        false
    }
}
