//! A pace that is told how far both cores are, and what a core carries along for it.

ghost use Rattle.flash_ops.specs.declared.pace.Point.{Point};

/// A moment of a leg: before or behind the driver's n-th quiet period that has a step, or before or
/// behind the worker's k-th action. Both are counted from 1.
#[derive(Clone, Copy, Debug, PartialEq, Eq)]
pub enum Point {
    DriverOp(u32),
    DriverOpDone(u32),
    WorkerAct(u32),
    WorkerActDone(u32),
}

/// Is called at each moment. It answers nothing and always returns.
///
/// A core that is in `at` serves no gate, so a pace must not wait there for the other core's quiet
/// period to end.
pub trait Pace {
    /// The pace was told of the point: a fact that `at` alone gives.
    ghost told: { Self → Point → Type 0 };

    /// Tells the pace of the point.
    fn at(&self, point: Point)
        ensures told { told self.now point };
}

/// Returns at once.
#[derive(Clone, Copy, Debug, Drop)]
pub struct NoPace;

impl Pace for NoPace {
    ghost told = { λ pace point. Unit {0} };

    fn at(&self, _point: Point) {}
}

/// What a core carries along through its quiet periods: the pace; the address of 4 bytes at which it
/// looks behind each period, if any; and how many periods it has begun that have a step.
#[derive(Drop)]
pub struct Beat<'a, P: Pace> {
    pub pace: &'a P,
    pub probe: Option<u32>,
    pub ops: u32,
}
