// Why a plan is refused.
ghost use Rattle.std.specs.Prelude.{◌≡◌};
ghost use Rattle.plan_check.specs.declared.fault.PlanFault.TheVariants.{Memory};

use std::alloc::AllocFailed;
use std::fmt;

/// The number of a plan that lies outside its limits.
#[derive(Clone, Copy, Debug, PartialEq, Eq)]
pub enum LimitWhich {
    Width,
    Ticks,
    Elements,
    Factor,
    Stages,
    Delay,
    Taps,
    Tap,
    Slots,
    Group,
    Shift,
    Bits,
}

/// The cost of a plan that is too great.
#[derive(Clone, Copy, Debug, PartialEq, Eq)]
pub enum CostWhich {
    Terms,
    Latency,
    Work,
    Response,
    Cycle,
}

/// The first test of a plan that fails. Elements are counted from 1; element 0 is the plan itself.
#[derive(Clone, Copy, Debug, PartialEq, Eq)]
pub enum PlanFault {
    Limit {
        element: u32,
        which: LimitWhich,
        value: i128,
    },
    RateNotWhole {
        element: u32,
    },
    TooWide {
        element: u32,
    },
    BoundTooWide {
        element: u32,
    },
    FormNotFit {
        element: u32,
    },
    Cost {
        element: u32,
        which: CostWhich,
        value: i128,
    },
    PeriodOver {
        element: u32,
        period: u64,
    },
    Memory,
}

impl<T: Drop> From<AllocFailed<T>> for PlanFault {
    ghost from_gives = { λ _ fault. fault ≡ Memory };

    fn from(_: AllocFailed<T>) -> Self {
        PlanFault::Memory
    }
}

impl fmt::Display for LimitWhich {
    ghost use Rattle.std.specs.Prelude.{Some};
    ghost use Rattle.plan_check.specs.FaultLines.{limit_text};

    ghost output = { λ word. Some (limit_text word) };

    fn fmt<W: fmt::Write>(&self, f: &mut fmt::Formatter<W>) -> fmt::Result {
        match self {
            LimitWhich::Width => write!(f, "Width"),
            LimitWhich::Ticks => write!(f, "Ticks"),
            LimitWhich::Elements => write!(f, "Elements"),
            LimitWhich::Factor => write!(f, "Factor"),
            LimitWhich::Stages => write!(f, "Stages"),
            LimitWhich::Delay => write!(f, "Delay"),
            LimitWhich::Taps => write!(f, "Taps"),
            LimitWhich::Tap => write!(f, "Tap"),
            LimitWhich::Slots => write!(f, "Slots"),
            LimitWhich::Group => write!(f, "Group"),
            LimitWhich::Shift => write!(f, "Shift"),
            LimitWhich::Bits => write!(f, "Bits"),
        }
    }
}

impl fmt::Display for CostWhich {
    ghost use Rattle.std.specs.Prelude.{Some};
    ghost use Rattle.plan_check.specs.FaultLines.{cost_text};

    ghost output = { λ word. Some (cost_text word) };

    fn fmt<W: fmt::Write>(&self, f: &mut fmt::Formatter<W>) -> fmt::Result {
        match self {
            CostWhich::Terms => write!(f, "Terms"),
            CostWhich::Latency => write!(f, "Latency"),
            CostWhich::Work => write!(f, "Work"),
            CostWhich::Response => write!(f, "Response"),
            CostWhich::Cycle => write!(f, "Cycle"),
        }
    }
}

impl fmt::Display for PlanFault {
    ghost use Rattle.std.specs.Prelude.{Some};
    ghost use Rattle.plan_check.specs.FaultLines.{plan_fault_text};

    ghost output = { λ fault. Some (plan_fault_text fault) };

    fn fmt<W: fmt::Write>(&self, f: &mut fmt::Formatter<W>) -> fmt::Result {
        match self {
            PlanFault::Limit {
                element,
                which,
                value,
            } => write!(f, "Limit element={element} which={which} value={value}"),
            PlanFault::RateNotWhole { element } => write!(f, "RateNotWhole element={element}"),
            PlanFault::TooWide { element } => write!(f, "TooWide element={element}"),
            PlanFault::BoundTooWide { element } => write!(f, "BoundTooWide element={element}"),
            PlanFault::FormNotFit { element } => write!(f, "FormNotFit element={element}"),
            PlanFault::Cost {
                element,
                which,
                value,
            } => write!(f, "Cost element={element} which={which} value={value}"),
            PlanFault::PeriodOver { element, period } => {
                write!(f, "PeriodOver element={element} period={period}")
            }
            PlanFault::Memory => write!(f, "Memory"),
        }
    }
}
