//! What the numbers of a plan's timing are.

ghost use Rattle.mr_values.specs.TimingLaws.{CeilDivLaw, CeilLogLaw, SignedBitsLaw, WideLaw, GreatestLaw, PhaseLaw};

/// Quotients and logarithms that are rounded up are the least that hold, and so are the bits of a number and of two.
pub fn law_of_least()
    ensures quotient { CeilDivLaw }
    ensures logarithm { CeilLogLaw }
    ensures bits { SignedBitsLaw }
    ensures wide { WideLaw }
{}

/// A phase is every so many of the taps, and the greatest count of the phases is one that a phase has.
pub fn law_of_phases()
    ensures entries { PhaseLaw }
    ensures greatest { GreatestLaw }
{}
