// The groups of a plan.
ghost use Rattle.std.specs.Prelude.{◌≡◌, ◌+◌, ◌≤◌, [], All, MatchOption, pos, ◌≤ℤ◌};
ghost use Rattle.std.specs.Option.{option_map};
ghost use Rattle.mr_values.specs.Value.{size, IsWithinLimits};
ghost use Rattle.mr_values.specs.Timing.{up_factor, down_factor};
ghost use Rattle.plan_check.specs.Groups.{group_of, filter_of, size_of, middle_of, last_of, IsGroup, IsFactor, IsSplit, leading_up, past_up, leading_filter, past_filter, leading_down, past_down, BeginsFir};

use mr_values::{Element, Form, Mode};

/// The filter of a group.
#[derive(Clone, Copy, Debug)]
pub struct FirFilter<'a> {
    pub taps: &'a [i64],
    pub form: Form,
}

/// A group: an Up, a Filter and a Down, at least one of them, or a CIC, a Round or a Clip by itself.
#[derive(Clone, Copy, Debug)]
pub enum PlanGroup<'a> {
    Fir {
        up: Option<u32>,
        filter: Option<FirFilter<'a>>,
        down: Option<u32>,
    },
    CicDown {
        factor: u32,
        stages: u32,
        delay: u32,
    },
    CicUp {
        factor: u32,
        stages: u32,
        delay: u32,
    },
    Round {
        shift: u32,
        mode: Mode,
    },
    Clip {
        bits: u32,
    },
}

/// The first group of the elements, and the elements after it; `None` where there are none.
/// An Up, a Filter and a Down join as far as they stand in this order.
pub fn split_group(elements: &[Element]) -> Option<(PlanGroup<'_>, &[Element])>
    requires { All IsWithinLimits elements.now }
    ensures { MatchOption result (elements.now ≡ []) (λ s. IsSplit elements.now (group_of s.0) s.1.now) }
{
    let (first, rest) = elements.split_first()?;
    match first {
        Element::CicDown {
            factor,
            stages,
            delay,
        } => {
            let group = PlanGroup::CicDown {
                factor: whole(*factor),
                stages: whole(*stages),
                delay: whole(*delay),
            };
            Some((group, rest))
        }
        Element::CicUp {
            factor,
            stages,
            delay,
        } => {
            let group = PlanGroup::CicUp {
                factor: whole(*factor),
                stages: whole(*stages),
                delay: whole(*delay),
            };
            Some((group, rest))
        }
        Element::Round { shift, mode } => {
            let group = PlanGroup::Round {
                shift: whole(*shift),
                mode: *mode,
            };
            Some((group, rest))
        }
        Element::Clip { bits } => Some((PlanGroup::Clip { bits: whole(*bits) }, rest)),
        Element::Up { .. } | Element::Filter { .. } | Element::Down { .. } => {
            Some(split_fir(elements))
        }
    }
}

fn split_fir(elements: &[Element]) -> (PlanGroup<'_>, &[Element])
    requires limits { All IsWithinLimits elements.now }
    requires begins { BeginsFir elements.now }
    ensures { IsSplit elements.now (group_of result.0) result.1.now }
{
    let (up, rest) = take_up(elements);
    let (filter, rest) = take_filter(rest);
    let (down, rest) = take_down(rest);
    (PlanGroup::Fir { up, filter, down }, rest)
}

fn take_up(elements: &[Element]) -> (Option<u32>, &[Element])
    requires { All IsWithinLimits elements.now }
    ensures factor { result.0 ≡ leading_up elements.now }
    ensures rest { result.1.now ≡ past_up elements.now }
{
    match elements {
        [Element::Up { factor }, rest @ ..] => (Some(whole(*factor)), rest),
        _ => (None, elements),
    }
}

fn take_filter(elements: &[Element]) -> (Option<FirFilter<'_>>, &[Element])
    ensures filter { option_map filter_of result.0 ≡ leading_filter elements.now }
    ensures rest { result.1.now ≡ past_filter elements.now }
{
    match elements {
        [Element::Filter { taps, form }, rest @ ..] => {
            let filter = FirFilter {
                taps: taps.as_slice(),
                form: *form,
            };
            (Some(filter), rest)
        }
        _ => (None, elements),
    }
}

fn take_down(elements: &[Element]) -> (Option<u32>, &[Element])
    requires { All IsWithinLimits elements.now }
    ensures factor { result.0 ≡ leading_down elements.now }
    ensures rest { result.1.now ≡ past_down elements.now }
{
    match elements {
        [Element::Down { factor }, rest @ ..] => (Some(whole(*factor)), rest),
        _ => (None, elements),
    }
}

/// A number of a plan within its limits.
pub(crate) fn whole(number: i64) -> u32
    requires least { pos 1 ≤ℤ number }
    requires greatest { number ≤ℤ pos 65536 }
    ensures { result ≡ size number }
{
    number as u32
}

impl PlanGroup<'_> {
    /// How many elements it takes.
    pub fn size(&self) -> u32
        ensures { result ≡ size_of (group_of self.now) }
    {
        match self {
            PlanGroup::Fir { up, filter, down } => {
                u32::from(up.is_some()) + u32::from(filter.is_some()) + u32::from(down.is_some())
            }
            _ => 1,
        }
    }

    /// The number of its Filter, CIC, Round or Clip, where its first element has the number `first`.
    pub fn middle(&self, first: u32) -> u32
        requires { first ≤ 32 }
        ensures { result ≡ middle_of first (group_of self.now) }
    {
        match self {
            PlanGroup::Fir { up: Some(_), .. } => first + 1,
            _ => first,
        }
    }

    /// The number of its last element, where its first one has the number `first`.
    pub fn last(&self, first: u32) -> u32
        requires low { 1 ≤ first }
        requires high { first ≤ 32 }
        ensures { result ≡ last_of first (group_of self.now) }
    {
        first + self.size() - 1
    }

    /// Its Up factor, 1 where there is none.
    pub fn up(&self) -> u32
        requires { IsGroup (group_of self.now) }
        ensures value { result ≡ up_factor (group_of self.now) }
        ensures within { IsFactor result }
    {
        match self {
            PlanGroup::Fir { up, .. } => up.unwrap_or(1),
            PlanGroup::CicUp { factor, .. } => *factor,
            _ => 1,
        }
    }

    /// Its Down factor, 1 where there is none.
    pub fn down(&self) -> u32
        requires { IsGroup (group_of self.now) }
        ensures value { result ≡ down_factor (group_of self.now) }
        ensures within { IsFactor result }
    {
        match self {
            PlanGroup::Fir { down, .. } => down.unwrap_or(1),
            PlanGroup::CicDown { factor, .. } => *factor,
            _ => 1,
        }
    }
}
