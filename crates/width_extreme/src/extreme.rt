//! Where a sum reaches an end of its range, and the samples that make it.

ghost use Rattle.std.specs.Prelude.{◌≡◌, ℕ, ◌+◌, ◌*◌, ◌/◌, ◌%◌, ◌<◌, ◌≤◌, ◌^◌, ◌⊎◌, length, pos, true, IfOk};
ghost use Rattle.stage_law.specs.Weights.{weights_of};
ghost use Rattle.width_extreme.specs.Furthest.{IsFurther, IsPast};

use crate::prefix::PrefixRanges;
use mr_values::Memory;
use plan_check::gcd;
use stage_law::{Class, WeightedSum};
use std::alloc::Global;

/// The index at which some samples make a sum reach an end of its range, and that end.
#[derive(Clone, Copy, Debug, PartialEq, Eq)]
pub struct Reached {
    pub index: u128,
    pub value: i128,
}

/// Samples that make a sum reach an end of its range, the index at which they do, and that end.
#[derive(Drop)]
pub struct Extreme {
    pub samples: Vec<i64>,
    pub index: u128,
    pub value: i128,
}

// An end of a sum in a finer class.
#[derive(Clone, Copy)]
struct FinerEnd {
    finer: u64,
    value: i128,
}

impl PrefixRanges {
    ghost use Rattle.impulse_phase.specs.Reading.{rows_of, responses_of};
    ghost use Rattle.width_extreme.specs.Prefix.{finer_classes};
    ghost use Rattle.width_extreme.specs.Walk.{delay_at, needed_for, HasFormRoom};
    ghost use Rattle.width_extreme.specs.Furthest.{end_at, whole_of, chosen_for, near_end, far_end, samples_at, IsEndReached, IsEndReachable};

    /// The greatest value of the sum over the streams and the indices of the class, or else the least, and an index
    /// of the class at which some samples of the width make it. It takes no memory.
    pub fn extreme_value(&self, sum: &WeightedSum, class: Class, high: bool) -> Reached
        requires class { class.residue < class.modulus }
        requires room { HasFormRoom self.now.table self.now.width (weights_of sum.now) }
        ensures reachable { IsEndReachable self.now.table self.now.width self.now.longest sum.now class high result.index result.value }
        ensures near { result.index ≤ 2 ^ 97 }
    {
        self.reach(sum, class, high)
    }

    /// The same, with samples that make the sum this end: each stands at the end of its width that its weight asks for,
    /// and is 0 where the weight is 0. Fails only for want of memory.
    pub fn extreme(
        &self,
        alloc: Global,
        sum: &WeightedSum,
        class: Class,
        high: bool,
    ) -> Result<Extreme, Memory>
        requires class { class.residue < class.modulus }
        requires room { HasFormRoom self.now.table self.now.width (weights_of sum.now) }
        ensures reached { IfOk result (λ extreme. IsEndReached self.now.table self.now.width self.now.longest sum.now class high extreme.samples.items extreme.index extreme.value) }
        ensures near { IfOk result (λ extreme. extreme.index ≤ 2 ^ 97) }
        ensures samples { IfOk result (λ extreme. extreme.samples.items ≡ samples_at self.now.table self.now.width (weights_of sum.now) high extreme.index) }
    {
        let reached = self.reach(sum, class, high);
        let samples = self.samples(alloc, sum, reached.index, high)?;
        Ok(Extreme {
            samples,
            index: reached.index,
            value: reached.value,
        })
    }

    // The end, and the index at which it is reached.
    fn reach(&self, sum: &WeightedSum, class: Class, high: bool) -> Reached
        requires class { class.residue < class.modulus }
        requires room { HasFormRoom self.now.table self.now.width (weights_of sum.now) }
        ensures end { IsEndReached self.now.table self.now.width self.now.longest sum.now class high
            (samples_at self.now.table self.now.width (weights_of sum.now) high result.index) result.index result.value }
        ensures near { result.index ≤ length (rows_of self.now.table) * 2 ^ 64 + 2 ^ 66 }
    {
        let furthest = self.furthest(sum, class, high);
        Reached {
            index: self.index_past(sum, class, furthest.finer),
            value: furthest.value,
        }
    }

    // The samples up to the newest one in the sum at an index, each as its weight asks for.
    fn samples(
        &self,
        alloc: Global,
        sum: &WeightedSum,
        index: u128,
        high: bool,
    ) -> Result<Vec<i64>, Memory>
        requires room { HasFormRoom self.now.table self.now.width (weights_of sum.now) }
        requires near { index ≤ length (rows_of self.now.table) * 2 ^ 64 + 2 ^ 66 }
        ensures { IfOk result (λ samples. samples.items ≡ samples_at self.now.table self.now.width (weights_of sum.now) high index) }
    {
        let first = self.class_of(index);
        let newest = self.newest_at(index);
        let mut samples = Vec::new(alloc);
        let mut place = 0u128;
        let mut start = 0usize;
        let entry = self.first_entry(first, 0);
        'places: while place <= newest {
            if start < sum.weights.len() && self.is_spent(first, sum.weights[start].behind, place) {
                start += 1;
            } else {
                let weight = self.weight_at(first, entry, sum, start, place);
                samples.push(self.sample_for(weight, high))?;
                place += 1;
            }
        }
        samples.reverse();
        Ok(samples)
    }

    // Whether the value that came so many values before reaches no place from this one on.
    fn is_spent(&self, index: u64, behind: u64, place: u128) -> bool
        requires { index < length (rows_of self.now.table) }
        ensures { result ≡ true → delay_at self.now.table index behind + self.now.longest ≤ place }
    {
        let entry = self.first_entry(index, behind);
        self.delay(index, entry) + u128::from(self.longest) <= place
    }

    // The class of an index.
    fn class_of(&self, index: u128) -> u64
        ensures class { result ≡ index % length (rows_of self.now.table) }
        ensures below { result < length (rows_of self.now.table) }
    {
        (index % u128::from(self.table.classes())) as u64
    }

    // How many rounds of the classes lie before an index.
    fn rounds_to(&self, index: u128) -> u128
        requires near { index ≤ length (rows_of self.now.table) * 2 ^ 64 + 2 ^ 66 }
        ensures rounds { result ≡ index / length (rows_of self.now.table) }
        ensures few { result < 2 ^ 67 }
    {
        index / u128::from(self.table.classes())
    }

    // The newest sample of an index.
    fn newest_at(&self, index: u128) -> u128
        requires near { index ≤ length (rows_of self.now.table) * 2 ^ 64 + 2 ^ 66 }
        ensures newest { pos result ≡ (responses_of self.now.table (pos index)).newest }
        ensures small { result < 2 ^ 100 }
    {
        let newest = u128::from(self.table.newest(self.class_of(index)));
        newest + self.rounds_to(index) * u128::from(self.table.step())
    }

    // The sample that a weight asks for.
    fn sample_for(&self, weight: i128, high: bool) -> i64
        ensures { result ≡ chosen_for (near_end high self.now.width) (far_end high self.now.width) weight }
    {
        if weight == 0 {
            0
        } else if (weight > 0) == high {
            self.greatest() as i64
        } else {
            self.least() as i64
        }
    }

    // The finer class with the greatest end, or else the least.
    fn furthest(&self, sum: &WeightedSum, class: Class, high: bool) -> FinerEnd
        requires class { class.residue < class.modulus }
        requires room { HasFormRoom self.now.table self.now.width (weights_of sum.now) }
        ensures finer { result.finer < finer_classes (length (rows_of self.now.table)) class.modulus }
        ensures value { result.value ≡ end_at high self.now.width (weights_of sum.now) (responses_of self.now.table) (class.residue + result.finer * class.modulus) }
        ensures furthest { (i : ℕ) → i < finer_classes (length (rows_of self.now.table)) class.modulus
            → IsFurther high (end_at high self.now.width (weights_of sum.now) (responses_of self.now.table) (class.residue + i * class.modulus)) result.value }
    {
        let mut best = self.finer_end(sum, class, 0, high);
        for finer in 1..self.finer_count(class) {
            let next = self.finer_end(sum, class, finer, high);
            best = further(best, next, high);
        }
        best
    }

    // Into how many finer classes the class falls.
    fn finer_count(&self, class: Class) -> u64
        requires { class.residue < class.modulus }
        ensures count { result ≡ finer_classes (length (rows_of self.now.table)) class.modulus }
        ensures some { 0 < result }
        ensures few { result ≤ 2 ^ 32 }
    {
        let classes = self.table.classes();
        classes / gcd(classes, u64::from(class.modulus))
    }

    // The end of the sum in a finer class.
    fn finer_end(&self, sum: &WeightedSum, class: Class, finer: u64, high: bool) -> FinerEnd
        requires class { class.residue < class.modulus }
        requires few { finer < 2 ^ 32 }
        requires room { HasFormRoom self.now.table self.now.width (weights_of sum.now) }
        ensures finer { result.finer ≡ finer }
        ensures value { result.value ≡ end_at high self.now.width (weights_of sum.now) (responses_of self.now.table) (class.residue + finer * class.modulus) }
    {
        let index = first_of(class, finer) % self.table.classes();
        let range = self.ends(index, sum);
        if high {
            FinerEnd {
                finer,
                value: range.hi,
            }
        } else {
            FinerEnd {
                finer,
                value: range.lo,
            }
        }
    }

    // The first index of a finer class at which every sample in the sum has an index of 0 or more.
    fn index_past(&self, sum: &WeightedSum, class: Class, finer: u64) -> u128
        requires class { class.residue < class.modulus }
        requires finer { finer < finer_classes (length (rows_of self.now.table)) class.modulus }
        ensures past { IsPast (class.residue + finer * class.modulus) (whole_of self.now.table class)
            (needed_for self.now.table self.now.longest (length (weights_of sum.now))) result }
        ensures near { result ≤ length (rows_of self.now.table) * 2 ^ 64 + 2 ^ 66 }
    {
        let first = first_of(class, finer);
        past(
            u128::from(first),
            u128::from(self.whole(class)),
            self.needed(reach_of(sum)),
        )
    }

    // The indices of a round of all finer classes.
    fn whole(&self, class: Class) -> u64
        requires class { class.residue < class.modulus }
        ensures { result ≡ whole_of self.now.table class }
    {
        self.finer_count(class) * u64::from(class.modulus)
    }

    // From this index on every sample in a sum that reaches back so many values has an index of 0 or more.
    fn needed(&self, reach: u128) -> u128
        requires { reach ≤ 2 ^ 64 }
        ensures needed { result ≡ needed_for self.now.table self.now.longest reach }
        ensures near { result ≤ length (rows_of self.now.table) * 2 ^ 64 + 2 ^ 65 }
    {
        let rounds = u128::from(self.longest / self.table.step()) + 1;
        reach + u128::from(self.table.classes()) * rounds
    }
}

// How many values a sum reaches back.
fn reach_of(sum: &WeightedSum) -> u128
    ensures reach { result ≡ length (weights_of sum.now) }
    ensures most { result ≤ 2 ^ 64 }
{
    let count = sum.weights.len();
    if count == 0 {
        0
    } else {
        u128::from(sum.weights[count - 1].behind) + 1
    }
}

// The first index of a finer class.
fn first_of(class: Class, finer: u64) -> u64
    requires class { class.residue < class.modulus }
    requires few { finer < 2 ^ 32 }
    ensures { result ≡ class.residue + finer * class.modulus }
{
    u64::from(class.residue) + finer * u64::from(class.modulus)
}

// The end that is further out.
fn further(best: FinerEnd, next: FinerEnd, high: bool) -> FinerEnd
    ensures chosen { ((result.finer ≡ best.finer) × (result.value ≡ best.value)) ⊎ ((result.finer ≡ next.finer) × (result.value ≡ next.value)) }
    ensures best { IsFurther high best.value result.value }
    ensures next { IsFurther high next.value result.value }
{
    if high {
        if best.value < next.value { next } else { best }
    } else {
        if next.value < best.value { next } else { best }
    }
}

// The first index that is enough, so many whole rounds after the first one.
fn past(first: u128, whole: u128, needed: u128) -> u128
    requires first { first < whole }
    requires room { needed + whole < 2 ^ 128 }
    ensures { IsPast first whole needed result }
{
    if needed <= first {
        first
    } else {
        first + (needed - first + (whole - 1)) / whole * whole
    }
}
