//! Ranges over the streams that a prefix of a chain makes of samples.

ghost use Rattle.std.specs.Prelude.{◌≡◌, ◌+◌, ◌*◌, ◌^◌, ◌<◌, ◌≤◌, unsigned_abs, ◌+ℤ◌, ◌*ℤ◌};
ghost use Rattle.std.specs.Int.{int_min, int_max};
ghost use Rattle.mr_values.specs.Timing.{least_term};
ghost use Rattle.width_extreme.specs.Walk.{transform_of, IsLawful, IsLongest, HasTermRoom};
ghost use Rattle.width_extreme.specs.Prefix.{IsStream};
ghost use Rattle.stage_law.specs.Streams.{AreCausal};

use impulse_phase::Response;
use mr_values::{Element, Memory, power};
use plan_check::gcd;
use stage_law::{Class, Range, Ranges, WeightedSum};
use std::alloc::Global;

/// Knows the streams that a prefix without roundings makes of samples of a width.
#[derive(Drop)]
pub struct PrefixRanges {
    /// The responses of the prefix.
    pub(crate) table: Response,
    /// The width of the samples in bits.
    pub(crate) width: u8,
    /// No row of the table has more weights.
    pub(crate) longest: u64,
    ghost some: { 1 ≤ width },
    ghost narrow: { width ≤ 64 },
    ghost lawful: { IsLawful table },
    ghost long: { IsLongest table longest },
    ghost causal: { AreCausal (IsStream (transform_of table) width) },
}

// The index some values before another, as one of the first round, and the newest sample of the other as that many rounds later.
#[derive(Clone, Copy)]
pub(crate) struct Entry {
    pub(crate) back: u128,
    pub(crate) class: u64,
    pub(crate) late: u128,
}

impl PrefixRanges {
    ghost use Rattle.std.specs.Prelude.{All, IfOk, length, drop, get_or, pos};
    ghost use Rattle.mr_values.specs.Sequence.{weighted_sum};
    ghost use Rattle.mr_values.specs.Timing.{low_end};
    ghost use Rattle.mr_values.specs.Value.{IsWithinLimits, chain};
    ghost use Rattle.impulse_phase.specs.Response.{AreLinear};
    ghost use Rattle.impulse_phase.specs.Reading.{silent, rows_of, AreModest, IsResponseOf};
    ghost use Rattle.stage_law.specs.Rising.{behind_at, factors_in};
    ghost use Rattle.stage_law.specs.Weights.{weights_of};
    ghost use Rattle.width_extreme.specs.Prefix.{least_sample, greatest_sample};
    ghost use Rattle.width_extreme.specs.Walk.{delay_at, weight_back, weights_at, IsEntry, HasRoomLeft, HasFormRoom};

    /// The ranges over the streams that the elements make of samples of a width. Fails only for want of memory.
    pub fn new(alloc: Global, width: u8, elements: &[Element]) -> Result<PrefixRanges, Memory>
        requires some { 1 ≤ width }
        requires narrow { width ≤ 64 }
        requires linear { AreLinear elements.now }
        requires limits { All IsWithinLimits elements.now }
        requires modest { AreModest elements.now }
        ensures streams { IfOk result (λ ranges. transform_of ranges.table ≡ chain elements.now) }
        ensures width { IfOk result (λ ranges. ranges.width ≡ width) }
        ensures table { IfOk result (λ ranges. IsResponseOf elements.now ranges.table) }
    {
        let table = Response::of(alloc, elements)?;
        let longest = longest(&table);
        Ok(PrefixRanges {
            table,
            width,
            longest,
        })
    }

    /// The ends of the sum over the samples, at an index of the first round.
    pub(crate) fn ends(&self, index: u64, sum: &WeightedSum) -> Range
        requires index { index < length (rows_of self.now.table) }
        requires room { HasFormRoom self.now.table self.now.width (weights_of sum.now) }
        ensures low { result.lo ≡ low_end (weights_at self.now.table (weights_of sum.now) index) (least_sample self.now.width) (greatest_sample self.now.width) }
        ensures high { result.hi ≡ low_end (weights_at self.now.table (weights_of sum.now) index) (greatest_sample self.now.width) (least_sample self.now.width) }
    {
        if sum.weights.len() == 1 {
            let own = sum.weights[0];
            if own.factor != 0 {
                return self.single_ends(index, own);
            }
        }
        self.walked_ends(index, sum)
    }

    // The ends of the sum, place by place.
    fn walked_ends(&self, index: u64, sum: &WeightedSum) -> Range
        requires index { index < length (rows_of self.now.table) }
        requires room { HasFormRoom self.now.table self.now.width (weights_of sum.now) }
        ensures low { result.lo ≡ low_end (weights_at self.now.table (weights_of sum.now) index) (least_sample self.now.width) (greatest_sample self.now.width) }
        ensures high { result.hi ≡ low_end (weights_at self.now.table (weights_of sum.now) index) (greatest_sample self.now.width) (least_sample self.now.width) }
    {
        let mut range = Range { lo: 0, hi: 0 };
        let mut place = 0u128;
        let mut start = 0usize;
        let mut entry = self.first_entry(index, 0);
        'places: while start < sum.weights.len() {
            entry = self.entry_at(index, entry, sum.weights[start].behind);
            let delay = self.delay(index, entry);
            if delay + u128::from(self.longest) <= place {
                start += 1;
            } else {
                let at = place.max(delay);
                let weight = self.weight_at(index, entry, sum, start, at);
                range = self.with_weight(range, weight);
                place = at + 1;
            }
        }
        range
    }

    // The ends with one more sample, which stands at the end of its width that its weight asks for.
    fn with_weight(&self, range: Range, weight: i128) -> Range
        requires low { HasTermRoom range.lo (least_term (least_sample self.now.width) (greatest_sample self.now.width) weight) }
        requires high { HasTermRoom range.hi (least_term (greatest_sample self.now.width) (least_sample self.now.width) weight) }
        ensures low { result.lo ≡ range.lo +ℤ least_term (least_sample self.now.width) (greatest_sample self.now.width) weight }
        ensures high { result.hi ≡ range.hi +ℤ least_term (greatest_sample self.now.width) (least_sample self.now.width) weight }
    {
        Range {
            lo: with_end(range.lo, weight, self.least(), self.greatest()),
            hi: with_end(range.hi, weight, self.greatest(), self.least()),
        }
    }

    // The least sample.
    pub(crate) fn least(&self) -> i128
        ensures { result ≡ least_sample self.now.width }
    {
        -power(self.width - 1)
    }

    // The greatest sample.
    pub(crate) fn greatest(&self) -> i128
        ensures { result ≡ greatest_sample self.now.width }
    {
        power(self.width - 1) - 1
    }

    // The weight of the sample `place` before the newest one, in what the sum has from its weight number `start` on.
    pub(crate) fn weight_at(
        &self,
        index: u64,
        entry: Entry,
        sum: &WeightedSum,
        start: usize,
        place: u128,
    ) -> i128
        requires index { index < length (rows_of self.now.table) }
        requires entry { IsEntry self.now.table index entry.back entry.class entry.late }
        requires start { start ≤ length sum.now.weights.items }
        requires room { HasRoomLeft self.now.table 0 (drop start (factors_in sum.now.weights.items)) }
        ensures { result ≡ weighted_sum (drop start (factors_in sum.now.weights.items)) (λ k. weight_back self.now.table index place (behind_at sum.now.weights.items (start + k))) }
    {
        let mut weight = 0i128;
        let mut entry = entry;
        for at in start..sum.weights.len() {
            let own = sum.weights[at];
            entry = self.entry_at(index, entry, own.behind);
            let delay = self.delay(index, entry);
            if place < delay {
                return weight;
            }
            weight = with_product(
                weight,
                own.factor,
                self.row_weight(entry.class, place - delay),
            );
        }
        weight
    }

    // The weight of a row at a place; 0 past its end.
    fn row_weight(&self, class: u64, place: u128) -> i128
        requires { class < length (rows_of self.now.table) }
        ensures { result ≡ get_or (get_or (rows_of self.now.table) class silent).weights place (pos 0) }
    {
        let row = self.table.phase(class);
        if place < row.len() as u128 {
            row[place as usize]
        } else {
            0
        }
    }

    // How many samples the newest one of the entry lies behind that of the index.
    pub(crate) fn delay(&self, index: u64, entry: Entry) -> u128
        requires index { index < length (rows_of self.now.table) }
        requires entry { IsEntry self.now.table index entry.back entry.class entry.late }
        ensures delay { result ≡ delay_at self.now.table index entry.back }
        ensures most { result ≤ entry.late }
    {
        entry
            .late
            .saturating_sub(u128::from(self.table.newest(entry.class)))
    }

    // The index so many values before.
    pub(crate) fn first_entry(&self, index: u64, back: u64) -> Entry
        requires { index < length (rows_of self.now.table) }
        ensures entry { IsEntry self.now.table index result.back result.class result.late }
        ensures back { result.back ≡ back }
    {
        let classes = self.table.classes();
        let step = u128::from(self.table.step());
        let newest = u128::from(self.table.newest(index));
        let rest = back % classes;
        let rounds = u128::from(back / classes);
        if rest <= index {
            Entry {
                back: u128::from(back),
                class: index - rest,
                late: newest + rounds * step,
            }
        } else {
            Entry {
                back: u128::from(back),
                class: index + (classes - rest),
                late: newest + (rounds + 1) * step,
            }
        }
    }

    // The index so many values before, from another.
    pub(crate) fn entry_at(&self, index: u64, entry: Entry, behind: u64) -> Entry
        requires index { index < length (rows_of self.now.table) }
        requires entry { IsEntry self.now.table index entry.back entry.class entry.late }
        ensures entry { IsEntry self.now.table index result.back result.class result.late }
        ensures back { result.back ≡ behind }
    {
        let back = u128::from(behind);
        if entry.back == back {
            entry
        } else if back > 0 && entry.back == back - 1 {
            self.next_entry(index, entry)
        } else {
            self.first_entry(index, behind)
        }
    }

    // The index one value before that of the entry.
    pub(crate) fn next_entry(&self, index: u64, entry: Entry) -> Entry
        requires index { index < length (rows_of self.now.table) }
        requires entry { IsEntry self.now.table index entry.back entry.class entry.late }
        requires near { entry.back < 2 ^ 66 }
        ensures entry { IsEntry self.now.table index result.back result.class result.late }
        ensures back { result.back ≡ entry.back + 1 }
    {
        if entry.class > 0 {
            Entry {
                back: entry.back + 1,
                class: entry.class - 1,
                late: entry.late,
            }
        } else {
            Entry {
                back: entry.back + 1,
                class: self.table.classes() - 1,
                late: entry.late + u128::from(self.table.step()),
            }
        }
    }
}

impl Ranges for PrefixRanges {
    ghost streams = { λ ranges. IsStream (transform_of ranges.table) ranges.width };

    ghost causal = { λ ranges. ranges.causal };

    fn range(&self, sum: &WeightedSum, class: Class) -> Range {
        let classes = self.table.classes();
        let modulus = u64::from(class.modulus);
        let residue = u64::from(class.residue);
        let mut range = self.ends(residue % classes, sum);
        for finer in 1..classes / gcd(classes, modulus) {
            let index = (residue + finer * modulus) % classes;
            range = wider(range, self.ends(index, sum));
        }
        range
    }
}

// The length of the longest row.
fn longest(table: &Response) -> u64
    ensures { IsLongest table.now result }
{
    let mut longest = 0u64;
    for class in 0..table.classes() {
        longest = longest.max(table.phase(class).len() as u64);
    }
    longest
}

// The range that has both.
fn wider(range: Range, other: Range) -> Range
    ensures low { result.lo ≡ int_min other.lo range.lo }
    ensures high { result.hi ≡ int_max other.hi range.hi }
{
    Range {
        lo: other.lo.min(range.lo),
        hi: other.hi.max(range.hi),
    }
}

// A sum with the least product of a weight with a number between two.
fn with_end(sum: i128, weight: i128, low: i128, high: i128) -> i128
    requires { HasTermRoom sum (least_term low high weight) }
    ensures { result ≡ sum +ℤ least_term low high weight }
{
    with_term(sum, least_product(weight, low, high))
}

// The least product of a factor with a number between two.
pub(crate) fn least_product(factor: i128, low: i128, high: i128) -> i128
    requires { unsigned_abs (least_term low high factor) ≤ 2 ^ 126 }
    ensures { result ≡ least_term low high factor }
{
    if factor >= 0 {
        product(factor, low)
    } else {
        product(factor, high)
    }
}

// The product of two numbers.
pub(crate) fn product(a: i128, b: i128) -> i128
    requires { unsigned_abs (a *ℤ b) ≤ 2 ^ 126 }
    ensures { result ≡ a *ℤ b }
{
    a * b
}

// A sum with one more term.
pub(crate) fn with_term(sum: i128, term: i128) -> i128
    requires { unsigned_abs (sum +ℤ term) ≤ 2 ^ 126 }
    ensures { result ≡ sum +ℤ term }
{
    sum + term
}

// `sum + factor * weight`.
fn with_product(sum: i128, factor: i128, weight: i128) -> i128
    requires { unsigned_abs sum + unsigned_abs factor * unsigned_abs weight ≤ 2 ^ 126 }
    ensures { result ≡ sum +ℤ factor *ℤ weight }
{
    sum + factor * weight
}
