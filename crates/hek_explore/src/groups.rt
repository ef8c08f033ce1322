//! The groups of keys: versions of one group are numbered in the order in which they were made.
ghost use Rattle.std.specs.Prelude.{◌≡◌, IfOk};
ghost use Rattle.hek_rules.specs.Listing.{is_among};
ghost use Rattle.hek_explore.specs.Groups.{group_by, groups_of, scanned_in};

use hek_rules::{Event, NoMemory, Schedule};
use std::alloc::Global;
use std::marker::Model;

/// Up to how many rows each key is a group of its own: finding numbers by keys takes the square of the versions.
const FEW_ROWS: usize = 64;

/// The group of each key. The keys of a bucket are of one group if a step scans it, and in a schedule of many rows;
/// otherwise each key is a group of its own.
#[derive(Drop)]
pub(crate) struct Groups {
    buckets: u64,
    few: bool,
    scanned: Vec<u64>,
}

impl Model for Groups {
    ghost use Rattle.hek_explore.specs.Groups.{Grouping};

    ghost Value = { Grouping };

    ghost view = { λ g. record { buckets = g.buckets; few = g.few; scanned = g.scanned.items } };
}

impl Groups {
    /// The groups of the keys of a schedule.
    pub(crate) fn of(alloc: Global, schedule: &Schedule) -> Result<Groups, NoMemory>
        ensures { IfOk result (λ groups. groups ≡ groups_of schedule.now) }
    {
        Ok(Groups {
            buckets: schedule.buckets(),
            few: schedule.row_count() <= FEW_ROWS,
            scanned: scanned_in(alloc, schedule.steps())?,
        })
    }

    /// How many buckets there are.
    pub(crate) fn buckets(&self) -> u64
        ensures { result ≡ self.now.buckets }
    {
        self.buckets
    }

    /// Whether a key is a group of its own if no step scans its bucket.
    pub(crate) fn are_keys(&self) -> bool
        ensures { result ≡ self.now.few }
    {
        self.few
    }

    /// The group of a key; None without buckets.
    pub(crate) fn group_of(&self, key: u64) -> Option<u64>
        ensures { IfSome result (λ group. group ≡ group_by self.now key) }
    {
        let bucket = key.checked_rem(self.buckets)?;
        if self.few && !contains(self.scanned.as_slice(), bucket) {
            Some(key)
        } else {
            Some(bucket)
        }
    }
}

ghost use Rattle.std.specs.Prelude.{IfSome};

/// A schedule with the groups of its keys. Contracts see the schedule.
#[derive(Drop)]
pub(crate) struct Grouped<'a> {
    schedule: &'a Schedule,
    groups: Groups,
}

impl<'a> Model for Grouped<'a> {
    ghost use Rattle.std.specs.Prelude.{◌≡◌};
    ghost use Rattle.hek_rules.specs.Plan.{Plan};
    ghost use Rattle.hek_explore.specs.Groups.{groups_of};

    ghost Value = { Plan };

    ghost view = { λ g. g.schedule.now };

    ghost invariant = { λ g. g.groups ≡ groups_of g.schedule.now };
}

impl<'a> Grouped<'a> {
    /// A schedule with the groups of its keys.
    pub(crate) fn of(alloc: Global, schedule: &'a Schedule) -> Result<Grouped<'a>, NoMemory>
        ensures { IfOk result (λ grouped. grouped ≡ schedule.now) }
    {
        let groups = Groups::of(alloc, schedule)?;
        Ok(Grouped { schedule, groups })
    }

    /// The schedule.
    pub(crate) fn schedule(&self) -> &'a Schedule
        ensures { result.now ≡ self.now }
    {
        self.schedule
    }

    /// The groups of the schedule's keys.
    pub(crate) fn groups(&self) -> &Groups
        ensures { result.now ≡ groups_of self.now }
    {
        &self.groups
    }
}

/// The buckets that these events scan.
fn scanned_in(alloc: Global, steps: &[Event]) -> Result<Vec<u64>, NoMemory>
    ensures { IfOk result (λ buckets. buckets.items ≡ scanned_in steps.now) }
{
    let mut buckets = Vec::new(alloc);
    let mut rest = steps;
    while let Some((step, later)) = rest.split_first() {
        if let Event::Scan(_, bucket) = step {
            buckets.push(*bucket)?;
        }
        rest = later;
    }
    Ok(buckets)
}

/// Whether the number is one of these.
fn contains(numbers: &[u64], wanted: u64) -> bool
    ensures { result ≡ is_among numbers.now wanted }
{
    let mut rest = numbers;
    while let Some((number, later)) = rest.split_first() {
        if *number == wanted {
            return true;
        }
        rest = later;
    }
    false
}
