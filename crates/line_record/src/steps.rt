//! The steps of a record over one log: open marks, single changes and closed groups.

use crate::edited_line::EditedLine;
use crate::log::TextLog;
use crate::report::Report;
use line_buffer::OutOfMemory;
use std::alloc::Global;
use std::marker::Model;

/// The changes from `first` up to `last`, which are undone together. A step without changes is the
/// open mark of a group. Changes are joined only to a step of one change that isn't closed.
#[derive(Clone, Copy, Debug)]
pub struct Step {
    pub closed: bool,
    pub first: usize,
    pub last: usize,
}

impl Step {
    ghost use Rattle.std.specs.Prelude.{◌≡◌, ◌-◌, ◌≤◌, ◌==◌, ◌&&◌, not};

    /// Whether the step is one change that others may join.
    fn is_lone(&self) -> bool
        requires { self.now.first ≤ self.now.last }
        ensures { result ≡ (not self.now.closed && (self.now.last - self.now.first == 1)) }
    {
        !self.closed && self.last - self.first == 1
    }
}

/// Steps, the oldest first, with their changes.
#[derive(Debug, Drop)]
pub struct Steps {
    log: TextLog,
    steps: Vec<Step>,
}

impl Model for Steps {
    ghost use Rattle.std.specs.Prelude.{List};
    ghost use Rattle.line_record.specs.Items.{Item};

    ghost Value = { List Item };

    ghost use Rattle.line_record.specs.Log.{items_in, AreSteps};

    ghost view = { λ s. items_in s.log s.steps.items };

    ghost invariant = { λ s. AreSteps s.log s.steps.items };
}

impl Steps {
    ghost use Rattle.std.specs.Prelude.{◌≡◌, ◌+◌, ◌<◌, ◌≤◌, ◌++◌, true, [], ◌∷◌, length, take, drop, reverse, slice_get, slice_index_or, IfOk, OnOk, OnErr, Some, is_some, option_map, option_copied};
    ghost use Rattle.line_record.specs.Change.{AllStandIn, AllFitIn};
    ghost use Rattle.line_record.specs.Held.{change_of};
    ghost use Rattle.line_record.specs.Items.{changes_of, is_step_item, changes_of_all, group_of, join_of_items, items_with_event, TakesBack, MakesAnew};
    ghost use Rattle.line_record.specs.Items.Item.{Open, Lone};
    ghost use Rattle.line_record.specs.Log.{JoinedIn, event_of, is_open, item_inserted};

    pub fn new(alloc: Global) -> Self
        ensures { result ≡ [] }
    {
        Steps {
            log: TextLog::new(alloc),
            steps: Vec::new(alloc),
        }
    }

    /// A copy of the steps, in memory of its own.
    pub fn try_clone(&self, alloc: Global) -> Result<Self, OutOfMemory>
        ensures { IfOk result (λ s. s ≡ self.now) }
    {
        let log = self.log.try_clone(alloc)?;
        let mut steps = Vec::with_capacity(alloc, self.steps.len())?;
        steps.extend_from_slice(&self.steps)?;
        Ok(Steps { log, steps })
    }

    /// The number of steps and open marks.
    pub fn len(&self) -> usize
        ensures { result ≡ length self.now }
    {
        self.steps.len()
    }

    /// Keeps the first `n` steps.
    pub fn truncate(&mut self, n: usize)
        ensures { self.new ≡ take n self.old }
    {
        let end = place(&self.steps, n, self.log.len());
        self.log.truncate(end);
        self.steps.truncate(n);
    }

    /// Keeps the first `n` steps, and adds an open mark.
    pub fn open(&mut self, n: usize) -> Result<(), OutOfMemory>
        ensures ok { OnOk result (self.new ≡ take n self.old ++ Open ∷ []) }
        ensures kept { OnErr result (self.new ≡ self.old) }
    {
        self.steps.reserve(1)?;
        let end = place(&self.steps, n, self.log.len());
        self.log.truncate(end);
        self.steps.truncate(n);
        self.steps.push(Step {
            closed: false,
            first: end,
            last: end,
        })?;
        Ok(())
    }

    /// Keeps the first `n` steps, and adds a reported change, joined to the last step if the two
    /// can be joined.
    pub fn note(&mut self, n: usize, report: Report<'_>) -> Result<(), OutOfMemory>
        requires { n ≤ length self.old }
        ensures ok { OnOk result (reverse self.new ≡ items_with_event (event_of report.entry)
            (reverse (take n self.old))) }
        ensures kept { OnErr result (self.new ≡ self.old) }
        ensures some { OnErr result (is_some (change_of (event_of report.entry)) ≡ true) }
    {
        if report.is_empty() {
            self.truncate(n);
            return Ok(());
        }
        if n > 0 && self.join(n - 1, report)? {
            return Ok(());
        }
        self.add(n, report)
    }

    /// Keeps the first `n` steps, and adds a reported change as a step of its own.
    fn add(&mut self, n: usize, report: Report<'_>) -> Result<(), OutOfMemory>
        requires { is_some (change_of (event_of report)) ≡ true }
        ensures ok { OnOk result (option_map (λ c. take n self.old ++ Lone c ∷ [])
            (change_of (event_of report.entry)) ≡ Some self.new) }
        ensures kept { OnErr result (self.new ≡ self.old) }
    {
        self.steps.reserve(1)?;
        let first = place(&self.steps, n, self.log.len());
        let mut room = [0; 4];
        let added = report.added(&mut room);
        self.log
            .record(first, report.kind(), report.at(), report.removed(), added)?;
        self.steps.truncate(n);
        self.steps.push(Step {
            closed: false,
            first,
            last: self.log.len(),
        })?;
        Ok(())
    }

    /// Keeps the steps up to that of an index, and joins a reported change to that one. Returns
    /// false if it can't be joined.
    fn join(&mut self, index: usize, report: Report<'_>) -> Result<bool, OutOfMemory>
        requires { index < length self.old }
        ensures answer { IfOk result (λ joined. joined ≡ is_some
            (join_of_items (event_of report.entry) (reverse (take (index + 1) self.old)))) }
        ensures value { OnOk result (JoinedIn
            (join_of_items (event_of report.entry) (reverse (take (index + 1) self.old)))
            self.old self.new) }
        ensures kept { OnErr result (self.new ≡ self.old) }
    {
        let step = self.steps[index];
        if !step.is_lone() {
            return Ok(false);
        }
        if !self.log.join(step.first, report)? {
            return Ok(false);
        }
        self.steps.truncate(index + 1);
        Ok(true)
    }

    /// Keeps the first `n` steps, and makes those from `index` on one closed step. Steps without
    /// changes are dropped instead. Returns whether there is such a closed step.
    pub fn close(&mut self, n: usize, index: usize) -> bool
        requires order { index < n }
        requires inside { n ≤ length self.old }
        ensures answer { result ≡ is_some
            (slice_get (changes_of_all (drop index (take n self.old))) 0) }
        ensures items { reverse self.new ≡ group_of (changes_of_all (drop index (take n self.old)))
            (reverse (take index self.old)) }
    {
        let (first, last) = (self.steps[index].first, self.steps[n - 1].last);
        self.log.truncate(last);
        if first == last {
            self.steps.truncate(index);
            return false;
        }
        let closed = true;
        self.steps[index] = Step {
            closed,
            first,
            last,
        };
        self.steps.truncate(index + 1);
        true
    }

    /// Whether the step of an index is the open mark of a group.
    pub fn is_mark(&self, index: usize) -> bool
        requires { index < length self.now }
        ensures { result ≡ is_open (slice_index_or self.now index Open) }
    {
        let step = self.steps[index];
        step.first == step.last
    }

    /// The number of changes of the steps from `first` up to `end`.
    pub fn change_count(&self, first: usize, end: usize) -> usize
        ensures { result ≡ length (changes_of_all (drop first (take end self.now))) }
    {
        let end = end.min(self.len());
        if first >= end {
            return 0;
        }
        self.steps[end - 1].last - self.steps[first].first
    }

    /// The text that the newest change of a step inserted, if it inserted one.
    pub fn inserted(&self, index: usize) -> Option<&str>
        requires { index < length self.now }
        ensures { option_copied result ≡ item_inserted (slice_index_or self.now index Open) }
    {
        let step = self.steps[index];
        if step.first == step.last {
            return None;
        }
        self.log.inserted(step.last - 1)
    }

    /// Undoes a step's changes, the newest first. After an error some of them are undone, the
    /// newest ones.
    pub fn take_back<L: EditedLine>(
        &self,
        alloc: Global,
        index: usize,
        line: &mut L,
    ) -> Result<(), OutOfMemory>
        requires inside { index < length self.now }
        requires stand { AllStandIn (changes_of (slice_index_or self.now index Open))
            (L.value line.old).text }
        ensures { TakesBack (changes_of (slice_index_or self.now index Open)) (L.value line.old)
            (L.value line.new) result }
    {
        let step = self.steps[index];
        self.log.take_back(alloc, step.first, step.last, line)
    }

    /// Redoes a step's changes, the oldest first. After an error some of them are redone, the
    /// oldest ones.
    pub fn make_anew<L: EditedLine>(
        &self,
        alloc: Global,
        index: usize,
        line: &mut L,
    ) -> Result<(), OutOfMemory>
        requires inside { index < length self.now }
        requires fit { AllFitIn (changes_of (slice_index_or self.now index Open))
            (L.value line.old).text }
        ensures { MakesAnew (changes_of (slice_index_or self.now index Open)) (L.value line.old)
            (L.value line.new) result }
    {
        let step = self.steps[index];
        self.log.make_anew(alloc, step.first, step.last, line)
    }
}

ghost use Rattle.std.specs.Prelude.{◌≡◌, slice_get, unwrap_or, option_map};

/// Where the step of an index begins; the end of all steps if there is none.
fn place(steps: &[Step], n: usize, end: usize) -> usize
    ensures { result ≡ unwrap_or (option_map (λ s. s.first) (slice_get steps.now n)) end }
{
    match steps.get(n) {
        Some(step) => step.first,
        None => end,
    }
}
