//! Kills.
ghost use Rattle.std.specs.Prelude.{◌≡◌, ◌≤◌, true, length, is_some, OnOk, OnErr};
ghost use Rattle.line_buffer.specs.Range.{FindsSpan, range_of, kill_events};
ghost use Rattle.line_record.specs.Items.{ItemsStand};
ghost use Rattle.line_record.specs.Together.{SameNames};
ghost use Rattle.line_record.specs.Ring.{ring_all};
ghost use Rattle.line_edits.specs.Edits.{kill_steps, TookOrNot};
ghost use Rattle.line_edits.specs.WriteSteps.{Edits, Rewrites};

use crate::recorded_line::RecordedLine;
use line_buffer::{LineBuffer, Movement, OutOfMemory, TextSpan};
use line_record::{Changeset, Joined, KillRing};
use std::alloc::Global;

#[tactic(auto, using(line_record::proofs::JoinedLaws::joined_names, line_record::proofs::JoinedLaws::joined_names_refused))]
fn kill_told(
    alloc: Global,
    line: &mut LineBuffer,
    both: &mut Joined<'_, KillRing, Changeset>,
    movement: &Movement,
    span: Option<TextSpan>,
) -> Result<bool, OutOfMemory>
    requires stand { ItemsStand both.old.second.now line.old.text }
    requires span { FindsSpan (range_of movement.now line.old) line.old.text span }
    ensures rewrites { Rewrites (kill_steps movement.now line.old)
        line.old line.new both.old.second.now both.new.second.now result }
    ensures ring { OnOk result
        (both.new.first.now ≡ ring_all (kill_events movement.now line.old) both.old.first.now) }
    ensures refused { OnErr result (is_some (range_of movement.now line.old) ≡ true) }
    ensures refused_ring { OnErr result
        (TookOrNot movement.now line.old both.old.first.now both.new.first.now) }
    ensures names { SameNames both.old.first both.old.second both.new.first both.new.second }
    ensures kept { OnErr result (line.new ≡ line.old) }
    ensures shrinks { length line.new.text ≤ length line.old.text }
{
    let _text = line.as_str();
    Ok(line.kill_range(alloc, movement, span, both)?)
}

impl RecordedLine {
    /// Kills what a movement names: the ring is notified first, the record last. Returns whether
    /// the movement names anything.
    pub fn kill(
        &mut self,
        alloc: Global,
        ring: &mut KillRing,
        movement: &Movement,
    ) -> Result<bool, OutOfMemory>
        ensures writes { Edits (kill_steps movement.now self.old.line) self.old self.new result }
        ensures ring { OnOk result
            (ring.new ≡ ring_all (kill_events movement.now self.old.line) ring.old) }
        ensures refused { OnErr result (is_some (range_of movement.now self.old.line) ≡ true) }
        ensures refused_ring { OnErr result
            (TookOrNot movement.now self.old.line ring.old ring.new) }
        ensures shrinks { length self.new.line.text ≤ length self.old.line.text }
    {
        let span = self.line.range_of(movement);
        self.kill_range(alloc, ring, movement, span)
    }

    /// `kill` of the range that the movement names, if it is known already.
    pub fn kill_range(
        &mut self,
        alloc: Global,
        ring: &mut KillRing,
        movement: &Movement,
        span: Option<TextSpan>,
    ) -> Result<bool, OutOfMemory>
        requires { FindsSpan (range_of movement.now self.old.line) self.old.line.text span }
        ensures writes { Edits (kill_steps movement.now self.old.line) self.old self.new result }
        ensures ring { OnOk result
            (ring.new ≡ ring_all (kill_events movement.now self.old.line) ring.old) }
        ensures refused { OnErr result (is_some (range_of movement.now self.old.line) ≡ true) }
        ensures refused_ring { OnErr result
            (TookOrNot movement.now self.old.line ring.old ring.new) }
        ensures shrinks { length self.new.line.text ≤ length self.old.line.text }
    {
        let plain = match span {
            Some(span) => self.is_plain_without(span.from, span.upto),
            None => self.plain,
        };
        let mut both = Joined {
            first: ring,
            second: &mut self.changes,
        };
        let killed = kill_told(alloc, &mut self.line, &mut both, movement, span);
        if killed.is_ok() {
            self.plain = plain;
        }
        killed
    }
}
