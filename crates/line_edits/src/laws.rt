//! Laws of failed edits. Each is the contract of a function that does nothing.
ghost use Rattle.line_edits.specs.Edits.{RefusedChangesLeaveAll, RefusedGroupsStayOpen};

/// An edit of one change that fails leaves line and record as they were.
pub fn refused_changes()
    ensures { RefusedChangesLeaveAll }
{}

/// A group that fails leaves all as it was, or leaves its mark open and what the failed edit left.
pub fn refused_groups()
    ensures { RefusedGroupsStayOpen }
{}
