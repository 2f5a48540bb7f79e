//! What holds of the lines of all shares.
ghost use Rattle.count_lines.specs.Sharing.{EachLineIsShared, SharingKeepsTheTotals};

/// The lines of the opening and of each caller are as many as all lines, and give each counter what all lines give it.
pub fn sharing()
    ensures each { EachLineIsShared }
    ensures totals { SharingKeepsTheTotals }
{}
