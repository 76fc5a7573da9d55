//! Laws of shares: the output for an input, cut after a line feed, is the output for its parts, one after
//! the other.
ghost use Rattle.json_lines.specs.Shares.{LinesOfShares, OutputOfShares};

/// The lines of bytes that end with a line feed, followed by others, are their own and then those of
/// the others.
pub fn lines_of_shares()
    ensures { LinesOfShares }
{}

/// The output for such bytes, followed by others, is the output for each, one after the other, if the
/// run goes on after a line that is rejected, or none is.
pub fn output_of_shares()
    ensures { OutputOfShares }
{}
