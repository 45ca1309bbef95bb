// Laws of the definitions alone. A law takes no argument and does nothing; its clause is the theorem.
ghost use Rattle.cli_snap.specs.Answers.{ShowEnds};

/// Where a name holds a snapshot and no read fails, `show` ends with status 0; or a write failed, which is counted; or memory ran
/// out.
pub fn law_show_ends()
    ensures { ShowEnds }
{}
