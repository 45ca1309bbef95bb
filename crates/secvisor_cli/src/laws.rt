// Laws of the definitions alone. A law takes no argument and does nothing; its clause is the theorem.

ghost use Rattle.std.specs.Prelude.{Ok};
ghost use Rattle.cli_plans.specs.Commands.{ConvertSplit};
ghost use Rattle.sv_types.specs.declared.status.Status.{Status};
ghost use Rattle.secvisor_cli.specs.Answers.{Headline, Outside};
ghost use Rattle.cli_plans.specs.CommandLine.{Convert};
ghost use Rattle.secvisor_cli.specs.Converted.{IsConverted};
ghost use Rattle.secvisor_cli.specs.DueIn.{ComesToDue, MakeEnds, RunEnds};
ghost use Rattle.cli_plans.specs.Plans.{plan_of};

/// Where `convert` ends with status 0, the policy that its name holds was saved with its entries bound to their places in the
/// kernel that its name holds, each to an address in the kernel's text, and its line was written.
pub fn law_converted()
    ensures { (words : ConvertSplit) (old new : Outside) → Headline (plan_of (Ok (Convert words))) old new Status.Done → IsConverted words old new }
{}

/// In files that tell what they hold, what is due at the end of a plan is what they hold asks for, where no read failed.
pub fn law_due()
    ensures due { ComesToDue }
{}

/// Of a command that is due a run in such files nothing is refused: it ends with the status of the run's verdict, or a write
/// or a save failed, or memory ran out.
pub fn law_run_ends()
    ensures { RunEnds }
{}

/// Of a command that is due a policy in such files, `measure` or `convert`, nothing is refused: it ends with status 0, or a write
/// or the save failed, or memory ran out.
pub fn law_make_ends()
    ensures { MakeEnds }
{}
